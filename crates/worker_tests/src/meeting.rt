//! A gate at which workers wait until all have begun, as long as it takes and no longer than a bound.

use edge::{Gate, Point};
use std::sync::atomic::{AtomicU64, Ordering};
use std::thread;

// How often a worker looks whether all have begun.
const MOST_LOOKS: u64 = 10_000_000;

/// How many workers there are, how many of them have begun, how many have met all others at their start, and how many are
/// done.
#[derive(Drop)]
pub(crate) struct Meeting {
    workers: u64,
    begun: AtomicU64,
    met: AtomicU64,
    done: AtomicU64,
}

impl Meeting {
    pub(crate) fn of(workers: u64) -> Meeting {
        Meeting {
            workers,
            begun: AtomicU64::new(0),
            met: AtomicU64::new(0),
            done: AtomicU64::new(0),
        }
    }

    /// How many workers have met all others, and how many are done: all have met only where all ran at the same time, since
    /// of workers that run one after the other the first meets nobody.
    pub(crate) fn met(&self) -> (u64, u64) {
        (
            self.met.load(Ordering::SeqCst),
            self.done.load(Ordering::SeqCst),
        )
    }

    fn meet(&self) {
        let _ = self.begun.fetch_add(1, Ordering::SeqCst);
        for _look in 0..MOST_LOOKS {
            if self.begun.load(Ordering::SeqCst) == self.workers {
                let _ = self.met.fetch_add(1, Ordering::SeqCst);
                return;
            }
            thread::yield_now();
        }
    }

    fn leave(&self) {
        let _ = self.done.fetch_add(1, Ordering::SeqCst);
    }
}

impl Gate for Meeting {
    fn pass(&self, _worker: u32, at: Point) {
        match at {
            Point::Start => self.meet(),
            Point::Turn => {}
            Point::Done => self.leave(),
        }
    }
}
