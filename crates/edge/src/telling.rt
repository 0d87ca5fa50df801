//! A line on the error stream that says how far workers are. The main type is `Progress`.

use crate::gates::{Gate, Point};
use std::rt::Clock;
use std::sync::atomic::{AtomicU64, Ordering};
use std::time::Instant;

/// A gate that lets everyone pass at once, and keeps one line on the error stream of a runtime, for a terminal: the
/// seconds since it was made, how often workers passed between two turns, and how many are at work. A worker that passes
/// between two turns writes the line where a second has come in which nobody did; so there is none in the first second,
/// and at most one in each. The last worker at work wipes it when it is done. No clause says so.
#[derive(Drop)]
pub struct Progress<'a, R> {
    rt: &'a R,
    start: Instant,
    rounds: AtomicU64,
    working: AtomicU64,
    // the second in which the line was last written, or 0
    told: AtomicU64,
}

impl<'a, R: Clock + Eprint> Progress<'a, R> {
    /// Such a gate, by which nobody passed; none where the clock is not read. Takes no memory.
    pub fn new(rt: &'a R) -> Option<Progress<'a, R>> {
        let start = Instant::now(rt).ok()?;
        Some(Progress {
            rt,
            start,
            rounds: AtomicU64::new(0),
            working: AtomicU64::new(0),
            told: AtomicU64::new(0),
        })
    }

    // Counts a round, and writes the line where it is due. A failed write is passed over.
    fn count_round(&self) {
        let rounds = self.rounds.fetch_add(1, Ordering::SeqCst).wrapping_add(1);
        let Ok(elapsed) = self.start.elapsed(self.rt) else {
            return;
        };
        let seconds = elapsed.as_secs();
        if self.is_due(seconds) {
            let working = self.working.load(Ordering::SeqCst);
            let _ = eprint!(self.rt; "\r{seconds} s, {rounds} rounds, {working} at work\x1b[K");
        }
    }

    // Whether nobody has written the line in this second or later; who hears so is to write it.
    fn is_due(&self, second: u64) -> bool {
        let told = self.told.load(Ordering::SeqCst);
        told < second
            && self
                .told
                .compare_exchange(told, second, Ordering::SeqCst, Ordering::SeqCst)
                .is_ok()
    }

    // Wipes the line, if there is one, when the last worker leaves.
    fn leave(&self) {
        let working = self.working.fetch_sub(1, Ordering::SeqCst);
        if working == 1 && self.told.load(Ordering::SeqCst) > 0 {
            let _ = eprint!(self.rt; "\r\x1b[K");
        }
    }
}

impl<'a, R: Clock + Eprint + Sync> Gate for Progress<'a, R> {
    fn pass(&self, _worker: u32, at: Point) {
        match at {
            Point::Start => {
                let _ = self.working.fetch_add(1, Ordering::SeqCst);
            }
            Point::Turn => self.count_round(),
            Point::Done => self.leave(),
        }
    }
}
