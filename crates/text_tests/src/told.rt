//! The line that says how far workers are, over a clock and an error stream of a test.

use edge::{FreeGate, Gate, Point, Progress};
use std::alloc::Global;
use std::fmt::Display;
use std::io;
use std::rt::Clock;
use std::sync::atomic::{AtomicU64, Ordering};
use std::test::Fail;
use std::time::Duration;

/// A clock that shows the second that a test sets, from 100 on, and an error stream that counts what is written, and
/// sums it up.
#[derive(Drop)]
struct Desk {
    alloc: Global,
    second: AtomicU64,
    written: AtomicU64,
    sum: AtomicU64,
}

// A sum over some bytes and those before them, by which two lists of texts differ.
fn summed(before: u64, bytes: &[u8]) -> u64 {
    let mut sum = before;
    for byte in bytes {
        sum = sum.wrapping_mul(31).wrapping_add(u64::from(*byte));
    }
    sum
}

impl Clock for Desk {
    fn monotonic(&self) -> io::Result<Duration> {
        let second = self.second.load(Ordering::SeqCst);
        Ok(Duration::from_secs(second.wrapping_add(100)))
    }

    fn since_1970(&self) -> io::Result<Duration> {
        Err(io::Error::from(io::ErrorKind::Unsupported))
    }
}

impl Eprint for Desk {
    fn eprint<D: Display + Drop>(&self, value: D) -> io::Result<()> {
        let text = value.to_string(self.alloc)?;
        let _ = self.written.fetch_add(1, Ordering::SeqCst);
        let before = self.sum.load(Ordering::SeqCst);
        let sum = summed(before, text.as_bytes());
        self.sum.store(sum, Ordering::SeqCst);
        Ok(())
    }

    fn eprintln<D: Display + Drop>(&self, _value: D) -> io::Result<()> {
        Err(io::Error::from(io::ErrorKind::Unsupported))
    }
}

impl Desk {
    fn new(alloc: Global) -> Desk {
        Desk {
            alloc,
            second: AtomicU64::new(0),
            written: AtomicU64::new(0),
            sum: AtomicU64::new(0),
        }
    }

    // Whether these texts were written, each at once, and no other.
    fn has_taken(&self, texts: &[&str]) -> bool {
        let mut sum = 0;
        for text in texts {
            sum = summed(sum, text.as_bytes());
        }
        self.written.load(Ordering::SeqCst) == texts.len() as u64
            && self.sum.load(Ordering::SeqCst) == sum
    }
}

/// In which second a worker passes, and where.
type Passing = (u64, u32, Point);

// Two workers of more than a second: a second without a line, and a clock that goes back.
const LONG: [Passing; 10] = [
    (0, 0, Point::Start),
    (0, 1, Point::Start),
    (0, 0, Point::Turn),
    (1, 1, Point::Turn),
    (1, 0, Point::Turn),
    (3, 0, Point::Turn),
    (2, 1, Point::Turn),
    (4, 0, Point::Done),
    (4, 1, Point::Turn),
    (5, 1, Point::Done),
];

// The lines that they write, and the last of them wiped.
const LINES: [&str; 4] = [
    "\r1 s, 2 rounds, 2 at work\x1b[K",
    "\r3 s, 4 rounds, 2 at work\x1b[K",
    "\r4 s, 6 rounds, 1 at work\x1b[K",
    "\r\x1b[K",
];

fn lines() -> &'static [&'static str] {
    &LINES
}

// A worker that passes no more between two turns once the first second is over.
const SHORT: [Passing; 3] = [
    (0, 0, Point::Start),
    (0, 0, Point::Turn),
    (2, 0, Point::Done),
];

fn pass_all<G: Gate>(desk: &Desk, gate: &G, passings: &[Passing]) {
    for (second, worker, at) in passings {
        desk.second.store(*second, Ordering::SeqCst);
        gate.pass(*worker, *at);
    }
}

fn is_told(alloc: Global, passings: &[Passing], wanted: &[&str]) -> bool {
    let desk = Desk::new(alloc);
    pass_all(&desk, &Progress::new(&desk), passings);
    desk.has_taken(wanted)
}

// Nothing is written where there is no gate, and where the gate is free.
fn is_silent(alloc: Global, passings: &[Passing]) -> bool {
    let desk = Desk::new(alloc);
    let gate: Option<FreeGate> = None;
    pass_all(&desk, &gate, passings);
    pass_all(&desk, &FreeGate, passings);
    desk.has_taken(&[])
}

#[test]
fn a_line_says_how_far_workers_are(rt: HostRuntime) -> Result<(), Fail> {
    assert!(rt; is_told(rt.alloc(), &LONG, lines()));
    assert!(rt; is_told(rt.alloc(), &SHORT, &[]));
    assert!(rt; is_silent(rt.alloc(), &LONG));
    Ok(())
}
