//! Readings of the clock, and what passed between two of them. The main type is `Stamp`.

use std::io;
use std::time::{CpuClock, Duration, Instant};

/// A reading of the clock, and of the processor time that this thread has used.
#[derive(Clone, Copy)]
pub(crate) struct Stamp {
    clock: Instant,
    processor: Duration,
}

impl Stamp {
    pub(crate) fn now(rt: &HostRuntime) -> io::Result<Stamp> {
        Ok(Stamp {
            clock: Instant::now(rt)?,
            processor: rt.thread_cpu_time()?,
        })
    }

    /// Nanoseconds by the clock from one reading to a later one.
    pub(crate) fn clock_to(self, later: Stamp) -> u64 {
        nanoseconds(later.clock.duration_since(self.clock))
    }

    /// Nanoseconds of processor time from one reading to a later one.
    pub(crate) fn processor_to(self, later: Stamp) -> u64 {
        nanoseconds(later.processor.saturating_sub(self.processor))
    }
}

// A time in whole nanoseconds, or the greatest number where it is longer.
fn nanoseconds(time: Duration) -> u64 {
    let whole = time.as_secs().saturating_mul(1_000_000_000);
    whole.saturating_add(u64::from(time.subsec_nanos()))
}

/// Prints to standard error the processor time since a reading.
pub(crate) fn print_time(rt: &HostRuntime, what: &str, start: Stamp) -> io::Result<()> {
    let end = Stamp::now(rt)?;
    let spent = start.processor_to(end);
    eprintln!(rt; "nanoseconds {what} {spent}")
}
