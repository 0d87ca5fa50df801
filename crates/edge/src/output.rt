//! The sink of standard output: trusted too, since no contract says what a stream took.
ghost use Rattle.std.specs.Prelude.{◌≡◌, ◌<◌, ◌≤◌, length, None, IfOk, is_err, if◌then◌else◌};
ghost use Rattle.edge.specs.Faults.{one_more, HasCause};

use crate::failures::Failed;
use crate::writing::Sink;
use std::marker::Model;

/// The standard output that a runtime prints to. No byte waits in it: a write that is answered has been made.
/// It tells nothing of what it took. Contracts see it as the count of its failed writes.
#[derive(Drop)]
pub struct StdSink<P> {
    out: P,
    faults: u64,
}

impl<P> Model for StdSink<P> {
    ghost use Rattle.std.specs.Prelude.{ℕ};

    ghost Value = { ℕ };

    ghost view = { λ s. s.faults };
}

impl<P: Print> StdSink<P> {
    /// The standard output of `out`, as of a runtime or a reference to one. Takes no memory.
    pub fn new(out: P) -> StdSink<P>
        ensures { result ≡ 0 }
    {
        StdSink { out, faults: 0 }
    }
}

impl<P: Print> Sink for StdSink<P> {
    ghost taken = { λ _. None };

    ghost faults = { λ s. s };

    ghost writes = { λ old failed new. new ≡ (if failed then one_more old else old) };

    /// A write of no byte of a piece that is not empty is a failure too.
    fn write(&mut self, piece: &[u8]) -> Result<usize, Failed>
        ensures bound { IfOk result (λ n. n ≤ length piece.now) }
        ensures progress { IfOk result (λ n. 0 < length piece.now → 0 < n) }
        ensures cause { HasCause self.old self.new result }
        ensures counted { self.new ≡ (if is_err result then one_more self.old else self.old) }
    {
        match self.out.write_some(piece) {
            Ok(count) if count > 0 || piece.is_empty() => Ok(count),
            _ => {
                self.faults = self.faults.saturating_add(1);
                Err(Failed)
            }
        }
    }
}
