//! Sinks, by the bytes that they took and by their count of faults.
//! The main call is `write_all`, which writes a text whole, however little a sink takes at a time.
ghost use Rattle.std.specs.Prelude.{ℕ, Bool, List, Option, ◌≡◌, ◌<◌, ◌≤◌, length, take, IfOk, OnOk, OnErr, is_err};
ghost use Rattle.edge.specs.Faults.{HasCause};
ghost use Rattle.edge.specs.Writes.{Adds, AddsPart, Writes};

use crate::failures::Failed;

/// What text is written to.
pub trait Sink {
    // All the bytes that it took, where it tells them.
    ghost taken: { Self → Option (List ℕ) };

    // How many writes failed. The count never falls, and stands still at 2^64 - 1.
    ghost faults: { Self → ℕ };

    // What a write, which failed or did not, makes of the sink. In code over any sink nothing else gives this.
    ghost writes: { Self → Bool → Self → Type 0 };

    /// Takes some bytes of the piece, from its front on, and says how many: at least one, unless the piece is empty.
    /// A write that fails takes none.
    fn write(&mut self, piece: &[u8]) -> Result<usize, Failed>
        ensures bound { IfOk result (λ n. n ≤ length piece.now) }
        ensures progress { IfOk result (λ n. 0 < length piece.now → 0 < n) }
        ensures taken { IfOk result (λ n. Adds (taken self.old) (taken self.new) (take n piece.now)) }
        ensures kept { OnErr result (taken self.new ≡ taken self.old) }
        ensures cause { HasCause (faults self.old) (faults self.new) result }
        ensures step { writes self.old (is_err result) self.new };
}

/// Writes all the bytes, piece by piece. Takes no memory.
/// A failed write ends it, with the bytes before that piece written.
pub fn write_all<O: Sink>(sink: &mut O, bytes: &[u8]) -> Result<(), Failed>
    ensures all { OnOk result (Adds (O.taken sink.old) (O.taken sink.new) bytes.now) }
    ensures part { OnErr result (AddsPart (O.taken sink.old) (O.taken sink.new) bytes.now) }
    ensures cause { HasCause (O.faults sink.old) (O.faults sink.new) result }
    // Nothing is written after a failed write, which is answered.
    ensures writes { Writes O.writes (is_err result) sink.old sink.new }
{
    let mut done = 0;
    while done < bytes.len() {
        done += sink.write(&bytes[done..])?;
    }
    Ok(())
}
