//! What may be wrong with a model, and where.

ghost use Rattle.std.specs.Prelude.{◌≡◌};

use std::alloc::{AllocError, AllocFailed};
use std::fmt;
use thiserror::Error;

/// A fault of a model, with its place: the number of the byte at which the text goes wrong, counted from 0, or for
/// `Undefined`, `Twice` and `Cycle` a variable.
#[derive(Clone, Copy, PartialEq, Eq, Error)]
pub enum ModelFault {
    /// The first line is not a header; the place is 0.
    Header(u64),
    /// No number stands where one must, or it is not in its form.
    Number(u64),
    /// A number is not in its range.
    Range(u64),
    /// The least variable above 0 that is used and is no input, latch or gate.
    Undefined(u64),
    /// The least variable that is defined twice.
    Twice(u64),
    /// A variable of a gate that depends on itself through gates.
    Cycle(u64),
    /// The text ends where more is needed.
    Truncated(u64),
    /// A limit of this program is passed.
    Limit(u64),
    /// After the gates stands what is no symbol and no comment.
    Trailing(u64),
    /// A symbol is not in its form.
    Symbol(u64),
}

// What is wrong, in words that the place follows, and the place.
fn told(fault: ModelFault) -> (&'static str, u64) {
    match fault {
        ModelFault::Header(place) => ("not a header, at byte", place),
        ModelFault::Number(place) => ("no number in its form, at byte", place),
        ModelFault::Range(place) => ("a number out of its range, at byte", place),
        ModelFault::Undefined(v) => ("used and not defined: variable", v),
        ModelFault::Twice(v) => ("defined twice: variable", v),
        ModelFault::Cycle(v) => ("a gate that depends on itself: variable", v),
        ModelFault::Truncated(place) => ("the text ends too early, at byte", place),
        ModelFault::Limit(place) => ("a limit is passed, at byte", place),
        ModelFault::Trailing(place) => ("no symbol and no comment, at byte", place),
        ModelFault::Symbol(place) => ("a symbol is not in its form, at byte", place),
    }
}

impl fmt::Display for ModelFault {
    fn fmt<W: fmt::Write>(&self, f: &mut fmt::Formatter<W>) -> fmt::Result {
        let (words, place) = told(*self);
        write!(f, "{words} {place}")
    }
}

impl fmt::Debug for ModelFault {
    fn fmt<W: fmt::Write>(&self, f: &mut fmt::Formatter<W>) -> fmt::Result {
        fmt::Display::fmt(self, f)
    }
}

/// Why no circuit comes: a fault of the model, or want of memory.
#[derive(Clone, Copy, PartialEq, Eq, Error)]
pub enum ModelEnd {
    #[error(transparent)]
    Fault(ModelFault),
    #[error("memory was refused")]
    Memory,
}

impl fmt::Debug for ModelEnd {
    fn fmt<W: fmt::Write>(&self, f: &mut fmt::Formatter<W>) -> fmt::Result {
        fmt::Display::fmt(self, f)
    }
}

impl From<AllocError> for ModelEnd {
    ghost use Rattle.circuit.specs.declared.faults.ModelEnd.TheVariants.{Memory};

    ghost from_gives = { λ _ end. end ≡ Memory };

    fn from(_error: AllocError) -> ModelEnd {
        ModelEnd::Memory
    }
}

impl<T: Drop> From<AllocFailed<T>> for ModelEnd {
    ghost use Rattle.circuit.specs.declared.faults.ModelEnd.TheVariants.{Memory};

    ghost from_gives = { λ _ end. end ≡ Memory };

    fn from(_error: AllocFailed<T>) -> ModelEnd {
        ModelEnd::Memory
    }
}
