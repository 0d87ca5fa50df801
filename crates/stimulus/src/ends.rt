//! How the reading and the replay of a stimulus fail.
use std::alloc::{AllocError, AllocFailed};
use std::fmt;
use thiserror::Error;

/// What is wrong with a stimulus.
#[derive(Clone, Copy, PartialEq, Eq, Error)]
pub enum ReplayFault {
    /// The line with this number, counted from 1, is no line of a stimulus; or the text ends without the line of the
    /// latches, which would have this number.
    Shape(u64),
    /// This item has not one value for each latch, as item 0, or each input, as item k + 1 of position k.
    Width(u64),
    /// This latch, counted from 0, may not begin with its value.
    NotInitial(u64),
    /// A constraint is false at this position, counted from 0.
    Constraint(u64),
    /// No prefix of the positions is a fair lasso.
    NoFairLoop,
    /// The circuit has no such property.
    NoProperty,
}

impl fmt::Display for ReplayFault {
    fn fmt<W: fmt::Write>(&self, f: &mut fmt::Formatter<W>) -> fmt::Result {
        f.write_str("the stimulus stands for no lasso")
    }
}

impl fmt::Debug for ReplayFault {
    fn fmt<W: fmt::Write>(&self, f: &mut fmt::Formatter<W>) -> fmt::Result {
        fmt::Display::fmt(self, f)
    }
}

/// Why there is no answer: a fault of the stimulus, or want of memory.
#[derive(Clone, Copy, PartialEq, Eq, Error)]
pub enum ReplayEnd {
    Fault(ReplayFault),
    Memory,
}

impl fmt::Display for ReplayEnd {
    fn fmt<W: fmt::Write>(&self, f: &mut fmt::Formatter<W>) -> fmt::Result {
        f.write_str("no lasso is given")
    }
}

impl fmt::Debug for ReplayEnd {
    fn fmt<W: fmt::Write>(&self, f: &mut fmt::Formatter<W>) -> fmt::Result {
        fmt::Display::fmt(self, f)
    }
}

impl From<AllocError> for ReplayEnd {
    ghost use Rattle.std.specs.Prelude.{◌≡◌};
    ghost use Rattle.stimulus.specs.declared.ends.ReplayEnd.TheVariants.{Memory};

    ghost from_gives = { λ _ end. end ≡ Memory };

    fn from(_error: AllocError) -> ReplayEnd {
        ReplayEnd::Memory
    }
}

impl<T: Drop> From<AllocFailed<T>> for ReplayEnd {
    ghost use Rattle.std.specs.Prelude.{◌≡◌};
    ghost use Rattle.stimulus.specs.declared.ends.ReplayEnd.TheVariants.{Memory};

    ghost from_gives = { λ _ end. end ≡ Memory };

    fn from(_error: AllocFailed<T>) -> ReplayEnd {
        ReplayEnd::Memory
    }
}
