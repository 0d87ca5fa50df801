//! What is wrong with an entry or a refutation. The main types are `EntryFault` and `EntryEnd`.

use proof_semantics::LratFault;
use std::alloc::{AllocError, AllocFailed};
use std::fmt;
use thiserror::Error;

/// What is wrong with an entry. Entries, clauses and proof lines are counted from 0.
#[derive(Clone, Copy, PartialEq, Eq, Error)]
pub enum EntryFault {
    /// The first use that may not stand where it does is of the entry with this number.
    BadUse(u64),
    /// This literal of the model is no latch's.
    NotLatch(u64),
    /// This clause of a reach entry holds no literal of the initial cube.
    Base(u64),
    /// The proof of this clause has this fault at this line. `Unfinished` carries the number of its lines.
    Proof(u64, u64, LratFault),
}

impl fmt::Display for EntryFault {
    fn fmt<W: fmt::Write>(&self, f: &mut fmt::Formatter<W>) -> fmt::Result {
        let (words, number) = match *self {
            EntryFault::BadUse(entry) => ("a use that may not stand there, of entry", entry),
            EntryFault::NotLatch(literal) => ("no latch's literal:", literal),
            EntryFault::Base(clause) => ("no literal of the initial cube in clause", clause),
            EntryFault::Proof(clause, line, fault) => {
                return write!(
                    f,
                    "the proof of clause {clause} is refused at line {line}: {fault}"
                );
            }
        };
        write!(f, "{words} {number}")
    }
}

impl fmt::Debug for EntryFault {
    fn fmt<W: fmt::Write>(&self, f: &mut fmt::Formatter<W>) -> fmt::Result {
        fmt::Display::fmt(self, f)
    }
}

/// What is wrong with a refutation. Proof lines are counted from 0.
#[derive(Clone, Copy, PartialEq, Eq, Error)]
pub enum RefutationFault {
    /// The first use that may not stand where it does is of the entry with this number.
    #[error("the use of entry {0} may not stand there")]
    BadUse(u64),
    /// The proof has this fault at this line. `Unfinished` carries the number of its lines.
    #[error("the proof is refused at line {0}: {1}")]
    Proof(u64, LratFault),
}

impl fmt::Debug for RefutationFault {
    fn fmt<W: fmt::Write>(&self, f: &mut fmt::Formatter<W>) -> fmt::Result {
        fmt::Display::fmt(self, f)
    }
}

/// Why an entry was not accepted: its first fault, or want of memory.
#[derive(Clone, Copy, PartialEq, Eq, Error)]
pub enum EntryEnd {
    #[error(transparent)]
    Fault(EntryFault),
    #[error("memory was refused")]
    Memory,
}

impl fmt::Debug for EntryEnd {
    fn fmt<W: fmt::Write>(&self, f: &mut fmt::Formatter<W>) -> fmt::Result {
        fmt::Display::fmt(self, f)
    }
}

impl From<AllocError> for EntryEnd {
    ghost use Rattle.std.specs.Prelude.{◌≡◌};
    ghost use Rattle.entry.specs.declared.faults.EntryEnd.TheVariants.{Memory};

    ghost from_gives = { λ _ end. end ≡ Memory };

    fn from(_error: AllocError) -> EntryEnd {
        EntryEnd::Memory
    }
}

impl<T: Drop> From<AllocFailed<T>> for EntryEnd {
    ghost use Rattle.std.specs.Prelude.{◌≡◌};
    ghost use Rattle.entry.specs.declared.faults.EntryEnd.TheVariants.{Memory};

    ghost from_gives = { λ _ end. end ≡ Memory };

    fn from(_error: AllocFailed<T>) -> EntryEnd {
        EntryEnd::Memory
    }
}
