//! Why a run ends without a verdict. The main type is `Failure`.

use circuit::ModelEnd;
use edge::{Failed, ReadEnd, SolveEnd};
use entry::EntryEnd;
use ic3_semantics::ReachEnd;
use proved_entries::ProvingEnd;
use std::alloc::{AllocError, AllocFailed};
use std::io;

/// Why a run ends without a verdict.
#[derive(Clone, Copy)]
pub(crate) enum Failure {
    /// A text is not in its form: clauses in DIMACS form, or a model.
    BadInput,
    /// A read of a file or of the words failed.
    Read,
    /// A write failed.
    Write,
    /// Memory ran out.
    Memory,
    /// A limit of the solver was reached.
    Spent,
    /// The solver's answer did not pass its check.
    WrongAnswer,
}

impl Failure {
    /// The number with which the program ends.
    pub(crate) fn number(self) -> u8 {
        match self {
            Failure::BadInput => 3,
            Failure::Read => 4,
            Failure::Write => 5,
            Failure::Memory => 6,
            Failure::Spent => 7,
            Failure::WrongAnswer => 8,
        }
    }
}

impl From<AllocError> for Failure {
    fn from(_: AllocError) -> Failure {
        Failure::Memory
    }
}

impl<T: Drop> From<AllocFailed<T>> for Failure {
    fn from(_: AllocFailed<T>) -> Failure {
        Failure::Memory
    }
}

impl From<io::Error> for Failure {
    fn from(_: io::Error) -> Failure {
        Failure::Read
    }
}

impl From<ModelEnd> for Failure {
    fn from(end: ModelEnd) -> Failure {
        match end {
            ModelEnd::Fault(_) => Failure::BadInput,
            ModelEnd::Memory => Failure::Memory,
        }
    }
}

impl From<Failed> for Failure {
    fn from(_: Failed) -> Failure {
        Failure::Write
    }
}

impl From<SolveEnd> for Failure {
    fn from(end: SolveEnd) -> Failure {
        match end {
            SolveEnd::Spent(_) => Failure::Spent,
            SolveEnd::Memory => Failure::Memory,
        }
    }
}

impl From<EntryEnd> for Failure {
    fn from(end: EntryEnd) -> Failure {
        match end {
            EntryEnd::Fault(_) => Failure::WrongAnswer,
            EntryEnd::Memory => Failure::Memory,
        }
    }
}

impl From<ProvingEnd> for Failure {
    fn from(end: ProvingEnd) -> Failure {
        match end {
            ProvingEnd::Refused => Failure::WrongAnswer,
            ProvingEnd::Memory => Failure::Memory,
        }
    }
}

impl From<ReachEnd> for Failure {
    fn from(end: ReachEnd) -> Failure {
        match end {
            ReachEnd::SpentConflicts | ReachEnd::SpentSteps => Failure::Spent,
            ReachEnd::Memory => Failure::Memory,
        }
    }
}

impl From<ReadEnd> for Failure {
    fn from(end: ReadEnd) -> Failure {
        match end {
            ReadEnd::Failed => Failure::Read,
            ReadEnd::Memory => Failure::Memory,
        }
    }
}
