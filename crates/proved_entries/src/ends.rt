//! Why an entry is not proved. The main type is `ProvingEnd`.

use edge::SolveEnd;
use entry::EntryEnd;
use std::alloc::{AllocError, AllocFailed};

/// Why an entry is not proved.
#[derive(Clone, Copy, Debug, PartialEq, Eq)]
pub enum ProvingEnd {
    /// It has no proof, is not taken, excludes nothing that it is to exclude, or the limit of conflicts is met.
    Refused,
    /// Memory ran out.
    Memory,
}

impl From<AllocError> for ProvingEnd {
    fn from(_: AllocError) -> ProvingEnd {
        ProvingEnd::Memory
    }
}

impl<T: Drop> From<AllocFailed<T>> for ProvingEnd {
    fn from(_: AllocFailed<T>) -> ProvingEnd {
        ProvingEnd::Memory
    }
}

impl From<EntryEnd> for ProvingEnd {
    fn from(end: EntryEnd) -> ProvingEnd {
        match end {
            EntryEnd::Fault(_) => ProvingEnd::Refused,
            EntryEnd::Memory => ProvingEnd::Memory,
        }
    }
}

impl From<SolveEnd> for ProvingEnd {
    fn from(end: SolveEnd) -> ProvingEnd {
        match end {
            SolveEnd::Spent(_) => ProvingEnd::Refused,
            SolveEnd::Memory => ProvingEnd::Memory,
        }
    }
}
