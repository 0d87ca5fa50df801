//! How a line ends that is not accepted. The main type is `LratEnd`.
ghost use Rattle.std.specs.Prelude.{◌≡◌};
ghost use Rattle.lrat.specs.declared.faults.LratEnd.TheVariants.{Memory};

use proof_semantics::LratFault;
use std::alloc::{AllocError, AllocFailed};
use std::fmt;
use thiserror::Error;

/// Why a line was not accepted.
#[derive(Clone, Copy, PartialEq, Eq, Error)]
pub enum LratEnd {
    /// The line failed this test, the first that it fails.
    #[error(transparent)]
    Fault(LratFault),
    /// Memory ran out.
    #[error("memory was refused")]
    Memory,
}

impl fmt::Debug for LratEnd {
    fn fmt<W: fmt::Write>(&self, f: &mut fmt::Formatter<W>) -> fmt::Result {
        fmt::Display::fmt(self, f)
    }
}

impl From<AllocError> for LratEnd {
    ghost from_gives = { λ _ e. e ≡ Memory };

    fn from(_: AllocError) -> LratEnd {
        LratEnd::Memory
    }
}

impl<T: Drop> From<AllocFailed<T>> for LratEnd {
    ghost from_gives = { λ _ e. e ≡ Memory };

    fn from(_: AllocFailed<T>) -> LratEnd {
        LratEnd::Memory
    }
}
