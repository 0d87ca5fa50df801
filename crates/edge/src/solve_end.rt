//! How a search ends that gives no answer. The main type is `SolveEnd`.

use crate::metering::Spent;
use std::alloc::{AllocError, AllocFailed};
use thiserror::Error;

/// Why a search ended without an answer.
#[derive(Debug, Clone, Copy, PartialEq, Eq, Error)]
pub enum SolveEnd {
    /// A limit of the meter is reached.
    #[error(transparent)]
    Spent(Spent),
    /// Memory ran out.
    #[error("memory was refused")]
    Memory,
}

impl From<Spent> for SolveEnd {
    ghost use Rattle.std.specs.Prelude.{◌≡◌};
    ghost use Rattle.edge.specs.declared.solve_end.SolveEnd.TheVariants.{Spent};

    ghost from_gives = { λ spent end. end ≡ Spent spent };

    fn from(spent: Spent) -> SolveEnd {
        SolveEnd::Spent(spent)
    }
}

impl From<AllocError> for SolveEnd {
    ghost use Rattle.std.specs.Prelude.{◌≡◌};
    ghost use Rattle.edge.specs.declared.solve_end.SolveEnd.TheVariants.{Memory};

    ghost from_gives = { λ _ end. end ≡ Memory };

    fn from(_refused: AllocError) -> SolveEnd {
        SolveEnd::Memory
    }
}

impl<T: Drop> From<AllocFailed<T>> for SolveEnd {
    ghost use Rattle.std.specs.Prelude.{◌≡◌};
    ghost use Rattle.edge.specs.declared.solve_end.SolveEnd.TheVariants.{Memory};

    ghost from_gives = { λ _ end. end ≡ Memory };

    fn from(_refused: AllocFailed<T>) -> SolveEnd {
        SolveEnd::Memory
    }
}
