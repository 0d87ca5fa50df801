//! What a search is asked for, and what it answers.

use circuit::Position;
use cnf::{Clause, Cube};
use edge::{Counted, SolveEnd, Spent};
use fair_semantics::Use;
use items::Items;
use std::alloc::AllocError;
use thiserror::Error;

/// Where a search starts.
#[derive(Debug, Drop)]
pub enum Start {
    /// In the initial states.
    Initial,
    /// In one state.
    State(Items<bool>),
}

/// What a search is for.
#[derive(Clone, Copy, Debug)]
pub enum Goal<'a> {
    /// A state.
    State(&'a [bool]),
    /// A position at which the AIGER literal is true, in no state of these cubes over latch numbers.
    Literal { literal: u64, avoid: &'a [Cube] },
}

/// What a search found.
#[derive(Debug, Drop)]
pub enum Reached {
    /// The positions of a run from a start to the goal.
    Path(Items<Position>),
    /// The clauses and uses of an entry that holds each start and misses the goal.
    Closed {
        clauses: Items<Clause>,
        uses: Items<Use>,
    },
}

/// Why a search ended without an answer.
#[derive(Debug, Clone, Copy, PartialEq, Eq, Error)]
pub enum ReachEnd {
    /// The limit of conflicts is reached.
    #[error("the limit of conflicts is reached")]
    SpentConflicts,
    /// The limit of steps is reached.
    #[error("the limit of steps is reached")]
    SpentSteps,
    /// Memory ran out.
    #[error("memory was refused")]
    Memory,
}

impl From<AllocError> for ReachEnd {
    ghost use Rattle.std.specs.Prelude.{◌≡◌};
    ghost use Rattle.ic3_semantics.specs.declared.questions.ReachEnd.TheVariants.{Memory};

    ghost from_gives = { λ _ end. end ≡ Memory };

    fn from(_refused: AllocError) -> ReachEnd {
        ReachEnd::Memory
    }
}

impl From<Spent> for ReachEnd {
    ghost use Rattle.std.specs.Prelude.{◌≡◌};
    ghost use Rattle.ic3_semantics.specs.Ends.{end_of_kind};

    ghost from_gives = { λ spent end. end ≡ end_of_kind spent.kind };

    fn from(spent: Spent) -> ReachEnd {
        match spent.kind {
            Counted::Conflicts => ReachEnd::SpentConflicts,
            Counted::Steps => ReachEnd::SpentSteps,
        }
    }
}

impl From<SolveEnd> for ReachEnd {
    ghost use Rattle.std.specs.Prelude.{◌≡◌};
    ghost use Rattle.ic3_semantics.specs.Ends.{reach_end};

    ghost from_gives = { λ solved end. end ≡ reach_end solved };

    fn from(end: SolveEnd) -> ReachEnd {
        match end {
            SolveEnd::Spent(spent) => ReachEnd::from(spent),
            SolveEnd::Memory => ReachEnd::Memory,
        }
    }
}
