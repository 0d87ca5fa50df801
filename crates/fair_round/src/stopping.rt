//! Why a round stops without an answer. The main type is `Stop`.

ghost use Rattle.edge.specs.Ends.{IsEnd};
ghost use Rattle.ic3_semantics.specs.Searching.{IsReachEnd};
ghost use Rattle.fair_round.specs.Spending.{IsStop};

use edge::{Meter, SolveEnd};
use ic3::ReachEnd;
use std::alloc::AllocError;

/// Why a round stopped without an answer.
#[derive(Clone, Copy)]
pub enum Stop {
    /// Conflicts or steps are spent.
    Spent,
    /// Memory ran out.
    Memory,
}

impl From<AllocError> for Stop {
    ghost use Rattle.std.specs.Prelude.{◌≡◌};
    ghost use Rattle.fair_round.specs.declared.stopping.Stop.TheVariants.{Memory};

    ghost from_gives = { λ _ stop. stop ≡ Memory };

    fn from(_refused: AllocError) -> Stop {
        Stop::Memory
    }
}

/// The stop at which a question to the solver ended.
pub(crate) fn solver_stop(end: SolveEnd, _meter: &Meter) -> Stop
    requires { IsEnd _meter.now end }
    ensures { IsStop _meter.now result }
{
    match end {
        SolveEnd::Spent(_) => Stop::Spent,
        SolveEnd::Memory => Stop::Memory,
    }
}

/// The stop at which a search for a path ended.
pub(crate) fn search_stop(end: ReachEnd, _meter: &Meter) -> Stop
    requires { IsReachEnd _meter.now end }
    ensures { IsStop _meter.now result }
{
    match end {
        ReachEnd::SpentConflicts => Stop::Spent,
        ReachEnd::SpentSteps => Stop::Spent,
        ReachEnd::Memory => Stop::Memory,
    }
}
