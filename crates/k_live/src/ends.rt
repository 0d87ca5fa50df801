//! Why nothing is decided. The main type is `RoundsEnd`.

ghost use Rattle.edge.specs.Ends.{IsEnd};
ghost use Rattle.ic3_semantics.specs.Searching.{IsReachEnd};
ghost use Rattle.k_live.specs.Deciding.{EndsSearch};

use edge::{Meter, SolveEnd, Spending};
use ic3::ReachEnd;
use std::alloc::AllocError;

/// Why it is not decided whether some run has so many rounds.
#[derive(Drop)]
pub enum RoundsEnd {
    /// The count of conflicts or that of steps is at its limit: what was counted.
    Unsettled(Spending),
    /// The monitor's greatest variable would be this one, which is above the limit.
    TooLarge(u64),
    /// Want of memory.
    Memory,
}

impl From<AllocError> for RoundsEnd {
    ghost use Rattle.std.specs.Prelude.{◌≡◌};
    ghost use Rattle.k_live.specs.declared.ends.RoundsEnd.TheVariants.{Memory};

    ghost from_gives = { λ _ end. end ≡ Memory };

    fn from(_refused: AllocError) -> RoundsEnd {
        RoundsEnd::Memory
    }
}

/// Why a search ended, as an end.
pub(crate) fn end_of_search(end: ReachEnd, meter: &Meter) -> RoundsEnd
    requires { IsReachEnd meter.now end }
    ensures { EndsSearch meter.now result }
{
    match end {
        ReachEnd::SpentConflicts => RoundsEnd::Unsettled(meter.spending()),
        ReachEnd::SpentSteps => RoundsEnd::Unsettled(meter.spending()),
        ReachEnd::Memory => RoundsEnd::Memory,
    }
}

/// Why a question to a solver ended, as an end.
pub(crate) fn end_of_solving(end: SolveEnd, meter: &Meter) -> RoundsEnd
    requires { IsEnd meter.now end }
    ensures { EndsSearch meter.now result }
{
    match end {
        SolveEnd::Spent(_) => RoundsEnd::Unsettled(meter.spending()),
        SolveEnd::Memory => RoundsEnd::Memory,
    }
}
