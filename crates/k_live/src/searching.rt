//! One question to a search. The main call is `searched`.

ghost use Rattle.std.specs.Prelude.{◌≡◌, ◌<◌, length, IfOk, IfErr};
ghost use Rattle.ic3_semantics.specs.Searching.{IsReachEnd, CountsSearch};
ghost use Rattle.k_live.specs.Asking.{next_of_last, AnswersSearch};

use circuit::Circuit;
use edge::Meter;
use entry::good_lists_grow;
use ic3::{Goal, ReachEnd, Reached, Start, reach};
use std::alloc::Global;

// The next literal of the last latch.
fn next_of_last(t: &Circuit) -> u64
    requires { 0 < length t.now.latches }
    ensures { result ≡ next_of_last t.now }
{
    let latches = t.latches();
    latches[latches.len() - 1].next
}

/// From the initial states, a way to a position behind which the last latch is true; or, where there is none, a closed
/// set.
pub(crate) fn searched(alloc: Global, t: &Circuit, meter: &mut Meter) -> Result<Reached, ReachEnd>
    requires { 0 < length t.now.latches }
    ensures answered { IfOk result (AnswersSearch t.now) }
    ensures end { IfErr result (IsReachEnd meter.new) }
    ensures counted { CountsSearch (length t.now.latches) meter.old meter.new }
{
    good_lists_grow(t);
    let _limits = t.max();
    let goal = Goal::Literal {
        literal: next_of_last(t),
        avoid: &[],
    };
    reach(alloc, t, &[], &Start::Initial, &goal, meter)
}
