//! Clauses of public calls, said again as clauses of this crate's own: where such a call comes to say less, the function
//! here that makes it is not proved.
ghost use Rattle.std.specs.Prelude.{◌≡◌, ◌+◌, ◌-◌, ◌≤◌, max, [], length, IfOk, IfErr, OnOk, OnErr};
ghost use Rattle.entry.specs.CheckedEntries.{viewed, GoesOnFrom};
ghost use Rattle.entry.specs.Laws.{IsGoodList};
ghost use Rattle.ic3.specs.Searches.{steps_left};
ghost use Rattle.ic3_loops.specs.Propagating.{Narrows};
ghost use Rattle.ic3_semantics.specs.Searching.{CountsUpTo, CountsAtLeast, IsGoal, IsReached, IsReachEnd};

use edge::Meter;
use entry::Checked;
use ic3::{Goal, ReachEnd, Reached, Search};
use std::alloc::Global;
use std::sync::Arc;

/// How many frames a search keeps.
fn frames_of(search: &Search) -> u64
    ensures { result ≡ length search.now.levels }
{
    search.frames()
}

/// A path, or a closed set where there is none; what is counted, and what stays for the next question.
fn reached(
    search: &mut Search,
    alloc: Global,
    view: &[Arc<Checked>],
    goal: &Goal<'_>,
    meter: &mut Meter,
) -> Result<Reached, ReachEnd>
    requires good { IsGoodList search.old.circuit (viewed view.now) }
    requires on { GoesOnFrom search.old.view (viewed view.now) }
    requires goal { IsGoal search.old.circuit goal.now }
    ensures reached { IfOk result (IsReached (record {
      circuit = search.old.circuit;
      view = viewed view.now;
      start = search.old.start;
    }) goal.now) }
    ensures end { IfErr result (IsReachEnd meter.new) }
    ensures counted { CountsUpTo (steps_left search.old) meter.old meter.new }
    ensures paid { OnOk result (meter.new.steps + steps_left search.new ≤ meter.old.steps + steps_left search.old) }
    ensures narrows { OnOk result (Narrows search.old.levels search.new.levels) }
    ensures more { OnOk result (length search.old.levels ≤ length search.new.levels) }
    ensures fewest { OnOk result
        (CountsAtLeast (length search.new.levels - max 2 (length search.old.levels)) meter.old meter.new) }
    ensures lost { OnErr result (search.new.levels ≡ []) }
    ensures circuit { search.new.circuit ≡ search.old.circuit }
    ensures start { search.new.start ≡ search.old.start }
    ensures view { OnOk result (search.new.view ≡ viewed view.now) }
    ensures seen { GoesOnFrom search.new.view (viewed view.now) }
{
    search.reach(alloc, view, goal, meter)
}
