//! Searches behind a view. The main call is `searched`.

ghost use Rattle.std.specs.Prelude.{◌≡◌, ◌↔◌, true, length, IsTrue};
ghost use Rattle.cnf_unroll.specs.Laws.{AreOver};
ghost use Rattle.entry.specs.CheckedEntries.{viewed};
ghost use Rattle.entry.specs.Laws.{IsGoodList};
ghost use Rattle.ic3_semantics.specs.Searching.{IsStart, IsGoal};
ghost use Rattle.ic3_semantics.specs.Stepping.{IsOver};

use circuit::Circuit;
use cnf::{Cube, Lit};
use edge::Meter;
use entry::Checked;
use ic3::{Goal, ReachEnd, Reached, Start, reach};
use ic3_closing::{ClosedSet, shrink};
use std::alloc::Global;
use std::sync::Arc;

/// No limit of a meter.
pub(crate) const NO_LIMIT: u64 = 4_294_967_295;

fn is_start(c: &Circuit, start: &Start) -> bool
    ensures { result ≡ true → IsStart c.now start.now }
{
    match start {
        Start::Initial => true,
        Start::State(state) => state.len() == c.latches().len(),
    }
}

pub(crate) fn is_over(c: &Circuit, literals: &[Lit]) -> bool
    ensures { IsTrue result ↔ IsOver (length c.now.latches) literals.now }
{
    let count = c.latches().len() as u64;
    literals.iter().all(|literal| literal.var < count)
}

pub(crate) fn are_over(c: &Circuit, cubes: &[Cube]) -> bool
    ensures { IsTrue result ↔ AreOver (length c.now.latches) cubes.now }
{
    cubes.iter().all(|cube| is_over(c, cube.as_slice()))
}

pub(crate) fn is_goal(c: &Circuit, goal: &Goal<'_>) -> bool
    ensures { result ≡ true → IsGoal c.now goal.now }
{
    match goal {
        Goal::State(to) => to.len() == c.latches().len(),
        Goal::Literal { literal, avoid } => *literal / 2 <= c.max() && are_over(c, avoid),
    }
}

// What a search behind the view answers. A closed set loses what it does not need.
fn lessened(
    alloc: Global,
    c: &Circuit,
    view: &[Arc<Checked>],
    start: &Start,
    goal: &Goal<'_>,
    meter: &mut Meter,
) -> Result<Reached, ReachEnd>
    requires view { IsGoodList c.now (viewed view.now) }
    requires start { IsStart c.now start.now }
    requires goal { IsGoal c.now goal.now }
{
    match reach(alloc, c, view, start, goal, meter)? {
        Reached::Path(positions) => Ok(Reached::Path(positions)),
        Reached::Closed { clauses, uses } => {
            let whole = ClosedSet { clauses, uses };
            let part = shrink(alloc, c, view, start, goal, whole, meter)?;
            Ok(Reached::Closed {
                clauses: part.clauses,
                uses: part.uses,
            })
        }
    }
}

/// What a search behind the view answers; a closed set loses what it does not need where `least` is.
pub(crate) fn searched(
    alloc: Global,
    c: &Circuit,
    view: &[Arc<Checked>],
    start: &Start,
    goal: &Goal<'_>,
    least: bool,
    meter: &mut Meter,
) -> Result<Reached, ReachEnd>
    requires view { IsGoodList c.now (viewed view.now) }
{
    if !is_start(c, start) || !is_goal(c, goal) {
        return Err(ReachEnd::Memory);
    }
    if least {
        return lessened(alloc, c, view, start, goal, meter);
    }
    reach(alloc, c, view, start, goal, meter)
}
