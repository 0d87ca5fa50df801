//! A wall of one latch between two places of a skeleton. The main call is `latch_wall`.

ghost use Rattle.std.specs.Prelude.{◌≡◌, ◌<◌, length, All, IfOk, IfErr, IfSome};
ghost use Rattle.edge.specs.Ends.{CountsConflicts};
ghost use Rattle.fair_semantics.specs.Skeletons.{IsSituation};
ghost use Rattle.ic3.specs.Searches.{IsOfOneLiteral};
ghost use Rattle.ic3_semantics.specs.Searching.{IsStart, IsGoal, IsReached, Separates, closed_entry};
ghost use Rattle.fair_round.specs.Spending.{IsStop};
ghost use Rattle.fair_round.specs.Scopes.{IsScope, IsAllowedIn};
ghost use Rattle.fair_round.specs.Walks.{IsBarIn, skeleton_of};
ghost use Rattle.fair_round.specs.Places.{IsStateOf};
ghost use Rattle.fair_round.specs.Stems.{question_of};

use crate::scope::Scope;
use crate::stopping::{Stop, solver_stop};
use crate::ways::Bar;
use circuit::Circuit;
use edge::Meter;
use fair_semantics::{Kind, Situation};
use ic3::{Goal, Reached, Start, by_latch};
use ic3_closing::{ClosedSet, shrink};
use items::Items;
use round_choices::Place;
use std::alloc::Global;

// The state at a place.
fn state_at<'a>(_c: &Circuit, situations: &'a [Situation], place: Place) -> &'a Items<bool>
    requires inside { place.situation < length situations.now }
    requires situations { All (IsSituation _c.now) situations.now }
    ensures state { IsStateOf situations.now result.now }
    ensures size { length result.now ≡ length _c.now.latches }
{
    if place.after {
        &situations[place.situation].successor
    } else {
        &situations[place.situation].position.latches
    }
}

// What the search for a closed set of one literal answers.
fn one_literal(
    alloc: Global,
    scope: &Scope<'_>,
    start: &Start,
    goal: &Goal<'_>,
    meter: &mut Meter,
) -> Result<Option<Reached>, Stop>
    requires scope { IsScope scope.now }
    requires start { IsStart scope.now.circuit.now start.now }
    requires goal { IsGoal scope.now.circuit.now goal.now }
    ensures reached { IfOk result (λ found. IfSome found (IsReached (question_of scope.now start.now) goal.now)) }
    ensures one { IfOk result (λ found. IfSome found IsOfOneLiteral) }
    ensures stop { IfErr result (IsStop meter.new) }
    ensures counted { CountsConflicts meter.old meter.new }
{
    match by_latch(alloc, scope.circuit, scope.view, start, goal, meter) {
        Ok(found) => Ok(found),
        Err(end) => Err(solver_stop(end, meter)),
    }
}

// The set without what it does not need.
fn lessened(
    alloc: Global,
    scope: &Scope<'_>,
    start: &Start,
    goal: &Goal<'_>,
    whole: ClosedSet,
    meter: &mut Meter,
) -> Result<ClosedSet, Stop>
    requires scope { IsScope scope.now }
    requires goal { IsGoal scope.now.circuit.now goal.now }
    requires separates { Separates (question_of scope.now start.now) goal.now (closed_entry start.now whole.clauses whole.uses) }
    ensures separates { IfOk result (λ part.
        Separates (question_of scope.now start.now) goal.now (closed_entry start.now part.clauses part.uses)) }
    ensures stop { IfErr result (IsStop meter.new) }
    ensures counted { CountsConflicts meter.old meter.new }
{
    match shrink(alloc, scope.circuit, scope.view, start, goal, whole, meter) {
        Ok(part) => Ok(part),
        Err(end) => Err(solver_stop(end, meter)),
    }
}

// A closed set of one literal without what it does not need, where there is one.
fn closed_by_latch(
    alloc: Global,
    scope: &Scope<'_>,
    start: &Start,
    goal: &Goal<'_>,
    meter: &mut Meter,
) -> Result<Option<ClosedSet>, Stop>
    requires scope { IsScope scope.now }
    requires start { IsStart scope.now.circuit.now start.now }
    requires goal { IsGoal scope.now.circuit.now goal.now }
    ensures separates { IfOk result (λ found. IfSome found (λ part.
        Separates (question_of scope.now start.now) goal.now (closed_entry start.now part.clauses part.uses))) }
    ensures stop { IfErr result (IsStop meter.new) }
    ensures counted { CountsConflicts meter.old meter.new }
{
    match one_literal(alloc, scope, start, goal, meter)? {
        Some(Reached::Closed { clauses, uses }) => {
            let whole = ClosedSet { clauses, uses };
            let part = lessened(alloc, scope, start, goal, whole, meter)?;
            Ok(Some(part))
        }
        Some(Reached::Path(_positions)) => unreachable!(),
        None => Ok(None),
    }
}

/// A wall of one latch between two places of a skeleton, where there is one, which excludes it.
pub(crate) fn latch_wall(
    alloc: Global,
    scope: &Scope<'_>,
    situations: &[Situation],
    inside: Place,
    outside: Place,
    meter: &mut Meter,
) -> Result<Option<Bar>, Stop>
    requires scope { IsScope scope.now }
    requires allowed { IsAllowedIn scope.now (skeleton_of situations.now) }
    ensures bar { IfOk result (λ found. IfSome found (IsBarIn scope.now situations.now)) }
    ensures stop { IfErr result (IsStop meter.new) }
    ensures counted { CountsConflicts meter.old meter.new }
{
    if inside.situation >= situations.len() || outside.situation >= situations.len() {
        return Ok(None);
    }
    let from = state_at(scope.circuit, situations, inside);
    let to = state_at(scope.circuit, situations, outside);
    wall_between(alloc, scope, situations, from, to, meter)
}

// The same between two of its states.
fn wall_between(
    alloc: Global,
    scope: &Scope<'_>,
    situations: &[Situation],
    from: &Items<bool>,
    to: &Items<bool>,
    meter: &mut Meter,
) -> Result<Option<Bar>, Stop>
    requires scope { IsScope scope.now }
    requires from { IsStateOf situations.now from.now }
    requires from_size { length from.now ≡ length scope.now.circuit.now.latches }
    requires to { IsStateOf situations.now to.now }
    requires to_size { length to.now ≡ length scope.now.circuit.now.latches }
    ensures bar { IfOk result (λ found. IfSome found (IsBarIn scope.now situations.now)) }
    ensures stop { IfErr result (IsStop meter.new) }
    ensures counted { CountsConflicts meter.old meter.new }
{
    let start = Start::State(from.try_copy(alloc)?);
    let goal = Goal::State(to.as_slice());
    match closed_by_latch(alloc, scope, &start, &goal, meter)? {
        Some(part) => Ok(Some(Bar {
            kind: Kind::Wall,
            clauses: part.clauses,
            uses: part.uses,
        })),
        None => Ok(None),
    }
}
