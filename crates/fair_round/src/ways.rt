//! Questions to the search for a path, and what they come to. The main calls are `stem` and `closing`.

ghost use Rattle.std.specs.Prelude.{◌+◌, ◌<◌, ◌≤◌, ◌-◌, [], length, slice_index_or, IfOk, IfErr, OnOk};
ghost use Rattle.aig_semantics.specs.Circuits.{fair_literals};
ghost use Rattle.edge.specs.Ends.{CountsConflicts};
ghost use Rattle.ic3.specs.Searches.{steps_left};
ghost use Rattle.ic3_semantics.specs.Searching.{IsStart, IsGoal, IsReached, CountsUpTo};
ghost use Rattle.fair_round.specs.Spending.{IsStop, Asks};
ghost use Rattle.fair_round.specs.Scopes.{IsScope, IsAllowedIn, AreAvoided, entries_of};
ghost use Rattle.fair_round.specs.Walks.{IsStem, IsLiteralStem, IsWay, skeleton_of, states, successors};
ghost use Rattle.fair_round.specs.Stems.{IsFit, question_of};

use crate::scope::Scope;
use crate::stopping::{Stop, search_stop, solver_stop};
use crate::walking::fair_literal;
use circuit::Position;
use cnf::{Clause, Cube};
use edge::Meter;
use fair_semantics::{Kind, Situation, Use};
use ic3::{Goal, Reached, Search, Start, reach};
use ic3_closing::{ClosedSet, shrink};
use ic3_semantics::separated_goals_are_not_reached;
use items::Items;
use std::alloc::Global;

/// What an entry is made of that excludes a skeleton.
#[derive(Drop)]
pub(crate) struct Bar {
    pub(crate) kind: Kind,
    pub(crate) clauses: Items<Clause>,
    pub(crate) uses: Items<Use>,
}

/// A way from one state to another, or why there is none.
#[derive(Drop)]
pub(crate) enum Way {
    Open(Items<Position>),
    Barred(Bar),
}

// A path as it is; a closed set without what it does not need.
fn shrunk(
    alloc: Global,
    scope: &Scope<'_>,
    start: &Start,
    goal: &Goal<'_>,
    reached: Reached,
    meter: &mut Meter,
) -> Result<Reached, Stop>
    requires scope { IsScope scope.now }
    requires goal { IsGoal scope.now.circuit.now goal.now }
    requires reached { IsReached (question_of scope.now start.now) goal.now reached }
    ensures reached { IfOk result (IsReached (question_of scope.now start.now) goal.now) }
    ensures stop { IfErr result (IsStop meter.new) }
    ensures counted { CountsConflicts meter.old meter.new }
{
    separated_goals_are_not_reached();
    match reached {
        Reached::Path(positions) => Ok(Reached::Path(positions)),
        Reached::Closed { clauses, uses } => {
            let whole = ClosedSet { clauses, uses };
            match shrink(alloc, scope.circuit, scope.view, start, goal, whole, meter) {
                Ok(part) => Ok(Reached::Closed {
                    clauses: part.clauses,
                    uses: part.uses,
                }),
                Err(end) => Err(solver_stop(end, meter)),
            }
        }
    }
}

// What the search answers, whichever count it ends by.
fn searched(
    alloc: Global,
    scope: &Scope<'_>,
    start: &Start,
    goal: &Goal<'_>,
    meter: &mut Meter,
) -> Result<Reached, Stop>
    requires scope { IsScope scope.now }
    requires start { IsStart scope.now.circuit.now start.now }
    requires goal { IsGoal scope.now.circuit.now goal.now }
    ensures reached { IfOk result (IsReached (question_of scope.now start.now) goal.now) }
    ensures stop { IfErr result (IsStop meter.new) }
    ensures counted { Asks (length scope.now.circuit.now.latches) 1 meter.old meter.new }
{
    match reach(alloc, scope.circuit, scope.view, start, goal, meter) {
        Ok(reached) => Ok(reached),
        Err(end) => Err(search_stop(end, meter)),
    }
}

/// What the search answers; a closed set without what it does not need.
pub(crate) fn asked(
    alloc: Global,
    scope: &Scope<'_>,
    start: &Start,
    goal: &Goal<'_>,
    meter: &mut Meter,
) -> Result<Reached, Stop>
    requires scope { IsScope scope.now }
    requires start { IsStart scope.now.circuit.now start.now }
    requires goal { IsGoal scope.now.circuit.now goal.now }
    ensures reached { IfOk result (IsReached (question_of scope.now start.now) goal.now) }
    ensures stop { IfErr result (IsStop meter.new) }
    ensures counted { Asks (length scope.now.circuit.now.latches) 1 meter.old meter.new }
{
    let reached = searched(alloc, scope, start, goal, meter)?;
    shrunk(alloc, scope, start, goal, reached, meter)
}

// What the search from the initial states answers, whichever count it ends by.
fn searched_on(
    alloc: Global,
    scope: &Scope<'_>,
    search: &mut Search,
    goal: &Goal<'_>,
    meter: &mut Meter,
) -> Result<Reached, Stop>
    requires scope { IsScope scope.now }
    requires goal { IsGoal scope.now.circuit.now goal.now }
    requires fit { IsFit scope.now.circuit.now (entries_of scope.now) search.old }
    ensures reached { IfOk result (IsReached (question_of scope.now Start.Initial) goal.now) }
    ensures fit { OnOk result (IsFit scope.now.circuit.now (entries_of scope.now) search.new) }
    ensures paid { OnOk result (meter.new.steps + steps_left search.new ≤ meter.old.steps + steps_left search.old) }
    ensures stop { IfErr result (IsStop meter.new) }
    ensures counted { CountsUpTo (steps_left search.old) meter.old meter.new }
{
    match search.reach(alloc, scope.view, goal, meter) {
        Ok(reached) => Ok(reached),
        Err(end) => Err(search_stop(end, meter)),
    }
}

// The same; a closed set without what it does not need.
fn asked_on(
    alloc: Global,
    scope: &Scope<'_>,
    search: &mut Search,
    goal: &Goal<'_>,
    meter: &mut Meter,
) -> Result<Reached, Stop>
    requires scope { IsScope scope.now }
    requires goal { IsGoal scope.now.circuit.now goal.now }
    requires fit { IsFit scope.now.circuit.now (entries_of scope.now) search.old }
    ensures reached { IfOk result (IsReached (question_of scope.now Start.Initial) goal.now) }
    ensures fit { OnOk result (IsFit scope.now.circuit.now (entries_of scope.now) search.new) }
    ensures paid { OnOk result (meter.new.steps + steps_left search.new ≤ meter.old.steps + steps_left search.old) }
    ensures stop { IfErr result (IsStop meter.new) }
    ensures counted { CountsUpTo (steps_left search.old) meter.old meter.new }
{
    let reached = searched_on(alloc, scope, search, goal, meter)?;
    shrunk(alloc, scope, &Start::Initial, goal, reached, meter)
}

/// A run from an initial state to the first state of the skeleton, or a reach entry that excludes the skeleton.
pub(crate) fn stem(
    alloc: Global,
    scope: &Scope<'_>,
    search: &mut Search,
    situations: &[Situation],
    meter: &mut Meter,
) -> Result<Way, Stop>
    requires scope { IsScope scope.now }
    requires fit { IsFit scope.now.circuit.now (entries_of scope.now) search.old }
    requires allowed { IsAllowedIn scope.now (skeleton_of situations.now) }
    requires some { 0 < length situations.now }
    ensures stem { IfOk result (IsStem scope.now.circuit.now (entries_of scope.now) situations.now) }
    ensures fit { OnOk result (IsFit scope.now.circuit.now (entries_of scope.now) search.new) }
    ensures stop { IfErr result (IsStop meter.new) }
    ensures counted { CountsUpTo (steps_left search.old) meter.old meter.new }
{
    let goal = Goal::State(situations[0].position.latches.as_slice());
    match asked_on(alloc, scope, search, &goal, meter)? {
        Reached::Path(positions) => Ok(Way::Open(positions)),
        Reached::Closed { clauses, uses } => Ok(Way::Barred(Bar {
            kind: Kind::Reach,
            clauses,
            uses,
        })),
    }
}

/// A run from an initial state to a position at which the first literal is true, in a state outside the avoided cubes; or
/// a reach entry that excludes the skeleton.
pub(crate) fn literal_stem(
    alloc: Global,
    scope: &Scope<'_>,
    search: &mut Search,
    avoid: &[Cube],
    situations: &[Situation],
    meter: &mut Meter,
) -> Result<Way, Stop>
    requires scope { IsScope scope.now }
    requires fit { IsFit scope.now.circuit.now (entries_of scope.now) search.old }
    requires avoid { AreAvoided scope.now avoid.now }
    requires allowed { IsAllowedIn scope.now (skeleton_of situations.now) }
    requires some { 0 < length (fair_literals scope.now.circuit.now scope.now.property) }
    ensures stem { IfOk result (IsLiteralStem scope.now.circuit.now (entries_of scope.now) situations.now) }
    ensures fit { OnOk result (IsFit scope.now.circuit.now (entries_of scope.now) search.new) }
    ensures paid { OnOk result (meter.new.steps + steps_left search.new ≤ meter.old.steps + steps_left search.old) }
    ensures stop { IfErr result (IsStop meter.new) }
    ensures counted { CountsUpTo (steps_left search.old) meter.old meter.new }
{
    let goal = Goal::Literal {
        literal: fair_literal(scope.circuit, scope.property, 0),
        avoid,
    };
    match asked_on(alloc, scope, search, &goal, meter)? {
        Reached::Path(positions) => Ok(Way::Open(positions)),
        Reached::Closed { clauses, uses } => Ok(Way::Barred(Bar {
            kind: Kind::Reach,
            clauses,
            uses,
        })),
    }
}

/// A run from the successor of the last position to the first state, or a wall that excludes the skeleton.
pub(crate) fn closing(
    alloc: Global,
    scope: &Scope<'_>,
    situations: &[Situation],
    meter: &mut Meter,
) -> Result<Way, Stop>
    requires scope { IsScope scope.now }
    requires allowed { IsAllowedIn scope.now (skeleton_of situations.now) }
    requires some { 0 < length situations.now }
    ensures way { IfOk result (IsWay scope.now.circuit.now (entries_of scope.now)
        (slice_index_or (successors situations.now) (length situations.now - 1) [])
        (slice_index_or (states situations.now) 0 []) situations.now) }
    ensures stop { IfErr result (IsStop meter.new) }
    ensures counted { Asks (length scope.now.circuit.now.latches) 1 meter.old meter.new }
{
    let last = &situations[situations.len() - 1];
    let start = Start::State(last.successor.try_copy(alloc)?);
    let goal = Goal::State(situations[0].position.latches.as_slice());
    match asked(alloc, scope, &start, &goal, meter)? {
        Reached::Path(positions) => Ok(Way::Open(positions)),
        Reached::Closed { clauses, uses } => Ok(Way::Barred(Bar {
            kind: Kind::Wall,
            clauses,
            uses,
        })),
    }
}
