//! Walls of one latch, looked for before a stem is. The main calls are `own_wall` and `other_wall`.
//!
//! A value of a latch that no step leaves in the arena of a skeleton's first state is a wall where some skeleton that the
//! entries allow has that value at one place and not at another. So a counter of n bits that stops takes n walls, the
//! highest bit first. What is chosen here is judged by `latch_wall`.

ghost use Rattle.std.specs.Prelude.{◌≡◌, IfOk, IfErr, IfSome};
ghost use Rattle.edge.specs.Ends.{CountsConflicts};
ghost use Rattle.fair_round.specs.Spending.{IsStop};
ghost use Rattle.fair_round.specs.Scopes.{IsScope, IsAllowedIn, asking_of_scope};
ghost use Rattle.fair_round.specs.Walks.{IsBarIn, IsSoughtIn, skeleton_of};

use crate::rounds::Rounds;
use crate::scope::Scope;
use crate::seeking::Sought;
use crate::stopping::{Stop, solver_stop};
use crate::walls::latch_wall;
use crate::ways::Bar;
use arena_values::lasting_values;
use cnf::Lit;
use edge::Meter;
use fair_semantics::{Situation, Skeleton};
use ic3::Start;
use items::Items;
use round_choices::{is_at_limit, place_with, wall_sides};
use skeleton::ValueAt;
use std::alloc::{AllocError, Global};

/// At how many places behind the first another value of a latch is looked for.
const MOST_PLACES: usize = 12;

// ---- values that no step leaves

/// The values of latches that no step leaves in the arena of the first state, of the latches that are wanted. Where a count
/// is at its limit, or this round passes, none are looked for.
pub(crate) fn lasting_literals(
    alloc: Global,
    scope: &Scope<'_>,
    rounds: &mut Rounds,
    situations: &[Situation],
    meter: &mut Meter,
) -> Result<Items<Lit>, Stop>
    ensures stop { IfErr result (IsStop meter.new) }
    ensures counted { CountsConflicts meter.old meter.new }
    ensures same { rounds.new ≡ rounds.old }
{
    let Some(first) = situations.get(0) else {
        return Ok(Items::new(alloc));
    };
    if is_at_limit(meter) || !rounds.looks_for_walls() {
        return Ok(Items::new(alloc));
    }
    let start = Start::State(first.position.latches.try_copy(alloc)?);
    lasting_from(alloc, scope, &start, rounds.wanted(), meter)
}

fn lasting_from(
    alloc: Global,
    scope: &Scope<'_>,
    start: &Start,
    wanted: &[bool],
    meter: &mut Meter,
) -> Result<Items<Lit>, Stop>
    ensures stop { IfErr result (IsStop meter.new) }
    ensures counted { CountsConflicts meter.old meter.new }
{
    match lasting_values(alloc, scope.circuit, scope.view, start, wanted, meter) {
        Ok(values) => Ok(values),
        Err(end) => Err(solver_stop(end, meter)),
    }
}

// ---- the skeleton at hand

// A wall of the value between two places of the skeleton, where it has both.
fn wall_across(
    alloc: Global,
    scope: &Scope<'_>,
    situations: &[Situation],
    literal: Lit,
    meter: &mut Meter,
) -> Result<Option<Bar>, Stop>
    requires scope { IsScope scope.now }
    requires allowed { IsAllowedIn scope.now (skeleton_of situations.now) }
    ensures bar { IfOk result (λ found. IfSome found (IsBarIn scope.now situations.now)) }
    ensures stop { IfErr result (IsStop meter.new) }
    ensures counted { CountsConflicts meter.old meter.new }
{
    let i = literal.var as usize;
    let Some(inside) = place_with(situations, i, literal.positive) else {
        return Ok(None);
    };
    let Some(outside) = place_with(situations, i, !literal.positive) else {
        return Ok(None);
    };
    latch_wall(alloc, scope, situations, inside, outside, meter)
}

/// A wall of one of the values that excludes the skeleton.
pub(crate) fn own_wall(
    alloc: Global,
    scope: &Scope<'_>,
    situations: &[Situation],
    values: &[Lit],
    meter: &mut Meter,
) -> Result<Option<Bar>, Stop>
    requires scope { IsScope scope.now }
    requires allowed { IsAllowedIn scope.now (skeleton_of situations.now) }
    ensures bar { IfOk result (λ found. IfSome found (IsBarIn scope.now situations.now)) }
    ensures stop { IfErr result (IsStop meter.new) }
    ensures counted { CountsConflicts meter.old meter.new }
{
    for literal in values {
        if let Some(bar) = wall_across(alloc, scope, situations, *literal, meter)? {
            return Ok(Some(bar));
        }
    }
    Ok(None)
}

// ---- other skeletons

// What a skeleton is to cross: a latch that has one value in the first state, which is on these sides, and the other one at
// one of so many places.
#[derive(Clone, Copy)]
struct Crossing<'a> {
    sides: &'a [Lit],
    latch: usize,
    places: usize,
}

// The values of such a skeleton at a place.
fn crossing_values(
    alloc: Global,
    crossing: Crossing<'_>,
    place: usize,
    value: bool,
) -> Result<Items<ValueAt>, AllocError> {
    let mut values = Items::new(alloc);
    for side in crossing.sides {
        values.push(ValueAt {
            situation: 0,
            after: false,
            latch: side.var as usize,
            value: side.positive,
        })?;
    }
    values.push(ValueAt {
        situation: 0,
        after: false,
        latch: crossing.latch,
        value,
    })?;
    values.push(ValueAt {
        situation: (place / 2) as u64,
        after: place % 2 == 1,
        latch: crossing.latch,
        value: !value,
    })?;
    Ok(values)
}

// A skeleton that the entries allow, looked for among those that cross at a place.
fn crossing_at(
    alloc: Global,
    scope: &Scope<'_>,
    rounds: &mut Rounds,
    crossing: Crossing<'_>,
    place: usize,
    meter: &mut Meter,
) -> Result<Option<Skeleton>, Stop>
    requires scope { IsScope scope.now }
    requires seen { rounds.old ≡ asking_of_scope scope.now }
    ensures found { IfOk result (λ found. IfSome found (IsAllowedIn scope.now)) }
    ensures stop { IfErr result (IsStop meter.new) }
    ensures counted { CountsConflicts meter.old meter.new }
    ensures same { rounds.new ≡ rounds.old }
{
    let low = crossing_values(alloc, crossing, place, false)?;
    if let Some(found) = rounds.with_values(alloc, scope, low.as_slice(), meter)? {
        return Ok(Some(found));
    }
    let high = crossing_values(alloc, crossing, place, true)?;
    rounds.with_values(alloc, scope, high.as_slice(), meter)
}

// The same at any of the places.
fn crossed(
    alloc: Global,
    scope: &Scope<'_>,
    rounds: &mut Rounds,
    crossing: Crossing<'_>,
    meter: &mut Meter,
) -> Result<Option<Skeleton>, Stop>
    requires scope { IsScope scope.now }
    requires seen { rounds.old ≡ asking_of_scope scope.now }
    ensures found { IfOk result (λ found. IfSome found (IsAllowedIn scope.now)) }
    ensures stop { IfErr result (IsStop meter.new) }
    ensures counted { CountsConflicts meter.old meter.new }
    ensures same { rounds.new ≡ rounds.old }
{
    for place in 1..crossing.places {
        if let Some(found) = crossing_at(alloc, scope, rounds, crossing, place, meter)? {
            return Ok(Some(found));
        }
    }
    Ok(None)
}

// Where at these places no skeleton was found that crosses the latch, on whatever sides, it is not tried again.
fn give_up(
    alloc: Global,
    scope: &Scope<'_>,
    rounds: &mut Rounds,
    crossing: Crossing<'_>,
    meter: &mut Meter,
) -> Result<(), Stop>
    requires scope { IsScope scope.now }
    requires seen { rounds.old ≡ asking_of_scope scope.now }
    ensures stop { IfErr result (IsStop meter.new) }
    ensures counted { CountsConflicts meter.old meter.new }
    ensures same { rounds.new ≡ rounds.old }
{
    let on_any = Crossing {
        sides: &[],
        latch: crossing.latch,
        places: crossing.places,
    };
    if crossed(alloc, scope, rounds, on_any, meter)?.is_none() {
        rounds.dismiss(crossing.latch);
    }
    Ok(())
}

// A skeleton that crosses a value, with a wall of it.
fn wall_of(
    alloc: Global,
    scope: &Scope<'_>,
    rounds: &mut Rounds,
    crossing: Crossing<'_>,
    literal: Lit,
    meter: &mut Meter,
) -> Result<Option<Sought>, Stop>
    requires scope { IsScope scope.now }
    requires seen { rounds.old ≡ asking_of_scope scope.now }
    ensures sought { IfOk result (λ found. IfSome found (IsSoughtIn scope.now)) }
    ensures stop { IfErr result (IsStop meter.new) }
    ensures counted { CountsConflicts meter.old meter.new }
    ensures same { rounds.new ≡ rounds.old }
{
    let Some(skeleton) = crossed(alloc, scope, rounds, crossing, meter)? else {
        give_up(alloc, scope, rounds, crossing, meter)?;
        return Ok(None);
    };
    let situations = skeleton.situations.as_slice();
    match wall_across(alloc, scope, situations, literal, meter)? {
        Some(bar) => Ok(Some(Sought::Barred(bar, skeleton))),
        None => Ok(None),
    }
}

/// A wall of one of the values, with a skeleton that the entries allow and that it excludes. The values are those that no
/// step leaves in the arena of these situations' first state.
pub(crate) fn other_wall(
    alloc: Global,
    scope: &Scope<'_>,
    rounds: &mut Rounds,
    situations: &[Situation],
    values: &[Lit],
    meter: &mut Meter,
) -> Result<Option<Sought>, Stop>
    requires scope { IsScope scope.now }
    requires seen { rounds.old ≡ asking_of_scope scope.now }
    ensures sought { IfOk result (λ found. IfSome found (IsSoughtIn scope.now)) }
    ensures stop { IfErr result (IsStop meter.new) }
    ensures counted { CountsConflicts meter.old meter.new }
    ensures same { rounds.new ≡ rounds.old }
{
    let Some(first) = situations.get(0) else {
        return Ok(None);
    };
    let sides = wall_sides(alloc, scope.view, first.position.latches.as_slice())?;
    let places = situations.len().saturating_mul(2).min(MOST_PLACES);
    for literal in values {
        let crossing = Crossing {
            sides: sides.as_slice(),
            latch: literal.var as usize,
            places,
        };
        let found = wall_of(alloc, scope, rounds, crossing, *literal, meter)?;
        if let Some(sought) = found {
            return Ok(Some(sought));
        }
    }
    Ok(None)
}
