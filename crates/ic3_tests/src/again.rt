//! One search that is asked for many goals, one after the other, against a search of all states. The main call is
//! `agrees_again`.
ghost use Rattle.std.specs.Prelude.{◌≡◌, []};
ghost use Rattle.entry.specs.CheckedEntries.{GoesOnFrom};
ghost use Rattle.ic3_semantics.specs.Searching.{IsGoal};

use crate::cases::Arena;
use crate::drawing::arena_of;
use crate::drawn_views::{Parts, parts_of};
use crate::searching::NO_LIMIT;
use crate::stops::Stop;
use circuit::Circuit;
use drawn_circuits::{literal_count, rest, state_of};
use edge::Meter;
use entry::good_lists_grow;
use ic3::{Goal, ReachEnd, Reached, Search, Start};
use std::alloc::{AllocError, Global};

// What the search answers next, without entries.
fn ask(
    alloc: Global,
    c: &Circuit,
    search: &mut Search,
    goal: &Goal<'_>,
    meter: &mut Meter,
) -> Result<Reached, ReachEnd>
    requires circuit { search.old.circuit ≡ c.now }
    requires on { GoesOnFrom search.old.view [] }
    requires goal { IsGoal c.now goal.now }
    ensures circuit { search.new.circuit ≡ c.now }
    ensures on { GoesOnFrom search.new.view [] }
{
    good_lists_grow(c);
    search.reach(alloc, &[], goal, meter)
}

fn ask_state(
    alloc: Global,
    c: &Circuit,
    search: &mut Search,
    to: &[bool],
    meter: &mut Meter,
) -> Result<Reached, ReachEnd>
    requires circuit { search.old.circuit ≡ c.now }
    requires on { GoesOnFrom search.old.view [] }
    ensures circuit { search.new.circuit ≡ c.now }
    ensures on { GoesOnFrom search.new.view [] }
{
    if to.len() != c.latches().len() {
        return Err(ReachEnd::Memory);
    }
    ask(alloc, c, search, &Goal::State(to), meter)
}

fn ask_literal(
    alloc: Global,
    c: &Circuit,
    search: &mut Search,
    literal: u64,
    meter: &mut Meter,
) -> Result<Reached, ReachEnd>
    requires circuit { search.old.circuit ≡ c.now }
    requires on { GoesOnFrom search.old.view [] }
    ensures circuit { search.new.circuit ≡ c.now }
    ensures on { GoesOnFrom search.new.view [] }
{
    if literal / 2 > c.max() {
        return Err(ReachEnd::Memory);
    }
    let goal = Goal::Literal {
        literal,
        avoid: &[],
    };
    ask(alloc, c, search, &goal, meter)
}

// Whether the search answers for a state as a search of all states does.
fn agrees_on_state(
    alloc: Global,
    c: &Circuit,
    search: &mut Search,
    arena: Arena<'_>,
    to: u64,
    meter: &mut Meter,
) -> Result<bool, AllocError>
    requires circuit { search.old.circuit ≡ c.now }
    requires on { GoesOnFrom search.old.view [] }
    ensures circuit { search.new.circuit ≡ c.now }
    ensures on { GoesOnFrom search.new.view [] }
{
    let values = state_of(alloc, arena.d, to)?;
    let wanted = arena.has_path(alloc, &Goal::State(values.as_slice()))?;
    let found = ask_state(alloc, c, search, values.as_slice(), meter);
    let agrees = is_path(&found, wanted);
    drop(found);
    drop(values);
    Ok(agrees)
}

// The same for a literal.
fn agrees_on_literal(
    alloc: Global,
    c: &Circuit,
    search: &mut Search,
    arena: Arena<'_>,
    number: u64,
    meter: &mut Meter,
) -> Result<bool, AllocError>
    requires circuit { search.old.circuit ≡ c.now }
    requires on { GoesOnFrom search.old.view [] }
    ensures circuit { search.new.circuit ≡ c.now }
    ensures on { GoesOnFrom search.new.view [] }
{
    let literal = rest(number.wrapping_mul(5), literal_count(arena.d));
    let goal = Goal::Literal {
        literal,
        avoid: &[],
    };
    let wanted = arena.has_path(alloc, &goal)?;
    let found = ask_literal(alloc, c, search, literal, meter);
    let agrees = is_path(&found, wanted);
    drop(found);
    Ok(agrees)
}

// Whether it does so for each state, and for a literal after each.
fn agrees_on_all(
    alloc: Global,
    c: &Circuit,
    search: &mut Search,
    arena: Arena<'_>,
    meter: &mut Meter,
) -> Result<bool, AllocError>
    requires circuit { search.old.circuit ≡ c.now }
    requires on { GoesOnFrom search.old.view [] }
{
    for to in 0..arena.space.count {
        if !agrees_on_state(alloc, c, search, arena, to, meter)?
            || !agrees_on_literal(alloc, c, search, arena, to, meter)?
        {
            return Ok(false);
        }
    }
    Ok(true)
}

fn is_path(reached: &Result<Reached, ReachEnd>, wanted: bool) -> bool {
    match reached {
        Ok(Reached::Path(_)) => wanted,
        Ok(Reached::Closed { .. }) => !wanted,
        Err(_) => false,
    }
}

// Whether one search from the initial states does.
fn asks_all(alloc: Global, parts: &Parts) -> Result<bool, AllocError> {
    let mut meter = Meter::new(NO_LIMIT, NO_LIMIT);
    let mut search = Search::new(alloc, &parts.shared, Start::Initial)?;
    let arena = arena_of(parts, None);
    let agrees = agrees_on_all(alloc, &*parts.shared, &mut search, arena, &mut meter);
    drop(search);
    agrees
}

fn asks_drawn(alloc: Global, number: u64) -> Result<bool, Stop> {
    let parts = parts_of(alloc, number)?;
    let agrees = asks_all(alloc, &parts);
    drop(parts);
    Ok(agrees?)
}

/// Whether one search from the initial states of the drawn circuit with a number answers for all states, one after the
/// other, and for literals between, as a search of all its states does.
pub(crate) fn agrees_again(alloc: Global, number: u64) -> bool {
    match asks_drawn(alloc, number) {
        Ok(is_right) => is_right,
        Err(_) => false,
    }
}
