//! Searches of drawn circuits without entries, against a search of all their states. The main calls are `agrees` and
//! `ends_within`.

use crate::cases::Arena;
use crate::drawn_views::{Parts, parts_of};
use crate::entered::is_answered;
use crate::searching::searched;
use crate::states::Known;
use crate::stops::Stop;
use circuit::Circuit;
use drawn_circuits::{literal_count, rest, state_of};
use edge::Meter;
use entry::good_lists_grow;
use ic3::{Goal, ReachEnd, Reached, Start};
use std::alloc::Global;
use std::sync::Arc;

/// A drawn circuit without entries.
pub(crate) fn arena_of(parts: &Parts, from: Option<u64>) -> Arena<'_> {
    Arena {
        d: &parts.d,
        space: &parts.space,
        known: Known {
            view: &[],
            sets: &[],
        },
        from,
    }
}

// Whether a search without entries answers as a search of all states does.
fn is_found(
    alloc: Global,
    shared: &Arc<Circuit>,
    arena: Arena<'_>,
    goal: &Goal<'_>,
) -> Result<bool, Stop> {
    good_lists_grow(&**shared);
    is_answered(alloc, shared, &[], arena, goal, true)
}

fn agrees_on_state(
    alloc: Global,
    shared: &Arc<Circuit>,
    arena: Arena<'_>,
    number: u64,
) -> Result<bool, Stop> {
    let to = rest(number.wrapping_mul(21), arena.space.count);
    let values = state_of(alloc, arena.d, to)?;
    is_found(alloc, shared, arena, &Goal::State(values.as_slice()))
}

fn agrees_on_literal(
    alloc: Global,
    shared: &Arc<Circuit>,
    arena: Arena<'_>,
    number: u64,
) -> Result<bool, Stop> {
    let goal = Goal::Literal {
        literal: rest(number.wrapping_mul(5), literal_count(arena.d)),
        avoid: &[],
    };
    is_found(alloc, shared, arena, &goal)
}

// Every second search is from a state.
fn from_of(number: u64, count: u64) -> Option<u64> {
    if number % 2 == 0 {
        None
    } else {
        Some(rest(number / 2, count))
    }
}

// Whether the circuit with a number is searched rightly.
fn agrees_on_both(alloc: Global, parts: &Parts, number: u64) -> Result<bool, Stop> {
    let arena = arena_of(parts, from_of(number, parts.space.count));
    Ok(
        agrees_on_state(alloc, &parts.shared, arena, number)?
            && agrees_on_literal(alloc, &parts.shared, arena, number)?,
    )
}

fn agrees_drawn(alloc: Global, number: u64) -> Result<bool, Stop> {
    let parts = parts_of(alloc, number)?;
    let agrees = agrees_on_both(alloc, &parts, number);
    drop(parts);
    agrees
}

/// Whether searches in the drawn circuit with a number answer as a search of all its states does; a path is replayed, and
/// a closed set tested, certified and taken by `check_entry`.
pub(crate) fn agrees(alloc: Global, number: u64) -> bool {
    match agrees_drawn(alloc, number) {
        Ok(is_right) => is_right,
        Err(_) => false,
    }
}

// Whether the search ended with an answer, or at the limit that it tells.
fn is_within(found: &Result<Reached, ReachEnd>, meter: &Meter, limit: u64) -> bool {
    let spent = meter.spending();
    match found {
        Ok(_) => spent.conflicts() <= limit && spent.steps() <= limit,
        Err(ReachEnd::SpentConflicts) => spent.conflicts() == limit,
        Err(ReachEnd::SpentSteps) => spent.steps() == limit,
        Err(ReachEnd::Memory) => false,
    }
}

fn ends_on(alloc: Global, parts: &Parts, limit: u64) -> Result<bool, Stop> {
    let to = state_of(alloc, &parts.d, 42)?;
    let mut meter = Meter::new(limit, limit);
    good_lists_grow(&*parts.shared);
    let found = searched(
        alloc,
        &*parts.shared,
        &[],
        &Start::Initial,
        &Goal::State(to.as_slice()),
        true,
        &mut meter,
    );
    let within = is_within(&found, &meter, limit);
    drop(found);
    Ok(within)
}

fn ends_drawn(alloc: Global, limit: u64) -> Result<bool, Stop> {
    let parts = parts_of(alloc, limit % 5)?;
    let within = ends_on(alloc, &parts, limit);
    drop(parts);
    within
}

/// Whether a search in a drawn circuit under this limit of conflicts, and of steps, ends by an answer or at the limit.
pub(crate) fn ends_within(alloc: Global, limit: u64) -> bool {
    match ends_drawn(alloc, limit) {
        Ok(is_right) => is_right,
        Err(_) => false,
    }
}
