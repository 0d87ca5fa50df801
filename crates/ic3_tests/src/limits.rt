//! Searches in drawn circuits behind entries, under limits one by one. The main call is `limits_behind_entries`.

ghost use Rattle.entry.specs.CheckedEntries.{viewed};
ghost use Rattle.entry.specs.Laws.{IsGoodList};

use crate::cases::Arena;
use crate::drawn_views::{from_drawn, parts_of, view_drawn};
use crate::searching::{NO_LIMIT, searched};
use crate::states::{Known, Space, sets_of};
use crate::stops::Stop;
use circuit::Circuit;
use drawn_circuits::{Drawn, draw, literal_count, state_of};
use edge::Meter;
use entry::Checked;
use ic3::{Goal, ReachEnd, Reached, Start};
use std::alloc::Global;
use std::sync::Arc;

// A search, with its answer as a search of all states says it, and the kind of its limit.
#[derive(Clone, Copy)]
struct Limited<'a> {
    start: &'a Start,
    goal: &'a Goal<'a>,
    has_path: bool,
    by_steps: bool,
}

// Whether a search ended at the limit of its kind, and counted no more than is allowed.
fn is_spent(end: ReachEnd, by_steps: bool, meter: &Meter, limit: u64) -> bool {
    let spent = meter.spending();
    match (end, by_steps) {
        (ReachEnd::SpentSteps, true) => spent.steps() == limit,
        (ReachEnd::SpentConflicts, false) => spent.conflicts() == limit,
        _ => false,
    }
}

fn meter_of(by_steps: bool, limit: u64) -> Meter {
    if by_steps {
        Meter::new(NO_LIMIT, limit)
    } else {
        Meter::new(limit, NO_LIMIT)
    }
}

fn counted(meter: &Meter, by_steps: bool) -> u64 {
    let spent = meter.spending();
    if by_steps {
        spent.steps()
    } else {
        spent.conflicts()
    }
}

fn is_path(reached: &Reached) -> bool {
    match reached {
        Reached::Path(_) => true,
        Reached::Closed { .. } => false,
    }
}

// Under a limit: whether the search answers as it is to, without having counted more, or, where it does not answer, ends
// otherwise than at its limit; nothing where it ends there.
fn told_at(
    alloc: Global,
    c: &Circuit,
    view: &[Arc<Checked>],
    asked: Limited<'_>,
    limit: u64,
) -> Option<bool>
    requires view { IsGoodList c.now (viewed view.now) }
{
    let mut meter = meter_of(asked.by_steps, limit);
    match searched(alloc, c, view, asked.start, asked.goal, false, &mut meter) {
        Ok(reached) => {
            let is_so = is_path(&reached) == asked.has_path;
            drop(reached);
            Some(is_so && counted(&meter, asked.by_steps) <= limit)
        }
        Err(end) if is_spent(end, asked.by_steps, &meter, limit) => None,
        Err(_) => Some(false),
    }
}

// The least limit under which a search answers, where it ends at each one below and then answers as it is to.
fn least_limit(
    alloc: Global,
    c: &Circuit,
    view: &[Arc<Checked>],
    asked: Limited<'_>,
) -> Result<u64, Stop>
    requires view { IsGoodList c.now (viewed view.now) }
{
    for limit in 0..1000 {
        if let Some(is_right) = told_at(alloc, c, view, asked, limit) {
            return if is_right { Ok(limit) } else { Err(Stop) };
        }
    }
    Err(Stop)
}

/// The least limits of steps and of conflicts.
pub(crate) type Limits = [u64; 2];

/// The sums of limits.
pub(crate) fn added(one: Limits, other: Limits) -> Limits {
    [
        one[0].saturating_add(other[0]),
        one[1].saturating_add(other[1]),
    ]
}

fn least_limits(
    alloc: Global,
    c: &Circuit,
    view: &[Arc<Checked>],
    start: &Start,
    goal: &Goal<'_>,
    has_path: bool,
) -> Result<Limits, Stop>
    requires view { IsGoodList c.now (viewed view.now) }
{
    let by_steps = Limited {
        start,
        goal,
        has_path,
        by_steps: true,
    };
    let by_conflicts = Limited {
        by_steps: false,
        ..by_steps
    };
    Ok([
        least_limit(alloc, c, view, by_steps)?,
        least_limit(alloc, c, view, by_conflicts)?,
    ])
}

// The same from the start of an arena.
fn limits_to(
    alloc: Global,
    c: &Circuit,
    view: &[Arc<Checked>],
    arena: Arena<'_>,
    goal: &Goal<'_>,
) -> Result<Limits, Stop>
    requires view { IsGoodList c.now (viewed view.now) }
{
    let has_path = arena.has_path(alloc, goal)?;
    let start = arena.start(alloc)?;
    least_limits(alloc, c, view, &start, goal, has_path)
}

// The sums of those to a state, and to a literal.
fn limits_to_both(
    alloc: Global,
    c: &Circuit,
    view: &[Arc<Checked>],
    arena: Arena<'_>,
    to: u64,
    literal: u64,
) -> Result<Limits, Stop>
    requires view { IsGoodList c.now (viewed view.now) }
{
    let at_literal = Goal::Literal {
        literal,
        avoid: &[],
    };
    let to_literal = limits_to(alloc, c, view, arena, &at_literal)?;
    Ok(added(to_literal, limits_to_state(alloc, c, view, arena, to)?))
}

fn limits_to_state(
    alloc: Global,
    c: &Circuit,
    view: &[Arc<Checked>],
    arena: Arena<'_>,
    to: u64,
) -> Result<Limits, Stop>
    requires view { IsGoodList c.now (viewed view.now) }
{
    let values = state_of(alloc, arena.d, to)?;
    limits_to(alloc, c, view, arena, &Goal::State(values.as_slice()))
}

fn limits_on<'a>(
    alloc: Global,
    c: &Circuit,
    view: &'a [Arc<Checked>],
    d: &'a Drawn,
    space: &'a Space,
    seed: &mut u64,
) -> Result<Limits, Stop>
    requires view { IsGoodList c.now (viewed view.now) }
{
    let to = draw(seed, space.count);
    let from = from_drawn(space, seed);
    let literal = draw(seed, literal_count(d));
    let sets = sets_of(alloc, space, view)?;
    let known = Known {
        view,
        sets: sets.as_slice(),
    };
    let arena = Arena {
        d,
        space,
        known,
        from,
    };
    limits_to_both(alloc, c, view, arena, to, literal)
}

fn limits_in(
    alloc: Global,
    shared: &Arc<Circuit>,
    d: &Drawn,
    space: &Space,
    seed: &mut u64,
) -> Result<Limits, Stop> {
    let view = view_drawn(alloc, shared, d, space, seed)?;
    limits_on(alloc, &**shared, view.as_slice(), d, space, seed)
}

fn limits_drawn(alloc: Global, number: u64) -> Result<Limits, Stop> {
    let parts = parts_of(alloc, number)?;
    let mut seed = number.saturating_add(1).wrapping_mul(0x9fb2_1c65_1e98_df25);
    limits_in(alloc, &parts.shared, &parts.d, &parts.space, &mut seed)
}

/// Of two searches in the drawn circuit with a number, behind up to four drawn entries, to a state and to a literal, the
/// least limits under which they answer as a search of all states does, added up; nothing where one of them does not, or
/// where it is not spent at each limit below.
pub(crate) fn limits_behind_entries(alloc: Global, number: u64) -> Option<Limits> {
    match limits_drawn(alloc, number) {
        Ok(limits) => Some(limits),
        Err(_) => None,
    }
}
