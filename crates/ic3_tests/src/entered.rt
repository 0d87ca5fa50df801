//! Searches in drawn circuits behind entries, against a search of all states. The main call is `agrees_behind_entries`.

ghost use Rattle.std.specs.Arc.{arc_value};
ghost use Rattle.entry.specs.CheckedEntries.{viewed};
ghost use Rattle.entry.specs.Laws.{IsGoodList};

use crate::cases::Arena;
use crate::closing_sets::separates;
use crate::drawn_views::{from_drawn, parts_of, view_drawn};
use crate::searching::{NO_LIMIT, searched};
use crate::states::{Known, Space, sets_of};
use crate::stops::Stop;
use circuit::Circuit;
use cnf::{Cube, Lit};
use drawn_circuits::{Drawn, draw, literal_count, state_of};
use edge::Meter;
use entry::{Checked, Entry, Listed};
use fair_semantics::Skeleton;
use ic3::{Goal, Reached};
use proved_entries::{certified, claim_of, entry_again, judge, proved};
use std::alloc::{AllocError, Global};
use std::sync::Arc;

// Whether an entry separates as the search is to, and is certified and taken where it excludes anything.
fn is_entry(
    alloc: Global,
    shared: &Arc<Circuit>,
    view: &[Arc<Checked>],
    arena: Arena<'_>,
    goal: &Goal<'_>,
    entry: Listed,
) -> Result<bool, Stop>
    requires view { IsGoodList (arc_value shared.now) (viewed view.now) }
{
    match is_apart(alloc, arena, goal, &entry) {
        Ok(true) => is_taken_where(alloc, shared, view, arena, entry),
        other => {
            drop(entry);
            other
        }
    }
}

// Whether an entry separates as the search is to.
fn is_apart(
    alloc: Global,
    arena: Arena<'_>,
    goal: &Goal<'_>,
    entry: &Listed,
) -> Result<bool, Stop> {
    let goals = arena.goals(alloc, goal)?;
    Ok(separates(arena.space, arena.known, entry, arena.starts(), goals))
}

// Whether an entry is certified and taken where it excludes anything.
fn is_taken_where(
    alloc: Global,
    shared: &Arc<Circuit>,
    view: &[Arc<Checked>],
    arena: Arena<'_>,
    entry: Listed,
) -> Result<bool, Stop>
    requires view { IsGoodList (arc_value shared.now) (viewed view.now) }
{
    match arena.skeleton(alloc, &entry)? {
        Some(skeleton) => is_certified(alloc, shared, view, entry, skeleton),
        None => Ok(true),
    }
}

// Whether the claim of an entry is certified, for a skeleton that the entry excludes, and taken as it could be read from a
// certificate.
fn is_certified(
    alloc: Global,
    shared: &Arc<Circuit>,
    view: &[Arc<Checked>],
    entry: Listed,
    skeleton: Skeleton,
) -> Result<bool, Stop>
    requires view { IsGoodList (arc_value shared.now) (viewed view.now) }
{
    let known = proved(alloc, shared, view, entry)?;
    let claim = claim_of(alloc, known.listed(), skeleton)?;
    let mut meter = Meter::new(NO_LIMIT, 0);
    let checked = certified(alloc, shared, view, known, claim, &mut meter)?;
    let is_so = is_taken(alloc, &**shared, view, &checked);
    drop(checked);
    is_so
}

fn is_judged(alloc: Global, c: &Circuit, view: &[Arc<Checked>], e: &Entry) -> bool {
    match judge(alloc, c, view, e) {
        Ok(()) => true,
        Err(_) => false,
    }
}

fn is_taken(
    alloc: Global,
    c: &Circuit,
    view: &[Arc<Checked>],
    checked: &Checked,
) -> Result<bool, Stop> {
    let e = entry_again(alloc, checked)?;
    let is_so = is_judged(alloc, c, view, &e);
    drop(e);
    Ok(is_so)
}

/// Whether a search answers as it is to: a path is replayed, a closed set tested, certified and taken.
pub(crate) fn is_answered(
    alloc: Global,
    shared: &Arc<Circuit>,
    view: &[Arc<Checked>],
    arena: Arena<'_>,
    goal: &Goal<'_>,
    least: bool,
) -> Result<bool, Stop>
    requires view { IsGoodList (arc_value shared.now) (viewed view.now) }
{
    let start = arena.start(alloc)?;
    let mut meter = Meter::new(NO_LIMIT, NO_LIMIT);
    let answer = searched(alloc, &**shared, view, &start, goal, least, &mut meter);
    drop(start);
    is_right(alloc, shared, view, arena, goal, answer?)
}

// Whether the answer is what a search of all states says.
fn is_right(
    alloc: Global,
    shared: &Arc<Circuit>,
    view: &[Arc<Checked>],
    arena: Arena<'_>,
    goal: &Goal<'_>,
    answer: Reached,
) -> Result<bool, Stop>
    requires view { IsGoodList (arc_value shared.now) (viewed view.now) }
{
    let wanted = arena.has_path(alloc, goal)?;
    match answer {
        Reached::Path(positions) => {
            Ok(wanted && arena.replays(alloc, goal, positions.as_slice())?)
        }
        Reached::Closed { clauses, uses } => {
            let entry = Listed {
                kind: arena.kind(),
                set: clauses,
                uses,
            };
            Ok(!wanted && is_entry(alloc, shared, view, arena, goal, entry)?)
        }
    }
}

// ---- drawn questions

// A cube of one or two literals over the latches.
fn cube_drawn(alloc: Global, d: &Drawn, seed: &mut u64) -> Result<Cube, AllocError> {
    let first = literal_drawn(d, seed);
    let second = literal_drawn(d, seed);
    if draw(seed, 2) == 0 {
        Cube::from_slice(alloc, &[first])
    } else {
        Cube::from_slice(alloc, &[first, second])
    }
}

fn literal_drawn(d: &Drawn, seed: &mut u64) -> Lit {
    Lit {
        var: draw(seed, d.latches),
        positive: draw(seed, 2) == 0,
    }
}

// Whether a search to a drawn state, and one to a drawn literal that avoids up to two cubes, answer as they are to.
fn agrees_on<'a>(
    alloc: Global,
    shared: &Arc<Circuit>,
    view: &'a [Arc<Checked>],
    d: &'a Drawn,
    space: &'a Space,
    seed: &mut u64,
) -> Result<bool, Stop>
    requires view { IsGoodList (arc_value shared.now) (viewed view.now) }
{
    let sets = sets_of(alloc, space, view)?;
    let arena = Arena {
        d,
        space,
        known: Known {
            view,
            sets: sets.as_slice(),
        },
        from: from_drawn(space, seed),
    };
    agrees_twice(alloc, shared, view, arena, seed)
}

fn agrees_twice(
    alloc: Global,
    shared: &Arc<Circuit>,
    view: &[Arc<Checked>],
    arena: Arena<'_>,
    seed: &mut u64,
) -> Result<bool, Stop>
    requires view { IsGoodList (arc_value shared.now) (viewed view.now) }
{
    Ok(
        agrees_on_state(alloc, shared, view, arena, seed)?
            && agrees_on_literal(alloc, shared, view, arena, seed)?,
    )
}

fn agrees_on_state(
    alloc: Global,
    shared: &Arc<Circuit>,
    view: &[Arc<Checked>],
    arena: Arena<'_>,
    seed: &mut u64,
) -> Result<bool, Stop>
    requires view { IsGoodList (arc_value shared.now) (viewed view.now) }
{
    let to = state_of(alloc, arena.d, draw(seed, arena.space.count))?;
    let least = draw(seed, 2) == 0;
    let is_so = is_answered(
        alloc,
        shared,
        view,
        arena,
        &Goal::State(to.as_slice()),
        least,
    );
    drop(to);
    is_so
}

fn agrees_on_literal(
    alloc: Global,
    shared: &Arc<Circuit>,
    view: &[Arc<Checked>],
    arena: Arena<'_>,
    seed: &mut u64,
) -> Result<bool, Stop>
    requires view { IsGoodList (arc_value shared.now) (viewed view.now) }
{
    let cubes = cubes_drawn(alloc, arena.d, seed)?;
    let goal = Goal::Literal {
        literal: draw(seed, literal_count(arena.d)),
        avoid: cubes.as_slice(),
    };
    let least = draw(seed, 2) == 0;
    let is_so = is_answered(alloc, shared, view, arena, &goal, least);
    drop(cubes);
    is_so
}

// Up to two cubes.
fn cubes_drawn(alloc: Global, d: &Drawn, seed: &mut u64) -> Result<Vec<Cube>, AllocError> {
    let mut cubes = Vec::new(alloc);
    for _turn in 0..draw(seed, 3) {
        cubes.push(cube_drawn(alloc, d, seed)?)?;
    }
    Ok(cubes)
}

// Whether four searches behind drawn entries answer as they are to.
fn agrees_drawn(alloc: Global, number: u64) -> Result<bool, Stop> {
    let parts = parts_of(alloc, number)?;
    let mut seed = number.saturating_add(1).wrapping_mul(0x2545_f491_4f6c_dd1d);
    let agrees = agrees_in(alloc, &parts.shared, &parts.d, &parts.space, &mut seed);
    drop(parts);
    agrees
}

fn agrees_in(
    alloc: Global,
    shared: &Arc<Circuit>,
    d: &Drawn,
    space: &Space,
    seed: &mut u64,
) -> Result<bool, Stop> {
    let view = view_drawn(alloc, shared, d, space, seed)?;
    let agrees = agrees_behind(alloc, shared, view.as_slice(), d, space, seed);
    drop(view);
    agrees
}

fn agrees_behind(
    alloc: Global,
    shared: &Arc<Circuit>,
    view: &[Arc<Checked>],
    d: &Drawn,
    space: &Space,
    seed: &mut u64,
) -> Result<bool, Stop>
    requires view { IsGoodList (arc_value shared.now) (viewed view.now) }
{
    Ok(
        agrees_on(alloc, shared, view, d, space, seed)?
            && agrees_on(alloc, shared, view, d, space, seed)?,
    )
}

/// Whether searches in the drawn circuit with a number, behind up to four drawn entries, answer as a search of all its
/// states does; a path is replayed, and a closed set tested, certified and taken by `check_entry`.
pub(crate) fn agrees_behind_entries(alloc: Global, number: u64) -> bool {
    match agrees_drawn(alloc, number) {
        Ok(is_right) => is_right,
        Err(_) => false,
    }
}
