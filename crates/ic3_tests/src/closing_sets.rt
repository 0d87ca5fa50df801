//! Entries of a drawn circuit whose sets are found by a search of all states. The main call is `entry_drawn`.

use crate::states::{Known, Space, is_in, is_part, one};
use cnf::{Clause, Lit};
use cnf_unroll::ClauseSet;
use drawn_circuits::{Drawn, bit, draw, rest};
use entry::{Kind, Listed, Side, Use};
use items::Items;
use std::alloc::{AllocError, Global};

// What an entry does with one before it: nothing, a use without a side, or one that names a side.
#[derive(Clone, Copy)]
enum Part {
    Nothing,
    Used(Side),
}

fn part_drawn(known: Known<'_>, k: u64, kind: Kind, seed: &mut u64) -> Part {
    let number = draw(seed, 5);
    if !known.is_wall(k) {
        return if number < 2 {
            Part::Nothing
        } else {
            Part::Used(Side::Any)
        };
    }
    match (kind, number) {
        (Kind::Reach, _) | (Kind::Wall, 0) => Part::Nothing,
        (Kind::Wall, 1) => Part::Used(Side::Any),
        (Kind::Wall, 2 | 3) => Part::Used(Side::In),
        (Kind::Wall, _) => Part::Used(Side::Out),
    }
}

fn parts_drawn(
    alloc: Global,
    known: Known<'_>,
    kind: Kind,
    seed: &mut u64,
) -> Result<Vec<Part>, AllocError> {
    let mut parts = Vec::new(alloc);
    for k in 0..known.view.len() as u64 {
        parts.push(part_drawn(known, k, kind, seed))?;
    }
    Ok(parts)
}

fn is_used(parts: &[Part], k: usize) -> bool {
    if k >= parts.len() {
        return false;
    }
    match parts[k] {
        Part::Nothing => false,
        Part::Used(_) => true,
    }
}

// Uses too each entry of which a used one names a side.
fn close(known: Known<'_>, parts: &mut [Part]) {
    for k in (0..known.view.len()).rev() {
        if k < known.view.len() && is_used(parts, k) {
            use_named(known.view[k].listed().uses.as_slice(), parts);
        }
    }
}

fn use_named(uses: &[Use], parts: &mut [Part]) {
    for named in uses {
        if names_side(named.side) {
            use_too(parts, named.entry as usize);
        }
    }
}

fn names_side(side: Side) -> bool {
    match side {
        Side::Any => false,
        Side::In | Side::Out => true,
    }
}

fn use_too(parts: &mut [Part], place: usize) {
    if place < parts.len() && !is_used(parts, place) {
        parts[place] = Part::Used(Side::Any);
    }
}

fn uses_of(alloc: Global, parts: &[Part]) -> Result<Items<Use>, AllocError> {
    let mut uses = Items::new(alloc);
    let mut entry = 0u32;
    for part in parts {
        if let Part::Used(side) = *part {
            uses.push(Use { entry, side })?;
        }
        entry = entry.saturating_add(1);
    }
    Ok(uses)
}

/// The entries that uses name, as a set of numbers.
pub(crate) fn used_of(uses: &[Use]) -> u64 {
    let mut used: u64 = 0;
    for u in uses {
        used |= one(u64::from(u.entry));
    }
    used
}

// ---- clauses: a cube is the latches that it tells of, as a set of numbers, and a state in it

// The states of a cube.
fn cube_states(space: &Space, told: u64, state: u64) -> u64 {
    let mut set: u64 = 0;
    for other in 0..space.count {
        if (other ^ state) & told == 0 {
            set |= one(other);
        }
    }
    set
}

// The latches that a cube around a state has to tell of to miss a set.
fn told_around(space: &Space, d: &Drawn, set: u64, state: u64) -> u64 {
    let mut told = space.count.saturating_sub(1);
    for latch in 0..d.latches {
        let fewer = told & !one(latch);
        if cube_states(space, fewer, state) & set == 0 {
            told = fewer;
        }
    }
    told
}

fn denial(alloc: Global, d: &Drawn, told: u64, state: u64) -> Result<Clause, AllocError> {
    let mut clause = Clause::new(alloc);
    for latch in 0..d.latches {
        if is_in(told, latch) {
            clause.push(Lit {
                var: latch,
                positive: !bit(state, latch),
            })?;
        }
    }
    Ok(clause)
}

// Clauses that exclude the states of `outside` and none of `set`.
fn clauses_between(
    alloc: Global,
    space: &Space,
    d: &Drawn,
    set: u64,
    outside: u64,
) -> Result<ClauseSet, AllocError> {
    let mut clauses = Items::new(alloc);
    let mut left = outside & !set;
    for state in 0..space.count {
        if is_in(left, state) {
            let told = told_around(space, d, set, state);
            left &= !cube_states(space, told, state);
            let clause = denial(alloc, d, told, state)?;
            clauses.push(clause)?;
        }
    }
    Ok(clauses)
}

// ---- entries

// A state of a set, if it has one.
fn member(space: &Space, set: u64, seed: &mut u64) -> u64 {
    let first = draw(seed, space.count);
    for turn in 0..space.count {
        let state = rest(first.saturating_add(turn), space.count);
        if is_in(set, state) {
            return one(state);
        }
    }
    0
}

// The least set that no step which the uses allow leaves, of the initial states or of some state on the sides of the
// uses.
fn set_drawn(
    space: &Space,
    known: Known<'_>,
    kind: Kind,
    region: u64,
    used: u64,
    seed: &mut u64,
) -> u64 {
    let first = match kind {
        Kind::Reach => space.initial,
        Kind::Wall => member(space, region, seed),
    };
    let more = if draw(seed, 3) == 0 {
        member(space, region, seed)
    } else {
        0
    };
    known.reached(space, used, first | more)
}

/// An entry that stands behind the known ones.
pub(crate) fn entry_drawn(
    alloc: Global,
    d: &Drawn,
    space: &Space,
    known: Known<'_>,
    seed: &mut u64,
) -> Result<Listed, AllocError> {
    let kind = if draw(seed, 2) == 0 {
        Kind::Reach
    } else {
        Kind::Wall
    };
    let uses = uses_drawn(alloc, known, kind, seed)?;
    let used = used_of(uses.as_slice());
    let region = known.region(space, uses.as_slice());
    let set = set_drawn(space, known, kind, region, used, seed);
    let clauses = clauses_between(alloc, space, d, set, region)?;
    Ok(Listed {
        kind,
        set: clauses,
        uses,
    })
}

fn uses_drawn(
    alloc: Global,
    known: Known<'_>,
    kind: Kind,
    seed: &mut u64,
) -> Result<Items<Use>, AllocError> {
    let mut parts = parts_drawn(alloc, known, kind, seed)?;
    close(known, parts.as_mut_slice());
    uses_of(alloc, parts.as_slice())
}

/// Whether the set of an entry holds some states, misses others, and is left by no step that its uses allow.
pub(crate) fn separates(
    space: &Space,
    known: Known<'_>,
    entry: &Listed,
    starts: u64,
    goals: u64,
) -> bool {
    let set = known.set_of(space, entry);
    let used = used_of(entry.uses.as_slice());
    is_part(starts, set) && set & goals == 0 && is_part(known.image(space, used, set), set)
}
