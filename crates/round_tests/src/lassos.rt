//! Shortest lassos of drawn circuits, by a bounded search and by a search of all states. The main calls are `searched_within`
//! and `fewest_positions`.

use crate::counting::{Steps, blank, is_in, put, step_at, step_from};
use crate::drawn::Case;
use circuit::Circuit;
use drawn_circuits::{Drawn, may_begin};
use edge::Meter;
use lasso_bmc::{SearchEnd, Searched, search};
use std::alloc::{AllocError, Global};
use std::test::*;

// What is answered: a lasso of so many positions; none of so many as were asked for; up to so many none, and the budget is
// spent; nothing of these.
#[derive(Clone, Copy, PartialEq, Eq)]
enum Told {
    Found(u64),
    None,
    Spent(u32),
    Nothing,
}

fn told_as(found: &Result<Searched, SearchEnd>) -> Told {
    match found {
        Ok(Searched::Found(lasso)) => Told::Found(lasso.inputs.len() as u64),
        Ok(Searched::NoneWithin) => Told::None,
        Err(SearchEnd::Spent(_, done)) => Told::Spent(*done),
        Err(SearchEnd::Memory) => Told::Nothing,
    }
}

// What a search of the first property tells.
fn searched(alloc: Global, c: &Circuit, depth: u32, meter: &mut Meter) -> Told {
    if c.property_count() == 0 {
        return Told::Nothing;
    }
    let found = search(alloc, c, 0, 0, depth, meter);
    let told = told_as(&found);
    drop(found);
    told
}

fn searched_within(alloc: Global, c: &Circuit, depth: u32, conflicts: u64) -> Told {
    let mut meter = Meter::new(conflicts, 4_294_967_295);
    searched(alloc, c, depth, &mut meter)
}

// ---- a search of all states

// The pairs of a state and the literals that were seen that follow by one position, where they are new.
fn follow(
    alloc: Global,
    steps: &Steps,
    met: &mut [bool],
    level: &[u64],
) -> Result<Vec<u64>, AllocError> {
    let mut next = Vec::new(alloc);
    for pair in level {
        for inputs in 0..4 {
            if let Some(after) = step_from(steps, *pair, inputs)
                && put(met, after)
            {
                next.push(after)?;
            }
        }
    }
    Ok(next)
}

// After how many positions, at most so many, a state comes back with all literals seen, or `most`.
fn loop_length(alloc: Global, steps: &Steps, state: u64, most: u64) -> Result<u64, AllocError> {
    let first = state.saturating_mul(steps.seen);
    let wanted = first.saturating_add(steps.seen.saturating_sub(1));
    let mut met = blank(alloc, steps)?;
    let mut level = vec![in alloc; first; 1]?;
    for length in 1..most {
        level = follow(alloc, steps, met.as_mut_slice(), level.as_slice())?;
        if is_in(met.as_slice(), wanted) {
            return Ok(length);
        }
    }
    Ok(most)
}

fn first_states(alloc: Global, d: &Drawn, steps: &Steps) -> Result<Vec<u64>, AllocError> {
    let mut states = Vec::new(alloc);
    for state in 0..steps.states {
        if may_begin(d, state) {
            states.push(state)?;
        }
    }
    Ok(states)
}

// The states that follow these by one position, where they are new.
fn next_states(
    alloc: Global,
    steps: &Steps,
    met: &mut [bool],
    level: &[u64],
) -> Result<Vec<u64>, AllocError> {
    let mut next = Vec::new(alloc);
    for state in level {
        for inputs in 0..4 {
            if let Some((after, _literals)) = step_at(steps, *state, inputs)
                && put(met, after)
            {
                next.push(after)?;
            }
        }
    }
    Ok(next)
}

// The least of these numbers of positions: that of the stem and of a loop from one of the states behind it.
fn least_from(
    alloc: Global,
    steps: &Steps,
    level: &[u64],
    stem: u64,
    least: u64,
) -> Result<u64, AllocError> {
    let mut fewest = least;
    for state in level {
        let room = fewest.saturating_sub(stem);
        let length = loop_length(alloc, steps, *state, room)?;
        fewest = fewest.min(stem.saturating_add(length));
    }
    Ok(fewest)
}

/// The fewest positions of a fair lasso, or `most` where each has as many.
fn fewest_positions(alloc: Global, d: &Drawn, steps: &Steps, most: u64) -> Result<u64, AllocError> {
    let mut met = blank(alloc, steps)?;
    let mut level = first_states(alloc, d, steps)?;
    let mut fewest = most;
    for stem in 0..most {
        fewest = least_from(alloc, steps, level.as_slice(), stem, fewest)?;
        level = next_states(alloc, steps, met.as_mut_slice(), level.as_slice())?;
    }
    Ok(fewest)
}

// ---- both

/// More positions than are asked for.
pub(crate) const MOST: u64 = 41;

// Whether what is told of up to 40 positions, and of one position fewer than a shortest lasso has, agrees.
fn agrees(alloc: Global, c: &Circuit, fewest: u64) -> bool {
    let told = searched_within(alloc, c, 40, 4_294_967_295);
    if fewest >= MOST {
        return told == Told::None;
    }
    let before = searched_within(alloc, c, fewest.saturating_sub(1) as u32, 4_294_967_295);
    told == Told::Found(fewest) && before == Told::None
}

fn text_agrees(alloc: Global, text: &[u8], fewest: u64) -> bool {
    match aiger_ascii::read(alloc, text) {
        Ok(model) => {
            let is_so = agrees(alloc, model.circuit(), fewest);
            drop(model);
            is_so
        }
        Err(_) => false,
    }
}

/// The fewest positions of a lasso of the circuit, where what is told agrees.
pub(crate) fn fewest_agreed(
    alloc: Global,
    d: &Drawn,
    case: &Case,
) -> Result<Option<u64>, AllocError> {
    let fewest = fewest_positions(alloc, d, &case.steps, MOST)?;
    if text_agrees(alloc, case.text.as_slice(), fewest) {
        Ok(Some(fewest))
    } else {
        Ok(None)
    }
}

// ---- limits

// Of two inputs, that they differ and are equal, each by gates of its own: there is no lasso, which no propagation shows.
const PARITY: &str =
    "aag 9 2 0 0 7 0 0 1 0\n2\n4\n1\n18\n6 4 2\n8 5 3\n10 9 7\n12 5 2\n14 4 3\n16 15 13\n18 16 10\n";

fn told_of(alloc: Global, text: &[u8], depth: u32, conflicts: u64) -> Told {
    match aiger_ascii::read(alloc, text) {
        Ok(model) => {
            let told = searched_within(alloc, model.circuit(), depth, conflicts);
            drop(model);
            told
        }
        Err(_) => Told::Nothing,
    }
}

fn told_of_parity(alloc: Global) -> [Told; 3] {
    [
        told_of(alloc, PARITY.as_bytes(), 3, 0),
        told_of(alloc, PARITY.as_bytes(), 0, 0),
        told_of(alloc, PARITY.as_bytes(), 3, 1000),
    ]
}

#[test]
fn limits_are_kept(rt: HostRuntime) {
    assert!(rt; told_of_parity(rt.alloc()) == [Told::Spent(0), Told::None, Told::None]);
}
