//! How many rounds some run of a drawn circuit has, by a search of all its states with the literals that were seen since the
//! last round. The main calls are `steps_of` and `most_rounds`.

use crate::properties::Property;
use drawn_circuits::{Drawn, may_begin, next_of, power, rest, value, values_of};
use std::alloc::{AllocError, Global};

/// The positions of a circuit: for each state and each choice of inputs the state that follows, and a bit for each literal
/// that is true there; nothing where the constraint is false.
#[derive(Drop)]
pub(crate) struct Steps {
    pub(crate) states: u64,
    // How many sets of literals there are.
    pub(crate) seen: u64,
    at: Vec<Option<(u64, u64)>>,
}

fn bits_of(values: &[bool], literals: &[u64], first: u64) -> u64 {
    let mut bits: u64 = 0;
    let mut bit = first;
    for literal in literals {
        if value(values, *literal) {
            bits |= bit;
        }
        bit = bit.saturating_mul(2);
    }
    bits
}

fn step(
    alloc: Global,
    d: &Drawn,
    p: &Property,
    state: u64,
    inputs: u64,
) -> Result<Option<(u64, u64)>, AllocError> {
    let values = values_of(alloc, d, state, inputs)?;
    if !value(values.as_slice(), d.constraint) {
        return Ok(None);
    }
    let own = bits_of(values.as_slice(), p.own.as_slice(), 1);
    let fair = bits_of(
        values.as_slice(),
        p.fairness.as_slice(),
        power(p.own.len() as u64),
    );
    Ok(Some((next_of(d, values.as_slice()), own | fair)))
}

fn push_steps(
    alloc: Global,
    d: &Drawn,
    p: &Property,
    state: u64,
    at: &mut Vec<Option<(u64, u64)>>,
) -> Result<(), AllocError> {
    for inputs in 0..4 {
        at.push(step(alloc, d, p, state, inputs)?)?;
    }
    Ok(())
}

/// The positions of a circuit, for a property.
pub(crate) fn steps_of(alloc: Global, d: &Drawn, p: &Property) -> Result<Steps, AllocError> {
    let literals = (p.own.len() as u64).saturating_add(p.fairness.len() as u64);
    let states = power(d.latches);
    let mut at = Vec::new(alloc);
    for state in 0..states {
        push_steps(alloc, d, p, state, &mut at)?;
    }
    Ok(Steps {
        states,
        seen: power(literals),
        at,
    })
}

// Which states can be come to with the same number of rounds, and with which literals seen since.
pub(crate) fn blank(alloc: Global, steps: &Steps) -> Result<Vec<bool>, AllocError> {
    let mut level = Vec::new(alloc);
    for _pair in 0..steps.states.saturating_mul(steps.seen) {
        level.push(false)?;
    }
    Ok(level)
}

pub(crate) fn is_in(level: &[bool], pair: u64) -> bool {
    level.get(pair as usize).copied().unwrap_or(false)
}

// Puts a pair in; whether it is new.
pub(crate) fn put(level: &mut [bool], pair: u64) -> bool {
    let place = pair as usize;
    if place >= level.len() || level[place] {
        return false;
    }
    level[place] = true;
    true
}

// Goes on by one position; whether a pair is new.
fn go_on(
    steps: &Steps,
    seen: u64,
    step: (u64, u64),
    level: &mut [bool],
    next: &mut [bool],
) -> bool {
    let (state, literals) = step;
    let now = seen | literals;
    let pair = state.saturating_mul(steps.seen);
    if now.saturating_add(1) == steps.seen {
        let _new = put(next, pair);
        return false;
    }
    put(level, pair.saturating_add(now))
}

/// The state that follows a state, and the literals that are true there.
pub(crate) fn step_at(steps: &Steps, state: u64, inputs: u64) -> Option<(u64, u64)> {
    let place = state.saturating_mul(4).saturating_add(inputs) as usize;
    steps.at.get(place).copied().flatten()
}

/// The pair that follows a pair of a state and the literals that were seen.
pub(crate) fn step_from(steps: &Steps, pair: u64, inputs: u64) -> Option<u64> {
    let state = pair.checked_div(steps.seen).unwrap_or(0);
    let (next, literals) = step_at(steps, state, inputs)?;
    let seen = rest(pair, steps.seen) | literals;
    Some(next.saturating_mul(steps.seen).saturating_add(seen))
}

// Goes on from the pairs of one state and some literals by each position; whether a pair is new.
fn go_on_from(steps: &Steps, state: u64, seen: u64, level: &mut [bool], next: &mut [bool]) -> bool {
    let mut is_new = false;
    for inputs in 0..4 {
        if let Some(step) = step_at(steps, state, inputs)
            && go_on(steps, seen, step, level, next)
        {
            is_new = true;
        }
    }
    is_new
}

// One pass over all pairs; whether one is new.
fn pass(steps: &Steps, level: &mut [bool], next: &mut [bool]) -> bool {
    let mut is_new = false;
    for state in 0..steps.states {
        for seen in 0..steps.seen {
            let pair = state.saturating_mul(steps.seen).saturating_add(seen);
            if is_in(level, pair) && go_on_from(steps, state, seen, level, next) {
                is_new = true;
            }
        }
    }
    is_new
}

fn close(steps: &Steps, level: &mut [bool], next: &mut [bool]) {
    for _turn in 0..steps.states.saturating_mul(steps.seen) {
        if !pass(steps, level, next) {
            return;
        }
    }
}

fn begin(d: &Drawn, steps: &Steps, level: &mut [bool]) {
    for state in 0..steps.states {
        if may_begin(d, state) {
            let _new = put(level, state.saturating_mul(steps.seen));
        }
    }
}

fn is_empty(level: &[bool]) -> bool {
    level.iter().all(|held| !*held)
}

/// The most rounds that a run of the circuit has, of up to six.
pub(crate) fn most_rounds(alloc: Global, d: &Drawn, steps: &Steps) -> Result<u32, AllocError> {
    let mut level = blank(alloc, steps)?;
    begin(d, steps, level.as_mut_slice());
    let mut most: u32 = 0;
    for rounds in 1..7_u32 {
        let mut next = blank(alloc, steps)?;
        close(steps, level.as_mut_slice(), next.as_mut_slice());
        if is_empty(next.as_slice()) {
            return Ok(most);
        }
        most = rounds;
        level = next;
    }
    Ok(most)
}
