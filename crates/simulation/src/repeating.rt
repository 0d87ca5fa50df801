//! Loops of the cone, repeated until the state of the whole circuit is back. The main call is `whole_stimulus`.
//!
//! Most of a circuit does the same in each repetition. So the values of all variables are kept for each position of the
//! loop, and after the first repetitions only that is evaluated which depends on latches that are not back (`moving`).

use crate::moving::moving_part;
use circuit::{Circuit, Stimulus, literal_value};
use edge::Meter;
use items::Items;
use run_batches::{Part, whole};
use std::alloc::{AllocError, Global};
use std::mem;

/// How many positions all repetitions of a loop have, at most, and how many values of variables these have; and how many
/// values are still computed to see when the state is back, about.
#[derive(Clone, Copy)]
pub(crate) struct Bounds {
    pub(crate) positions: u64,
    pub(crate) values: u64,
    pub(crate) work: u64,
}

/// How many values of variables are kept for the positions of a loop, at most.
const MOST_KEPT: u64 = 8_000_000;

/// How many values of inputs all repetitions have, at most, about.
const MOST_INPUTS: u64 = 100_000_000;

/// After how many repetitions a part is taken that depends on what is not back.
const PARTED: u64 = 4;

/// The inputs of a lasso of the cone: those of its stem, and those of its loop.
#[derive(Drop)]
struct ConeLasso<'a> {
    stem: &'a [Items<bool>],
    body: &'a [Items<bool>],
}

/// The part of a circuit that is evaluated, the values of all latches now, and those of all variables at each position of
/// a loop.
#[derive(Drop)]
struct Evaluation {
    part: Part,
    state: Vec<bool>,
    positions: Vec<Vec<bool>>,
}

fn put(values: &mut [bool], place: usize, value: bool) {
    if let Some(kept) = values.get_mut(place) {
        *kept = value;
    }
}

fn value_at(values: &[bool], place: usize) -> bool {
    values.get(place).copied().unwrap_or(false)
}

// Writes the inputs of a position, in their order.
fn put_inputs(part: &Part, inputs: &[bool], values: &mut [bool]) {
    for (input, value) in part.inputs.iter().zip(inputs.iter()) {
        put(values, input.var as usize, *value);
    }
}

// Evaluates a position whose inputs are written, and goes on to the next state.
fn step(part: &Part, state: &mut [bool], values: &mut [bool]) {
    for placed in part.latches.iter() {
        put(
            values,
            placed.latch.var as usize,
            value_at(state, placed.place),
        );
    }
    for gate in part.gates.iter() {
        let value = literal_value(values, gate.rhs0) && literal_value(values, gate.rhs1);
        put(values, gate.var as usize, value);
    }
    for placed in part.latches.iter() {
        put(
            state,
            placed.place,
            literal_value(values, placed.latch.next),
        );
    }
}

// The values of a position whose inputs alone are written.
fn position_with(
    alloc: Global,
    c: &Circuit,
    part: &Part,
    inputs: &[bool],
) -> Result<Vec<bool>, AllocError> {
    let mut values = vec![in alloc; false; c.max() as usize + 1]?;
    put_inputs(part, inputs, &mut values);
    Ok(values)
}

// Appends a position for each of these inputs.
fn put_positions(
    alloc: Global,
    c: &Circuit,
    body: &[Items<bool>],
    evaluation: &mut Evaluation,
) -> Result<(), AllocError> {
    for inputs in body {
        let values = position_with(alloc, c, &evaluation.part, inputs.as_slice())?;
        evaluation.positions.push(values)?;
    }
    Ok(())
}

// Goes along the inputs of a stem.
fn walk_stem(
    alloc: Global,
    c: &Circuit,
    stem: &[Items<bool>],
    evaluation: &mut Evaluation,
) -> Result<(), AllocError> {
    let mut values = vec![in alloc; false; c.max() as usize + 1]?;
    for inputs in stem {
        put_inputs(&evaluation.part, inputs.as_slice(), &mut values);
        step(&evaluation.part, &mut evaluation.state, &mut values);
    }
    Ok(())
}

// Goes along the positions of the loop.
fn walk_loop(evaluation: &mut Evaluation) {
    for values in evaluation.positions.iter_mut() {
        step(&evaluation.part, &mut evaluation.state, values);
    }
}

// The same, in one of the first repetitions: then only that is left which depends on latches that are not back.
fn walk_and_part(alloc: Global, evaluation: &mut Evaluation) -> Result<(), AllocError> {
    let before = Vec::from_slice(alloc, &evaluation.state)?;
    walk_loop(evaluation);
    let part = moving_part(alloc, &evaluation.part, &before, &evaluation.state)?;
    drop(mem::replace(&mut evaluation.part, part));
    Ok(())
}

fn are_same(a: &[bool], b: &[bool]) -> bool {
    for k in 0..a.len() {
        if value_at(a, k) != value_at(b, k) {
            return false;
        }
    }
    true
}

// How often a loop of so many positions may be repeated.
fn most_repetitions(c: &Circuit, length: u64, bounds: Bounds) -> u64 {
    let variables = c.max().saturating_add(1);
    if variables.saturating_mul(length) > MOST_KEPT {
        return 0;
    }
    let inputs = (c.inputs().len() as u64).saturating_add(1);
    let most = bounds
        .positions
        .min(bounds.values.checked_div(variables).unwrap_or(0))
        .min(MOST_INPUTS.checked_div(inputs).unwrap_or(0));
    most.checked_div(length).unwrap_or(0)
}

// Takes what a repetition computes from what may be computed. Answers whether it is so much.
fn spend(evaluation: &Evaluation, left: &mut u64) -> bool {
    let part = &evaluation.part;
    let each = part.gates.len().saturating_add(part.latches.len());
    let cost = each
        .saturating_add(4)
        .saturating_mul(evaluation.positions.len()) as u64;
    let enough = *left >= cost;
    *left = left.saturating_sub(cost);
    enough
}

// One more repetition, behind so many.
fn repeat_once(alloc: Global, before: u64, evaluation: &mut Evaluation) -> Result<(), AllocError> {
    if before < PARTED {
        return walk_and_part(alloc, evaluation);
    }
    walk_loop(evaluation);
    Ok(())
}

// States with which later ones are compared: that after the first repetitions, and one after 1, 2, 4, .. repetitions (Brent,
// An improved Monte Carlo factorization algorithm, 1980).
#[derive(Drop)]
struct Kept {
    early: Vec<bool>,
    late: Vec<bool>,
    next: u64,
}

// Keeps the state after so many repetitions, where it is due.
fn keep(alloc: Global, count: u64, state: &[bool], kept: &mut Kept) -> Result<(), AllocError> {
    if count <= PARTED {
        kept.early = Vec::from_slice(alloc, state)?;
    }
    if count == kept.next {
        kept.late = Vec::from_slice(alloc, state)?;
        kept.next = count.saturating_mul(2);
    }
    Ok(())
}

// One more repetition, behind so many. Answers whether the state is one that was kept.
fn is_back(
    alloc: Global,
    before: u64,
    kept: &mut Kept,
    evaluation: &mut Evaluation,
) -> Result<bool, AllocError> {
    repeat_once(alloc, before, evaluation)?;
    let state = evaluation.state.as_slice();
    if are_same(state, &kept.early) || are_same(state, &kept.late) {
        return Ok(true);
    }
    keep(alloc, before.saturating_add(1), state, kept)?;
    Ok(false)
}

// Repeats a loop until its state is back, and answers how often; none where it is not back after so many repetitions.
fn repeat(
    alloc: Global,
    most: u64,
    bounds: Bounds,
    evaluation: &mut Evaluation,
    meter: &Meter,
) -> Result<Option<u64>, AllocError> {
    let mut kept = Kept {
        early: Vec::from_slice(alloc, &evaluation.state)?,
        late: Vec::from_slice(alloc, &evaluation.state)?,
        next: 1,
    };
    let mut left = bounds.work;
    for repetition in 0..most {
        if meter.is_called() {
            return Err(AllocError);
        }
        if !spend(evaluation, &mut left) {
            return Ok(None);
        }
        if is_back(alloc, repetition, &mut kept, evaluation)? {
            return Ok(Some(repetition.saturating_add(1)));
        }
    }
    Ok(None)
}

// The same after the stem.
fn repeat_after_stem(
    alloc: Global,
    c: &Circuit,
    parts: &ConeLasso<'_>,
    bounds: Bounds,
    evaluation: &mut Evaluation,
    meter: &Meter,
) -> Result<Option<u64>, AllocError> {
    let most = most_repetitions(c, parts.body.len() as u64, bounds);
    if most == 0 {
        return Ok(None);
    }
    walk_stem(alloc, c, parts.stem, evaluation)?;
    put_positions(alloc, c, parts.body, evaluation)?;
    repeat(alloc, most, bounds, evaluation, meter)
}

// The same from a state on.
fn repetitions_from(
    alloc: Global,
    c: &Circuit,
    latches: &[bool],
    parts: &ConeLasso<'_>,
    bounds: Bounds,
    meter: &Meter,
) -> Result<Option<u64>, AllocError> {
    let mut evaluation = Evaluation {
        part: whole(alloc, c)?,
        state: Vec::from_slice(alloc, latches)?,
        positions: Vec::new(alloc),
    };
    repeat_after_stem(alloc, c, parts, bounds, &mut evaluation, meter)
}

// Appends copies of input lists.
fn append(
    alloc: Global,
    from: &[Items<bool>],
    inputs: &mut Items<Items<bool>>,
) -> Result<(), AllocError> {
    for values in from {
        let copy = values.try_copy(alloc)?;
        inputs.push(copy)?;
    }
    Ok(())
}

// The inputs of the stem, and so often those of the loop.
fn repeated(
    alloc: Global,
    parts: &ConeLasso<'_>,
    count: u64,
) -> Result<Items<Items<bool>>, AllocError> {
    let mut inputs = Items::new(alloc);
    append(alloc, parts.stem, &mut inputs)?;
    for _repetition in 0..count {
        append(alloc, parts.body, &mut inputs)?;
    }
    Ok(inputs)
}

/// A stimulus whose inputs are the first `from` of another and then the others, once or more often, until the state of the
/// whole circuit is back; none where it is not back within the bounds. It is not judged. The error is want of memory, or a
/// bell of the meter that is rung.
pub(crate) fn whole_stimulus(
    alloc: Global,
    c: &Circuit,
    stimulus: &Stimulus,
    from: usize,
    bounds: Bounds,
    meter: &Meter,
) -> Result<Option<Stimulus>, AllocError> {
    let inputs = stimulus.inputs.as_slice();
    let parts = ConeLasso {
        stem: inputs.get(..from).unwrap_or(&[]),
        body: inputs.get(from..).unwrap_or(&[]),
    };
    let latches = stimulus.latches.as_slice();
    match repetitions_from(alloc, c, latches, &parts, bounds, meter)? {
        Some(count) => Ok(Some(Stimulus {
            latches: stimulus.latches.try_copy(alloc)?,
            inputs: repeated(alloc, &parts, count)?,
        })),
        None => Ok(None),
    }
}
