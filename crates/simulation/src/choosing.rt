//! What simulation chooses: the shortest of the lassos that it sees, or of each batch a run with many states. The main call
//! is `choose`.

use crate::drawn_states::DrawnStates;
use crate::repeating::{Bounds, whole_stimulus};
use circuit::{Circuit, Reset, Stimulus};
use cone::cone_of;
use edge::Meter;
use items::Items;
use run_batches::{
    Batch, Draws, Part, RUNS, RunLoop, Supply, Task, bit_of, fair_literals, mixed, part_of,
    run_batch, word_at,
};
use std::alloc::{AllocError, Global};
use std::mem;

/// How many batches there are.
const MOST_BATCHES: u32 = 4;

/// How many positions a run has.
const MOST_POSITIONS: u64 = 300;

/// How many words are evaluated, about.
const MOST_WORDS: u64 = 40_000_000;

/// How many values of variables are computed where the runs that are chosen are judged, about.
const MOST_VALUES: u64 = 10_000_000;

/// Bounds for the repetitions of a loop.
const MOST_REPEATED: Bounds = Bounds {
    positions: 65_536,
    values: 8_000_000,
    work: 40_000_000,
};

/// The stimulus of a lasso, or none, and the stimuli of some runs, with the states of all runs. None of it is judged.
#[derive(Drop)]
pub(crate) struct Chosen {
    pub(crate) lasso: Option<Stimulus>,
    pub(crate) runs: Vec<Stimulus>,
    pub(crate) states: DrawnStates,
}

// How many batches there are, and how many positions a run has: four for each state where there are few latches.
fn sizes_of(cone: &Part) -> (u32, u64) {
    match cone.latches.len() {
        0 => (1, 4),
        1 => (1, 8),
        2 => (1, 16),
        3 => (1, 32),
        4 => (1, 64),
        5 => (1, 128),
        _ => (MOST_BATCHES, MOST_POSITIONS),
    }
}

// The latches of a run at its first position. Outside the cone they are 0 where they may be.
fn first_latches(
    alloc: Global,
    task: &Task<'_>,
    batch: &Batch,
    run: u32,
) -> Result<Items<bool>, AllocError> {
    let mut latches = Vec::new(alloc);
    for latch in task.circuit.latches() {
        latches.push(match latch.reset {
            Reset::One => true,
            Reset::Zero | Reset::Free => false,
        })?;
    }
    for (placed, word) in task.cone.latches.iter().zip(batch.starts.iter()) {
        if let Some(value) = latches.get_mut(placed.place) {
            *value = bit_of(*word, run);
        }
    }
    Ok(Items::from_vec(latches))
}

// The inputs of a run at a position, counted from 0. Outside the cone they are 0.
fn inputs_at(
    alloc: Global,
    task: &Task<'_>,
    batch: &Batch,
    run: u32,
    position: usize,
) -> Result<Items<bool>, AllocError> {
    let mut inputs = vec![in alloc; false; task.circuit.inputs().len()]?;
    let first = position.saturating_mul(task.cone.inputs.len());
    for (k, input) in task.cone.inputs.iter().enumerate() {
        if let Some(value) = inputs.get_mut(input.place) {
            *value = bit_of(word_at(&batch.inputs, first.saturating_add(k)), run);
        }
    }
    Ok(Items::from_vec(inputs))
}

// The inputs of the first positions of a run.
fn first_inputs(
    alloc: Global,
    task: &Task<'_>,
    batch: &Batch,
    run: u32,
    count: u64,
) -> Result<Items<Items<bool>>, AllocError> {
    let mut inputs = Items::new(alloc);
    for position in 0..count as usize {
        let now = inputs_at(alloc, task, batch, run, position)?;
        inputs.push(now)?;
    }
    Ok(inputs)
}

// The stimulus of the first positions of a run.
fn first_positions(
    alloc: Global,
    task: &Task<'_>,
    batch: &Batch,
    run: u32,
    count: u64,
) -> Result<Stimulus, AllocError> {
    let latches = first_latches(alloc, task, batch, run)?;
    let inputs = first_inputs(alloc, task, batch, run, count)?;
    Ok(Stimulus { latches, inputs })
}

// The run of a batch that has a new state latest, and how many positions it has up to there.
fn deepest(batch: &Batch) -> (u32, u64) {
    let mut best = 0;
    let mut most = 0;
    for run in 0..RUNS {
        let depth = word_at(&batch.depths, run as usize);
        if depth > most {
            best = run;
            most = depth;
        }
    }
    (best, most)
}

// How many positions a run may have that is chosen.
fn most_kept(c: &Circuit) -> u64 {
    let variables = c.max().saturating_add(1);
    MOST_VALUES
        .checked_div(variables)
        .unwrap_or(0)
        .checked_div(u64::from(MOST_BATCHES))
        .unwrap_or(0)
}

// Appends the run of a batch that has a new state latest.
fn keep_deepest(
    alloc: Global,
    task: &Task<'_>,
    batch: &Batch,
    runs: &mut Vec<Stimulus>,
) -> Result<(), AllocError> {
    let (run, depth) = deepest(batch);
    let count = depth.min(most_kept(task.circuit));
    let stimulus = first_positions(alloc, task, batch, run, count)?;
    runs.push(stimulus)?;
    Ok(())
}

// The stimulus of the loop that a batch shows.
fn lasso_of(
    alloc: Global,
    task: &Task<'_>,
    batch: &Batch,
    found: RunLoop,
) -> Result<Option<Stimulus>, AllocError> {
    let stimulus = first_positions(alloc, task, batch, found.run, found.count)?;
    whole_stimulus(
        alloc,
        task.circuit,
        &stimulus,
        found.from as usize,
        MOST_REPEATED,
        task.meter,
    )
}

// The shorter one of two; the first where they are of one length.
fn shorter(a: Option<Stimulus>, b: Option<Stimulus>) -> Option<Stimulus> {
    match (a, b) {
        (Some(a), Some(b)) => Some(if b.inputs.len() < a.inputs.len() {
            b
        } else {
            a
        }),
        (Some(a), None) => Some(a),
        (None, b) => b,
    }
}

// Chooses from a batch of so many positions. Answers how many positions the next one has: fewer than a loop that was found.
fn take_batch(
    alloc: Global,
    task: &Task<'_>,
    batch: &Batch,
    positions: u64,
    chosen: &mut Chosen,
) -> Result<u64, AllocError> {
    let Some(found) = batch.found else {
        keep_deepest(alloc, task, batch, &mut chosen.runs)?;
        return Ok(positions);
    };
    let lasso = lasso_of(alloc, task, batch, found)?;
    chosen.lasso = shorter(chosen.lasso.take(), lasso);
    Ok(found.count.saturating_sub(1))
}

// The same of one more batch.
fn try_batch(
    alloc: Global,
    task: &Task<'_>,
    supply: &mut Supply,
    positions: u64,
    chosen: &mut Chosen,
) -> Result<u64, AllocError> {
    let batch = run_batch(alloc, task, supply, positions)?;
    take_batch(alloc, task, &batch, positions, chosen)
}

// Chooses from all batches.
fn try_batches(
    alloc: Global,
    task: &Task<'_>,
    supply: &mut Supply,
    chosen: &mut Chosen,
) -> Result<(), AllocError> {
    let (batches, most) = sizes_of(task.cone);
    let mut positions = most;
    for _batch in 0..batches {
        if positions > 0 && supply.words_left > 0 {
            positions = try_batch(alloc, task, supply, positions, chosen)?;
        }
    }
    Ok(())
}

// The places of the latches of a part.
fn places_of(alloc: Global, part: &Part) -> Result<Vec<usize>, AllocError> {
    let mut places = Vec::new(alloc);
    for placed in part.latches.iter() {
        places.push(placed.place)?;
    }
    Ok(places)
}

// A lasso, or else runs, of those that `seed` fixes.
fn choose_for(alloc: Global, task: &Task<'_>, seed: u32) -> Result<Chosen, AllocError> {
    let mut supply = Supply {
        draws: Draws::new(mixed(u64::from(seed))),
        words_left: MOST_WORDS,
        states: Vec::new(alloc),
    };
    let mut chosen = Chosen {
        lasso: None,
        runs: Vec::new(alloc),
        states: DrawnStates {
            latches: places_of(alloc, task.cone)?,
            words: Vec::new(alloc),
        },
    };
    try_batches(alloc, task, &mut supply, &mut chosen)?;
    if chosen.lasso.is_some() {
        drop(mem::replace(&mut chosen.runs, Vec::new(alloc)));
    }
    drop(mem::replace(&mut chosen.states.words, supply.states));
    Ok(chosen)
}

/// A lasso of property `j`, or else runs, of those that `seed` fixes. The error is want of memory, or a bell that is rung.
pub(crate) fn choose(
    alloc: Global,
    c: &Circuit,
    j: u32,
    seed: u32,
    meter: &Meter,
) -> Result<Chosen, AllocError> {
    let marked = cone_of(alloc, c, j)?;
    let cone = part_of(alloc, c, marked.marks())?;
    let literals = fair_literals(alloc, c, j)?;
    let task = Task {
        circuit: c,
        cone: &cone,
        literals: &literals,
        meter,
    };
    choose_for(alloc, &task, seed)
}
