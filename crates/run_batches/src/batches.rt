//! A batch of 64 runs with drawn inputs, up to the first loop. The main call is `run_batch`.

use crate::densities::drawn_input;
use crate::draws::Draws;
use crate::evaluating::{all_true, eval_words, literal_word, next_words, put_inputs, put_latches};
use crate::parts::Part;
use crate::state_table::{StateTable, keys_of};
use crate::tasks::Task;
use crate::words::{RUNS, bit_of, put_word, word_at};
use circuit::Reset;
use std::alloc::{AllocError, Global};

/// How often inputs are drawn again for a position where constraints are false.
const MOST_TRIES: u32 = 20;

/// How many words of states are kept.
const MOST_KEPT: usize = 1_000_000;

/// What inputs are drawn from; how many more words may be evaluated, about; and for each position of each batch the word of
/// the runs whose states are reached there, and the words of the latches.
#[derive(Drop)]
pub struct Supply {
    pub draws: Draws,
    pub words_left: u64,
    pub states: Vec<u64>,
}

/// A loop of a run, of its cone alone: the state after `count` positions is that of position `from`, counted from 0, and
/// each literal of the property and of fairness is true at a position between.
#[derive(Clone, Copy)]
pub struct RunLoop {
    pub run: u32,
    pub from: u64,
    pub count: u64,
}

/// The runs of a batch. Each word has a bit for each run; lists of words have the order of the cone's lists.
///
/// - `going`: the runs at all of whose positions the constraints are true;
/// - `starts` and `state`: the latches at the first position, and now;
/// - `inputs`: the inputs of one position after the other;
/// - `last_true`: for each literal, and of that for each run, the last position where it was true, counted from 1, or 0;
/// - `depths`: for each run how many positions it has up to the last that has a new state, with this one;
/// - `found`: the first loop.
#[derive(Drop)]
pub struct Batch {
    going: u64,
    pub starts: Vec<u64>,
    state: Vec<u64>,
    pub inputs: Vec<u64>,
    last_true: Vec<u64>,
    pub depths: Vec<u64>,
    pub found: Option<RunLoop>,
}

/// What the evaluation of a batch writes to: the words of all variables, and of the inputs with their levels; the keys of
/// the runs' states, with 64 words to compute them in; and the table of these keys.
#[derive(Drop)]
struct Buffers {
    values: Vec<u64>,
    inputs: Vec<u64>,
    levels: Vec<u64>,
    transposed: Vec<u64>,
    keys: Vec<u64>,
    table: StateTable,
}

// So many drawn words.
fn drawn_words(alloc: Global, draws: &mut Draws, count: usize) -> Result<Vec<u64>, AllocError> {
    let mut words = vec![in alloc; 0; count]?;
    for word in words.iter_mut() {
        *word = draws.next();
    }
    Ok(words)
}

// The words of the latches at the first position: drawn where a latch begins with either value.
fn first_words(alloc: Global, cone: &Part, draws: &mut Draws) -> Result<Vec<u64>, AllocError> {
    let mut words = Vec::new(alloc);
    for placed in cone.latches.iter() {
        words.push(match placed.latch.reset {
            Reset::Zero => 0,
            Reset::One => u64::MAX,
            Reset::Free => draws.next(),
        })?;
    }
    Ok(words)
}

// Buffers for so many positions, with a word as input of the position before the first.
fn new_buffers(
    alloc: Global,
    task: &Task<'_>,
    draws: &mut Draws,
    positions: u64,
) -> Result<Buffers, AllocError> {
    let runs = RUNS as usize;
    let states = (positions as usize).saturating_add(1).saturating_mul(runs);
    Ok(Buffers {
        values: vec![in alloc; 0; task.circuit.max() as usize + 1]?,
        inputs: drawn_words(alloc, draws, task.cone.inputs.len())?,
        levels: drawn_words(alloc, draws, task.cone.inputs.len())?,
        transposed: vec![in alloc; 0; runs]?,
        keys: vec![in alloc; 0; runs]?,
        table: StateTable::new(alloc, states)?,
    })
}

// A batch before its first position.
fn new_batch(alloc: Global, task: &Task<'_>, draws: &mut Draws) -> Result<Batch, AllocError> {
    let runs = RUNS as usize;
    let starts = first_words(alloc, task.cone, draws)?;
    Ok(Batch {
        going: u64::MAX,
        state: Vec::from_slice(alloc, &starts)?,
        starts,
        inputs: Vec::new(alloc),
        last_true: vec![in alloc; 0; task.literals.len().saturating_mul(runs)]?,
        depths: vec![in alloc; 0; runs]?,
        found: None,
    })
}

// How many words one position of a batch takes, about: a gate takes one, an input or a latch ten, a literal one a run.
fn cost_of(task: &Task<'_>) -> u64 {
    let leaves = task
        .cone
        .inputs
        .len()
        .saturating_mul(10)
        .saturating_add(task.cone.latches.len().saturating_mul(10));
    let runs = task
        .literals
        .len()
        .saturating_add(4)
        .saturating_mul(RUNS as usize);
    (task
        .cone
        .gates
        .len()
        .saturating_add(leaves)
        .saturating_add(runs)) as u64
}

// Takes what a position costs from the words that are left. Answers whether there are so many.
fn spend(task: &Task<'_>, supply: &mut Supply) -> bool {
    let cost = cost_of(task);
    let enough = supply.words_left >= cost;
    supply.words_left = supply.words_left.saturating_sub(cost);
    enough
}

// Draws the inputs of these runs, and evaluates the position.
fn draw(cone: &Part, draws: &mut Draws, runs: u64, buffers: &mut Buffers) {
    for (word, level) in buffers.inputs.iter_mut().zip(buffers.levels.iter()) {
        let drawn = drawn_input(draws, *level, *word);
        *word = (*word & !runs) | (drawn & runs);
    }
    put_inputs(cone, &buffers.inputs, &mut buffers.values);
    eval_words(cone, &mut buffers.values);
}

// Draws a position. Of the runs that are going, answers those at whose position the constraints are true.
fn draw_position(task: &Task<'_>, supply: &mut Supply, buffers: &mut Buffers, going: u64) -> u64 {
    draw(task.cone, &mut supply.draws, u64::MAX, buffers);
    let mut refused = going & !all_true(&buffers.values, task.circuit.constraints());
    for _try in 0..MOST_TRIES {
        if refused == 0 || !spend(task, supply) {
            return going & !refused;
        }
        draw(task.cone, &mut supply.draws, refused, buffers);
        refused = going & !all_true(&buffers.values, task.circuit.constraints());
    }
    going & !refused
}

// Notes which literals are true at the position with this number, counted from 1.
fn note_literals(task: &Task<'_>, buffers: &Buffers, number: u64, batch: &mut Batch) {
    for (k, literal) in task.literals.iter().enumerate() {
        let word = literal_word(&buffers.values, *literal);
        let first = k.saturating_mul(RUNS as usize);
        for run in 0..RUNS {
            if bit_of(word, run) {
                put_word(
                    &mut batch.last_true,
                    first.saturating_add(run as usize),
                    number,
                );
            }
        }
    }
}

// Whether each literal was true in the run at position `from`, counted from 0, or after it.
fn has_all(task: &Task<'_>, batch: &Batch, run: u32, from: u64) -> bool {
    for k in 0..task.literals.len() {
        let place = k.saturating_mul(RUNS as usize).saturating_add(run as usize);
        if word_at(&batch.last_true, place) <= from {
            return false;
        }
    }
    true
}

// Looks, after so many positions, for a run whose state came before, with each literal true between.
fn look_back(task: &Task<'_>, buffers: &mut Buffers, batch: &mut Batch, count: u64) {
    for run in 0..RUNS {
        if bit_of(batch.going, run) {
            let key = word_at(&buffers.keys, run as usize);
            match buffers.table.visit(key, count) {
                None => put_word(&mut batch.depths, run as usize, count.saturating_add(1)),
                Some(from) => {
                    if has_all(task, batch, run, from) {
                        batch.found = Some(RunLoop { run, from, count });
                        return;
                    }
                }
            }
        }
    }
}

// Keeps the states of the runs that are going, while there is room.
fn keep_states(batch: &Batch, supply: &mut Supply) -> Result<(), AllocError> {
    if batch.going != 0
        && supply
            .states
            .len()
            .saturating_add(batch.state.len())
            .saturating_add(1)
            <= MOST_KEPT
    {
        supply.states.push(batch.going)?;
        supply.states.extend_from_slice(&batch.state)?;
    }
    Ok(())
}

// Adds the position that comes after so many. Answers whether a run is still going.
fn add_position(
    task: &Task<'_>,
    supply: &mut Supply,
    buffers: &mut Buffers,
    batch: &mut Batch,
    count: u64,
) -> Result<bool, AllocError> {
    if !spend(task, supply) {
        return Ok(false);
    }
    put_latches(task.cone, &batch.state, &mut buffers.values);
    batch.going = draw_position(task, supply, buffers, batch.going);
    batch.inputs.extend_from_slice(&buffers.inputs)?;
    note_literals(task, buffers, count.saturating_add(1), batch);
    next_words(task.cone, &buffers.values, &mut batch.state);
    Ok(batch.going != 0)
}

// Adds positions, as many as this at most, up to the first loop, or until no run is going.
fn add_positions(
    task: &Task<'_>,
    supply: &mut Supply,
    positions: u64,
    buffers: &mut Buffers,
    batch: &mut Batch,
) -> Result<(), AllocError> {
    for count in 0..positions.saturating_add(1) {
        if task.meter.is_called() {
            return Err(AllocError);
        }
        keep_states(batch, supply)?;
        keys_of(&batch.state, &mut buffers.transposed, &mut buffers.keys);
        look_back(task, buffers, batch, count);
        if batch.found.is_some() || count == positions {
            return Ok(());
        }
        if !add_position(task, supply, buffers, batch, count)? {
            return Ok(());
        }
    }
    Ok(())
}

// The same with buffers for it.
fn fill(
    alloc: Global,
    task: &Task<'_>,
    supply: &mut Supply,
    positions: u64,
    batch: &mut Batch,
) -> Result<(), AllocError> {
    let mut buffers = new_buffers(alloc, task, &mut supply.draws, positions)?;
    add_positions(task, supply, positions, &mut buffers, batch)
}

/// A batch of at most so many positions, up to the first loop. The error is want of memory, or a bell that is rung.
pub fn run_batch(
    alloc: Global,
    task: &Task<'_>,
    supply: &mut Supply,
    positions: u64,
) -> Result<Batch, AllocError> {
    let mut batch = new_batch(alloc, task, &mut supply.draws)?;
    fill(alloc, task, supply, positions, &mut batch)?;
    Ok(batch)
}
