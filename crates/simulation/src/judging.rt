//! What was chosen, judged. The main calls are `judged_lasso` and `judged_runs`.
ghost use Rattle.std.specs.Prelude.{◌≡◌, ◌+◌, List, Bool, map, length, All, IsTrue, IfOk, IfSome, OnOk};
ghost use Rattle.aig_semantics.specs.Literals.{literal_in};
ghost use Rattle.aig_semantics.specs.Runs.{IsInitial, MeetsConstraints, position_of, successor};
ghost use Rattle.aig_semantics.specs.Stimuli.{IsFairLassoOf, StandsFor};
ghost use Rattle.lasso_join.specs.Fitting.{IsStemTo};
ghost use Rattle.lasso_join.specs.Prefixes.{stimulus_of};

use circuit::{
    Circuit, Lasso, Position, Stimulus, eval_into, is_initial, literal_value, next_into,
};
use items::Items;
use std::alloc::{AllocError, Global};
use std::mem;
use stimulus::{ReplayEnd, replay};

/// The lasso that the stimulus stands for, if it has one.
pub(crate) fn judged_lasso(
    alloc: Global,
    c: &Circuit,
    j: u32,
    chosen: Option<Stimulus>,
) -> Result<Option<Lasso>, AllocError>
    ensures fair { IfOk result (λ found. IfSome found (IsFairLassoOf c.now j)) }
    ensures whole { IfOk result (λ found. IfSome found
        (λ lasso. StandsFor c.now j (stimulus_of lasso) (length lasso.inputs) lasso.from)) }
{
    let Some(stimulus) = chosen else {
        return Ok(None);
    };
    match replay(alloc, c, j, &stimulus) {
        Ok(lasso) => Ok(Some(lasso)),
        Err(ReplayEnd::Memory) => Err(AllocError),
        Err(ReplayEnd::Fault(_)) => Ok(None),
    }
}

// Whether the literals are all true.
fn are_true(values: &[bool], literals: &[u64]) -> bool
    ensures { IsTrue result → All (λ literal. IsTrue (literal_in values.now literal)) literals.now }
{
    literals
        .iter()
        .all(|literal| literal_value(values, *literal))
}

// The latches' next values, where `values` is the valuation of a position.
fn next_values(alloc: Global, c: &Circuit, values: &[bool]) -> Result<Items<bool>, AllocError>
    ensures { IfOk result (λ next. next ≡ map (λ latch. literal_in values.now latch.next) c.now.latches) }
{
    let mut next = vec![in alloc; false; c.latches().len()]?;
    next_into(c, values, &mut next);
    Ok(Items::from_vec(next))
}

// The successor of a state with these inputs, where they fit the circuit and its constraints are true there.
fn successor_of(
    alloc: Global,
    c: &Circuit,
    state: &[bool],
    inputs: &[bool],
    values: &mut [bool],
) -> Result<Option<Items<bool>>, AllocError>
    requires state { length state.now ≡ length c.now.latches }
    requires values { length values.old ≡ c.now.max + 1 }
    ensures possible { IfOk result (λ found. IfSome found (λ _. MeetsConstraints c.now (position_of state.now inputs.now))) }
    ensures successor { IfOk result (λ found. IfSome found (λ next. next ≡ successor c.now (position_of state.now inputs.now))) }
{
    if inputs.len() != c.inputs().len() {
        return Ok(None);
    }
    eval_into(c, state, inputs, values);
    if !are_true(values, c.constraints()) {
        return Ok(None);
    }
    Ok(Some(next_values(alloc, c, values)?))
}

/// An initial run, and the state to which it leads.
#[derive(Drop)]
struct Stem {
    positions: Items<Position>,
    state: Items<bool>,
}

// Appends the position of a stem's state with these inputs, and goes on to its successor.
fn step(
    alloc: Global,
    _c: &Circuit,
    inputs: &Items<bool>,
    next: Items<bool>,
    stem: &mut Stem,
) -> Result<(), AllocError>
    requires stem { IsStemTo _c.now stem.old.state stem.old.positions }
    requires possible { MeetsConstraints _c.now (position_of stem.old.state inputs.now) }
    requires next { next ≡ successor _c.now (position_of stem.old.state inputs.now) }
    ensures size { OnOk result (length stem.new.state ≡ length _c.now.latches) }
    ensures stem { OnOk result (IsStemTo _c.now stem.new.state stem.new.positions) }
{
    let inputs = inputs.try_copy(alloc)?;
    let latches = mem::replace(&mut stem.state, next);
    stem.positions.push(Position { latches, inputs })?;
    Ok(())
}

// Appends a position for each of these inputs, up to where they don't fit or a constraint is false.
fn extend(
    alloc: Global,
    c: &Circuit,
    inputs: &[Items<bool>],
    values: &mut [bool],
    stem: &mut Stem,
) -> Result<(), AllocError>
    requires stem { IsStemTo c.now stem.old.state stem.old.positions }
    requires size { length stem.old.state ≡ length c.now.latches }
    requires values { length values.old ≡ c.now.max + 1 }
    ensures { OnOk result (IsStemTo c.now stem.new.state stem.new.positions) }
{
    for now in inputs {
        let found = successor_of(alloc, c, stem.state.as_slice(), now.as_slice(), values)?;
        let Some(next) = found else {
            return Ok(());
        };
        step(alloc, c, now, next, stem)?;
    }
    Ok(())
}

// The stem of no position.
#[tactic(auto, using(crate::proofs::Runs::empty_stem))]
fn begin(alloc: Global, _c: &Circuit, start: &[bool]) -> Result<Stem, AllocError>
    requires { IsInitial _c.now start.now }
    ensures state { IfOk result (λ stem. stem.state ≡ start.now) }
    ensures stem { IfOk result (λ stem. IsStemTo _c.now stem.state stem.positions) }
{
    Ok(Stem {
        positions: Items::new(alloc),
        state: Items::from_slice(alloc, start)?,
    })
}

// The run of a stimulus that begins in an initial state, up to where it fits no more.
fn run_of(alloc: Global, c: &Circuit, chosen: &Stimulus) -> Result<Items<Position>, AllocError>
    requires initial { IsInitial c.now chosen.now.latches }
    requires size { length chosen.now.latches ≡ length c.now.latches }
    ensures { IfOk result (λ run. (t : List Bool) × IsStemTo c.now t run) }
{
    let mut values = vec![in alloc; false; c.max() as usize + 1]?;
    let mut stem = begin(alloc, c, chosen.latches.as_slice())?;
    extend(alloc, c, chosen.inputs.as_slice(), &mut values, &mut stem)?;
    Ok(stem.positions)
}

// Whether a run may begin with these latches.
fn can_begin(c: &Circuit, latches: &[bool]) -> bool
    ensures size { IsTrue result → length latches.now ≡ length c.now.latches }
    ensures initial { IsTrue result → IsInitial c.now latches.now }
{
    if latches.len() != c.latches().len() {
        return false;
    }
    is_initial(c, latches)
}

// Appends a run.
fn put(
    _c: &Circuit,
    run: Items<Position>,
    runs: &mut Vec<Items<Position>>,
) -> Result<(), AllocError>
    requires run { (t : List Bool) × IsStemTo _c.now t run }
    requires runs { All (λ run. (t : List Bool) × IsStemTo _c.now t run) runs.old.items }
    ensures { OnOk result (All (λ run. (t : List Bool) × IsStemTo _c.now t run) runs.new.items) }
{
    runs.push(run)?;
    Ok(())
}

// Appends the run of a stimulus, where it begins in an initial state.
fn put_run_of(
    alloc: Global,
    c: &Circuit,
    chosen: &Stimulus,
    runs: &mut Vec<Items<Position>>,
) -> Result<(), AllocError>
    requires { All (λ run. (t : List Bool) × IsStemTo c.now t run) runs.old.items }
    ensures { OnOk result (All (λ run. (t : List Bool) × IsStemTo c.now t run) runs.new.items) }
{
    if !can_begin(c, chosen.latches.as_slice()) {
        return Ok(());
    }
    let run = run_of(alloc, c, chosen)?;
    put(c, run, runs)?;
    Ok(())
}

/// The runs of the stimuli that begin in an initial state, each up to where the stimulus fits no more.
pub(crate) fn judged_runs(
    alloc: Global,
    c: &Circuit,
    chosen: &[Stimulus],
) -> Result<Vec<Items<Position>>, AllocError>
    ensures { IfOk result (λ runs. All (λ run. (t : List Bool) × IsStemTo c.now t run) runs.items) }
{
    let mut runs = Vec::new(alloc);
    for stimulus in chosen {
        put_run_of(alloc, c, stimulus, &mut runs)?;
    }
    Ok(runs)
}
