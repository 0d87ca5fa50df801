//! Properties of drawn models as models with a bad state literal, both judged by a search of all states. The main call is
//! `lasso_count`.

use crate::drawing::model_text;
use crate::searching::{
    has_fair_lasso, is_true, may_begin, meets_constraints, power, steps_of, successor, valuation,
};
use aiger_names::Model;
use circuit::{Circuit, ModelEnd};
use live_to_safe::translate;
use std::alloc::{AllocError, Global};
use std::test::*;

// The states that were reached, in the order in which they were, and which these are.
#[derive(Drop)]
struct Reached {
    order: Vec<usize>,
    table: Vec<bool>,
}

fn is_new(reached: &Reached, state: usize) -> bool {
    reached.table.get(state).copied() == Some(false)
}

fn reach(reached: &mut Reached, state: usize) -> Result<(), AllocError> {
    if is_new(reached, state) && state < reached.table.len() {
        reached.table[state] = true;
        reached.order.push(state)?;
    }
    Ok(())
}

fn none_reached(alloc: Global, states: usize) -> Result<Reached, AllocError> {
    let mut table = Vec::new(alloc);
    for _state in 0..states {
        table.push(false)?;
    }
    Ok(Reached {
        order: Vec::new(alloc),
        table,
    })
}

fn reach_initial(c: &Circuit, states: usize, reached: &mut Reached) -> Result<(), AllocError> {
    for state in 0..states {
        if may_begin(c, state) {
            reach(reached, state)?;
        }
    }
    Ok(())
}

// Reaches the state that follows, if the position meets the constraints; whether a literal is true there.
fn step(c: &Circuit, values: &[bool], bad: u64, reached: &mut Reached) -> Result<bool, AllocError> {
    if !meets_constraints(c, values) {
        return Ok(false);
    }
    reach(reached, successor(c, values))?;
    Ok(is_true(values, bad))
}

fn step_from(
    alloc: Global,
    c: &Circuit,
    bad: u64,
    state: usize,
    reached: &mut Reached,
) -> Result<bool, AllocError> {
    let mut found = false;
    for inputs in 0..power(c.inputs().len()) {
        let values = valuation(alloc, c, state, inputs)?;
        found = step(c, &values, bad, reached)? || found;
    }
    Ok(found)
}

// Whether an initial run ends at a position at which the literal is true.
fn reaches(alloc: Global, c: &Circuit, bad: u64) -> Result<bool, AllocError> {
    let states = power(c.latches().len());
    let mut reached = none_reached(alloc, states)?;
    let found = reaches_by(alloc, c, bad, states, &mut reached);
    drop(reached);
    found
}

fn reaches_by(
    alloc: Global,
    c: &Circuit,
    bad: u64,
    states: usize,
    reached: &mut Reached,
) -> Result<bool, AllocError> {
    reach_initial(c, states, reached)?;
    for place in 0..states {
        let Some(state) = reached.order.get(place).copied() else {
            return Ok(false);
        };
        if step_from(alloc, c, bad, state, reached)? {
            return Ok(true);
        }
    }
    Ok(false)
}

fn has_bad_run(alloc: Global, model: &Model) -> Result<bool, AllocError> {
    match model.bad().first() {
        Some(bad) => reaches(alloc, model.circuit(), *bad),
        None => Ok(false),
    }
}

// Whether the property has a fair lasso, if its translation has a bad run exactly then.
fn verdict_on(alloc: Global, c: &Circuit) -> Result<Option<bool>, AllocError> {
    let steps = steps_of(alloc, c, 0)?;
    let has_lasso = has_fair_lasso(alloc, c, 0, &steps);
    drop(steps);
    compared(alloc, c, has_lasso?)
}

// What was found of the property, if the translation has a bad run exactly where that is a fair lasso.
fn compared(alloc: Global, c: &Circuit, has_lasso: bool) -> Result<Option<bool>, AllocError> {
    match translate(alloc, c, 0) {
        Ok(model) => {
            let has_bad = has_bad_run(alloc, &model);
            drop(model);
            let same = has_bad? == has_lasso;
            Ok(if same { Some(has_lasso) } else { None })
        }
        Err(_) => Ok(None),
    }
}

/// The model of a text. One call; no clause of it is wanted here.
pub(crate) fn read(alloc: Global, text: &[u8]) -> Result<Model, ModelEnd> {
    aiger_ascii::read(alloc, text)
}

fn verdict_of(alloc: Global, number: u64) -> Result<Option<bool>, AllocError> {
    let text = model_text(alloc, number)?;
    match read(alloc, &text) {
        Ok(model) => {
            let verdict = verdict_on(alloc, model.circuit());
            drop(model);
            verdict
        }
        Err(_) => Ok(None),
    }
}

// How many of the first drawn models have a fair lasso; nothing where one is judged otherwise than its translation.
fn lasso_count(alloc: Global, models: u64) -> Result<Option<u64>, AllocError> {
    let mut lassos: u64 = 0;
    for number in 0..models {
        match verdict_of(alloc, number)? {
            Some(true) => lassos = lassos.saturating_add(1),
            Some(false) => {}
            None => return Ok(None),
        }
    }
    Ok(Some(lassos))
}

/// The translation of each of 40 drawn models has a bad run exactly where the model has a fair lasso.
#[test]
fn drawn_models_translated(rt: HostRuntime) -> Result<(), Fail> {
    let lassos = lasso_count(rt.alloc(), 40)?.unwrap_or(0);
    assert!(rt; 5 <= lassos && lassos <= 35);
    Ok(())
}
