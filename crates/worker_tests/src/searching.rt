//! A search of all states of a small circuit. The main calls are `has_fair_lasso` and `leaves_a_skeleton`. A state is
//! known by a number, whose bit i is the value of latch i.

use circuit::{Circuit, Reset};
use entry::{Checked, Kind, side};
use std::alloc::{AllocError, Global};
use std::sync::Arc;

/// A position that meets the constraints: its state, its successor, and which of the literals are true there that are
/// to be so again and again. Before them stands one that always is.
#[derive(Drop)]
pub(crate) struct Step {
    from: usize,
    to: usize,
    marks: Vec<bool>,
}

/// A power of two, of an exponent up to 20.
pub(crate) fn power(exponent: usize) -> usize {
    let mut value: usize = 1;
    for _turn in 0..exponent.min(20) {
        value = value.saturating_add(value);
    }
    value
}

fn bit(number: usize, i: usize) -> bool {
    number.checked_div(power(i)).unwrap_or(0) % 2 == 1
}

fn state_count(c: &Circuit) -> usize {
    power(c.latches().len())
}

fn blank(alloc: Global, count: usize) -> Result<Vec<bool>, AllocError> {
    let mut values = Vec::new(alloc);
    for _place in 0..count {
        values.push(false)?;
    }
    Ok(values)
}

// ---- positions

fn put(values: &mut [bool], var: u64, value: bool) {
    let at = var as usize;
    if at < values.len() {
        values[at] = value;
    }
}

/// The value of a literal, by those of all variables.
pub(crate) fn is_true(values: &[bool], literal: u64) -> bool {
    let plain = values.get((literal / 2) as usize).copied().unwrap_or(false);
    plain != (literal % 2 == 1)
}

/// The values of all variables. Each gate stands behind those that it reads.
pub(crate) fn valuation(
    alloc: Global,
    c: &Circuit,
    state: usize,
    inputs: usize,
) -> Result<Vec<bool>, AllocError> {
    let mut values = blank(alloc, (c.max() as usize).saturating_add(1))?;
    for (i, var) in c.inputs().iter().enumerate() {
        put(&mut values, *var, bit(inputs, i));
    }
    for (i, latch) in c.latches().iter().enumerate() {
        put(&mut values, latch.var, bit(state, i));
    }
    for gate in c.gates() {
        let value = is_true(&values, gate.rhs0) && is_true(&values, gate.rhs1);
        put(&mut values, gate.var, value);
    }
    Ok(values)
}

/// Whether each constraint is true.
pub(crate) fn meets_constraints(c: &Circuit, values: &[bool]) -> bool {
    for literal in c.constraints() {
        if !is_true(values, *literal) {
            return false;
        }
    }
    true
}

/// The state that follows a position with these values.
pub(crate) fn successor(c: &Circuit, values: &[bool]) -> usize {
    let mut next: usize = 0;
    for (i, latch) in c.latches().iter().enumerate() {
        if is_true(values, latch.next) {
            next = next.saturating_add(power(i));
        }
    }
    next
}

fn push_marks(marks: &mut Vec<bool>, values: &[bool], literals: &[u64]) -> Result<(), AllocError> {
    for literal in literals {
        marks.push(is_true(values, *literal))?;
    }
    Ok(())
}

fn marks_of(alloc: Global, c: &Circuit, j: u32, values: &[bool]) -> Result<Vec<bool>, AllocError> {
    let mut marks = Vec::new(alloc);
    marks.push(true)?;
    if (j as usize) < c.property_count() {
        push_marks(&mut marks, values, c.property(j as usize))?;
    }
    push_marks(&mut marks, values, c.fairness())?;
    Ok(marks)
}

fn push_step(
    alloc: Global,
    c: &Circuit,
    j: u32,
    state: usize,
    inputs: usize,
    steps: &mut Vec<Step>,
) -> Result<(), AllocError> {
    let values = valuation(alloc, c, state, inputs)?;
    if meets_constraints(c, &values) {
        steps.push(Step {
            from: state,
            to: successor(c, &values),
            marks: marks_of(alloc, c, j, &values)?,
        })?;
    }
    Ok(())
}

/// The steps of a circuit of up to six latches and inputs, with the marks of property `j`.
pub(crate) fn steps_of(alloc: Global, c: &Circuit, j: u32) -> Result<Vec<Step>, AllocError> {
    let mut steps = Vec::new(alloc);
    for state in 0..state_count(c) {
        for inputs in 0..power(c.inputs().len()) {
            push_step(alloc, c, j, state, inputs, &mut steps)?;
        }
    }
    Ok(steps)
}

/// How many literals are to be true again and again for property `j`.
pub(crate) fn literal_count(c: &Circuit, j: u32) -> usize {
    if (j as usize) < c.property_count() {
        return c
            .property(j as usize)
            .len()
            .saturating_add(c.fairness().len());
    }
    c.fairness().len()
}

fn has_mark(step: &Step, m: usize) -> bool {
    step.marks.get(m).copied().unwrap_or(false)
}

// ---- fair lassos

// Which states lead to which, by no step or more: a row for each state.
#[derive(Drop)]
struct Ways {
    states: usize,
    table: Vec<bool>,
}

fn place(ways: &Ways, from: usize, to: usize) -> usize {
    from.saturating_mul(ways.states).saturating_add(to)
}

fn leads(ways: &Ways, from: usize, to: usize) -> bool {
    ways.table
        .get(place(ways, from, to))
        .copied()
        .unwrap_or(false)
}

fn put_way(ways: &mut Ways, from: usize, to: usize) {
    let at = place(ways, from, to);
    if at < ways.table.len() {
        ways.table[at] = true;
    }
}

fn single_steps(alloc: Global, states: usize, steps: &[Step]) -> Result<Ways, AllocError> {
    let mut ways = Ways {
        states,
        table: blank(alloc, states.saturating_mul(states))?,
    };
    for state in 0..states {
        put_way(&mut ways, state, state);
    }
    for step in steps {
        put_way(&mut ways, step.from, step.to);
    }
    Ok(ways)
}

// Adds the ways through a state, after those through the states below it.
fn put_through(ways: &mut Ways, middle: usize) {
    for from in 0..ways.states {
        if leads(ways, from, middle) {
            for to in 0..ways.states {
                if leads(ways, middle, to) {
                    put_way(ways, from, to);
                }
            }
        }
    }
}

fn all_ways(alloc: Global, states: usize, steps: &[Step]) -> Result<Ways, AllocError> {
    let mut ways = single_steps(alloc, states, steps)?;
    for middle in 0..states {
        put_through(&mut ways, middle);
    }
    Ok(ways)
}

/// Whether the state is initial.
pub(crate) fn may_begin(c: &Circuit, state: usize) -> bool {
    for (i, latch) in c.latches().iter().enumerate() {
        let agrees = match latch.reset {
            Reset::Zero => !bit(state, i),
            Reset::One => bit(state, i),
            Reset::Free => true,
        };
        if !agrees {
            return false;
        }
    }
    true
}

fn is_reached(c: &Circuit, ways: &Ways, state: usize) -> bool {
    for first in 0..ways.states {
        if may_begin(c, first) && leads(ways, first, state) {
            return true;
        }
    }
    false
}

// Whether a loop through the state has a position with this mark.
fn is_met_around(steps: &[Step], ways: &Ways, state: usize, m: usize) -> bool {
    for step in steps {
        if has_mark(step, m) && leads(ways, state, step.from) && leads(ways, step.to, state) {
            return true;
        }
    }
    false
}

fn is_fair_around(marks: usize, steps: &[Step], ways: &Ways, state: usize) -> bool {
    for m in 0..marks {
        if !is_met_around(steps, ways, state, m) {
            return false;
        }
    }
    true
}

fn has_fair_loop(c: &Circuit, marks: usize, steps: &[Step], ways: &Ways) -> bool {
    for state in 0..ways.states {
        if is_reached(c, ways, state) && is_fair_around(marks, steps, ways, state) {
            return true;
        }
    }
    false
}

/// Whether property `j` has a fair lasso. The steps are those of the circuit, with its marks.
pub(crate) fn has_fair_lasso(
    alloc: Global,
    c: &Circuit,
    j: u32,
    steps: &[Step],
) -> Result<bool, AllocError> {
    let ways = all_ways(alloc, state_count(c), steps)?;
    Ok(has_fair_loop(c, literal_count(c, j).saturating_add(1), steps, &ways))
}

// ---- skeletons

// On which side of which entry each state lies: a row for each state.
#[derive(Drop)]
struct Sides {
    entries: usize,
    table: Vec<bool>,
}

fn values_of(alloc: Global, c: &Circuit, state: usize) -> Result<Vec<bool>, AllocError> {
    let mut values = Vec::new(alloc);
    for i in 0..c.latches().len() {
        values.push(bit(state, i))?;
    }
    Ok(values)
}

fn side_of(view: &[Arc<Checked>], k: u32, state: &[bool], scratch: &mut [bool]) -> bool {
    if (k as usize) < view.len() && (k as usize) < scratch.len() {
        side(view, k, state, scratch)
    } else {
        false
    }
}

// The sides of one state.
fn push_row(
    view: &[Arc<Checked>],
    state: &[bool],
    scratch: &mut [bool],
    table: &mut Vec<bool>,
) -> Result<(), AllocError> {
    for k in 0..view.len() {
        let number = u32::try_from(k).unwrap_or(0);
        table.push(side_of(view, number, state, scratch))?;
    }
    Ok(())
}

fn push_state(
    alloc: Global,
    c: &Circuit,
    view: &[Arc<Checked>],
    state: usize,
    table: &mut Vec<bool>,
) -> Result<(), AllocError> {
    let values = values_of(alloc, c, state)?;
    let mut scratch = blank(alloc, view.len())?;
    push_row(view, &values, &mut scratch, table)
}

fn sides_of(alloc: Global, c: &Circuit, view: &[Arc<Checked>]) -> Result<Sides, AllocError> {
    let mut table = Vec::new(alloc);
    for state in 0..state_count(c) {
        push_state(alloc, c, view, state, &mut table)?;
    }
    Ok(Sides {
        entries: view.len(),
        table,
    })
}

fn is_in(sides: &Sides, state: usize, k: usize) -> bool {
    let at = state.saturating_mul(sides.entries).saturating_add(k);
    sides.table.get(at).copied().unwrap_or(false)
}

// Whether an entry allows the states together: a reach entry where it holds both, a wall where both are on one side.
fn allows_both(entry: &Checked, sides: &Sides, k: usize, one: usize, other: usize) -> bool {
    let (one, other) = (is_in(sides, one, k), is_in(sides, other, k));
    match entry.listed().kind {
        Kind::Reach => one && other,
        Kind::Wall => one == other,
    }
}

fn all_allow(view: &[Arc<Checked>], sides: &Sides, one: usize, other: usize) -> bool {
    for (k, entry) in view.iter().enumerate() {
        if !allows_both(&**entry, sides, k, one, other) {
            return false;
        }
    }
    true
}

// Whether a position with this mark may stand in a skeleton with the state.
fn is_met_beside(
    view: &[Arc<Checked>],
    sides: &Sides,
    steps: &[Step],
    state: usize,
    m: usize,
) -> bool {
    for step in steps {
        if has_mark(step, m)
            && all_allow(view, sides, state, step.from)
            && all_allow(view, sides, state, step.to)
        {
            return true;
        }
    }
    false
}

fn begins_a_skeleton(
    marks: usize,
    view: &[Arc<Checked>],
    sides: &Sides,
    steps: &[Step],
    state: usize,
) -> bool {
    for m in 0..marks {
        if !is_met_beside(view, sides, steps, state, m) {
            return false;
        }
    }
    true
}

fn has_skeleton(marks: usize, view: &[Arc<Checked>], sides: &Sides, steps: &[Step]) -> bool {
    for step in steps {
        if begins_a_skeleton(marks, view, sides, steps, step.from) {
            return true;
        }
    }
    false
}

/// Whether the entries allow a skeleton of property `j`. The steps are those of the circuit, with its marks.
pub(crate) fn leaves_a_skeleton(
    alloc: Global,
    c: &Circuit,
    j: u32,
    view: &[Arc<Checked>],
    steps: &[Step],
) -> Result<bool, AllocError> {
    let sides = sides_of(alloc, c, view)?;
    Ok(has_skeleton(literal_count(c, j).saturating_add(1), view, &sides, steps))
}
