//! The part of a circuit that is evaluated: a cone, or the whole. The main type is `Part`.

use circuit::{Circuit, Gate, Latch};
use std::alloc::{AllocError, Global};

/// An input: its place in the circuit's list, counted from 0, and its variable.
#[derive(Clone, Copy)]
pub struct PlacedInput {
    pub place: usize,
    pub var: u64,
}

/// A latch, and its place in the circuit's list, counted from 0.
#[derive(Clone, Copy)]
pub struct PlacedLatch {
    pub place: usize,
    pub latch: Latch,
}

/// Inputs, latches and gates of a circuit, the gates in an order in which they can be evaluated.
#[derive(Drop)]
pub struct Part {
    pub inputs: Vec<PlacedInput>,
    pub latches: Vec<PlacedLatch>,
    pub gates: Vec<Gate>,
}

// Whether a variable is marked. One past the end is not.
fn is_marked(marks: &[bool], variable: u64) -> bool {
    marks.get(variable as usize).copied().unwrap_or(false)
}

fn inputs_in(alloc: Global, c: &Circuit, marks: &[bool]) -> Result<Vec<PlacedInput>, AllocError> {
    let mut inputs = Vec::new(alloc);
    for (place, var) in c.inputs().iter().enumerate() {
        if is_marked(marks, *var) {
            inputs.push(PlacedInput { place, var: *var })?;
        }
    }
    Ok(inputs)
}

fn latches_in(alloc: Global, c: &Circuit, marks: &[bool]) -> Result<Vec<PlacedLatch>, AllocError> {
    let mut latches = Vec::new(alloc);
    for (place, latch) in c.latches().iter().enumerate() {
        if is_marked(marks, latch.var) {
            latches.push(PlacedLatch {
                place,
                latch: *latch,
            })?;
        }
    }
    Ok(latches)
}

fn gates_in(alloc: Global, c: &Circuit, marks: &[bool]) -> Result<Vec<Gate>, AllocError> {
    let mut gates = Vec::new(alloc);
    for gate in c.evaluation_order() {
        if is_marked(marks, gate.var) {
            gates.push(*gate)?;
        }
    }
    Ok(gates)
}

/// The part of a circuit whose variables are marked, where `marks` has the mark of variable `v` at place `v`.
pub fn part_of(alloc: Global, c: &Circuit, marks: &[bool]) -> Result<Part, AllocError> {
    Ok(Part {
        inputs: inputs_in(alloc, c, marks)?,
        latches: latches_in(alloc, c, marks)?,
        gates: gates_in(alloc, c, marks)?,
    })
}

/// The whole circuit.
pub fn whole(alloc: Global, c: &Circuit) -> Result<Part, AllocError> {
    let marks = vec![in alloc; true; c.max() as usize + 1]?;
    part_of(alloc, c, &marks)
}
