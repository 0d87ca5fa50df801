//! What does not do the same in two repetitions of a loop. The main call is `moving_part`.

use circuit::Gate;
use run_batches::{Part, PlacedLatch};
use std::alloc::{AllocError, Global};

/// How often gates and latches are gone through, at most, until no more variable is marked.
const MOST_PASSES: u32 = 64;

fn is_marked(marks: &[bool], literal: u64) -> bool {
    marks.get((literal / 2) as usize).copied().unwrap_or(false)
}

// Marks a variable. Answers whether it was not marked.
fn mark(marks: &mut [bool], variable: u64) -> bool {
    match marks.get_mut(variable as usize) {
        Some(kept) => {
            let is_new = !*kept;
            *kept = true;
            is_new
        }
        None => false,
    }
}

// The greatest variable of a latch or a gate.
fn greatest(part: &Part) -> u64 {
    let mut most = 0;
    for placed in part.latches.iter() {
        most = placed.latch.var.max(most);
    }
    for gate in part.gates.iter() {
        most = gate.var.max(most);
    }
    most
}

// Marks the latches that differ in two states.
fn mark_apart(part: &Part, before: &[bool], after: &[bool], marks: &mut [bool]) {
    for placed in part.latches.iter() {
        if before.get(placed.place).copied() != after.get(placed.place).copied() {
            mark(marks, placed.latch.var);
        }
    }
}

// Marks the gates that read what is marked, and then such latches. Answers whether there was such a latch.
fn mark_more(part: &Part, marks: &mut [bool]) -> bool {
    for gate in part.gates.iter() {
        if is_marked(marks, gate.rhs0) || is_marked(marks, gate.rhs1) {
            mark(marks, gate.var);
        }
    }
    let mut is_more = false;
    for placed in part.latches.iter() {
        if is_marked(marks, placed.latch.next) && mark(marks, placed.latch.var) {
            is_more = true;
        }
    }
    is_more
}

// Marks all that depends on what is marked. Answers whether it did.
fn mark_all(part: &Part, marks: &mut [bool]) -> bool {
    for _pass in 0..MOST_PASSES {
        if !mark_more(part, marks) {
            return true;
        }
    }
    false
}

fn marked_latches(
    alloc: Global,
    part: &Part,
    marks: &[bool],
) -> Result<Vec<PlacedLatch>, AllocError> {
    let mut latches = Vec::new(alloc);
    for placed in part.latches.iter() {
        if is_marked(marks, placed.latch.var.saturating_mul(2)) {
            latches.push(*placed)?;
        }
    }
    Ok(latches)
}

fn marked_gates(alloc: Global, part: &Part, marks: &[bool]) -> Result<Vec<Gate>, AllocError> {
    let mut gates = Vec::new(alloc);
    for gate in part.gates.iter() {
        if is_marked(marks, gate.var.saturating_mul(2)) {
            gates.push(*gate)?;
        }
    }
    Ok(gates)
}

/// The latches of a part that differ in two states, and the latches and gates that depend on these; more where chains of
/// latches are long.
pub(crate) fn moving_part(
    alloc: Global,
    part: &Part,
    before: &[bool],
    after: &[bool],
) -> Result<Part, AllocError> {
    let mut marks = vec![in alloc; false; (greatest(part) as usize).saturating_add(1)]?;
    mark_apart(part, before, after, &mut marks);
    if !mark_all(part, &mut marks) {
        marks.fill(true);
    }
    Ok(Part {
        inputs: Vec::new(alloc),
        latches: marked_latches(alloc, part, &marks)?,
        gates: marked_gates(alloc, part, &marks)?,
    })
}
