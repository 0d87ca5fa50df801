//! States of drawn circuits and the steps between them. The main calls are `values_of` and `next_of`.

use crate::drawing::{Drawn, power};
use items::Items;
use std::alloc::{AllocError, Global};

/// Whether a bit of a number is 1.
pub fn bit(number: u64, i: u64) -> bool {
    number.checked_div(power(i)).unwrap_or(0) % 2 == 1
}

/// The value of a literal, where these are the values of all variables.
pub fn value(values: &[bool], literal: u64) -> bool {
    let plain = values.get((literal / 2) as usize).copied().unwrap_or(false);
    plain != (literal % 2 == 1)
}

/// The values of all variables at a position.
pub fn values_of(
    alloc: Global,
    d: &Drawn,
    state: u64,
    inputs: u64,
) -> Result<Vec<bool>, AllocError> {
    let mut values = Vec::new(alloc);
    values.push(false)?;
    for i in 0..d.inputs {
        values.push(bit(inputs, i))?;
    }
    for i in 0..d.latches {
        values.push(bit(state, i))?;
    }
    for (left, right) in &d.gates {
        let gate = value(values.as_slice(), *left) && value(values.as_slice(), *right);
        values.push(gate)?;
    }
    Ok(values)
}

/// The state that follows a position with these values.
pub fn next_of(d: &Drawn, values: &[bool]) -> u64 {
    let mut next: u64 = 0;
    for (i, literal) in d.nexts.iter().enumerate() {
        if value(values, *literal) {
            next = power(i as u64).saturating_add(next);
        }
    }
    next
}

/// Whether a state is initial.
pub fn may_begin(d: &Drawn, state: u64) -> bool {
    for (i, reset) in d.resets.iter().enumerate() {
        let free = *reset == 2;
        if !free && bit(state, i as u64) != (*reset == 1) {
            return false;
        }
    }
    true
}

/// The values of the latches in a state.
pub fn state_of(alloc: Global, d: &Drawn, state: u64) -> Result<Items<bool>, AllocError> {
    let mut values = Items::new(alloc);
    for i in 0..d.latches {
        values.push(bit(state, i))?;
    }
    Ok(values)
}
