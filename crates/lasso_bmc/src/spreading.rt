//! A lasso of a cone as a stimulus of the whole circuit. The main call is `stimulus_of`.

use circuit::{Circuit, Lasso, Reset, Stimulus};
use items::Items;
use std::alloc::{AllocError, Global};

// The values of the variables `all`, of which `kept` are some, in the same order, that have these values; the others are 0.
fn spread(
    alloc: Global,
    all: &[u64],
    kept: &[u64],
    values: &[bool],
) -> Result<Items<bool>, AllocError> {
    let mut spread = Items::new(alloc);
    let mut place = 0;
    for variable in all {
        if kept.get(place).copied() == Some(*variable) {
            spread.push(values.get(place).copied().unwrap_or(false))?;
            place = place.saturating_add(1);
        } else {
            spread.push(false)?;
        }
    }
    Ok(spread)
}

// Whether the latch with this place in the part is the one of this variable.
fn is_latch(part: &Circuit, place: usize, variable: u64) -> bool {
    match part.latches().get(place) {
        Some(latch) => latch.var == variable,
        None => false,
    }
}

// The latches of the whole circuit at the beginning: those outside the cone at their reset, or at 0.
fn first_latches(
    alloc: Global,
    c: &Circuit,
    part: &Circuit,
    start: &[bool],
) -> Result<Items<bool>, AllocError> {
    let mut latches = Items::new(alloc);
    let mut place = 0;
    for latch in c.latches() {
        if is_latch(part, place, latch.var) {
            latches.push(start.get(place).copied().unwrap_or(false))?;
            place = place.saturating_add(1);
        } else {
            latches.push(match latch.reset {
                Reset::One => true,
                Reset::Zero | Reset::Free => false,
            })?;
        }
    }
    Ok(latches)
}

/// The stimulus of the whole circuit that has the latches and inputs of a lasso of the part, and 0 elsewhere where it may.
pub(crate) fn stimulus_of(
    alloc: Global,
    c: &Circuit,
    part: &Circuit,
    lasso: &Lasso,
) -> Result<Stimulus, AllocError> {
    let mut inputs = Items::new(alloc);
    for now in lasso.inputs.as_slice() {
        inputs.push(spread(alloc, c.inputs(), part.inputs(), now.as_slice())?)?;
    }
    let latches = first_latches(alloc, c, part, lasso.start.as_slice())?;
    Ok(Stimulus { latches, inputs })
}
