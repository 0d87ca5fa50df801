//! A sequence of steps that fails is shortened before it is printed. The main call is `shortened`.
use crate::drawing::Step;
use std::alloc::{AllocError, Global};

/// What steps are tried on.
pub(crate) trait Trial {
    /// The place of the first step that goes wrong where these are kept, and the others left out.
    fn first_wrong(
        &self,
        alloc: Global,
        steps: &[Step],
        kept: &[bool],
    ) -> Result<Option<usize>, AllocError>;
}

/// Which steps are kept: those up to the first that goes wrong, less those that it still goes wrong without, one by one:
/// without any one of those that are left none does. No step where none goes wrong.
pub(crate) fn shortened<T: Trial>(
    alloc: Global,
    trial: &T,
    steps: &[Step],
) -> Result<Vec<bool>, AllocError> {
    let mut kept = vec![in alloc; true; steps.len()]?;
    shorten(alloc, trial, steps, kept.as_mut_slice())?;
    Ok(kept)
}

fn shorten<T: Trial>(
    alloc: Global,
    trial: &T,
    steps: &[Step],
    kept: &mut [bool],
) -> Result<(), AllocError> {
    let first = trial.first_wrong(alloc, steps, kept)?;
    leave_out_behind(kept, first);
    for _ in 0..steps.len() {
        if !lessen(alloc, trial, steps, kept)? {
            break;
        }
    }
    Ok(())
}

// Leaves out the steps behind a place, or all.
fn leave_out_behind(kept: &mut [bool], last: Option<usize>) {
    for place in 0..kept.len() {
        if is_behind(place, last) {
            kept[place] = false;
        }
    }
}

fn is_behind(place: usize, last: Option<usize>) -> bool {
    match last {
        Some(end) => place > end,
        None => true,
    }
}

// Leaves out the steps, from the last one on, without which it still goes wrong. Whether there was one.
fn lessen<T: Trial>(
    alloc: Global,
    trial: &T,
    steps: &[Step],
    kept: &mut [bool],
) -> Result<bool, AllocError> {
    let mut is_less = false;
    for place in (0..kept.len()).rev() {
        is_less = leave_out(alloc, trial, steps, kept, place)? || is_less;
    }
    Ok(is_less)
}

// Leaves out the step at a place, if it is kept and it still goes wrong then.
fn leave_out<T: Trial>(
    alloc: Global,
    trial: &T,
    steps: &[Step],
    kept: &mut [bool],
    place: usize,
) -> Result<bool, AllocError> {
    if place >= kept.len() || !kept[place] {
        return Ok(false);
    }
    kept[place] = false;
    let is_wrong = trial.first_wrong(alloc, steps, kept)?.is_some();
    kept[place] = !is_wrong;
    Ok(is_wrong)
}
