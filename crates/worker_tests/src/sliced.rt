//! Models and their slices, both judged by a search of all states. The main call is `counts_of`.

use crate::drawing::model_text;
use crate::searching::{has_fair_lasso, steps_of};
use crate::translated::read;
use aiger_names::Model;
use circuit::Circuit;
use slice::slice;
use std::alloc::{AllocError, Global};
use std::test::*;

// Beside the toggling latch that the property reads a counter of four bits.
const COUNTED: &str =
    "aag 14 0 5 0 9 0 0 1\n2 3\n4 5\n6 16\n8 22\n10 28\n1\n2\n12 4 6\n14 5 7\n16 13 15\n18 12 8\n20 13 9\n22 19 21\n24 18 10\n26 19 11\n28 25 27\n";

fn has_lasso(alloc: Global, c: &Circuit) -> Result<bool, AllocError> {
    let steps = steps_of(alloc, c, 0)?;
    has_fair_lasso(alloc, c, 0, &steps)
}

// What was found of a circuit, and how many of its latches are left out of a part, if the same is found of the part.
fn compared(
    alloc: Global,
    found: bool,
    c: &Circuit,
    part: &Circuit,
) -> Result<Option<(bool, usize)>, AllocError> {
    let same = has_lasso(alloc, part)? == found;
    let left = c.latches().len().saturating_sub(part.latches().len());
    Ok(if same { Some((found, left)) } else { None })
}

// Whether the model has a fair lasso of its first property, and how many latches are left out of the slice, if the slice has
// one exactly then.
fn verdict_on(alloc: Global, model: &Model) -> Result<Option<(bool, usize)>, AllocError> {
    let c = model.circuit();
    let found = has_lasso(alloc, c)?;
    match slice(alloc, model, 0) {
        Ok(part) => {
            let verdict = compared(alloc, found, c, part.circuit());
            drop(part);
            verdict
        }
        Err(_) => Ok(None),
    }
}

fn verdict_of(alloc: Global, text: &[u8]) -> Result<Option<(bool, usize)>, AllocError> {
    match read(alloc, text) {
        Ok(model) => {
            let verdict = verdict_on(alloc, &model);
            drop(model);
            verdict
        }
        Err(_) => Ok(None),
    }
}

fn verdict_drawn(alloc: Global, number: u64) -> Result<Option<(bool, usize)>, AllocError> {
    let text = model_text(alloc, number)?;
    let verdict = verdict_of(alloc, &text);
    drop(text);
    verdict
}

// How many of the first drawn models have a fair lasso, and how many latches their slices leave out; nothing where one is
// judged otherwise than its slice.
fn counts_of(alloc: Global, models: u64) -> Result<Option<(u64, usize)>, AllocError> {
    let mut lassos: u64 = 0;
    let mut left: usize = 0;
    for number in 0..models {
        let Some((found, latches)) = verdict_drawn(alloc, number)? else {
            return Ok(None);
        };
        lassos = lassos.saturating_add(u64::from(found));
        left = left.saturating_add(latches);
    }
    Ok(Some((lassos, left)))
}

/// The slice of each of 60 drawn models has a fair lasso exactly where the model has one, and so where the loop of the slice
/// has to be repeated 16 times.
#[test]
fn drawn_models_sliced(rt: HostRuntime) -> Result<(), Fail> {
    let (lassos, left) = counts_of(rt.alloc(), 60)?.unwrap_or((0, 0));
    assert!(rt; 5 <= lassos && lassos <= 55);
    assert_eq!(rt; left, 74);
    let counted = verdict_of(rt.alloc(), COUNTED.as_bytes())?;
    assert_eq!(rt; counted, Some((true, 4)));
    Ok(())
}
