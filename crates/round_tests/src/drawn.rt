//! Drawn circuits with a drawn property: their positions and their text. The main call is `case_of`.

use crate::counting::{Steps, steps_of};
use crate::properties::{Property, property_drawn, text_with};
use drawn_circuits::Drawn;
use std::alloc::{AllocError, Global};

/// The positions of a circuit with a property, and its text.
#[derive(Drop)]
pub(crate) struct Case {
    pub(crate) steps: Steps,
    pub(crate) text: Vec<u8>,
}

fn case_with(alloc: Global, d: &Drawn, p: &Property) -> Result<Case, AllocError> {
    let text = text_with(alloc, d, p)?;
    Ok(Case {
        steps: steps_of(alloc, d, p)?,
        text,
    })
}

/// The circuit with this number, and the property of that number.
pub(crate) fn case_of(alloc: Global, d: &Drawn, number: u64) -> Result<Case, AllocError> {
    let p = property_drawn(alloc, d, number)?;
    let case = case_with(alloc, d, &p);
    drop(p);
    case
}
