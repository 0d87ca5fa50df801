//! What simulation is asked for. The main type is `Task`.

use crate::parts::Part;
use circuit::Circuit;
use edge::Meter;
use std::alloc::{AllocError, Global};

/// A circuit; the cone of a property; the literals of the property and of fairness, each of which is true at a position of
/// a fair loop; and a meter, whose bell ends the runs.
#[derive(Drop)]
pub struct Task<'a> {
    pub circuit: &'a Circuit,
    pub cone: &'a Part,
    pub literals: &'a [u64],
    pub meter: &'a Meter,
}

/// The literals of property `j` and then those of fairness; those of fairness alone where there is no property `j`.
pub fn fair_literals(alloc: Global, c: &Circuit, j: u32) -> Result<Vec<u64>, AllocError> {
    let mut literals = Vec::new(alloc);
    if (j as usize) < c.property_count() {
        literals.extend_from_slice(c.property(j as usize))?;
    }
    literals.extend_from_slice(c.fairness())?;
    Ok(literals)
}
