//! The cone of a property as a circuit; `slice` makes a model of it. The main call is `cone_circuit`.
ghost use Rattle.std.specs.Prelude.{◌<◌, length, IfOk, IfSome};
ghost use Rattle.circuit.specs.Sections.{AreInRange};

use circuit::{Circuit, Gate, Kept, Latch, ModelEnd, Parts, keep_circuit};
use cone::{Cone, cone_of};
use items::Items;
use std::alloc::{AllocError, Global};

fn inputs_in(alloc: Global, inputs: &[u64], cone: &Cone) -> Result<Items<u64>, AllocError> {
    let mut kept = Items::new(alloc);
    for input in inputs {
        if cone.has(*input) {
            kept.push(*input)?;
        }
    }
    Ok(kept)
}

fn latches_in(alloc: Global, latches: &[Latch], cone: &Cone) -> Result<Items<Latch>, AllocError> {
    let mut kept = Items::new(alloc);
    for latch in latches {
        if cone.has(latch.var) {
            kept.push(*latch)?;
        }
    }
    Ok(kept)
}

fn gates_in(alloc: Global, gates: &[Gate], cone: &Cone) -> Result<Items<Gate>, AllocError> {
    let mut kept = Items::new(alloc);
    for gate in gates {
        if cone.has(gate.var) {
            kept.push(*gate)?;
        }
    }
    Ok(kept)
}

// Property `j` alone; none where there is no such property.
fn one_property(alloc: Global, c: &Circuit, j: u32) -> Result<Items<Items<u64>>, AllocError> {
    let mut justice = Items::new(alloc);
    if (j as usize) < c.property_count() {
        justice.push(Items::from_slice(alloc, c.property(j as usize))?)?;
    }
    Ok(justice)
}

// What lies in the cone, with the numbers that it has in the circuit.
fn parts_in(alloc: Global, c: &Circuit, j: u32, cone: &Cone) -> Result<Parts, AllocError> {
    Ok(Parts {
        max: c.max(),
        inputs: inputs_in(alloc, c.inputs(), cone)?,
        latches: latches_in(alloc, c.latches(), cone)?,
        gates: gates_in(alloc, c.gates(), cone)?,
        outputs: Items::new(alloc),
        bad: Items::new(alloc),
        constraints: Items::from_slice(alloc, c.constraints())?,
        justice: one_property(alloc, c, j)?,
        fairness: Items::from_slice(alloc, c.fairness())?,
    })
}

fn parts_of(alloc: Global, c: &Circuit, j: u32) -> Result<Parts, AllocError> {
    let cone = cone_of(alloc, c, j)?;
    let parts = parts_in(alloc, c, j, &cone);
    drop(cone);
    parts
}

// The circuit, where it has a property. That `_c` has property `_j` is handed on.
fn with_property(kept: Kept, _c: &Circuit, _j: u32) -> Option<Circuit>
    requires { _j < length _c.now.justice }
    ensures some { IfSome result (λ part. 0 < length part.justice) }
    ensures property { IfSome result (λ part. _j < length _c.now.justice) }
{
    if kept.circuit.property_count() == 0 {
        drop(kept);
        return None;
    }
    Some(kept.circuit)
}

/// The inputs, latches and gates of the cone of property `j`, with the constraints, this property as the only one, and
/// fairness; none where there is no such property.
pub(crate) fn cone_circuit(
    alloc: Global,
    c: &Circuit,
    j: u32,
) -> Result<Option<Circuit>, AllocError>
    ensures some { IfOk result (λ made. IfSome made (λ part. 0 < length part.justice)) }
    ensures property { IfOk result (λ made. IfSome made (λ part. j < length c.now.justice)) }
{
    if (j as usize) >= c.property_count() {
        return Ok(None);
    }
    let parts = parts_of(alloc, c, j)?;
    if !parts.is_in_range() {
        drop(parts);
        return Ok(None);
    }
    match keep_circuit(alloc, parts) {
        Ok(kept) => Ok(with_property(kept, c, j)),
        Err(ModelEnd::Memory) => Err(AllocError),
        Err(ModelEnd::Fault(_fault)) => Ok(None),
    }
}
