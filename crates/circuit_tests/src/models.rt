//! Small models, by their lists, and the circuits of those that the check accepts.

use circuit::{Circuit, Gate, Latch, ModelEnd, ModelFault, Parts, check_circuit};
use items::Items;
use std::alloc::{AllocError, Global};
use std::mem;

/// A model with one property.
#[derive(Drop)]
pub(crate) struct Model {
    pub(crate) max: u64,
    pub(crate) inputs: &'static [u64],
    pub(crate) latches: &'static [Latch],
    pub(crate) gates: &'static [Gate],
    pub(crate) constraints: &'static [u64],
    pub(crate) property: &'static [u64],
    pub(crate) fairness: &'static [u64],
}

/// Nothing but a greatest variable.
pub(crate) fn no_parts(alloc: Global, max: u64) -> Parts {
    Parts {
        max,
        inputs: Items::new(alloc),
        latches: Items::new(alloc),
        gates: Items::new(alloc),
        outputs: Items::new(alloc),
        bad: Items::new(alloc),
        constraints: Items::new(alloc),
        justice: Items::new(alloc),
        fairness: Items::new(alloc),
    }
}

fn put_lists(alloc: Global, model: &Model, parts: &mut Parts) -> Result<(), AllocError> {
    let inputs = Items::from_slice(alloc, model.inputs)?;
    drop(mem::replace(&mut parts.inputs, inputs));
    let latches = Items::from_slice(alloc, model.latches)?;
    drop(mem::replace(&mut parts.latches, latches));
    let gates = Items::from_slice(alloc, model.gates)?;
    drop(mem::replace(&mut parts.gates, gates));
    Ok(())
}

fn put_properties(alloc: Global, model: &Model, parts: &mut Parts) -> Result<(), AllocError> {
    let constraints = Items::from_slice(alloc, model.constraints)?;
    drop(mem::replace(&mut parts.constraints, constraints));
    let fairness = Items::from_slice(alloc, model.fairness)?;
    drop(mem::replace(&mut parts.fairness, fairness));
    parts
        .justice
        .push(Items::from_slice(alloc, model.property)?)
}

fn put_parts(alloc: Global, model: &Model, parts: &mut Parts) -> Result<(), AllocError> {
    put_lists(alloc, model, parts)?;
    put_properties(alloc, model, parts)
}

pub(crate) fn parts_of(alloc: Global, model: &Model) -> Result<Parts, AllocError> {
    let mut parts = no_parts(alloc, model.max);
    put_parts(alloc, model, &mut parts)?;
    Ok(parts)
}

/// The circuit of a model in range; of one out of range `Header`, which no check says.
pub(crate) fn checked(alloc: Global, parts: &Parts) -> Result<Circuit, ModelEnd> {
    if !parts.is_in_range() {
        return Err(ModelEnd::Fault(ModelFault::Header(0)));
    }
    check_circuit(alloc, parts)
}

pub(crate) fn circuit_of(alloc: Global, model: &Model) -> Result<Circuit, ModelEnd> {
    let parts = parts_of(alloc, model)?;
    let c = checked(alloc, &parts);
    drop(parts);
    c
}
