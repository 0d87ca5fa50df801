//! The sections of a slice: what of a circuit's lists lies in a cone.

ghost use Rattle.std.specs.Prelude.{◌≡◌, ◌∷◌, [], ◌<◌, length, IfOk, slice_index_or};
ghost use Rattle.std.specs.List.{filter};
ghost use Rattle.aig_semantics.specs.Literals.{variable_in};
ghost use Rattle.slice.specs.Steps.{sliced_parts};

use aig_semantics::{Gate, Latch};
use circuit::{Circuit, Parts};
use cone::Cone;
use items::Items;
use std::alloc::{AllocError, Global};

fn inputs_in(alloc: Global, inputs: &[u64], cone: &Cone) -> Result<Items<u64>, AllocError>
    ensures { IfOk result (λ kept. kept ≡ filter (variable_in cone.now) inputs.now) }
{
    let mut kept = Items::new(alloc);
    for input in inputs {
        if cone.has(*input) {
            kept.push(*input)?;
        }
    }
    Ok(kept)
}

fn latches_in(alloc: Global, latches: &[Latch], cone: &Cone) -> Result<Items<Latch>, AllocError>
    ensures { IfOk result (λ kept. kept ≡ filter (λ latch. variable_in cone.now latch.var) latches.now) }
{
    let mut kept = Items::new(alloc);
    for latch in latches {
        if cone.has(latch.var) {
            kept.push(*latch)?;
        }
    }
    Ok(kept)
}

fn gates_in(alloc: Global, gates: &[Gate], cone: &Cone) -> Result<Items<Gate>, AllocError>
    ensures { IfOk result (λ kept. kept ≡ filter (λ gate. variable_in cone.now gate.var) gates.now) }
{
    let mut kept = Items::new(alloc);
    for gate in gates {
        if cone.has(gate.var) {
            kept.push(*gate)?;
        }
    }
    Ok(kept)
}

fn one_property(alloc: Global, literals: &[u64]) -> Result<Items<Items<u64>>, AllocError>
    ensures { IfOk result (λ justice. justice ≡ literals.now ∷ []) }
{
    let mut justice = Items::new(alloc);
    justice.push(Items::from_slice(alloc, literals)?)?;
    Ok(justice)
}

/// The sections of the slice for property `j`.
pub(crate) fn parts_of(
    alloc: Global,
    c: &Circuit,
    j: usize,
    cone: &Cone,
) -> Result<Parts, AllocError>
    requires { j < length c.now.justice }
    ensures { IfOk result (λ parts. parts ≡ sliced_parts c.now j (variable_in cone.now)) }
{
    Ok(Parts {
        max: c.max(),
        inputs: inputs_in(alloc, c.inputs(), cone)?,
        latches: latches_in(alloc, c.latches(), cone)?,
        gates: gates_in(alloc, c.gates(), cone)?,
        outputs: Items::new(alloc),
        bad: Items::new(alloc),
        constraints: Items::from_slice(alloc, c.constraints())?,
        justice: one_property(alloc, c.property(j))?,
        fairness: Items::from_slice(alloc, c.fairness())?,
    })
}
