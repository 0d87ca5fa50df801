//! A property translated. The main call is `translate`.

ghost use Rattle.std.specs.Prelude.{◌≡◌, ◌↔◌, ◌+◌, ◌*◌, ◌≤◌, ◌<◌, length, All, IfOk, OnOk, IfErr};
ghost use Rattle.aig_semantics.specs.declared.limits.TheConstants.{MAX_VARIABLE};
ghost use Rattle.aig_semantics.specs.Circuits.{IsChecked, AreDefined, fair_literals};
ghost use Rattle.circuit.specs.Keeping.{IsKeptOf};
ghost use Rattle.circuit.specs.Sections.{circuit_of, used_by, AreInRange};
ghost use Rattle.live_to_safe.specs.BadRuns.{HasBadRun, HasFairLasso};
ghost use Rattle.live_to_safe.specs.Numbers.{sizes_of, greatest};
ghost use Rattle.live_to_safe.specs.Translation.{safety_model};
ghost use Rattle.live_to_safe.specs.Ends.{IsTranslatable, EndsBy};
ghost use Rattle.live_to_safe.specs.Steps.{safety_parts};

use crate::ends::TranslateEnd;
use crate::gates::gates_of;
use crate::latches::{inputs_of, latches_of};
use crate::sizes::{Sizes, greatest, sizes_of};
use aig_semantics::MAX_VARIABLE;
use aiger_names::{Model, Names};
use circuit::{Circuit, Kept, ModelEnd, Parts, keep_circuit, one_valuation};
use items::Items;
use std::alloc::{AllocError, Global};

/// The translation of property `j`, counted from 0: the circuit with an input, latches and gates more, and one bad state
/// literal. It has a bad run exactly where the circuit has a fair lasso of the property. Of a circuit with the greatest
/// variable M and L latches, for q literals of the property and of fairness, it has the greatest variable
/// M + 4 + 8L + 4q. Time and memory are in proportion to the circuit and to that.
///
/// `NoProperty(j)` comes where there is no property `j`; `TooLarge` with the greatest variable where that is above
/// `MAX_VARIABLE`; else `Memory` where memory is wanted.
pub fn translate(alloc: Global, c: &Circuit, j: u32) -> Result<Model, TranslateEnd>
    ensures model { IfOk result (λ m. m ≡ safety_model c.now j) }
    ensures exact { IfOk result (λ m. HasBadRun m ↔ HasFairLasso c.now j) }
    ensures able { OnOk result (IsTranslatable c.now j) }
    ensures end { IfErr result (EndsBy c.now j) }
{
    let property = j as usize;
    if property >= c.property_count() {
        return Err(TranslateEnd::NoProperty(j));
    }
    let z = sizes_of(c, property);
    let most = greatest(z);
    if most > MAX_VARIABLE {
        return Err(TranslateEnd::TooLarge(most));
    }
    Ok(translated(alloc, c, property, z)?)
}

fn translated(alloc: Global, c: &Circuit, j: usize, z: Sizes) -> Result<Model, AllocError>
    requires able { IsTranslatable c.now j }
    requires sizes { z ≡ sizes_of c.now j }
    ensures model { IfOk result (λ m. m ≡ safety_model c.now j) }
    ensures exact { IfOk result (λ m. HasBadRun m ↔ HasFairLasso c.now j) }
{
    let _limits = c.max();
    let parts = parts_of(alloc, c, j, z)?;
    let kept = kept_of(alloc, parts)?;
    Ok(named(alloc, c, j, kept))
}

// The literals of the property, and then those of fairness.
fn literals_of(alloc: Global, c: &Circuit, j: usize) -> Result<Vec<u64>, AllocError>
    requires { j < length c.now.justice }
    ensures { IfOk result (λ literals. literals.items ≡ fair_literals c.now j) }
{
    let mut literals = Vec::from_slice(alloc, c.property(j))?;
    literals.extend_from_slice(c.fairness())?;
    Ok(literals)
}

fn parts_of(alloc: Global, c: &Circuit, j: usize, z: Sizes) -> Result<Parts, AllocError>
    requires property { j < length c.now.justice }
    requires sizes { z ≡ sizes_of c.now j }
    requires fits { greatest z ≤ MAX_VARIABLE }
    requires low_latches { All (λ latch. latch.var ≤ MAX_VARIABLE) c.now.latches }
    requires low_literals { All (λ literal. literal ≤ 2 * MAX_VARIABLE + 1) (fair_literals c.now j) }
    ensures { IfOk result (λ parts. parts ≡ safety_parts c.now j) }
{
    let literals = literals_of(alloc, c, j)?;
    let inputs = inputs_of(alloc, c.inputs(), z)?;
    let latches = latches_of(alloc, c.latches(), z)?;
    let (gates, bad) = gates_of(alloc, c, z, literals.as_slice())?;
    Ok(Parts {
        max: greatest(z),
        inputs,
        latches,
        gates,
        outputs: Items::new(alloc),
        bad: Items::from_slice(alloc, &[bad])?,
        constraints: Items::from_slice(alloc, c.constraints())?,
        justice: Items::new(alloc),
        fairness: Items::new(alloc),
    })
}

// The circuit of sections in which nothing is wrong.
fn kept_of(alloc: Global, parts: Parts) -> Result<Kept, AllocError>
    requires in_range { AreInRange parts }
    requires checked { IsChecked (circuit_of parts) }
    requires defined { AreDefined (circuit_of parts) (used_by parts) }
    ensures { IfOk result (IsKeptOf parts) }
{
    match keep_circuit(alloc, parts) {
        Ok(kept) => Ok(kept),
        Err(ModelEnd::Memory) => Err(AllocError),
        Err(ModelEnd::Fault(_)) => unreachable!(),
    }
}

// The model of what was kept, without names.
fn named(alloc: Global, c: &Circuit, j: usize, kept: Kept) -> Model
    requires able { IsTranslatable c.now j }
    requires kept { IsKeptOf (safety_parts c.now j) kept }
    ensures model { result ≡ safety_model c.now j }
    ensures exact { HasBadRun result ↔ HasFairLasso c.now j }
{
    let _limits = c.max();
    one_valuation(c);
    one_valuation(&kept.circuit);
    let names = Names {
        symbols: Items::new(alloc),
        comment: None,
    };
    Model::new(kept.circuit, kept.outputs, kept.bad, names)
}
