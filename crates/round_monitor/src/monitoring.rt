//! A property's monitor. The main call is `monitor`.

ghost use Rattle.std.specs.Prelude.{◌≡◌, ◌↔◌, ◌+◌, ◌*◌, ◌≤◌, ◌<◌, length, All, IfOk, OnOk, IfErr};
ghost use Rattle.aig_semantics.specs.declared.limits.TheConstants.{MAX_VARIABLE};
ghost use Rattle.aig_semantics.specs.Circuits.{IsChecked, AreDefined, fair_literals};
ghost use Rattle.circuit.specs.Keeping.{IsKeptOf};
ghost use Rattle.circuit.specs.Sections.{circuit_of, used_by, AreInRange};
ghost use Rattle.round_monitor.specs.Counting.{HasFullRun, HasRunOfRounds, WatchesRounds};
ghost use Rattle.round_monitor.specs.Numbers.{sizes_of, greatest};
ghost use Rattle.round_monitor.specs.Monitor.{monitor_model};
ghost use Rattle.round_monitor.specs.Ends.{IsMonitorable, EndsBy};
ghost use Rattle.round_monitor.specs.Steps.{monitor_parts};

use crate::gates::gates_of;
use crate::latches::latches_of;
use crate::sizes::{Sizes, greatest, sizes_of};
use aig_semantics::MAX_VARIABLE;
use aiger_names::{Model, Names};
use circuit::{Circuit, Kept, ModelEnd, Parts, keep_circuit, one_valuation};
use items::Items;
use live_to_safe::TranslateEnd;
use std::alloc::{AllocError, Global};

/// The monitor of property `j`, counted from 0, for `k` rounds: the circuit with latches and gates more, and without
/// properties. Its runs are those of the circuit, and its last latch is true behind a run exactly where the run has at
/// least `k` rounds; whether it can be true is a question of reachability that asks no constraint of that state. Time and
/// memory are in proportion to the circuit and the monitor.
///
/// `NoProperty(j)` comes where there is no property `j`; `TooLarge` with the greatest variable where that is above
/// `MAX_VARIABLE`; else `Memory` where memory is wanted.
pub fn monitor(alloc: Global, c: &Circuit, j: u32, k: u32) -> Result<Model, TranslateEnd>
    requires { 1 ≤ k }
    ensures model { IfOk result (λ m. m ≡ monitor_model c.now j k) }
    ensures watches { IfOk result (λ m. WatchesRounds c.now j k m.circuit) }
    ensures exact { IfOk result (λ m. HasFullRun m.circuit ↔ HasRunOfRounds c.now j k) }
    ensures able { OnOk result (IsMonitorable c.now j k) }
    ensures end { IfErr result (EndsBy c.now j k) }
{
    let property = j as usize;
    if property >= c.property_count() {
        return Err(TranslateEnd::NoProperty(j));
    }
    let z = sizes_of(c, property, k);
    let most = greatest(z);
    if most > MAX_VARIABLE {
        return Err(TranslateEnd::TooLarge(most));
    }
    Ok(monitored(alloc, c, property, k, z)?)
}

fn monitored(alloc: Global, c: &Circuit, j: usize, k: u32, z: Sizes) -> Result<Model, AllocError>
    requires some { 1 ≤ k }
    requires able { IsMonitorable c.now j k }
    requires sizes { z ≡ sizes_of c.now j k }
    ensures model { IfOk result (λ m. m ≡ monitor_model c.now j k) }
    ensures watches { IfOk result (λ m. WatchesRounds c.now j k m.circuit) }
    ensures exact { IfOk result (λ m. HasFullRun m.circuit ↔ HasRunOfRounds c.now j k) }
{
    let _limits = c.max();
    let parts = parts_of(alloc, c, j, k, z)?;
    let kept = kept_of(alloc, parts)?;
    Ok(named(alloc, c, j, k, kept))
}

/// The literals of the property, and then those of fairness.
fn literals_of(alloc: Global, c: &Circuit, j: usize) -> Result<Vec<u64>, AllocError>
    requires { j < length c.now.justice }
    ensures { IfOk result (λ literals. literals.items ≡ fair_literals c.now j) }
{
    let mut literals = Vec::from_slice(alloc, c.property(j))?;
    literals.extend_from_slice(c.fairness())?;
    Ok(literals)
}

fn parts_of(alloc: Global, c: &Circuit, j: usize, k: u32, z: Sizes) -> Result<Parts, AllocError>
    requires property { j < length c.now.justice }
    requires some { 1 ≤ k }
    requires sizes { z ≡ sizes_of c.now j k }
    requires fits { greatest z ≤ MAX_VARIABLE }
    requires low { All (λ literal. literal ≤ 2 * MAX_VARIABLE + 1) (fair_literals c.now j) }
    ensures { IfOk result (λ parts. parts ≡ monitor_parts c.now j k) }
{
    let literals = literals_of(alloc, c, j)?;
    let latches = latches_of(alloc, c.latches(), z)?;
    let gates = gates_of(alloc, c, z, literals.as_slice())?;
    Ok(Parts {
        max: greatest(z),
        inputs: Items::from_slice(alloc, c.inputs())?,
        latches,
        gates,
        outputs: Items::new(alloc),
        bad: Items::new(alloc),
        constraints: Items::from_slice(alloc, c.constraints())?,
        justice: Items::new(alloc),
        fairness: Items::new(alloc),
    })
}

// The circuit of sections in which nothing is wrong.
fn kept_of(alloc: Global, parts: Parts) -> Result<Kept, AllocError>
    requires in_range { AreInRange parts }
    requires checked { IsChecked (circuit_of parts) }
    requires defined { AreDefined (circuit_of parts) (used_by parts) }
    ensures { IfOk result (IsKeptOf parts) }
{
    match keep_circuit(alloc, parts) {
        Ok(kept) => Ok(kept),
        Err(ModelEnd::Memory) => Err(AllocError),
        Err(ModelEnd::Fault(_)) => unreachable!(),
    }
}

// The model of what was kept, without names.
fn named(alloc: Global, c: &Circuit, j: usize, k: u32, kept: Kept) -> Model
    requires some { 1 ≤ k }
    requires able { IsMonitorable c.now j k }
    requires kept { IsKeptOf (monitor_parts c.now j k) kept }
    ensures model { result ≡ monitor_model c.now j k }
    ensures watches { WatchesRounds c.now j k result.circuit }
    ensures exact { HasFullRun result.circuit ↔ HasRunOfRounds c.now j k }
{
    let _limits = c.max();
    one_valuation(c);
    one_valuation(&kept.circuit);
    let names = Names {
        symbols: Items::new(alloc),
        comment: None,
    };
    Model::new(kept.circuit, kept.outputs, kept.bad, names)
}
