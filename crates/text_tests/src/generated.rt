//! Generated models computed by another program.
ghost use Rattle.std.specs.Prelude.{◌≤◌};

use aig_semantics::{Gate, Latch, Reset};
use aiger_names::Model;
use model_gen::{ring, scramble};
use std::alloc::{AllocError, Global};
use std::test::*;

fn latch(var: u64, next: u64, reset: Reset) -> Latch {
    Latch { var, next, reset }
}

fn gate(var: u64, rhs0: u64, rhs1: u64) -> Gate {
    Gate { var, rhs0, rhs1 }
}

/// Whether the model has these lists, and one property.
fn has(
    model: &Model,
    latches: &[Latch],
    gates: &[Gate],
    property: &[u64],
    fairness: &[u64],
) -> bool {
    let circuit = model.circuit();
    if circuit.property_count() != 1 {
        return false;
    }
    circuit.latches() == latches
        && circuit.gates() == gates
        && circuit.property(0) == property
        && circuit.fairness() == fairness
}

fn ring_has(
    alloc: Global,
    seed: u64,
    n: u64,
    latches: &[Latch],
    property: &[u64],
) -> Result<bool, AllocError>
    requires some { 1 ≤ n }
    requires few { n ≤ 256 }
{
    let model = ring(alloc, seed, n)?;
    let has = has(&model, latches, &[], property, &[]);
    drop(model);
    Ok(has)
}

fn scramble_has(
    alloc: Global,
    seed: u64,
    n: u64,
    latches: &[Latch],
    gates: &[Gate],
    property: &[u64],
    fairness: &[u64],
) -> Result<bool, AllocError>
    requires some { 1 ≤ n }
    requires few { n ≤ 256 }
{
    let model = scramble(alloc, seed, n)?;
    let has = has(&model, latches, gates, property, fairness);
    drop(model);
    Ok(has)
}

fn greatest_variable(alloc: Global, seed: u64, n: u64) -> Result<u64, AllocError>
    requires some { 1 ≤ n }
    requires few { n ≤ 256 }
{
    let model = scramble(alloc, seed, n)?;
    let greatest = model.circuit().max();
    drop(model);
    Ok(greatest)
}

#[test]
fn rings(rt: HostRuntime) -> Result<(), Fail> {
    let latches = [latch(1, 4, Reset::One), latch(2, 2, Reset::Zero)];
    let property = [2, 4];
    assert!(rt; ring_has(rt.alloc(), 0, 2, latches.as_slice(), property.as_slice())?);
    Ok(())
}

#[test]
fn drawn_circuits(rt: HostRuntime) -> Result<(), Fail> {
    let latches = [latch(3, 13, Reset::One), latch(4, 13, Reset::Free)];
    let gates = [gate(5, 8, 1), gate(6, 9, 5), gate(7, 7, 1), gate(8, 8, 4)];
    let property = [2, 2];
    let fairness = [15];
    let same = scramble_has(
        rt.alloc(),
        7,
        2,
        latches.as_slice(),
        gates.as_slice(),
        property.as_slice(),
        fairness.as_slice(),
    )?;
    assert!(rt; same);
    assert_eq!(rt; greatest_variable(rt.alloc(), 4294967295, 256)?, 770);
    Ok(())
}
