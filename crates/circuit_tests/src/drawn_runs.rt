//! Simulation of small circuits, whose shortest lassos and numbers of reached states are worked out by hand.

use crate::models::{Model, circuit_of};
use circuit::{Circuit, Gate, Latch, Position, Reset};
use edge::{Bell, Meter};
use items::Items;
use simulation::{Simulated, simulate};
use std::alloc::{AllocError, Global};
use std::sync::Arc;
use std::test::*;

const NO_LIMIT: u64 = 4_294_967_295;

// Two bits that count from 0: variable 1 is the low one, 2 the high one, 5 their exclusive or.
const BITS: &[Latch] = &[
    Latch {
        var: 1,
        next: 3,
        reset: Reset::Zero,
    },
    Latch {
        var: 2,
        next: 10,
        reset: Reset::Zero,
    },
];

const SUMS: &[Gate] = &[
    Gate {
        var: 3,
        rhs0: 2,
        rhs1: 4,
    },
    Gate {
        var: 4,
        rhs0: 3,
        rhs1: 5,
    },
    Gate {
        var: 5,
        rhs0: 7,
        rhs1: 9,
    },
];

// A latch that begins with 0 and changes at each step.
const TOGGLE: &[Latch] = &[Latch {
    var: 1,
    next: 3,
    reset: Reset::Zero,
}];

// A latch that begins with either value and keeps it.
const KEPT: &[Latch] = &[Latch {
    var: 1,
    next: 2,
    reset: Reset::Free,
}];

// A latch that begins with either value and takes that of the input, variable 6.
const TAKEN: &[Latch] = &[Latch {
    var: 1,
    next: 12,
    reset: Reset::Free,
}];

/// What is found: a lasso of so many positions, the last of which leads back to position `from`; or none, and then runs of
/// which the longest has so many positions.
#[derive(Clone, Copy)]
enum Wanted {
    Lasso { positions: u64, from: u64 },
    Runs { longest: u64 },
}

/// The lists of a model whose greatest variable, 6, is its one input, and what is found of its property.
#[derive(Drop)]
struct Row {
    latches: &'static [Latch],
    gates: &'static [Gate],
    constraints: &'static [u64],
    property: &'static [u64],
    wanted: Wanted,
}

const ROWS: [Row; 11] = [
    Row {
        latches: TOGGLE,
        gates: &[],
        constraints: &[],
        property: &[2],
        wanted: Wanted::Lasso {
            positions: 2,
            from: 0,
        },
    },
    // A property without literals asks for a loop alone.
    Row {
        latches: TOGGLE,
        gates: &[],
        constraints: &[],
        property: &[],
        wanted: Wanted::Lasso {
            positions: 2,
            from: 0,
        },
    },
    // The cone is the input, and the latch outside of it is back behind two rounds.
    Row {
        latches: TOGGLE,
        gates: &[],
        constraints: &[],
        property: &[12],
        wanted: Wanted::Lasso {
            positions: 2,
            from: 0,
        },
    },
    // Outside of the cone two bits count.
    Row {
        latches: BITS,
        gates: SUMS,
        constraints: &[],
        property: &[12],
        wanted: Wanted::Lasso {
            positions: 4,
            from: 0,
        },
    },
    Row {
        latches: BITS,
        gates: SUMS,
        constraints: &[],
        property: &[6],
        wanted: Wanted::Lasso {
            positions: 4,
            from: 0,
        },
    },
    Row {
        latches: KEPT,
        gates: &[],
        constraints: &[],
        property: &[2],
        wanted: Wanted::Lasso {
            positions: 1,
            from: 0,
        },
    },
    Row {
        latches: TAKEN,
        gates: &[],
        constraints: &[],
        property: &[2, 3],
        wanted: Wanted::Lasso {
            positions: 2,
            from: 0,
        },
    },
    // Both values of a latch that keeps its value.
    Row {
        latches: KEPT,
        gates: &[],
        constraints: &[],
        property: &[2, 3],
        wanted: Wanted::Runs { longest: 1 },
    },
    // A literal that is never true: the runs have all states of the counter.
    Row {
        latches: BITS,
        gates: SUMS,
        constraints: &[],
        property: &[0, 10],
        wanted: Wanted::Runs { longest: 4 },
    },
    // The constraint wants 0 of the input, the property 1. The latch is 0 from the second position on.
    Row {
        latches: TAKEN,
        gates: &[],
        constraints: &[13],
        property: &[2, 12],
        wanted: Wanted::Runs { longest: 2 },
    },
    // No position meets the constraint.
    Row {
        latches: TOGGLE,
        gates: &[],
        constraints: &[0],
        property: &[2],
        wanted: Wanted::Runs { longest: 0 },
    },
];

fn rows() -> &'static [Row] {
    &ROWS
}

fn model_of(row: &Row) -> Model {
    Model {
        max: 6,
        inputs: &[6],
        latches: row.latches,
        gates: row.gates,
        constraints: row.constraints,
        property: row.property,
        fairness: &[],
    }
}

fn longest_of(runs: &[Items<Position>]) -> u64 {
    let mut most = 0;
    for run in runs {
        most = (run.len() as u64).max(most);
    }
    most
}

fn is_wanted(found: &Simulated, wanted: Wanted) -> bool {
    match (&found.lasso, wanted) {
        (Some(lasso), Wanted::Lasso { positions, from }) => {
            lasso.inputs.len() as u64 == positions && lasso.from == from
        }
        (None, Wanted::Runs { longest }) => longest_of(found.runs.as_slice()) == longest,
        _ => false,
    }
}

fn is_found(alloc: Global, c: &Circuit, seed: u32, wanted: Wanted) -> Result<bool, AllocError> {
    let meter = Meter::new(NO_LIMIT, NO_LIMIT);
    let found = simulate(alloc, c, 0, seed, &meter)?;
    Ok(is_wanted(&found, wanted))
}

/// Whether each of some seeds finds it.
fn is_found_by_each(alloc: Global, c: &Circuit, wanted: Wanted) -> Result<bool, AllocError> {
    for seed in 0..4 {
        if !is_found(alloc, c, seed, wanted)? {
            return Ok(false);
        }
    }
    Ok(true)
}

fn gives(alloc: Global, row: &Row) -> Result<bool, Fail> {
    let c = circuit_of(alloc, &model_of(row))?;
    let found = is_found_by_each(alloc, &c, row.wanted);
    drop(c);
    Ok(found?)
}

#[test]
fn simulation_finds_the_shortest_lassos(rt: HostRuntime) -> Result<(), Fail> {
    for (k, row) in rows().iter().enumerate() {
        assert!(rt; gives(rt.alloc(), row)?, "of row {k}");
    }
    Ok(())
}

// Whether simulation answers an error where the bell is rung.
fn is_ended(alloc: Global, c: &Circuit) -> Result<bool, AllocError> {
    let bell = Arc::new(alloc, Bell::new())?;
    let meter = Meter::new(NO_LIMIT, NO_LIMIT).with_bell(Arc::try_clone(&bell)?);
    bell.ring();
    Ok(simulate(alloc, c, 0, 0, &meter).is_err())
}

fn ends(alloc: Global, row: &Row) -> Result<bool, Fail> {
    let c = circuit_of(alloc, &model_of(row))?;
    let ended = is_ended(alloc, &c);
    drop(c);
    Ok(ended?)
}

#[test]
fn a_bell_ends_simulation(rt: HostRuntime) -> Result<(), Fail> {
    for row in rows().iter().take(1) {
        assert!(rt; ends(rt.alloc(), row)?);
    }
    Ok(())
}
