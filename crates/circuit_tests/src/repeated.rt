//! Loops of a cone that are repeated until the state of the whole circuit is back: beside the cone of the property, which
//! is one input, there are rings of latches with one 1 each, which come back after the least common multiple of their
//! lengths.

use crate::models::{Model, checked, parts_of};
use circuit::{Circuit, Lasso, Latch, ModelEnd, Reset, Stimulus};
use edge::Meter;
use items::Items;
use simulation::repeated_lasso;
use std::alloc::{AllocError, Global};
use std::mem;
use std::test::*;

const NO_LIMIT: u64 = 4_294_967_295;

/// The lengths of rings outside of the cone; a constraint; the inputs of a loop; and after how many positions the lasso is
/// closed that comes of it, if there is one.
#[derive(Drop)]
struct Row {
    rings: &'static [u64],
    constraints: &'static [u64],
    body: &'static [bool],
    positions: Option<u64>,
}

const ROWS: [Row; 9] = [
    Row {
        rings: &[],
        constraints: &[],
        body: &[true],
        positions: Some(1),
    },
    Row {
        rings: &[2],
        constraints: &[],
        body: &[true],
        positions: Some(2),
    },
    Row {
        rings: &[3],
        constraints: &[],
        body: &[true],
        positions: Some(3),
    },
    Row {
        rings: &[16],
        constraints: &[],
        body: &[true],
        positions: Some(16),
    },
    Row {
        rings: &[16, 3, 5],
        constraints: &[],
        body: &[true],
        positions: Some(240),
    },
    // The state is back after six positions, and before after three.
    Row {
        rings: &[3],
        constraints: &[],
        body: &[false, true],
        positions: Some(3),
    },
    // 9,699,690 rounds are too many.
    Row {
        rings: &[2, 3, 5, 7, 11, 13, 17, 19],
        constraints: &[],
        body: &[true],
        positions: None,
    },
    // With inputs at which the literal of the property is not true the loop is no lasso.
    Row {
        rings: &[3],
        constraints: &[],
        body: &[false],
        positions: None,
    },
    // Nor is it where a constraint is false.
    Row {
        rings: &[3],
        constraints: &[3],
        body: &[true],
        positions: None,
    },
];

fn rows() -> &'static [Row] {
    &ROWS
}

// The latch at a place of a ring, whose first variable is this one.
fn latch_at(first: u64, place: u64, length: u64) -> Latch {
    let before = if place == 0 {
        length.saturating_sub(1)
    } else {
        place.saturating_sub(1)
    };
    Latch {
        var: first.saturating_add(place),
        next: first.saturating_add(before).saturating_mul(2),
        reset: if place == 0 { Reset::One } else { Reset::Zero },
    }
}

// Appends a ring.
fn put_ring(first: u64, length: u64, latches: &mut Items<Latch>) -> Result<(), AllocError> {
    for place in 0..length {
        latches.push(latch_at(first, place, length))?;
    }
    Ok(())
}

// All rings, from variable 2 on.
fn rings_of(alloc: Global, lengths: &[u64]) -> Result<Items<Latch>, AllocError> {
    let mut latches = Items::new(alloc);
    for length in lengths {
        let first = (latches.len() as u64).saturating_add(2);
        put_ring(first, *length, &mut latches)?;
    }
    Ok(latches)
}

// The circuit of a row: variable 1 is its one input, and the literal of the property.
fn circuit_of(alloc: Global, row: &Row) -> Result<Circuit, ModelEnd> {
    let latches = rings_of(alloc, row.rings)?;
    let model = Model {
        max: (latches.len() as u64).saturating_add(1),
        inputs: &[1],
        latches: &[],
        gates: &[],
        constraints: row.constraints,
        property: &[2],
        fairness: &[],
    };
    let mut parts = parts_of(alloc, &model)?;
    drop(mem::replace(&mut parts.latches, latches));
    let c = checked(alloc, &parts);
    drop(parts);
    c
}

// The latches at the first position.
fn first_latches(alloc: Global, c: &Circuit) -> Result<Items<bool>, AllocError> {
    let mut values = Items::new(alloc);
    for latch in c.latches() {
        values.push(match latch.reset {
            Reset::One => true,
            Reset::Zero | Reset::Free => false,
        })?;
    }
    Ok(values)
}

fn stimulus_of(alloc: Global, c: &Circuit, body: &[bool]) -> Result<Stimulus, AllocError> {
    let mut inputs = Items::new(alloc);
    for value in body {
        let one = Items::from_slice(alloc, &[*value])?;
        inputs.push(one)?;
    }
    Ok(Stimulus {
        latches: first_latches(alloc, c)?,
        inputs,
    })
}

fn positions_of(found: &Option<Lasso>) -> Option<u64> {
    match found {
        Some(lasso) => Some(lasso.inputs.len() as u64),
        None => None,
    }
}

fn found_of(alloc: Global, c: &Circuit, body: &[bool]) -> Result<Option<u64>, AllocError> {
    let meter = Meter::new(NO_LIMIT, NO_LIMIT);
    let stimulus = stimulus_of(alloc, c, body)?;
    let found = repeated_lasso(alloc, c, 0, &stimulus, 0, &meter);
    drop(stimulus);
    Ok(positions_of(&found?))
}

fn gives(alloc: Global, row: &Row) -> Result<bool, Fail> {
    let c = circuit_of(alloc, row)?;
    let found = found_of(alloc, &c, row.body);
    drop(c);
    Ok(found? == row.positions)
}

#[test]
fn loops_are_repeated_until_the_whole_state_is_back(rt: HostRuntime) -> Result<(), Fail> {
    for (k, row) in rows().iter().enumerate() {
        assert!(rt; gives(rt.alloc(), row)?, "of row {k}");
    }
    Ok(())
}
