//! Ternary simulation and lifting on small circuits, with values worked out by hand.

ghost use Rattle.std.specs.Prelude.{IfOk, IsTrue};
ghost use Rattle.aig_semantics.specs.Runs.{IsPosition};
ghost use Rattle.ternary.specs.Cubes.{MakesTrue, NeedsEachLiteral};

use crate::models::{Model, checked, circuit_of, parts_of};
use circuit::{Circuit, Gate, Latch, ModelEnd, Parts, Position, Reset, eval_into, literal_value};
use cnf::{Cube, Lit};
use items::Items;
use std::alloc::{AllocError, Global};
use std::process::Abort;
use std::test::Fail;
use ternary::{LANES, Lanes, Value3, eval3_into, eval3_lanes, lift};

// A counter of two bits: variables 1 and 2 are its bits, 5 tells that they are alike, and 6 that both are true.
const COUNTER: Model = Model {
    max: 6,
    inputs: &[],
    latches: &[
        Latch {
            var: 1,
            next: 3,
            reset: Reset::Zero,
        },
        Latch {
            var: 2,
            next: 11,
            reset: Reset::Zero,
        },
    ],
    gates: &[
        Gate {
            var: 3,
            rhs0: 5,
            rhs1: 2,
        },
        Gate {
            var: 4,
            rhs0: 4,
            rhs1: 3,
        },
        Gate {
            var: 5,
            rhs0: 9,
            rhs1: 7,
        },
        Gate {
            var: 6,
            rhs0: 4,
            rhs1: 2,
        },
    ],
    constraints: &[],
    property: &[],
    fairness: &[],
};

// A gate, variable 3, over an input and a latch.
const GUARDED: Model = Model {
    max: 3,
    inputs: &[1],
    latches: &[Latch {
        var: 2,
        next: 2,
        reset: Reset::Free,
    }],
    gates: &[Gate {
        var: 3,
        rhs0: 2,
        rhs1: 4,
    }],
    constraints: &[],
    property: &[],
    fairness: &[],
};

// How many latches the widest circuit has.
const WIDTH: u64 = 200;

// Nothing but so many variables.
const WIDE: Model = Model {
    max: WIDTH,
    inputs: &[],
    latches: &[],
    gates: &[],
    constraints: &[],
    property: &[],
    fairness: &[],
};

/// So many latches whose next value is 1.
fn push_latches(count: u64, latches: &mut Items<Latch>) -> Result<(), AllocError> {
    for var in 1..=count {
        latches.push(Latch {
            var,
            next: 1,
            reset: Reset::Free,
        })?;
    }
    Ok(())
}

fn wide_parts(alloc: Global) -> Result<Parts, AllocError> {
    let mut parts = parts_of(alloc, &WIDE)?;
    push_latches(WIDTH, &mut parts.latches)?;
    Ok(parts)
}

fn wide(alloc: Global) -> Result<Circuit, ModelEnd> {
    let parts = wide_parts(alloc)?;
    let c = checked(alloc, &parts);
    drop(parts);
    c
}

fn letter(value: Value3) -> u8 {
    match value {
        Value3::Zero => b'0',
        Value3::One => b'1',
        Value3::X => b'x',
    }
}

fn digit(number: usize) -> Value3 {
    match number % 3 {
        0 => Value3::Zero,
        1 => Value3::One,
        _ => Value3::X,
    }
}

/// The values of all variables where the latches have those of a list; all unknown where a circuit has inputs, or other
/// latches.
fn simulated(alloc: Global, c: &Circuit, latches: &[Value3]) -> Result<Vec<Value3>, AllocError> {
    let mut values = vec![in alloc; Value3::X; c.max() as usize + 1]?;
    if latches.len() == c.latches().len() && c.inputs().is_empty() {
        eval3_into(c, latches, &[], &mut values);
    }
    Ok(values)
}

fn are_spelled(values: &[Value3], wanted: &[u8]) -> bool {
    values.len() == wanted.len()
        && values
            .iter()
            .zip(wanted)
            .all(|(v, byte)| letter(*v) == *byte)
}

/// Whether the variables have these values where the latches have those of a list.
fn simulates(
    alloc: Global,
    c: &Circuit,
    latches: &[Value3],
    wanted: &[u8],
) -> Result<bool, AllocError> {
    let values = simulated(alloc, c, latches)?;
    Ok(are_spelled(&values, wanted))
}

/// The lanes of two latches: lane k has the two ternary digits of k.
fn digits_in_lanes() -> [Lanes; 2] {
    let mut low = Lanes::splat(Value3::X);
    let mut high = Lanes::splat(Value3::X);
    for k in 0..LANES {
        low = low.with_lane(k, digit(k % 9));
        high = high.with_lane(k, digit(k % 9 / 3));
    }
    [low, high]
}

/// The lanes of all variables; all unknown where a circuit has inputs, or other latches.
fn simulated_lanes(
    alloc: Global,
    c: &Circuit,
    latches: &[Lanes],
) -> Result<Vec<Lanes>, AllocError> {
    let mut values = vec![in alloc; Lanes::splat(Value3::X); c.max() as usize + 1]?;
    if latches.len() == c.latches().len() && c.inputs().is_empty() {
        eval3_lanes(c, latches, &[], &mut values);
    }
    Ok(values)
}

fn is_lane(values: &[Lanes], k: usize, wanted: &[u8]) -> bool {
    k < LANES
        && values.len() == wanted.len()
        && values
            .iter()
            .zip(wanted)
            .all(|(lanes, byte)| letter(lanes.lane(k)) == *byte)
}

/// The first lane that has other values than the rows of the table, taken again and again.
fn first_wrong(values: &[Lanes]) -> Option<usize> {
    for k in 0..LANES {
        let row = simulations().get(k % 9).copied().unwrap_or("");
        if !is_lane(values, k, row.as_bytes()) {
            return Some(k);
        }
    }
    None
}

fn first_wrong_lane(
    alloc: Global,
    c: &Circuit,
    latches: &[Lanes],
) -> Result<Option<usize>, AllocError> {
    let values = simulated_lanes(alloc, c, latches)?;
    Ok(first_wrong(&values))
}

/// Whether each literal is true at the position.
fn are_true(alloc: Global, c: &Circuit, at: &Position, keep: &[u64]) -> Result<bool, AllocError>
    requires { IsPosition c.now at.now }
    ensures { IfOk result (λ all. IsTrue all → MakesTrue c.now at.now keep.now) }
{
    let mut values = vec![in alloc; false; c.max() as usize + 1]?;
    eval_into(c, at.latches.as_slice(), at.inputs.as_slice(), &mut values);
    Ok(keep.iter().all(|l| literal_value(&values, *l)))
}

fn is_literal(literal: &Lit, wanted: &(u64, bool)) -> bool {
    literal.var == wanted.0 && literal.positive == wanted.1
}

fn are_literals(literals: &[Lit], wanted: &[(u64, bool)]) -> bool {
    literals.len() == wanted.len()
        && literals
            .iter()
            .zip(wanted)
            .all(|(literal, pair)| is_literal(literal, pair))
}

/// The cube lifted from a position, each of whose literals is needed.
fn lifted(alloc: Global, c: &Circuit, at: &Position, keep: &[u64]) -> Result<Cube, AllocError>
    requires position { IsPosition c.now at.now }
    requires keep { MakesTrue c.now at.now keep.now }
    ensures { IfOk result (λ cube. NeedsEachLiteral c.now at.now.inputs keep.now cube) }
{
    lift(alloc, c, at, keep)
}

/// Whether the cube lifted from a position has these literals.
fn lifts_at(
    alloc: Global,
    c: &Circuit,
    at: &Position,
    keep: &[u64],
    wanted: &[(u64, bool)],
) -> Result<bool, AllocError> {
    if at.latches.len() != c.latches().len() || at.inputs.len() != c.inputs().len() {
        return Ok(false);
    }
    if !are_true(alloc, c, at, keep)? {
        return Ok(false);
    }
    let cube = lifted(alloc, c, at, keep)?;
    Ok(are_literals(cube.as_slice(), wanted))
}

fn position_of(alloc: Global, latches: &[bool], inputs: &[bool]) -> Result<Position, AllocError> {
    Ok(Position {
        latches: Items::from_slice(alloc, latches)?,
        inputs: Items::from_slice(alloc, inputs)?,
    })
}

fn lifts(
    alloc: Global,
    c: &Circuit,
    latches: &[bool],
    inputs: &[bool],
    keep: &[u64],
    wanted: &[(u64, bool)],
) -> Result<bool, AllocError> {
    let at = position_of(alloc, latches, inputs)?;
    lifts_at(alloc, c, &at, keep, wanted)
}

// The values of the counter's variables 0 to 6, where its bits are the two ternary digits of the row's number.
fn simulations() -> &'static [&'static str] {
    &[
        "0000010", "0101000", "0x0x0x0", "0010100", "0110011", "0x10xxx", "00x0xx0", "01xx0xx",
        "0xxxxxx",
    ]
}

// The bits of the counter, literals that are true there, and the only cube that is lifted from there.
type Lift = (&'static [bool], &'static [u64], &'static [(u64, bool)]);

const LIFTS: [Lift; 8] = [
    (&[true, true], &[12], &[(0, true), (1, true)]),
    (&[false, false], &[10], &[(0, false), (1, false)]),
    (&[true, false], &[6], &[(0, true), (1, false)]),
    (&[true, false], &[2], &[(0, true)]),
    (&[true, false], &[5], &[(1, false)]),
    (&[true, false], &[2, 5], &[(0, true), (1, false)]),
    (&[true, false], &[1], &[]),
    (&[false, true], &[], &[]),
];

fn check_simulations(rt: &impl Abort, alloc: Global, c: &Circuit) -> Result<(), AllocError> {
    for (k, row) in simulations().iter().enumerate() {
        let agree = simulates(alloc, c, &[digit(k), digit(k / 3)], row.as_bytes())?;
        assert!(rt; agree, "of row {k}");
    }
    Ok(())
}

fn check_lifts(rt: &impl Abort, alloc: Global, c: &Circuit) -> Result<(), AllocError> {
    let rows: &[Lift] = &LIFTS;
    for (k, row) in rows.iter().enumerate() {
        let (latches, keep, wanted) = *row;
        let agree = lifts(alloc, c, latches, &[], keep, wanted)?;
        assert!(rt; agree, "of row {k}");
    }
    Ok(())
}

fn check_lanes(rt: &impl Abort, alloc: Global, c: &Circuit) -> Result<(), AllocError> {
    match first_wrong_lane(alloc, c, &digits_in_lanes())? {
        Some(lane) => assert!(rt; false, "in lane {lane}"),
        None => {}
    }
    Ok(())
}

fn check_counter(rt: &impl Abort, alloc: Global, c: &Circuit) -> Result<(), AllocError> {
    check_simulations(rt, alloc, c)?;
    check_lanes(rt, alloc, c)?;
    check_lifts(rt, alloc, c)
}

/// An input that is 0 needs no latch.
fn check_guarded(rt: &impl Abort, alloc: Global, c: &Circuit) -> Result<(), AllocError> {
    let freely = lifts(alloc, c, &[true], &[false], &[7], &[])?;
    assert!(rt; freely);
    let bound = lifts(alloc, c, &[false], &[true], &[7], &[(0, false)])?;
    assert!(rt; bound);
    Ok(())
}

/// Whether of many latches the two that are read are kept.
fn is_wide_lifted(alloc: Global, c: &Circuit) -> Result<bool, AllocError> {
    let latches = vec![in alloc; true; 200]?;
    lifts(
        alloc,
        c,
        &latches,
        &[],
        &[130, 6, 258],
        &[(2, true), (64, true), (128, true)],
    )
}

fn check_wide(rt: &impl Abort, alloc: Global, c: &Circuit) -> Result<(), AllocError> {
    assert!(rt; is_wide_lifted(alloc, c)?);
    Ok(())
}

#[test]
fn counter_is_simulated_and_lifted(rt: HostRuntime) -> Result<(), Fail> {
    let c = circuit_of(rt.alloc(), &COUNTER)?;
    let checked = check_counter(&rt, rt.alloc(), &c);
    drop(c);
    Ok(checked?)
}

#[test]
fn inputs_are_known(rt: HostRuntime) -> Result<(), Fail> {
    let c = circuit_of(rt.alloc(), &GUARDED)?;
    let checked = check_guarded(&rt, rt.alloc(), &c);
    drop(c);
    Ok(checked?)
}

#[test]
fn many_latches_are_forgotten(rt: HostRuntime) -> Result<(), Fail> {
    let c = wide(rt.alloc())?;
    let checked = check_wide(&rt, rt.alloc(), &c);
    drop(c);
    Ok(checked?)
}
