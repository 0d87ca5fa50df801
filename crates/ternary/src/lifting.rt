//! Cubes lifted by ternary simulation: of a state only the latches that literals need are kept. The main call is
//! `lift`.

ghost use Rattle.std.specs.Prelude.{◌≡◌, ◌↔◌, ℕ, ◌+◌, ◌<◌, ◌≤◌, ◌==◌, length, map, slice_set, IfOk, IsTrue};
ghost use Rattle.std.specs.Int.{bit_at};
ghost use Rattle.aig_semantics.specs.Runs.{IsPosition};
ghost use Rattle.ternary.specs.Values.{known};
ghost use Rattle.ternary.specs.Cubes.{IsOverLatches, LiesIn, MakesTrue, ShowsTrue, KeepsTrue, NeedsEachLiteral};
ghost use Rattle.ternary.specs.Lanes.{lane_of, in_lane};
ghost use Rattle.ternary.specs.Simulation.{simulation};
ghost use Rattle.ternary.specs.Lifting.{AreOne, IsLiftedTo, forgotten, hidden_at, hidden_one, literals_from};

use crate::lanes::{LANES, Lanes};
use crate::simulating::{eval3_lanes, literal3_lanes};
use crate::values::Value3;
use circuit::{Circuit, Position};
use cnf::Cube;
use proof_semantics::Lit;
use std::alloc::{AllocError, Global};

fn known_values(alloc: Global, values: &[bool]) -> Result<Vec<Value3>, AllocError>
    ensures { IfOk result (λ list. list.items ≡ map known values.now) }
{
    let mut list = Vec::new(alloc);
    for value in values {
        list.push(Value3::known(*value))?;
    }
    Ok(list)
}

/// Values that are the same in each lane.
fn known_lanes(alloc: Global, values: &[bool]) -> Result<Vec<Lanes>, AllocError>
    ensures { IfOk result (λ list. (k : ℕ) → k < 64 → in_lane k list.items ≡ map known values.now) }
{
    let mut list = Vec::new(alloc);
    for value in values {
        list.push(Lanes::splat(Value3::known(*value)))?;
    }
    Ok(list)
}

/// The lanes in which all literals are 1, as the bits of a word.
fn lanes_that_keep(values: &[Lanes], keep: &[u64]) -> u64
    ensures { (k : ℕ) → k < 64 → ((bit_at result k ≡ 1) ↔ AreOne (in_lane k values.now) keep.now) }
{
    let mut lanes = u64::MAX;
    for literal in keep {
        lanes &= literal3_lanes(values, *literal).ones();
    }
    lanes
}

/// How many bits from the lowest on are 1 without a 0 between.
fn first_ones(word: u64) -> usize
    ensures most { result ≤ 64 }
    ensures set { (k : ℕ) → k < result → bit_at word k ≡ 1 }
    ensures clear { result < 64 → bit_at word result ≡ 0 }
{
    if word == u64::MAX {
        64
    } else {
        word.trailing_ones() as usize
    }
}

/// The value of latch `v` in each lane, where lane k is without that of latch `i + k`.
fn alone_of(value: Value3, v: usize, i: usize) -> Lanes
    ensures { (k : ℕ) → k < 64 → lane_of result k ≡ hidden_one 1 ((i + k) == v) value }
{
    let lanes = Lanes::splat(value);
    if i <= v && v - i < LANES {
        lanes.with_lane(v - i, Value3::X)
    } else {
        lanes
    }
}

/// Puts the state into each lane k, without the value of latch `i + k`.
fn put_alone(state: &[Value3], i: usize, ahead: &mut [Lanes])
    requires { length ahead.old ≡ length state.now }
    ensures { (k : ℕ) → k < 64 → in_lane k ahead.new ≡ slice_set state.now (i + k) Value3.X }
{
    for (v, value) in state.iter().enumerate() {
        ahead[v] = alone_of(*value, v, i);
    }
}

/// The value of latch `v` in each lane, where lane k is without those of latches `i` to `i + k` whose bit in the word
/// is 1.
fn ahead_of(value: Value3, v: usize, i: usize, word: u64) -> Lanes
    ensures { (k : ℕ) → k < 64 → lane_of result k ≡ hidden_at word (k + 1) i v value }
{
    let lanes = Lanes::splat(value);
    if v < i {
        return lanes;
    }
    let j = v - i;
    if j >= LANES {
        return lanes;
    }
    if word >> j & 1 == 0 {
        return lanes;
    }
    lanes.unknown_from(j)
}

/// Puts the state into each lane k, without the values of latches `i` to `i + k` whose bit in the word is 1.
fn put_ahead(state: &[Value3], i: usize, word: u64, ahead: &mut [Lanes])
    requires { length ahead.old ≡ length state.now }
    ensures { (k : ℕ) → k < 64 → in_lane k ahead.new ≡ forgotten word (k + 1) i state.now }
{
    for (v, value) in state.iter().enumerate() {
        ahead[v] = ahead_of(*value, v, i, word);
    }
}

/// Forgets the values of those of `count` latches from `i` on whose bit in the word is 1.
fn forget_where(state: &mut [Value3], i: usize, word: u64, count: usize)
    requires most { count ≤ 64 }
    requires inside { i + count ≤ length state.old }
    ensures { state.new ≡ forgotten word count i state.old }
{
    for n in 0..count {
        if word >> n & 1 == 1 {
            state[i + n] = Value3::X;
        }
    }
}

/// The lanes in which the simulation gives 1 for all literals, as the bits of a word.
fn lanes_that_pass(
    c: &Circuit,
    ahead: &[Lanes],
    inputs: &[Lanes],
    keep: &[u64],
    values: &mut [Lanes],
) -> u64
    requires latches { length ahead.now ≡ length c.now.latches }
    requires inputs { length inputs.now ≡ length c.now.inputs }
    requires values { length values.old ≡ c.now.max + 1 }
    ensures { (k : ℕ) → k < 64
        → ((bit_at result k ≡ 1) ↔ AreOne (simulation c.now (in_lane k ahead.now) (in_lane k inputs.now)) keep.now) }
{
    eval3_lanes(c, ahead, inputs, values);
    lanes_that_keep(values, keep)
}

/// Forgets of the latches from `i` on, at most 64, those that the literals do not need, and answers the latch behind
/// the last that was tried. First each is tried alone; of those that are not needed alone, lane k is without all up to
/// latch `i + k`, and the first lane that does not pass shows a latch that is needed beside those forgotten.
fn forget_ahead(
    c: &Circuit,
    at: &Position,
    keep: &[u64],
    state: &mut [Value3],
    inputs: &[Lanes],
    ahead: &mut [Lanes],
    values: &mut [Lanes],
    i: usize,
) -> usize
    requires position { IsPosition c.now at.now }
    requires keep { MakesTrue c.now at.now keep.now }
    requires long { length state.old ≡ length at.now.latches }
    requires inside { i < length at.now.latches }
    requires lifted { IsLiftedTo c.now at.now.latches at.now.inputs keep.now i state.old }
    requires inputs { length inputs.now ≡ length c.now.inputs }
    requires known { (k : ℕ) → k < 64 → in_lane k inputs.now ≡ map known at.now.inputs }
    requires ahead { length ahead.old ≡ length at.now.latches }
    requires values { length values.old ≡ c.now.max + 1 }
    ensures further { i < result }
    ensures within { result ≤ length at.now.latches }
    ensures lifted { IsLiftedTo c.now at.now.latches at.now.inputs keep.now result state.new }
{
    put_alone(state, i, ahead);
    let alone = lanes_that_pass(c, ahead, inputs, keep, values);
    put_ahead(state, i, alone, ahead);
    let passed = first_ones(lanes_that_pass(c, ahead, inputs, keep, values));
    let left = at.latches.len() - i;
    if passed >= left {
        forget_where(state, i, alone, left);
        return i + left;
    }
    forget_where(state, i, alone, passed);
    if passed == LANES {
        return i + passed;
    }
    i + passed + 1
}

/// Forgets the values of the latches that the literals do not need.
fn forget_all(
    c: &Circuit,
    at: &Position,
    keep: &[u64],
    state: &mut [Value3],
    inputs: &[Lanes],
    ahead: &mut [Lanes],
    values: &mut [Lanes],
)
    requires position { IsPosition c.now at.now }
    requires keep { MakesTrue c.now at.now keep.now }
    requires state { state.old ≡ map known at.now.latches }
    requires inputs { length inputs.now ≡ length c.now.inputs }
    requires known { (k : ℕ) → k < 64 → in_lane k inputs.now ≡ map known at.now.inputs }
    requires ahead { length ahead.old ≡ length at.now.latches }
    requires values { length values.old ≡ c.now.max + 1 }
    ensures { IsLiftedTo c.now at.now.latches at.now.inputs keep.now (length at.now.latches) state.new }
{
    let mut i = 0;
    while i < at.latches.len() {
        i = forget_ahead(c, at, keep, state, inputs, ahead, values, i);
    }
}

/// The state of the position without the latches that the literals do not need.
fn lifted_state(
    alloc: Global,
    c: &Circuit,
    at: &Position,
    keep: &[u64],
) -> Result<Vec<Value3>, AllocError>
    requires position { IsPosition c.now at.now }
    requires keep { MakesTrue c.now at.now keep.now }
    ensures { IfOk result (λ state.
        IsLiftedTo c.now at.now.latches at.now.inputs keep.now (length at.now.latches) state.items) }
{
    let mut state = known_values(alloc, at.latches.as_slice())?;
    let inputs = known_lanes(alloc, at.inputs.as_slice())?;
    let mut ahead = vec![in alloc; Lanes::splat(Value3::X); at.latches.len()]?;
    let mut values = vec![in alloc; Lanes::splat(Value3::X); c.max() as usize + 1]?;
    forget_all(c, at, keep, &mut state, &inputs, &mut ahead, &mut values);
    Ok(state)
}

/// The literals of the values that are known.
fn cube_of(alloc: Global, state: &[Value3]) -> Result<Cube, AllocError>
    ensures { IfOk result (λ cube. cube ≡ literals_from 0 state.now) }
{
    let mut cube = Cube::new(alloc);
    for (i, value) in state.iter().enumerate() {
        let var = i as u64;
        match *value {
            Value3::Zero => cube.push(Lit {
                var,
                positive: false,
            })?,
            Value3::One => cube.push(Lit {
                var,
                positive: true,
            })?,
            Value3::X => {}
        }
    }
    Ok(cube)
}

/// A cube of states that, with the inputs of the position, make the same literals true: the position's state lies in
/// it, ternary simulation tells from it that all are true, and without any one of its literals it cannot tell so. A
/// literal of the cube has the number of a latch, from 0, as its variable.
pub fn lift(alloc: Global, c: &Circuit, at: &Position, keep: &[u64]) -> Result<Cube, AllocError>
    requires position { IsPosition c.now at.now }
    requires keep { MakesTrue c.now at.now keep.now }
    ensures latches { IfOk result (λ cube. IsOverLatches c.now cube) }
    ensures holds { IfOk result (λ cube. LiesIn at.now.latches cube) }
    ensures told { IfOk result (λ cube. ShowsTrue c.now at.now.inputs keep.now cube) }
    ensures keeps { IfOk result (λ cube. KeepsTrue c.now at.now.inputs keep.now cube) }
    ensures needed { IfOk result (λ cube. NeedsEachLiteral c.now at.now.inputs keep.now cube) }
{
    let state = lifted_state(alloc, c, at, keep)?;
    cube_of(alloc, &state)
}
