//! Ternary simulation. The main call is `eval3_into`; `eval3_lanes` does the same of 64 states at once. Both write into
//! a buffer of the caller's; nothing here takes memory.

ghost use Rattle.std.specs.Prelude.{◌≡◌, ℕ, ◌+◌, ◌<◌, Bool, List, length, map, All, fold, replicate};
ghost use Rattle.aig_semantics.specs.Valuations.{valuation};
ghost use Rattle.ternary.specs.Values.{literal3_in, variable3_in, IsCompletion};
ghost use Rattle.ternary.specs.Lanes.{lane_of, in_lane};
ghost use Rattle.ternary.specs.Simulation.{simulation, conjunction3};
ghost use Rattle.ternary.specs.Writing.{with_values3, with_gate3};

use crate::lanes::Lanes;
use crate::values::Value3;
use aig_semantics::{Gate, Latch};
use circuit::Circuit;

/// The value of `literal`, where `values` has that of variable `v` at place `v`; a variable past the end is 0.
pub fn literal3_value(values: &[Value3], literal: u64) -> Value3
    ensures { result ≡ literal3_in values.now literal }
{
    let value = values
        .get((literal / 2) as usize)
        .copied()
        .unwrap_or(Value3::Zero);
    if literal % 2 == 1 {
        value.negation()
    } else {
        value
    }
}

fn clear<T: Copy>(zero: T, out: &mut [T])
    ensures { out.new ≡ replicate (length out.old) zero }
{
    for value in out.iter_mut() {
        *value = zero;
    }
}

fn put_inputs<T: Copy>(variables: &[u64], values: &[T], out: &mut [T])
    requires fit { length values.now ≡ length variables.now }
    requires inside { All (λ v. v < length out.old) variables.now }
    ensures { out.new ≡ with_values3 variables.now values.now out.old }
{
    for (k, variable) in variables.iter().enumerate() {
        out[*variable as usize] = values[k];
    }
}

fn put_latches<T: Copy>(latches: &[Latch], values: &[T], out: &mut [T])
    requires fit { length values.now ≡ length latches.now }
    requires inside { All (λ latch. latch.var < length out.old) latches.now }
    ensures { out.new ≡ with_values3 (map (λ latch. latch.var) latches.now) values.now out.old }
{
    for (k, latch) in latches.iter().enumerate() {
        out[latch.var as usize] = values[k];
    }
}

fn gate_value(values: &[Value3], gate: &Gate) -> Value3
    ensures { result ≡ conjunction3 (variable3_in values.now) gate.now }
{
    literal3_value(values, gate.rhs0).and(literal3_value(values, gate.rhs1))
}

#[tactic(auto, unfolding(crate::specs::Writing::with_gate3))]
fn put_gate(gate: &Gate, out: &mut [Value3])
    requires { gate.now.var < length out.old }
    ensures { out.new ≡ with_gate3 out.old gate.now }
{
    let value = gate_value(out, gate);
    out[gate.var as usize] = value;
}

fn put_gates(order: &[Gate], out: &mut [Value3])
    requires { All (λ gate. gate.var < length out.old) order.now }
    ensures { out.new ≡ fold with_gate3 out.old order.now }
{
    for gate in order {
        put_gate(gate, out);
    }
}

/// Writes the ternary simulation of the latches and inputs given: the value of each variable from 0 to the greatest
/// at its place. A value that is not X is the value of the variable under every completion of the latches and inputs.
pub fn eval3_into(c: &Circuit, latches: &[Value3], inputs: &[Value3], out: &mut [Value3])
    requires latches { length latches.now ≡ length c.now.latches }
    requires inputs { length inputs.now ≡ length c.now.inputs }
    requires out { length out.old ≡ c.now.max + 1 }

    ensures exact { out.new ≡ simulation c.now latches.now inputs.now }
    ensures sound { (state input_values : List Bool) → IsCompletion latches.now state
        → IsCompletion inputs.now input_values → IsCompletion out.new (valuation c.now state input_values) }
{
    let order = c.evaluation_order();
    clear(Value3::Zero, out);
    put_inputs(c.inputs(), inputs, out);
    put_latches(c.latches(), latches, out);
    put_gates(order, out);
}

/// The lanes of `literal`, where `values` has those of variable `v` at place `v`; a variable past the end is 0.
pub fn literal3_lanes(values: &[Lanes], literal: u64) -> Lanes
    ensures { (k : ℕ) → k < 64 → lane_of result k ≡ literal3_in (in_lane k values.now) literal }
{
    let lanes = match values.get((literal / 2) as usize) {
        Some(lanes) => *lanes,
        None => Lanes::splat(Value3::Zero),
    };
    if literal % 2 == 1 {
        lanes.negation()
    } else {
        lanes
    }
}

fn gate_lanes(values: &[Lanes], gate: &Gate) -> Lanes
    ensures { (k : ℕ) → k < 64 → lane_of result k ≡ conjunction3 (variable3_in (in_lane k values.now)) gate.now }
{
    literal3_lanes(values, gate.rhs0).and(literal3_lanes(values, gate.rhs1))
}

fn put_gate_lanes(gate: &Gate, out: &mut [Lanes])
    requires { gate.now.var < length out.old }
    ensures { (k : ℕ) → k < 64 → in_lane k out.new ≡ with_gate3 (in_lane k out.old) gate.now }
{
    let lanes = gate_lanes(out, gate);
    out[gate.var as usize] = lanes;
}

fn put_gates_lanes(order: &[Gate], out: &mut [Lanes])
    requires { All (λ gate. gate.var < length out.old) order.now }
    ensures { (k : ℕ) → k < 64 → in_lane k out.new ≡ fold with_gate3 (in_lane k out.old) order.now }
{
    for gate in order {
        put_gate_lanes(gate, out);
    }
}

/// Writes 64 simulations at once: in each lane that of the latches and inputs of the lane.
pub fn eval3_lanes(c: &Circuit, latches: &[Lanes], inputs: &[Lanes], out: &mut [Lanes])
    requires latches { length latches.now ≡ length c.now.latches }
    requires inputs { length inputs.now ≡ length c.now.inputs }
    requires out { length out.old ≡ c.now.max + 1 }
    ensures { (k : ℕ) → k < 64 → in_lane k out.new ≡ simulation c.now (in_lane k latches.now) (in_lane k inputs.now) }
{
    let order = c.evaluation_order();
    clear(Lanes::splat(Value3::Zero), out);
    put_inputs(c.inputs(), inputs, out);
    put_latches(c.latches(), latches, out);
    put_gates_lanes(order, out);
}
