//! The valuation of a position and its successor. The main call is `eval_into`, which writes into a buffer of the
//! caller's; nothing here takes memory.

ghost use Rattle.std.specs.Prelude.{◌≡◌, ◌+◌, ◌<◌, ◌≤◌, length, map, All, fold, false, replicate};
ghost use Rattle.aig_semantics.specs.Literals.{literal_in, variable_in};
ghost use Rattle.aig_semantics.specs.Valuations.{valuation, HasOneValuation, conjunction};
ghost use Rattle.circuit.specs.Evaluation.{with_values, with_gate};

use crate::circuits::Circuit;
use aig_semantics::{Gate, Latch};

/// The value of `literal`, where `values` has that of variable `v` at place `v`; a variable past the end is false.
pub fn literal_value(values: &[bool], literal: u64) -> bool
    ensures { result ≡ literal_in values.now literal }
{
    let value = values.get((literal / 2) as usize).copied().unwrap_or(false);
    if literal % 2 == 1 { !value } else { value }
}

pub(crate) fn clear(out: &mut [bool])
    ensures { out.new ≡ replicate (length out.old) false }
{
    for value in out.iter_mut() {
        *value = false;
    }
}

fn put_inputs(variables: &[u64], values: &[bool], out: &mut [bool])
    requires fit { length values.now ≡ length variables.now }
    requires inside { All (λ v. v < length out.old) variables.now }
    ensures { out.new ≡ with_values variables.now values.now out.old }
{
    for (k, variable) in variables.iter().enumerate() {
        out[*variable as usize] = values[k];
    }
}

fn put_latches(latches: &[Latch], values: &[bool], out: &mut [bool])
    requires fit { length values.now ≡ length latches.now }
    requires inside { All (λ latch. latch.var < length out.old) latches.now }
    ensures { out.new ≡ with_values (map (λ latch. latch.var) latches.now) values.now out.old }
{
    for (k, latch) in latches.iter().enumerate() {
        out[latch.var as usize] = values[k];
    }
}

fn gate_value(values: &[bool], gate: &Gate) -> bool
    ensures { result ≡ conjunction (variable_in values.now) gate.now }
{
    literal_value(values, gate.rhs0) && literal_value(values, gate.rhs1)
}

#[tactic(auto, unfolding(crate::specs::Evaluation::with_gate))]
fn put_gate(gate: &Gate, out: &mut [bool])
    requires { gate.now.var < length out.old }
    ensures { out.new ≡ with_gate out.old gate.now }
{
    let value = gate_value(out, gate);
    out[gate.var as usize] = value;
}

fn put_gates(order: &[Gate], out: &mut [bool])
    requires { All (λ gate. gate.var < length out.old) order.now }
    ensures { out.new ≡ fold with_gate out.old order.now }
{
    for gate in order {
        put_gate(gate, out);
    }
}

/// Writes the valuation of the latches and inputs given: the value of each variable from 0 to the greatest at its
/// place.
pub fn eval_into(c: &Circuit, latches: &[bool], inputs: &[bool], out: &mut [bool])
    requires latches { length latches.now ≡ length c.now.latches }
    requires inputs { length inputs.now ≡ length c.now.inputs }
    requires out { length out.old ≡ c.now.max + 1 }
    ensures { out.new ≡ valuation c.now latches.now inputs.now }
{
    clear(out);
    put_inputs(c.inputs.as_slice(), inputs, out);
    put_latches(c.latches.as_slice(), latches, out);
    put_gates(c.evaluation_order(), out);
}

/// Writes the next value of each latch, where `values` is the valuation of a position.
pub fn next_into(c: &Circuit, values: &[bool], out: &mut [bool])
    requires { length out.old ≡ length c.now.latches }
    ensures { out.new ≡ map (λ latch. literal_in values.now latch.next) c.now.latches }
{
    for (k, latch) in c.latches.as_slice().iter().enumerate() {
        out[k] = literal_value(values, latch.next);
    }
}

/// The law of valuations: latches and inputs that fit a circuit have one valuation, which `eval_into` writes. It
/// does nothing.
pub fn one_valuation(c: &Circuit)
    ensures { HasOneValuation c.now }
{
    let _ = &c.greatest;
}
