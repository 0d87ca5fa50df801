//! The gates that the monitor adds.

ghost use Rattle.std.specs.Prelude.{◌≡◌, ◌+◌, ◌-◌, ◌*◌, ◌≤◌, ◌<◌, ◌++◌, length, All, IfOk, OnOk};
ghost use Rattle.aig_semantics.specs.declared.limits.TheConstants.{MAX_VARIABLE};
ghost use Rattle.live_to_safe.specs.Watching.{and_gate, numbered, for_each, chain, chain_end};
ghost use Rattle.round_monitor.specs.Numbers.{greatest};
ghost use Rattle.round_monitor.specs.Watching.{each_of, missing_gate, all_gates, all_literal, none_missing, round_ends, next_seen_gate, first_counter_gate, later_counter_gates, counter_gates, new_gates};

use crate::sizes::{
    Sizes, counter, counter_gate, ending, missing, negation, negative, positive, seen, seen_gate,
};
use aig_semantics::Gate;
use circuit::Circuit;
use items::Items;
use std::alloc::{AllocError, Global};

fn gate(var: u64, rhs0: u64, rhs1: u64) -> Gate
    ensures { result ≡ and_gate var rhs0 rhs1 }
{
    Gate { var, rhs0, rhs1 }
}

fn push_missing_gate(
    z: Sizes,
    m: u64,
    literal: u64,
    gates: &mut Vec<Gate>,
) -> Result<(), AllocError>
    requires fits { greatest z ≤ MAX_VARIABLE }
    requires inside { m < z.literals }
    requires literal { literal ≤ 2 * MAX_VARIABLE + 1 }
    ensures { OnOk result (gates.new.items ≡ gates.old.items ++ missing_gate z m literal) }
{
    gates.extend_from_slice(&[gate(missing(z, m), negative(seen(z, m)), negation(literal))])
}

fn push_missing(z: Sizes, literals: &[u64], gates: &mut Vec<Gate>) -> Result<(), AllocError>
    requires fits { greatest z ≤ MAX_VARIABLE }
    requires count { length literals.now ≡ z.literals }
    requires low { All (λ literal. literal ≤ 2 * MAX_VARIABLE + 1) literals.now }
    ensures { OnOk result (gates.new.items ≡ gates.old.items ++ for_each (missing_gate z) 0 literals.now) }
{
    for (m, literal) in literals.iter().enumerate() {
        push_missing_gate(z, m as u64, *literal, gates)?;
    }
    Ok(())
}

// The literals that are all true where a round ends.
fn none_missing(alloc: Global, z: Sizes) -> Result<Items<u64>, AllocError>
    requires { greatest z ≤ MAX_VARIABLE }
    ensures { IfOk result (λ all. all ≡ none_missing z) }
{
    let mut all = Items::new(alloc);
    for m in 0..z.literals {
        all.push(negative(missing(z, m)))?;
    }
    Ok(all)
}

// The chain from the variable v on; the answer is the literal of its end.
fn push_chain(
    v: u64,
    so_far: u64,
    literals: &[u64],
    gates: &mut Vec<Gate>,
) -> Result<u64, AllocError>
    requires { v + length literals.now ≤ MAX_VARIABLE + 1 }
    ensures gates { OnOk result (gates.new.items ≡ gates.old.items ++ chain v so_far literals.now) }
    ensures end { IfOk result (λ end. end ≡ chain_end v so_far literals.now) }
{
    let mut var = v;
    let mut end = so_far;
    for literal in literals {
        gates.push(gate(var, end, *literal))?;
        end = positive(var);
        var += 1;
    }
    Ok(end)
}

// The gates of the conjunction of these literals; the answer is its literal.
fn push_all(v: u64, literals: &[u64], gates: &mut Vec<Gate>) -> Result<u64, AllocError>
    requires { v + length literals.now ≤ MAX_VARIABLE + 1 }
    ensures gates { OnOk result (gates.new.items ≡ gates.old.items ++ all_gates v literals.now) }
    ensures end { IfOk result (λ end. end ≡ all_literal v literals.now) }
{
    let Some((first, others)) = literals.split_first() else {
        return Ok(1);
    };
    push_chain(v, *first, others, gates)
}

fn push_next_seen(z: Sizes, ends: u64, gates: &mut Vec<Gate>) -> Result<(), AllocError>
    requires fits { greatest z ≤ MAX_VARIABLE }
    requires ends { ends ≡ round_ends z }
    requires low { ends ≤ 2 * MAX_VARIABLE + 1 }
    ensures { OnOk result (gates.new.items ≡ gates.old.items ++ numbered (next_seen_gate z) 0 z.literals) }
{
    for m in 0..z.literals {
        gates.push(gate(seen_gate(z, m), negation(ends), negative(missing(z, m))))?;
    }
    Ok(())
}

// The gates of counter i + 1.
fn push_later_counter(z: Sizes, i: u64, ends: u64, gates: &mut Vec<Gate>) -> Result<(), AllocError>
    requires fits { greatest z ≤ MAX_VARIABLE }
    requires inside { i + 1 < z.counters }
    requires ends { ends ≡ round_ends z }
    ensures { OnOk result (gates.new.items ≡ gates.old.items ++ later_counter_gates z i) }
{
    let v = counter_gate(z, i);
    gates.extend_from_slice(&[
        gate(v + 1, positive(counter(z, i)), ends),
        gate(v + 2, negative(counter(z, i + 1)), negative(v + 1)),
    ])
}

fn push_later_counters(z: Sizes, ends: u64, gates: &mut Vec<Gate>) -> Result<(), AllocError>
    requires fits { greatest z ≤ MAX_VARIABLE }
    requires some { 1 ≤ z.counters }
    requires ends { ends ≡ round_ends z }
    ensures { OnOk result (gates.new.items ≡ gates.old.items ++ each_of (later_counter_gates z) 0 (z.counters - 1)) }
{
    for i in 0..z.counters - 1 {
        push_later_counter(z, i, ends, gates)?;
    }
    Ok(())
}

fn push_counter_gates(z: Sizes, ends: u64, gates: &mut Vec<Gate>) -> Result<(), AllocError>
    requires fits { greatest z ≤ MAX_VARIABLE }
    requires some { 1 ≤ z.counters }
    requires ends { ends ≡ round_ends z }
    requires low { ends ≤ 2 * MAX_VARIABLE + 1 }
    ensures { OnOk result (gates.new.items ≡ gates.old.items ++ counter_gates z) }
{
    gates.push(gate(counter_gate(z, 0), negative(counter(z, 0)), negation(ends)))?;
    push_later_counters(z, ends, gates)
}

// The gates behind those of the circuit.
fn push_new_gates(
    alloc: Global,
    z: Sizes,
    literals: &[u64],
    gates: &mut Vec<Gate>,
) -> Result<(), AllocError>
    requires fits { greatest z ≤ MAX_VARIABLE }
    requires some { 1 ≤ z.counters }
    requires literals { length literals.now ≡ z.literals }
    requires low { All (λ literal. literal ≤ 2 * MAX_VARIABLE + 1) literals.now }
    ensures { OnOk result (gates.new.items ≡ gates.old.items ++ new_gates z literals.now) }
{
    push_missing(z, literals, gates)?;
    let all = none_missing(alloc, z)?;
    let ends = push_all(ending(z), all.as_slice(), gates)?;
    push_next_seen(z, ends, gates)?;
    push_counter_gates(z, ends, gates)
}

/// The gates of the circuit and, behind them, those that count.
pub(crate) fn gates_of(
    alloc: Global,
    c: &Circuit,
    z: Sizes,
    literals: &[u64],
) -> Result<Items<Gate>, AllocError>
    requires fits { greatest z ≤ MAX_VARIABLE }
    requires some { 1 ≤ z.counters }
    requires literals { length literals.now ≡ z.literals }
    requires low { All (λ literal. literal ≤ 2 * MAX_VARIABLE + 1) literals.now }
    ensures { IfOk result (λ gates. gates ≡ c.now.gates ++ new_gates z literals.now) }
{
    let mut gates = Vec::from_slice(alloc, c.gates())?;
    push_new_gates(alloc, z, literals, &mut gates)?;
    Ok(Items::from_vec(gates))
}
