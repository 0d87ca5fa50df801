//! The gates that the translation adds, and the bad state literal.

ghost use Rattle.std.specs.Prelude.{◌≡◌, ◌+◌, ◌*◌, ◌≤◌, ◌<◌, ◌++◌, ◌∷◌, [], length, All, IfOk, OnOk};
ghost use Rattle.aig_semantics.specs.declared.limits.TheConstants.{MAX_VARIABLE};
ghost use Rattle.live_to_safe.specs.Numbers.{greatest, positive, seen, latch_gate};
ghost use Rattle.live_to_safe.specs.Watching.{and_gate, saving_gates, latch_gates, literal_gates, for_each, numbered, chain, chain_end, back_and_seen, new_gates, bad_literal};

use crate::sizes::{
    Sizes, bad_gate, copy, latch_gate, literal_gate, negation, negative, positive, saving, seen,
};
use aig_semantics::{Gate, Latch};
use circuit::Circuit;
use items::Items;
use std::alloc::{AllocError, Global};

fn gate(var: u64, rhs0: u64, rhs1: u64) -> Gate
    ensures { result ≡ and_gate var rhs0 rhs1 }
{
    Gate { var, rhs0, rhs1 }
}

fn push_saving_gates(z: Sizes, gates: &mut Vec<Gate>) -> Result<(), AllocError>
    requires { greatest z ≤ MAX_VARIABLE }
    ensures { OnOk result (gates.new.items ≡ gates.old.items ++ saving_gates z) }
{
    let v = saving(z);
    let (save, saved) = (z.variables + 1, z.variables + 2);
    gates.extend_from_slice(&[
        gate(v, positive(save), negative(saved)),
        gate(v + 1, negative(save), negative(saved)),
    ])
}

fn push_gates_of_latch(
    z: Sizes,
    i: u64,
    latch: &Latch,
    gates: &mut Vec<Gate>,
) -> Result<(), AllocError>
    requires fits { greatest z ≤ MAX_VARIABLE }
    requires inside { i < z.latches }
    requires latch { latch.now.var ≤ MAX_VARIABLE }
    ensures { OnOk result (gates.new.items ≡ gates.old.items ++ latch_gates z i latch.now) }
{
    let v = latch_gate(z, i);
    let (now, copy) = (latch.var, copy(z, i));
    gates.extend_from_slice(&[
        gate(v, positive(saving(z)), positive(now)),
        gate(v + 1, negative(saving(z)), positive(copy)),
        gate(v + 2, negative(v), negative(v + 1)),
        gate(v + 3, positive(now), negative(copy)),
        gate(v + 4, negative(now), positive(copy)),
        gate(v + 5, negative(v + 3), negative(v + 4)),
    ])
}

fn push_latch_gates(z: Sizes, latches: &[Latch], gates: &mut Vec<Gate>) -> Result<(), AllocError>
    requires fits { greatest z ≤ MAX_VARIABLE }
    requires count { length latches.now ≡ z.latches }
    requires low { All (λ latch. latch.var ≤ MAX_VARIABLE) latches.now }
    ensures { OnOk result (gates.new.items ≡ gates.old.items ++ for_each (latch_gates z) 0 latches.now) }
{
    for (i, latch) in latches.iter().enumerate() {
        push_gates_of_latch(z, i as u64, latch, gates)?;
    }
    Ok(())
}

fn push_gates_of_literal(
    z: Sizes,
    m: u64,
    literal: u64,
    gates: &mut Vec<Gate>,
) -> Result<(), AllocError>
    requires fits { greatest z ≤ MAX_VARIABLE }
    requires inside { m < z.literals }
    requires literal { literal ≤ 2 * MAX_VARIABLE + 1 }
    ensures { OnOk result (gates.new.items ≡ gates.old.items ++ literal_gates z m literal) }
{
    let v = literal_gate(z, m);
    gates.extend_from_slice(&[
        gate(v, negative(seen(z, m)), negation(literal)),
        gate(v + 1, negative(saving(z) + 1), negative(v)),
    ])
}

fn push_literal_gates(z: Sizes, literals: &[u64], gates: &mut Vec<Gate>) -> Result<(), AllocError>
    requires fits { greatest z ≤ MAX_VARIABLE }
    requires count { length literals.now ≡ z.literals }
    requires low { All (λ literal. literal ≤ 2 * MAX_VARIABLE + 1) literals.now }
    ensures { OnOk result (gates.new.items ≡ gates.old.items ++ for_each (literal_gates z) 0 literals.now) }
{
    for (m, literal) in literals.iter().enumerate() {
        push_gates_of_literal(z, m as u64, *literal, gates)?;
    }
    Ok(())
}

// The chain from the variable v on; the answer is the literal of its end.
fn push_chain(
    v: u64,
    so_far: u64,
    literals: &[u64],
    gates: &mut Vec<Gate>,
) -> Result<u64, AllocError>
    requires { v + length literals.now ≤ MAX_VARIABLE + 1 }
    ensures gates { OnOk result (gates.new.items ≡ gates.old.items ++ chain v so_far literals.now) }
    ensures end { IfOk result (λ end. end ≡ chain_end v so_far literals.now) }
{
    let mut var = v;
    let mut end = so_far;
    for literal in literals {
        gates.push(gate(var, end, *literal))?;
        end = positive(var);
        var += 1;
    }
    Ok(end)
}

fn push_back(z: Sizes, all: &mut Items<u64>) -> Result<(), AllocError>
    requires { greatest z ≤ MAX_VARIABLE }
    ensures { OnOk result (all.new ≡ all.old ++ numbered (λ i. positive (latch_gate z i + 5)) 0 z.latches) }
{
    for i in 0..z.latches {
        all.push(positive(latch_gate(z, i) + 5))?;
    }
    Ok(())
}

fn push_was_seen(z: Sizes, all: &mut Items<u64>) -> Result<(), AllocError>
    requires { greatest z ≤ MAX_VARIABLE }
    ensures { OnOk result (all.new ≡ all.old ++ numbered (λ m. positive (seen z m)) 0 z.literals) }
{
    for m in 0..z.literals {
        all.push(positive(seen(z, m)))?;
    }
    Ok(())
}

/// The literals that are all true where the saved state has come again and each literal was seen.
pub(crate) fn back_and_seen(alloc: Global, z: Sizes) -> Result<Items<u64>, AllocError>
    requires { greatest z ≤ MAX_VARIABLE }
    ensures { IfOk result (λ all. all ≡ back_and_seen z) }
{
    let mut all = Items::new(alloc);
    push_back(z, &mut all)?;
    push_was_seen(z, &mut all)?;
    Ok(all)
}

// The gates behind those of the circuit, and the bad state literal.
fn push_new_gates(
    alloc: Global,
    z: Sizes,
    latches: &[Latch],
    literals: &[u64],
    gates: &mut Vec<Gate>,
) -> Result<u64, AllocError>
    requires fits { greatest z ≤ MAX_VARIABLE }
    requires latches { length latches.now ≡ z.latches }
    requires literals { length literals.now ≡ z.literals }
    requires low_latches { All (λ latch. latch.var ≤ MAX_VARIABLE) latches.now }
    requires low_literals { All (λ literal. literal ≤ 2 * MAX_VARIABLE + 1) literals.now }
    ensures gates { OnOk result (gates.new.items ≡ gates.old.items ++ new_gates z latches.now literals.now) }
    ensures bad { IfOk result (λ bad. bad ≡ bad_literal z) }
{
    push_saving_gates(z, gates)?;
    push_latch_gates(z, latches, gates)?;
    push_literal_gates(z, literals, gates)?;
    let all = back_and_seen(alloc, z)?;
    push_chain(
        bad_gate(z),
        positive(z.variables + 2),
        all.as_slice(),
        gates,
    )
}

/// The gates of the circuit and, behind them, those that watch it; and the bad state literal.
pub(crate) fn gates_of(
    alloc: Global,
    c: &Circuit,
    z: Sizes,
    literals: &[u64],
) -> Result<(Items<Gate>, u64), AllocError>
    requires fits { greatest z ≤ MAX_VARIABLE }
    requires latches { length c.now.latches ≡ z.latches }
    requires literals { length literals.now ≡ z.literals }
    requires low_latches { All (λ latch. latch.var ≤ MAX_VARIABLE) c.now.latches }
    requires low_literals { All (λ literal. literal ≤ 2 * MAX_VARIABLE + 1) literals.now }
    ensures gates { IfOk result (λ made. made.0 ≡ c.now.gates ++ new_gates z c.now.latches literals.now) }
    ensures bad { IfOk result (λ made. made.1 ≡ bad_literal z) }
{
    let mut gates = Vec::from_slice(alloc, c.gates())?;
    let bad = push_new_gates(alloc, z, c.latches(), literals, &mut gates)?;
    Ok((Items::from_vec(gates), bad))
}
