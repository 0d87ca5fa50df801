//! Rounds of drawn runs against every way to cut them, and their monitors against the runs. The main call is
//! `judged_alike`. Evaluation here is the test's own.

use crate::models::{checked, no_parts};
use aiger_names::Model;
use circuit::{Circuit, Gate, Latch, ModelEnd, Parts, Position, Reset, are_positions, rounds};
use items::Items;
use round_monitor::monitor;
use std::alloc::{AllocError, Global};
use std::test::*;

// A sequence of drawn numbers (xorshift), below an end.
fn draw(seed: &mut u64, end: u64) -> u64 {
    let mut x = *seed;
    x ^= x << 13_u32;
    x ^= x >> 7_u32;
    x ^= x << 17_u32;
    *seed = x;
    (x >> 11_u32).checked_rem(end).unwrap_or(0)
}

// ---- circuits: inputs, latches and gates have the variables from 1 on, in this order

// How many there are of what a drawn circuit has.
#[derive(Clone, Copy)]
struct Counts {
    inputs: u64,
    latches: u64,
    gates: u64,
    literals: u64,
    fairness: u64,
}

fn counts_of(seed: &mut u64) -> Counts {
    Counts {
        inputs: draw(seed, 3),
        latches: draw(seed, 3).saturating_add(1),
        gates: draw(seed, 5),
        literals: draw(seed, 4),
        fairness: draw(seed, 2),
    }
}

fn first_gate(n: Counts) -> u64 {
    n.inputs.saturating_add(n.latches).saturating_add(1)
}

// How many literals there are.
fn literal_count(n: Counts) -> u64 {
    first_gate(n).saturating_add(n.gates).saturating_mul(2)
}

fn push_latches(n: Counts, seed: &mut u64, latches: &mut Items<Latch>) -> Result<(), AllocError> {
    for i in 0..n.latches {
        let next = draw(seed, literal_count(n));
        let reset = match draw(seed, 3) {
            0 => Reset::Zero,
            1 => Reset::One,
            _ => Reset::Free,
        };
        latches.push(Latch {
            var: n.inputs.saturating_add(1).saturating_add(i),
            next,
            reset,
        })?;
    }
    Ok(())
}

fn push_gates(n: Counts, seed: &mut u64, gates: &mut Items<Gate>) -> Result<(), AllocError> {
    for i in 0..n.gates {
        let var = first_gate(n).saturating_add(i);
        let below = var.saturating_mul(2);
        let rhs0 = draw(seed, below);
        let rhs1 = draw(seed, below);
        gates.push(Gate { var, rhs0, rhs1 })?;
    }
    Ok(())
}

fn push_inputs(n: Counts, inputs: &mut Items<u64>) -> Result<(), AllocError> {
    for i in 0..n.inputs {
        inputs.push(i.saturating_add(1))?;
    }
    Ok(())
}

fn push_literals(
    n: Counts,
    count: u64,
    seed: &mut u64,
    drawn: &mut Items<u64>,
) -> Result<(), AllocError> {
    for _turn in 0..count {
        drawn.push(draw(seed, literal_count(n)))?;
    }
    Ok(())
}

fn property(alloc: Global, n: Counts, seed: &mut u64) -> Result<Items<u64>, AllocError> {
    let mut drawn = Items::new(alloc);
    push_literals(n, n.literals, seed, &mut drawn)?;
    Ok(drawn)
}

fn put_parts(
    alloc: Global,
    n: Counts,
    seed: &mut u64,
    parts: &mut Parts,
) -> Result<(), AllocError> {
    parts.justice.push(property(alloc, n, seed)?)?;
    push_inputs(n, &mut parts.inputs)?;
    push_latches(n, seed, &mut parts.latches)?;
    push_gates(n, seed, &mut parts.gates)?;
    push_literals(n, n.fairness, seed, &mut parts.fairness)
}

fn parts_of(alloc: Global, n: Counts, seed: &mut u64) -> Result<Parts, AllocError> {
    let max = first_gate(n).saturating_sub(1).saturating_add(n.gates);
    let mut parts = no_parts(alloc, max);
    put_parts(alloc, n, seed, &mut parts)?;
    Ok(parts)
}

fn circuit_drawn(alloc: Global, seed: &mut u64) -> Result<Circuit, ModelEnd> {
    let n = counts_of(seed);
    let parts = parts_of(alloc, n, seed)?;
    let c = checked(alloc, &parts);
    drop(parts);
    c
}

// ---- runs

// The value of a literal, by those of all variables.
fn is_true(values: &[bool], literal: u64) -> bool {
    let plain = values.get((literal / 2) as usize).copied().unwrap_or(false);
    plain != (literal % 2 == 1)
}

fn put(values: &mut [bool], var: u64, value: bool) {
    let at = var as usize;
    if at < values.len() {
        values[at] = value;
    }
}

fn blank(alloc: Global, count: usize) -> Result<Vec<bool>, AllocError> {
    let mut values = Vec::new(alloc);
    for _place in 0..count {
        values.push(false)?;
    }
    Ok(values)
}

fn put_gates(c: &Circuit, values: &mut [bool]) {
    for gate in c.gates() {
        let value = is_true(values, gate.rhs0) && is_true(values, gate.rhs1);
        put(values, gate.var, value);
    }
}

// The values of all variables. Each gate stands behind those that it reads.
fn values_of(
    alloc: Global,
    c: &Circuit,
    latches: &[bool],
    inputs: &[bool],
) -> Result<Vec<bool>, AllocError> {
    let mut values = blank(alloc, (c.max() as usize).saturating_add(1))?;
    for (i, var) in c.inputs().iter().enumerate() {
        put(&mut values, *var, inputs.get(i).copied().unwrap_or(false));
    }
    for (i, latch) in c.latches().iter().enumerate() {
        put(
            &mut values,
            latch.var,
            latches.get(i).copied().unwrap_or(false),
        );
    }
    put_gates(c, &mut values);
    Ok(values)
}

fn nexts(alloc: Global, c: &Circuit, values: &[bool]) -> Result<Vec<bool>, AllocError> {
    let mut next = Vec::new(alloc);
    for latch in c.latches() {
        next.push(is_true(values, latch.next))?;
    }
    Ok(next)
}

fn bools(alloc: Global, count: usize, seed: &mut u64) -> Result<Vec<bool>, AllocError> {
    let mut drawn = Vec::new(alloc);
    for _place in 0..count {
        drawn.push(draw(seed, 2) == 1)?;
    }
    Ok(drawn)
}

fn begin(alloc: Global, c: &Circuit, seed: &mut u64) -> Result<Vec<bool>, AllocError> {
    let mut latches = Vec::new(alloc);
    for latch in c.latches() {
        let value = match latch.reset {
            Reset::Zero => false,
            Reset::One => true,
            Reset::Free => draw(seed, 2) == 1,
        };
        latches.push(value)?;
    }
    Ok(latches)
}

fn position_of(alloc: Global, latches: &[bool], inputs: &[bool]) -> Result<Position, AllocError> {
    Ok(Position {
        latches: Items::from_slice(alloc, latches)?,
        inputs: Items::from_slice(alloc, inputs)?,
    })
}

// The next values of the latches.
fn next_of(
    alloc: Global,
    c: &Circuit,
    latches: &[bool],
    inputs: &[bool],
) -> Result<Vec<bool>, AllocError> {
    let values = values_of(alloc, c, latches, inputs)?;
    nexts(alloc, c, &values)
}

// One position with drawn inputs; the latches behind it.
fn step(
    alloc: Global,
    c: &Circuit,
    latches: &[bool],
    run: &mut Vec<Position>,
    seed: &mut u64,
) -> Result<Vec<bool>, AllocError> {
    let inputs = bools(alloc, c.inputs().len(), seed)?;
    run.push(position_of(alloc, latches, &inputs)?)?;
    next_of(alloc, c, latches, &inputs)
}

fn push_positions(
    alloc: Global,
    c: &Circuit,
    length: usize,
    run: &mut Vec<Position>,
    seed: &mut u64,
) -> Result<(), AllocError> {
    let mut latches = begin(alloc, c, seed)?;
    for _place in 0..length {
        latches = step(alloc, c, &latches, run, seed)?;
    }
    Ok(())
}

// A drawn run of so many positions.
fn run_drawn(
    alloc: Global,
    c: &Circuit,
    length: usize,
    seed: &mut u64,
) -> Result<Vec<Position>, AllocError> {
    let mut run = Vec::new(alloc);
    push_positions(alloc, c, length, &mut run, seed)?;
    Ok(run)
}

// ---- rounds, by every way to cut

fn is_true_at(alloc: Global, c: &Circuit, p: &Position, literal: u64) -> Result<bool, AllocError> {
    let values = values_of(alloc, c, p.latches.as_slice(), p.inputs.as_slice())?;
    Ok(is_true(&values, literal))
}

fn is_true_somewhere(
    alloc: Global,
    c: &Circuit,
    segment: &[Position],
    literal: u64,
) -> Result<bool, AllocError> {
    for p in segment {
        if is_true_at(alloc, c, p, literal)? {
            return Ok(true);
        }
    }
    Ok(false)
}

fn all_somewhere(
    alloc: Global,
    c: &Circuit,
    segment: &[Position],
    literals: &[u64],
) -> Result<bool, AllocError> {
    for literal in literals {
        if !is_true_somewhere(alloc, c, segment, *literal)? {
            return Ok(false);
        }
    }
    Ok(true)
}

fn first_property(c: &Circuit) -> &[u64] {
    if c.property_count() == 0 {
        return &[];
    }
    c.property(0)
}

fn is_round(alloc: Global, c: &Circuit, segment: &[Position]) -> Result<bool, AllocError> {
    Ok(
        all_somewhere(alloc, c, segment, first_property(c))?
            && all_somewhere(alloc, c, segment, c.fairness())?,
    )
}

fn entry(best: &[u64], at: usize) -> u64 {
    best.get(at).copied().unwrap_or(0)
}

// The most rounds of the first positions, where those of each fewer are known.
fn most_of(
    alloc: Global,
    c: &Circuit,
    front: &[Position],
    best: &[u64],
) -> Result<u64, AllocError> {
    let mut most: u64 = 0;
    for from in 0..front.len() {
        let fewer = entry(best, from);
        let here = if is_round(alloc, c, &front[from..])? {
            fewer.saturating_add(1)
        } else {
            fewer
        };
        if here > most {
            most = here;
        }
    }
    Ok(most)
}

// For each number of positions from 0 on, the most rounds of so many.
fn most_rounds(alloc: Global, c: &Circuit, run: &[Position]) -> Result<Vec<u64>, AllocError> {
    let mut best = Vec::new(alloc);
    best.push(0)?;
    for upto in 0..run.len() {
        let most = most_of(alloc, c, &run[..upto + 1], &best)?;
        best.push(most)?;
    }
    Ok(best)
}

// ---- what is judged

// The rounds of a run; nothing where it does not fit.
fn counted(alloc: Global, c: &Circuit, run: &[Position]) -> Result<Option<u64>, AllocError> {
    if c.property_count() == 0 || !are_positions(c, run) {
        return Ok(None);
    }
    Ok(Some(rounds(alloc, c, 0, run)?))
}

fn monitor_of(alloc: Global, c: &Circuit, k: u32) -> Option<Model> {
    if k == 0 {
        return None;
    }
    match monitor(alloc, c, 0, k) {
        Ok(model) => Some(model),
        Err(_) => None,
    }
}

fn extended(alloc: Global, latches: &[bool], count: usize) -> Result<Vec<bool>, AllocError> {
    let mut all = Vec::from_slice(alloc, latches)?;
    for _place in latches.len()..count {
        all.push(false)?;
    }
    Ok(all)
}

// Whether the counters, the last latches, say that so many rounds have ended.
fn tells(latches: &[bool], counters: usize, rounds: u64) -> bool {
    let first = latches.len().saturating_sub(counters);
    for i in 0..counters {
        let value = latches
            .get(first.saturating_add(i))
            .copied()
            .unwrap_or(false);
        if value != ((i as u64) < rounds) {
            return false;
        }
    }
    true
}

fn begins_with(latches: &[bool], own: &[bool]) -> bool {
    for (i, value) in own.iter().enumerate() {
        if latches.get(i).copied() != Some(*value) {
            return false;
        }
    }
    true
}

// Whether the monitor goes along with the run, and its counters tell the rounds before each position and behind the last.
fn goes_along(
    alloc: Global,
    t: &Circuit,
    run: &[Position],
    counters: usize,
    best: &[u64],
) -> Result<bool, AllocError> {
    let Some(first) = run.first() else {
        return Ok(true);
    };
    let mut latches = extended(alloc, first.latches.as_slice(), t.latches().len())?;
    for (i, p) in run.iter().enumerate() {
        if !begins_with(&latches, p.latches.as_slice())
            || !tells(&latches, counters, entry(best, i))
        {
            return Ok(false);
        }
        latches = next_of(alloc, t, &latches, p.inputs.as_slice())?;
    }
    Ok(tells(&latches, counters, entry(best, run.len())))
}

fn monitor_goes_along(
    alloc: Global,
    c: &Circuit,
    run: &[Position],
    k: u32,
    best: &[u64],
) -> Result<bool, AllocError> {
    match monitor_of(alloc, c, k) {
        Some(model) => {
            let goes = goes_along(alloc, model.circuit(), run, k as usize, best);
            drop(model);
            goes
        }
        None => Ok(false),
    }
}

fn monitors_go_along(
    alloc: Global,
    c: &Circuit,
    run: &[Position],
    best: &[u64],
) -> Result<bool, AllocError> {
    for k in 1..5_u32 {
        if !monitor_goes_along(alloc, c, run, k, best)? {
            return Ok(false);
        }
    }
    Ok(true)
}

// The rounds of a run of a circuit, where all agree on them.
fn agreed_on(alloc: Global, c: &Circuit, run: &[Position]) -> Result<Option<u64>, AllocError> {
    let best = most_rounds(alloc, c, run)?;
    let most = entry(&best, run.len());
    if counted(alloc, c, run)? != Some(most) || !monitors_go_along(alloc, c, run, &best)? {
        return Ok(None);
    }
    Ok(Some(most))
}

// The same of a drawn run.
fn agreed(alloc: Global, c: &Circuit, seed: &mut u64) -> Result<Option<u64>, AllocError> {
    let run = run_drawn(alloc, c, 10, seed)?;
    let most = agreed_on(alloc, c, &run);
    drop(run);
    most
}

// The rounds of the drawn run of the circuit with a number, where all agree on them.
fn judged(alloc: Global, number: u64) -> Result<Option<u64>, AllocError> {
    let mut seed = number.saturating_add(1).wrapping_mul(0x9e37_79b9_7f4a_7c15);
    match circuit_drawn(alloc, &mut seed) {
        Ok(c) => {
            let most = agreed(alloc, &c, &mut seed);
            drop(c);
            most
        }
        Err(_) => Ok(None),
    }
}

// Of how many of the first drawn circuits the run has a round, but not at each position; nothing where two disagree.
fn judged_alike(alloc: Global, circuits: u64) -> Result<Option<u64>, AllocError> {
    let mut telling: u64 = 0;
    for number in 0..circuits {
        let Some(most) = judged(alloc, number)? else {
            return Ok(None);
        };
        if most > 0 && most < 10 {
            telling = telling.saturating_add(1);
        }
    }
    Ok(Some(telling))
}

/// The rounds of a run of each of 40 drawn circuits are the most that any way to cut it gives, and its monitors for up to
/// four rounds go along with it and tell them.
#[test]
fn drawn_runs_counted(rt: HostRuntime) -> Result<(), Fail> {
    let telling = judged_alike(rt.alloc(), 40)?.unwrap_or(0);
    assert!(rt; telling >= 10);
    Ok(())
}
