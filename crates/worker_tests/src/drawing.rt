//! Drawn models and schedules. The main calls are `model_text` and `schedule`.

use std::alloc::{AllocError, Global};

/// A sequence of drawn numbers (xorshift).
#[derive(Drop)]
pub(crate) struct Draws {
    state: u64,
}

/// The sequence with this number.
pub(crate) fn draws_of(number: u64) -> Draws {
    Draws {
        state: number.saturating_add(1).wrapping_mul(0x9e37_79b9_7f4a_7c15),
    }
}

impl Draws {
    /// The next number, below an end; 0 where the end is 0.
    pub(crate) fn below(&mut self, end: u64) -> u64 {
        let mut x = self.state;
        x ^= x << 13_u32;
        x ^= x >> 7_u32;
        x ^= x << 17_u32;
        self.state = x;
        (x >> 11_u32).checked_rem(end).unwrap_or(0)
    }
}

// How many there are of what a drawn model has.
#[derive(Clone, Copy)]
struct Counts {
    inputs: u64,
    latches: u64,
    gates: u64,
    properties: u64,
    literals: u64,
    fairness: u64,
}

// Up to two inputs, two to five latches, two to nine gates, up to three literals of each property and one of fairness.
fn counts_of(draws: &mut Draws, properties: u64) -> Counts {
    Counts {
        inputs: draws.below(3),
        latches: draws.below(4).saturating_add(2),
        gates: draws.below(8).saturating_add(2),
        properties,
        literals: draws.below(4),
        fairness: draws.below(2),
    }
}

// Inputs, latches and gates have the variables from 1 on, in this order; this is the first one of a gate.
fn first_gate(n: &Counts) -> u64 {
    n.inputs.saturating_add(n.latches).saturating_add(1)
}

// How many literals there are.
fn literal_count(n: &Counts) -> u64 {
    first_gate(n).saturating_add(n.gates).saturating_mul(2)
}

fn push_digit(text: &mut Vec<u8>, digit: u64) -> Result<(), AllocError> {
    text.push(b'0' + (digit % 10) as u8)?;
    Ok(())
}

// A number below 100.
fn push_number(text: &mut Vec<u8>, number: u64) -> Result<(), AllocError> {
    if number >= 10 {
        push_digit(text, number / 10 % 10)?;
    }
    push_digit(text, number % 10)
}

fn push_line(text: &mut Vec<u8>, numbers: &[u64]) -> Result<(), AllocError> {
    for (i, number) in numbers.iter().enumerate() {
        if i > 0 {
            text.push(b' ')?;
        }
        push_number(text, *number)?;
    }
    text.push(b'\n')?;
    Ok(())
}

fn push_head(text: &mut Vec<u8>, n: &Counts) -> Result<(), AllocError> {
    let max = first_gate(n).saturating_sub(1).saturating_add(n.gates);
    text.extend_from_slice(b"aag ")?;
    push_line(
        text,
        &[
            max,
            n.inputs,
            n.latches,
            0,
            n.gates,
            0,
            1,
            n.properties,
            n.fairness,
        ],
    )?;
    for input in 0..n.inputs {
        push_line(text, &[input.saturating_add(1).saturating_mul(2)])?;
    }
    Ok(())
}

// A latch begins with 0, with 1 or with either value.
fn push_latches(text: &mut Vec<u8>, n: &Counts, draws: &mut Draws) -> Result<(), AllocError> {
    for latch in 0..n.latches {
        let var = n.inputs.saturating_add(1).saturating_add(latch);
        let own = var.saturating_mul(2);
        let next = draws.below(literal_count(n));
        match draws.below(4) {
            0 => push_line(text, &[own, next, 1])?,
            1 => push_line(text, &[own, next, own])?,
            _ => push_line(text, &[own, next])?,
        }
    }
    Ok(())
}

// Of three models one has a drawn constraint, and the others one that is always true.
fn push_constraint(text: &mut Vec<u8>, n: &Counts, draws: &mut Draws) -> Result<(), AllocError> {
    let literal = if draws.below(3) == 0 {
        draws.below(literal_count(n))
    } else {
        1
    };
    push_line(text, &[literal])
}

// Every second property has one literal more.
fn property_literals(n: &Counts, property: u64) -> u64 {
    n.literals.saturating_add(property % 2)
}

fn push_literals(text: &mut Vec<u8>, n: &Counts, draws: &mut Draws) -> Result<(), AllocError> {
    let mut count = n.fairness;
    for property in 0..n.properties {
        let literals = property_literals(n, property);
        push_line(text, &[literals])?;
        count = count.saturating_add(literals);
    }
    for _literal in 0..count {
        push_line(text, &[draws.below(literal_count(n))])?;
    }
    Ok(())
}

// Gates in ascending order, each of literals below its own.
fn push_gates(text: &mut Vec<u8>, n: &Counts, draws: &mut Draws) -> Result<(), AllocError> {
    for gate in 0..n.gates {
        let own = first_gate(n).saturating_add(gate).saturating_mul(2);
        push_line(text, &[own, draws.below(own), draws.below(own)])?;
    }
    Ok(())
}

/// The model with a number: a circuit with one property.
pub(crate) fn model_text(alloc: Global, number: u64) -> Result<Vec<u8>, AllocError> {
    text_with(alloc, number, 1)
}

/// The model with a number that has so many properties.
pub(crate) fn text_with(
    alloc: Global,
    number: u64,
    properties: u64,
) -> Result<Vec<u8>, AllocError> {
    let mut draws = draws_of(number);
    let n = counts_of(&mut draws, properties);
    let mut text = Vec::new(alloc);
    push_head(&mut text, &n)?;
    push_latches(&mut text, &n, &mut draws)?;
    push_constraint(&mut text, &n, &mut draws)?;
    push_literals(&mut text, &n, &mut draws)?;
    push_gates(&mut text, &n, &mut draws)?;
    Ok(text)
}

/// The schedule with a number: up to 95 numbers of so many workers, or the next one, which is no worker's.
pub(crate) fn schedule(alloc: Global, number: u64, workers: u32) -> Result<Vec<u32>, AllocError> {
    let mut draws = draws_of(number);
    let mut numbers = Vec::new(alloc);
    for _turn in 0..draws.below(96) {
        let number = draws.below(u64::from(workers).saturating_add(1));
        numbers.push(u32::try_from(number).unwrap_or(0))?;
    }
    Ok(numbers)
}
