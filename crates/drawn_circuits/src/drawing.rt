//! Circuits that are drawn by number. The main call is `circuit_drawn`.

use std::alloc::{AllocError, Global};

/// A circuit with up to two inputs, up to six latches, and gates, each over literals below its own. Variables are
/// numbered in this order.
#[derive(Drop)]
pub struct Drawn {
    pub inputs: u64,
    pub latches: u64,
    pub(crate) nexts: Vec<u64>,
    pub(crate) resets: Vec<u64>,
    pub(crate) gates: Vec<(u64, u64)>,
    pub constraint: u64,
}

/// The next number of a sequence (xorshift), below an end.
pub fn draw(seed: &mut u64, end: u64) -> u64 {
    let mut x = *seed;
    x ^= x << 13_u32;
    x ^= x >> 7_u32;
    x ^= x << 17_u32;
    *seed = x;
    rest(x >> 11_u32, end)
}

/// The rest of a division, or 0.
pub fn rest(number: u64, by: u64) -> u64 {
    number.checked_rem(by).unwrap_or(0)
}

/// A power of two, of an exponent up to six.
pub fn power(exponent: u64) -> u64 {
    match exponent {
        0 => 1,
        1 => 2,
        2 => 4,
        3 => 8,
        4 => 16,
        5 => 32,
        _ => 64,
    }
}

fn literals(alloc: Global, seed: &mut u64, count: u64, end: u64) -> Result<Vec<u64>, AllocError> {
    let mut drawn = Vec::new(alloc);
    for _turn in 0..count {
        drawn.push(draw(seed, end))?;
    }
    Ok(drawn)
}

fn gates(
    alloc: Global,
    seed: &mut u64,
    count: u64,
    below: u64,
) -> Result<Vec<(u64, u64)>, AllocError> {
    let mut drawn = Vec::new(alloc);
    for gate in 0..count {
        let end = below.saturating_add(gate).saturating_mul(2);
        drawn.push((draw(seed, end), draw(seed, end)))?;
    }
    Ok(drawn)
}

/// The circuit with a number.
pub fn circuit_drawn(alloc: Global, number: u64) -> Result<Drawn, AllocError> {
    let mut seed = number.saturating_add(1).wrapping_mul(0x9e37_79b9_7f4a_7c15);
    let inputs = draw(&mut seed, 3);
    let latches = draw(&mut seed, 6).saturating_add(1);
    let count = draw(&mut seed, 12).saturating_add(2);
    let below = inputs.saturating_add(latches).saturating_add(1);
    let all = below.saturating_add(count).saturating_mul(2);
    let gates = gates(alloc, &mut seed, count, below)?;
    let nexts = literals(alloc, &mut seed, latches, all)?;
    let resets = literals(alloc, &mut seed, latches, 4)?;
    let constraint = if draw(&mut seed, 3) == 0 {
        draw(&mut seed, all)
    } else {
        1
    };
    Ok(Drawn {
        inputs,
        latches,
        nexts,
        resets,
        gates,
        constraint,
    })
}

/// How many literals a drawn circuit has.
pub fn literal_count(d: &Drawn) -> u64 {
    let variables = d
        .inputs
        .saturating_add(d.latches)
        .saturating_add(d.gates.len() as u64);
    variables.saturating_add(1).saturating_mul(2)
}
