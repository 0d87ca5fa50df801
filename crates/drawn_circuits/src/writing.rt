//! Drawn circuits as texts. The main call is `text_of`.

use crate::drawing::Drawn;
use std::alloc::{AllocError, Global};

fn push_number(text: &mut Vec<u8>, number: u64) -> Result<(), AllocError> {
    if number >= 10 {
        push_digit(text, number / 10 % 10)?;
    }
    push_digit(text, number % 10)
}

fn push_digit(text: &mut Vec<u8>, digit: u64) -> Result<(), AllocError> {
    text.push(b'0' + (digit % 10) as u8)?;
    Ok(())
}

fn push_line(text: &mut Vec<u8>, numbers: &[u64]) -> Result<(), AllocError> {
    for (i, number) in numbers.iter().enumerate() {
        if i > 0 {
            text.push(b' ')?;
        }
        push_number(text, *number)?;
    }
    text.push(b'\n')?;
    Ok(())
}

fn push_latches(text: &mut Vec<u8>, d: &Drawn) -> Result<(), AllocError> {
    for (i, next) in d.nexts.iter().enumerate() {
        let own = d
            .inputs
            .saturating_add(1)
            .saturating_add(i as u64)
            .saturating_mul(2);
        match d.resets.get(i).copied().unwrap_or(0) {
            1 => push_line(text, &[own, *next, 1])?,
            2 => push_line(text, &[own, *next, own])?,
            _ => push_line(text, &[own, *next])?,
        }
    }
    Ok(())
}

fn push_gates(text: &mut Vec<u8>, d: &Drawn) -> Result<(), AllocError> {
    let first = d.inputs.saturating_add(d.latches).saturating_add(1);
    for (i, (left, right)) in d.gates.iter().enumerate() {
        let own = first.saturating_add(i as u64).saturating_mul(2);
        push_line(text, &[own, *left, *right])?;
    }
    Ok(())
}

/// The text of a drawn circuit, in ASCII, with one property whose only literal is 0.
pub fn text_of(alloc: Global, d: &Drawn) -> Result<Vec<u8>, AllocError> {
    let count = d.gates.len() as u64;
    let max = d.inputs.saturating_add(d.latches).saturating_add(count);
    let mut text = Vec::new(alloc);
    text.extend_from_slice(b"aag ")?;
    push_line(&mut text, &[max, d.inputs, d.latches, 0, count, 0, 1, 1, 0])?;
    for i in 0..d.inputs {
        push_line(&mut text, &[i.saturating_add(1).saturating_mul(2)])?;
    }
    push_latches(&mut text, d)?;
    push_line(&mut text, &[d.constraint])?;
    push_line(&mut text, &[1])?;
    push_line(&mut text, &[0])?;
    push_gates(&mut text, d)?;
    Ok(text)
}
