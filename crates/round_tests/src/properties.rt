//! Properties of drawn circuits. The main call is `text_with`.

use drawn_circuits::{Drawn, draw, literal_count, text_of};
use std::alloc::{AllocError, Global};

/// The literals of a property and those of fairness.
#[derive(Drop)]
pub(crate) struct Property {
    pub(crate) own: Vec<u64>,
    pub(crate) fairness: Vec<u64>,
}

fn literals(alloc: Global, d: &Drawn, count: u64, seed: &mut u64) -> Result<Vec<u64>, AllocError> {
    let mut drawn = Vec::new(alloc);
    for _turn in 0..count {
        drawn.push(draw(seed, literal_count(d)))?;
    }
    Ok(drawn)
}

/// A property of up to two literals, with up to one fairness literal.
pub(crate) fn property_drawn(
    alloc: Global,
    d: &Drawn,
    number: u64,
) -> Result<Property, AllocError> {
    let mut seed = number.saturating_add(7).wrapping_mul(0x9e37_79b9_7f4a_7c15);
    let count = draw(&mut seed, 3);
    let fair = draw(&mut seed, 2);
    let own = literals(alloc, d, count, &mut seed)?;
    let fairness = literals(alloc, d, fair, &mut seed)?;
    Ok(Property { own, fairness })
}

fn push_digit(text: &mut Vec<u8>, digit: u64) -> Result<(), AllocError> {
    text.push(b'0' + (digit % 10) as u8)?;
    Ok(())
}

fn push_line(text: &mut Vec<u8>, number: u64) -> Result<(), AllocError> {
    if number >= 10 {
        push_digit(text, number / 10)?;
    }
    push_digit(text, number)?;
    text.push(b'\n')?;
    Ok(())
}

fn push_lines(text: &mut Vec<u8>, numbers: &[u64]) -> Result<(), AllocError> {
    for number in numbers {
        push_line(text, *number)?;
    }
    Ok(())
}

fn push_property(text: &mut Vec<u8>, p: &Property) -> Result<(), AllocError> {
    push_line(text, p.own.len() as u64)?;
    push_lines(text, p.own.as_slice())?;
    push_lines(text, p.fairness.as_slice())
}

// The text, with the property's lines in place of the two from line `first` on.
fn replaced(alloc: Global, plain: &[u8], first: u64, p: &Property) -> Result<Vec<u8>, AllocError> {
    let mut text = Vec::new(alloc);
    let mut line: u64 = 0;
    for byte in plain {
        let is_property = line == first || line == first.saturating_add(1);
        if !is_property {
            push_byte(&mut text, line, *byte, p)?;
        }
        if *byte == b'\n' {
            line = line.saturating_add(1);
            if line == first {
                push_property(&mut text, p)?;
            }
        }
    }
    Ok(text)
}

// A byte of a line that stays; the first line's last number, one digit, counts fairness literals.
fn push_byte(text: &mut Vec<u8>, line: u64, byte: u8, p: &Property) -> Result<(), AllocError> {
    if line == 0 && byte == b'\n' {
        let _zero = text.pop();
        push_digit(text, p.fairness.len() as u64)?;
    }
    text.push(byte)?;
    Ok(())
}

/// The text of the circuit with this one property.
pub(crate) fn text_with(alloc: Global, d: &Drawn, p: &Property) -> Result<Vec<u8>, AllocError> {
    let plain = text_of(alloc, d)?;
    let before = d.inputs.saturating_add(d.latches).saturating_add(2);
    replaced(alloc, plain.as_slice(), before, p)
}
