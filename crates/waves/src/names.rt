//! The names and the identifiers of wires. The main calls are `label`, `set_apart` and `next_identifier`.

ghost use Rattle.std.specs.Prelude.{◌≡◌, ◌++◌, ◌<◌, IfOk, OnOk};
ghost use Rattle.waves.specs.Names.{label, is_plain, hex_digit, escaped_byte, escaped, set_apart, enough, next_identifier};

use crate::signals::Signals;
use crate::wires::{Wire, letter_of};
use aiger_grammar::JUSTICE;
use std::alloc::{AllocError, Global};
use text_grammar::push_number;

/// The letter and the index of a wire.
pub(crate) fn label(alloc: Global, wire: Wire) -> Result<Vec<u8>, AllocError>
    ensures { IfOk result (λ text. text.items ≡ label wire) }
{
    let mut text = Vec::new(alloc);
    match wire {
        Wire::Element { section, index, .. } => {
            text.push(letter_of(section))?;
            push_number(&mut text, index)?;
        }
        Wire::PropertyLiteral {
            property,
            place,
            ..
        } => {
            text.push(JUSTICE)?;
            push_number(&mut text, property)?;
            text.push(b'.')?;
            push_number(&mut text, place)?;
        }
        Wire::Loop => text.extend_from_slice(b"loop")?,
    }
    Ok(text)
}

// Whether the byte stands for itself in a name.
fn is_plain(byte: u8) -> bool
    ensures { result ≡ is_plain byte }
{
    32 < byte && byte < 127 && byte != b'%'
}

fn hex_digit(n: u8) -> u8
    requires { n < 16 }
    ensures { result ≡ hex_digit n }
{
    if n < 10 { 48 + n } else { 55 + n }
}

fn push_escaped_byte(out: &mut Vec<u8>, byte: u8) -> Result<(), AllocError>
    ensures { OnOk result (out.new.items ≡ out.old.items ++ escaped_byte byte) }
{
    if is_plain(byte) {
        out.push(byte)?;
        return Ok(());
    }
    out.push(b'%')?;
    out.push(hex_digit(byte / 16))?;
    out.push(hex_digit(byte % 16))?;
    Ok(())
}

/// A name in which each byte that is not plain stands in hexadecimal digits.
pub(crate) fn escaped(alloc: Global, name: &[u8]) -> Result<Vec<u8>, AllocError>
    ensures { IfOk result (λ text. text.items ≡ escaped name.now) }
{
    let mut text = Vec::new(alloc);
    for byte in name {
        push_escaped_byte(&mut text, *byte)?;
    }
    Ok(text)
}

/// The name, with a dot and the label behind it as often as it takes until no signal has it.
pub(crate) fn set_apart(
    signals: &Signals,
    label: &[u8],
    mut name: Vec<u8>,
) -> Result<Vec<u8>, AllocError>
    ensures { IfOk result (λ text. text.items ≡ set_apart (enough signals.now) signals.now label.now name.items) }
{
    let mut taken = signals.has_name(&name);
    while taken {
        name.push(b'.')?;
        name.extend_from_slice(label)?;
        taken = signals.has_name(&name);
    }
    Ok(name)
}

/// The identifier behind this one.
pub(crate) fn next_identifier(alloc: Global, code: &[u8]) -> Result<Vec<u8>, AllocError>
    ensures { IfOk result (λ next. next.items ≡ next_identifier code.now) }
{
    let mut next = Vec::new(alloc);
    for (k, character) in code.iter().enumerate() {
        if *character < 126 {
            next.push(*character + 1)?;
            next.extend_from_slice(&code[k + 1..])?;
            return Ok(next);
        }
        next.push(33)?;
    }
    next.push(33)?;
    Ok(next)
}
