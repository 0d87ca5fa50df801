//! The bits of buses, by their names. The main call is `bracket_in`.

ghost use Rattle.std.specs.Prelude.{◌≡◌, ◌<◌, ◌==◌, None, length, IfSome, if◌then◌else◌};
ghost use Rattle.waves.specs.Buses.{index_in, bracket_in, bit_letter};

use crate::wires::{Wire, letter_of};
use text_grammar::read_number;

const MOST_INDEX: u64 = 4_294_967_295;

// The index that stands behind an opening bracket.
fn index_in(bytes: &[u8]) -> Option<u32>
    ensures { result ≡ index_in bytes.now }
{
    let (index, rest) = read_number(bytes, MOST_INDEX)?;
    if rest == b"]".as_slice() {
        Some(index as u32)
    } else {
        None
    }
}

// The same, where the byte is an opening bracket.
fn index_behind(byte: u8, bytes: &[u8]) -> Option<u32>
    ensures { result ≡ (if byte == 91 then index_in bytes.now else None) }
{
    if byte == b'[' { index_in(bytes) } else { None }
}

/// The place of the bracket behind which an index ends the name, and the index.
pub(crate) fn bracket_in(name: &[u8]) -> Option<(usize, u32)>
    ensures bracket { result ≡ bracket_in name.now }
    ensures inside { IfSome result (λ x. x.0 < length name.now) }
    ensures some { IfSome result (λ x. 0 < x.0) }
{
    for k in 1..name.len() {
        if let Some(index) = index_behind(name[k], &name[k + 1..]) {
            return Some((k, index));
        }
    }
    None
}

/// The letter of the section whose bit a wire may be.
pub(crate) fn bit_letter(wire: Wire) -> Option<u8>
    ensures { result ≡ bit_letter wire }
{
    match wire {
        Wire::Element { section, .. } => Some(letter_of(section)),
        _ => None,
    }
}
