//! The text of an answer that has a stimulus, written. The main call is `write`.
ghost use Rattle.std.specs.Prelude.{◌≡◌, ℕ, ◌++◌, map, IfOk, OnOk};
ghost use Rattle.stimulus.specs.Texts.{digit_of, line_of, stimulus_lines, answer_text, IsTextOf, IsReadAgain};

use aig_semantics::Stimulus;
use std::alloc::{AllocError, Global};
use text_grammar::push_number;

/// Writes a whole answer: `1`, `jN`, the line of the latches and those of the positions, and `.`. Its lines between
/// the second and the last are read again as the stimulus. The error is want of memory.
pub fn write(alloc: Global, j: u32, s: &Stimulus) -> Result<Vec<u8>, AllocError>
    ensures text { IfOk result (λ text. text.items ≡ answer_text j s.now) }
    ensures read_again { IfOk result (λ text. IsReadAgain j s.now text.items) }
{
    written(alloc, j, s)
}

// The same, without what follows of it.
fn written(alloc: Global, j: u32, s: &Stimulus) -> Result<Vec<u8>, AllocError>
    ensures { IfOk result (λ text. text.items ≡ answer_text j s.now) }
{
    let mut text = Vec::new(alloc);
    text.extend_from_slice(b"1\nj")?;
    push_number(&mut text, u64::from(j))?;
    text.push(b'\n')?;
    push_line(&mut text, s.latches.as_slice())?;
    for values in s.inputs.as_slice() {
        push_line(&mut text, values.as_slice())?;
    }
    text.extend_from_slice(b".\n")?;
    Ok(text)
}

// Writes a line of values at the end.
fn push_line(text: &mut Vec<u8>, values: &[bool]) -> Result<(), AllocError>
    ensures { OnOk result (text.new.items ≡ text.old.items ++ line_of values.now) }
{
    for value in values {
        text.push(if *value { b'1' } else { b'0' })?;
    }
    text.push(b'\n')?;
    Ok(())
}
