//! The first line of a model's text, written. The main call is `push_header`.
ghost use Rattle.std.specs.Prelude.{◌≡◌, ◌++◌, ◌∷◌, [], OnOk, length};
ghost use Rattle.aiger_grammar.specs.Spelling.{spaced, header_text, without_zeros};

use aiger_grammar::Heading;
use std::alloc::AllocError;
use text_grammar::push_number;

/// Writes a header at the end: the word, and the numbers without zeros at the end of the last four. The error is want
/// of memory.
pub fn push_header(out: &mut Vec<u8>, word: &str, heading: &Heading) -> Result<(), AllocError>
    ensures { OnOk result (out.new.items ≡ out.old.items ++ header_text word.now heading.now) }
{
    let first = [
        heading.max,
        heading.inputs,
        heading.latches,
        heading.outputs,
        heading.gates,
    ];
    let last = [
        heading.bad,
        heading.constraints,
        heading.justice,
        heading.fairness,
    ];
    out.extend_from_slice(word.as_bytes())?;
    push_spaced(out, &first)?;
    push_spaced(out, &last[..shown_count(heading)])?;
    out.push(b'\n')?;
    Ok(())
}

// Each number behind a space.
fn push_spaced(out: &mut Vec<u8>, numbers: &[u64]) -> Result<(), AllocError>
    ensures { OnOk result (out.new.items ≡ out.old.items ++ spaced numbers.now) }
{
    for number in numbers {
        out.push(b' ')?;
        push_number(out, *number)?;
    }
    Ok(())
}

// How many of the last four numbers are shown.
fn shown_count(heading: &Heading) -> usize
    ensures { result ≡ length (without_zeros
        (heading.now.bad ∷ heading.now.constraints ∷ heading.now.justice ∷ heading.now.fairness ∷ [])) }
{
    if heading.fairness != 0 {
        return 4;
    }
    if heading.justice != 0 {
        return 3;
    }
    if heading.constraints != 0 {
        return 2;
    }
    if heading.bad != 0 { 1 } else { 0 }
}
