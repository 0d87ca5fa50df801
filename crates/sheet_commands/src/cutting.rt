//! A block of a sheet as an answer of its own, cut out of the sheet's lines. The main call is `block_answer`.

ghost use Rattle.std.specs.Prelude.{◌≡◌, ◌⊎◌, ◌++◌, [], ◌∷◌, Some, None, option_map, IfOk, IfErr, OnOk};
ghost use Rattle.std.specs.Str.{bytes_eq};
ghost use Rattle.text_grammar.specs.Lines.{ended_lines};
ghost use Rattle.sheet_answers.specs.Sheets.{lasso_line};
ghost use Rattle.sheet_answers.specs.Ends.{refused_memory};
ghost use Rattle.sheet_commands.specs.Cutting.{lines_after, to_dot, answer_of, answer_in, no_lasso};

use crate::blocks::refused;
use certificate::AnswerFault;
use circuit::Circuit;
use cnf::ProofLine;
use sheet_answers::JudgeEnd;
use std::alloc::{AllocError, Global};
use text_grammar::push_number;

/// The answer that the block of the property stands for, of a sheet with these lines; or why there is none.
pub(crate) fn block_answer(
    alloc: Global,
    circuit: &Circuit,
    property: u32,
    lines: &[ProofLine],
) -> Result<Vec<u8>, JudgeEnd>
    ensures found { IfOk result (λ text. answer_in property lines.now ≡ Some text.items) }
    ensures none { IfErr result (λ end.
        ((end ≡ no_lasso circuit.now property) × (answer_in property lines.now ≡ None)) ⊎ (end ≡ refused_memory)) }
{
    let first = first_line(alloc, property)?;
    match lines_after(first.as_slice(), lines) {
        Some(rows) => Ok(answer_of(alloc, property, rows)?),
        None => Err(no_lasso(circuit, property)),
    }
}

// The first line of a block with a stimulus.
fn first_line(alloc: Global, n: u32) -> Result<Vec<u8>, AllocError>
    ensures { IfOk result (λ line. line.items ≡ lasso_line n) }
{
    let mut line = Vec::from_slice(alloc, b"lasso j")?;
    push_number(&mut line, u64::from(n))?;
    Ok(line)
}

// The lines behind the first that is this one.
fn lines_after<'a>(line: &[u8], lines: &'a [ProofLine]) -> Option<&'a [ProofLine]>
    ensures { option_map (λ rows. rows.now) result ≡ lines_after line.now lines.now }
{
    let mut rest = lines;
    while let Some((first, more)) = rest.split_first() {
        if is_word(first.as_slice(), line) {
            return Some(more);
        }
        rest = more;
    }
    None
}

fn is_word(line: &[u8], word: &[u8]) -> bool
    ensures { result ≡ bytes_eq line.now word.now }
{
    line == word
}

// Why there is no lasso of a property: it is not there, or its block has none.
fn no_lasso(circuit: &Circuit, n: u32) -> JudgeEnd
    ensures { result ≡ no_lasso circuit.now n }
{
    if n as usize >= circuit.property_count() {
        return refused(AnswerFault::NoProperty(u64::from(n)));
    }
    refused(AnswerFault::UnknownStatus)
}

// The answer with these lines, up to the first dot.
fn answer_of(alloc: Global, n: u32, rows: &[ProofLine]) -> Result<Vec<u8>, AllocError>
    ensures { IfOk result (λ text. text.items ≡ answer_of n rows.now) }
{
    let mut text = Vec::from_slice(alloc, b"1\nj")?;
    push_number(&mut text, u64::from(n))?;
    text.push(b'\n')?;
    push_to_dot(&mut text, rows)?;
    Ok(text)
}

fn push_to_dot(text: &mut Vec<u8>, rows: &[ProofLine]) -> Result<(), AllocError>
    ensures { OnOk result (text.new.items ≡ text.old.items ++ ended_lines (to_dot rows.now)) }
{
    let mut rest = rows;
    while let Some((row, more)) = rest.split_first() {
        push_line(text, row.as_slice())?;
        if is_word(row.as_slice(), b".") {
            return Ok(());
        }
        rest = more;
    }
    Ok(())
}

fn push_line(text: &mut Vec<u8>, line: &[u8]) -> Result<(), AllocError>
    ensures { OnOk result (text.new.items ≡ text.old.items ++ (line.now ++ 10 ∷ [])) }
{
    text.extend_from_slice(line)?;
    text.push(b'\n')?;
    Ok(())
}
