//! The parts of a text that both forms of a model share, written: a latch's next literal and reset, the sections of
//! literals, the names. The errors are want of memory.

ghost use Rattle.std.specs.Prelude.{◌≡◌, ◌↔◌, ◌++◌, ◌∷◌, IfOk, OnOk, ◌≤◌, length, map};
ghost use Rattle.std.specs.List.{flat_map};
ghost use Rattle.aiger_grammar.specs.declared.names.Counts.{Counts};
ghost use Rattle.aiger_grammar.specs.Names.{AreNames};
ghost use Rattle.aiger_grammar.specs.Spelling.{number_line, number_lines, next_line, reset_text, symbol_line, comment_text, names_text, justice_text, properties_text, AreWritable};

use crate::lines::{WriteLine, push_lines};
use crate::models::Model;
use aig_semantics::{Latch, MAX_VARIABLE, Reset};
use aiger_grammar::{Names, Symbol};
use circuit::Circuit;
use items::Items;
use std::alloc::{AllocError, Global};
use text_grammar::push_number;

// A number and a line feed.
#[derive(Clone, Copy)]
struct NumberLine;

impl WriteLine<u64> for NumberLine {
    ghost text = { λ _ n. number_line n };

    fn push(&self, out: &mut Vec<u8>, value: &u64) -> Result<(), AllocError> {
        push_number(out, *value)?;
        out.push(b'\n')?;
        Ok(())
    }
}

// A symbol's line.
#[derive(Clone, Copy)]
struct SymbolLine;

impl WriteLine<Symbol> for SymbolLine {
    ghost text = { λ _ symbol. symbol_line symbol };

    fn push(&self, out: &mut Vec<u8>, value: &Symbol) -> Result<(), AllocError> {
        out.push(value.letter)?;
        push_number(out, value.index)?;
        out.push(b' ')?;
        out.extend_from_slice(value.name.as_slice())?;
        out.push(b'\n')?;
        Ok(())
    }
}

// A line for each of the numbers.
fn push_numbers(out: &mut Vec<u8>, numbers: &[u64]) -> Result<(), AllocError>
    ensures { OnOk result (out.new.items ≡ out.old.items ++ number_lines numbers.now) }
{
    push_lines(out, &NumberLine, numbers)
}

/// Writes a latch's next literal at the end, and its reset unless that is 0, and a line feed.
pub fn push_next(out: &mut Vec<u8>, latch: &Latch) -> Result<(), AllocError>
    requires { latch.now.var ≤ MAX_VARIABLE }
    ensures { OnOk result (out.new.items ≡ out.old.items ++ next_line latch.now) }
{
    push_number(out, latch.next)?;
    push_reset(out, latch)
}

fn push_reset(out: &mut Vec<u8>, latch: &Latch) -> Result<(), AllocError>
    requires { latch.now.var ≤ MAX_VARIABLE }
    ensures { OnOk result (out.new.items ≡ out.old.items ++ reset_text latch.now.var latch.now.reset) }
{
    let number = match latch.reset {
        Reset::Zero => {
            out.push(b'\n')?;
            return Ok(());
        }
        Reset::One => 1,
        Reset::Free => 2 * latch.var,
    };
    out.push(b' ')?;
    push_number(out, number)?;
    out.push(b'\n')?;
    Ok(())
}

/// Writes outputs, bad state literals, constraints, properties and fairness at the end.
pub fn push_properties(out: &mut Vec<u8>, model: &Model) -> Result<(), AllocError>
    ensures { OnOk result (out.new.items ≡ out.old.items ++ properties_text model.now) }
{
    let circuit = model.circuit();
    push_numbers(out, model.outputs())?;
    push_numbers(out, model.bad())?;
    push_numbers(out, circuit.constraints())?;
    push_justice(out, circuit)?;
    push_numbers(out, circuit.fairness())
}

fn push_justice(out: &mut Vec<u8>, circuit: &Circuit) -> Result<(), AllocError>
    ensures { OnOk result (out.new.items ≡ out.old.items ++ justice_text circuit.now.justice) }
{
    push_sizes(out, circuit)?;
    push_property_literals(out, circuit)
}

// How many literals each property has.
fn push_sizes(out: &mut Vec<u8>, circuit: &Circuit) -> Result<(), AllocError>
    ensures { OnOk result (out.new.items ≡ out.old.items ++ number_lines (map length circuit.now.justice)) }
{
    for j in 0..circuit.property_count() {
        NumberLine.push(out, &(circuit.property(j).len() as u64))?;
    }
    Ok(())
}

fn push_property_literals(out: &mut Vec<u8>, circuit: &Circuit) -> Result<(), AllocError>
    ensures { OnOk result (out.new.items
        ≡ out.old.items ++ number_lines (flat_map (λ property. property) circuit.now.justice)) }
{
    for j in 0..circuit.property_count() {
        push_numbers(out, circuit.property(j))?;
    }
    Ok(())
}

/// Writes symbols and comment at the end.
pub fn push_names(out: &mut Vec<u8>, names: &Names) -> Result<(), AllocError>
    ensures { OnOk result (out.new.items ≡ out.old.items ++ names_text names.now) }
{
    push_lines(out, &SymbolLine, names.symbols.as_slice())?;
    push_comment(out, &names.comment)
}

fn push_comment(out: &mut Vec<u8>, comment: &Option<Items<u8>>) -> Result<(), AllocError>
    ensures { OnOk result (out.new.items ≡ out.old.items ++ comment_text comment.now) }
{
    let Some(text) = comment else {
        return Ok(());
    };
    out.push(b'c')?;
    out.extend_from_slice(text.as_slice())
}

/// The text of symbols and comment, in their order. It stands for these names, so that they are read again, exactly
/// where they can be written: each symbol is one of an element that is there, with an index of at most 4,294,967,295 and
/// a name of at least one byte and no line feed, and the comment does not begin with a digit. The names of a `Model` can
/// be written. The error is want of memory.
pub fn write_names(alloc: Global, names: &Names) -> Result<Vec<u8>, AllocError>
    ensures text { IfOk result (λ text. text.items ≡ names_text names.now) }
    ensures stands { IfOk result (λ text. (counts : Counts)
        → AreNames counts names.now text.items ↔ AreWritable counts names.now) }
{
    let mut out = Vec::new(alloc);
    push_names(&mut out, names)?;
    Ok(out)
}
