//! The text of a stimulus, read. The main call is `read`.
ghost use Rattle.std.specs.Prelude.{◌≡◌, ℕ, ◌+◌, ◌≤◌, ◌<◌, Bool, List, [], ◌∷◌, ◌++◌, Some, None, Ok, Err, map, length, All, IsSome, IfOk, IfSome, IfNone};
ghost use Rattle.std.specs.Bool.{OnTrue, OnFalse};
ghost use Rattle.aig_semantics.specs.declared.traces.Stimulus.{Stimulus};
ghost use Rattle.text_grammar.specs.Lines.{lines_of};
ghost use Rattle.stimulus.specs.declared.ends.ReplayFault.TheVariants.{Shape};
ghost use Rattle.stimulus.specs.Texts.{value_of, row_values, present, is_skipped, kept_lines, IsTextOf, IsStimulusLine, IsFirstBad, IsShape};
ghost use Rattle.stimulus.specs.Ends.{IfFault};
ghost use Rattle.stimulus.specs.declared.ends.ReplayFault.{ReplayFault};
ghost use Rattle.unless_memory.specs.Answers.{Gives, GivesExactlyWhere};

use crate::ends::{ReplayEnd, ReplayFault};
use aig_semantics::Stimulus;
use items::Items;
use std::alloc::{AllocError, Global};
use text_grammar::next_line;

/// Reads the text of a stimulus: a line for the latches, and one for the inputs of each position. Their
/// characters are 0, 1 and x, which is read as 0; lines that begin with c or u are skipped, and a line feed
/// that is missing at the very end is read as there. The one fault is `Shape` of the first line that is none
/// of these, numbered from 1, or of the one that is wanted where the text ends without the latches' line.
pub fn read(alloc: Global, bytes: &[u8]) -> Result<Stimulus, ReplayEnd>
    ensures found { IfOk result (λ s. IsTextOf s bytes.now) }
    ensures every { (s : Stimulus) → IsTextOf s bytes.now → Gives (Err ReplayEnd.Memory) (Ok s) result }
    ensures shape { (number : ℕ) → GivesExactlyWhere (Err ReplayEnd.Memory) (Err (ReplayEnd.Fault (Shape number)))
        (IsShape bytes.now number) result }
    ensures no_other { (fault : ReplayFault) → result ≡ Err (ReplayEnd.Fault fault)
        → (number : ℕ) × (fault ≡ Shape number) }
{
    read_text(alloc, bytes)
}

// The stimulus whose text this is.
fn read_text(alloc: Global, bytes: &[u8]) -> Result<Stimulus, ReplayEnd>
    ensures found { IfOk result (λ s. IsTextOf s bytes.now) }
    ensures fault { IfFault result (λ fault. (number : ℕ) × (fault ≡ Shape number) × IsShape bytes.now number) }
{
    let (lines, number) = read_kept(alloc, bytes)?;
    let mut lines = lines.into_vec();
    if lines.is_empty() {
        return Err(ReplayEnd::Fault(ReplayFault::Shape(number)));
    }
    let latches = lines.remove(0);
    let inputs = Items::from_vec(lines);
    Ok(Stimulus { latches, inputs })
}

// The values of the lines that are not skipped, and the number of the line that would come next.
fn read_kept(alloc: Global, bytes: &[u8]) -> Result<(Items<Items<bool>>, u64), ReplayEnd>
    ensures found { IfOk result (λ x. row_values (kept_lines (lines_of bytes.now)) ≡ present x.0) }
    ensures next { IfOk result (λ x. x.1 ≡ length (lines_of bytes.now) + 1) }
    ensures fault { IfFault result (λ fault. (number : ℕ) × (fault ≡ Shape number) × IsFirstBad (lines_of bytes.now) number) }
{
    let mut lines = Items::new(alloc);
    let mut number = 1;
    let mut rest = bytes;
    while let Some((line, later)) = next_line(rest) {
        let stands = take_line(alloc, line, &mut lines)?;
        if !stands {
            return Err(ReplayEnd::Fault(ReplayFault::Shape(number)));
        }
        number += 1;
        rest = later;
    }
    Ok((lines, number))
}

// Puts the values of a line behind the others, unless the line is skipped; tells whether it is one of a
// stimulus.
fn take_line(alloc: Global, line: &[u8], lines: &mut Items<Items<bool>>) -> Result<bool, AllocError>
    ensures taken { IfOk result (λ stands. OnTrue stands (present lines.new ≡ present lines.old ++ row_values (kept_lines (line.now ∷ [])))) }
    ensures bad { IfOk result (λ stands. OnFalse stands (IsStimulusLine line.now → ⊥)) }
{
    if is_skipped(line) {
        return Ok(true);
    }
    match values_of(alloc, line)? {
        Some(values) => {
            lines.push(values)?;
            Ok(true)
        }
        None => Ok(false),
    }
}

/// Whether the line begins with c or u, as lines do that are skipped.
pub fn is_skipped(line: &[u8]) -> bool
    ensures { result ≡ is_skipped line.now }
{
    match line.first() {
        Some(first) => *first == b'c' || *first == b'u',
        None => false,
    }
}

/// The values that the characters of a line stand for, 0, 1 and x, which is read as 0. `Ok(None)` where the line has
/// another character. The error is want of memory.
pub fn values_of(alloc: Global, line: &[u8]) -> Result<Option<Items<bool>>, AllocError>
    ensures found { IfOk result (λ read. IfSome read (λ values. map value_of line.now ≡ map Some values)) }
    ensures none { IfOk result (λ read. IfNone read (All (λ character. IsSome (value_of character)) line.now → ⊥)) }
{
    let mut values = Items::new(alloc);
    for character in line {
        match value_of(*character) {
            Some(value) => values.push(value)?,
            None => return Ok(None),
        }
    }
    Ok(Some(values))
}

// The value that a character stands for.
fn value_of(character: u8) -> Option<bool>
    ensures { result ≡ value_of character }
{
    match character {
        b'0' | b'x' => Some(false),
        b'1' => Some(true),
        _ => None,
    }
}
