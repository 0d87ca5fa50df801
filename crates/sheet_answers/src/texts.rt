//! Texts that are read whole and held, of which the lines are wanted beside the judgement. The main call is `check_sheet`.

ghost use Rattle.std.specs.Prelude.{◌≡◌, [], Result, Err, Some, false, true, codes, IfOk, IfErr};
ghost use Rattle.edge.specs.Faults.{Rose, NoneFell};
ghost use Rattle.edge.specs.Reads.{KeepsTexts, Reads};
ghost use Rattle.edge.specs.Told.{MayBe};
ghost use Rattle.text_grammar.specs.Lines.{lines_of};
ghost use Rattle.stimulus.specs.Texts.{kept_lines};
ghost use Rattle.unless_memory.specs.Answers.{GivesSome};
ghost use Rattle.sheet_answers.specs.declared.ends.Judged.{Judged as JudgedOf};
ghost use Rattle.sheet_answers.specs.declared.texts.GoodSheet.{GoodSheet as GoodOf};
ghost use Rattle.sheet_answers.specs.Reading.{is_sheet};
ghost use Rattle.sheet_answers.specs.Ends.{Decides, IsUnended, read_failed, refused_memory, no_memory, has_unread};
ghost use Rattle.sheet_answers.specs.Texts.{DecidesLines};

use crate::checking::check_answer;
use crate::ends::{JudgeEnd, Judged, plain};
use certificate::{AnswerEnd, KeptLines, opens_sheet};
use circuit::Circuit;
use cnf::ProofLine;
use edge::{MemShelf, ReadEnd, Shelf, read_text};
use items::Items;
use std::alloc::{AllocError, Global};
use stimulus::is_skipped;
use text_grammar::next_line;

/// The greatest number of bytes of a text.
const MOST_BYTES: u64 = 9_223_372_036_854_775_807;

/// A good sheet: the lines of its text that are not skipped, and the number of its entries.
#[derive(Drop)]
pub struct GoodSheet {
    pub lines: Items<ProofLine>,
    pub entries: u32,
}

/// Reads the whole text that the shelf holds under the name.
pub fn read_whole<H: Shelf>(alloc: Global, shelf: &mut H, name: &str) -> Result<Vec<u8>, JudgeEnd>
    // It is the text, where the shelf tells it; else a read failed, or memory was refused.
    ensures text { IfOk result (λ text. MayBe (H.held shelf.old name.now) text.items) }
    ensures ended { IfErr result IsUnended }
    ensures read { IfErr result (λ end. end ≡ read_failed → Rose (H.faults shelf.old name.now) (H.faults shelf.new name.now)) }
    ensures reads { Reads H.reads name.now (has_unread result) shelf.old shelf.new }
    ensures counts { NoneFell (H.faults shelf.old) (H.faults shelf.new) }
    ensures kept { KeepsTexts (H.held shelf.old) (H.held shelf.new) }
{
    match read_text(alloc, shelf, name, MOST_BYTES) {
        Ok(text) => Ok(text),
        Err(ReadEnd::Failed) => Err(plain(AnswerEnd::ReadFault)),
        Err(ReadEnd::Memory) => Err(plain(AnswerEnd::Memory)),
    }
}

/// A shelf that holds the text under the name `text`, and of which no call fails.
pub fn shelf_with(alloc: Global, text: Vec<u8>) -> Result<MemShelf, AllocError>
    ensures held { IfOk result (λ shelf. ⟦<MemShelf as Shelf>⟧.held shelf (codes "text") ≡ Some text.items) }
    ensures steady { IfOk result (λ shelf. shelf.failing ≡ []) }
{
    let mut texts = Vec::new(alloc);
    texts.push((String::from_str(alloc, "text")?, text))?;
    Ok(MemShelf::new(texts, u64::MAX, Vec::new(alloc)))
}

/// Whether the first line that is not skipped opens a sheet.
pub fn is_sheet(text: &[u8]) -> bool
    ensures { result ≡ is_sheet (kept_lines (lines_of text.now)) }
{
    let mut rest = text;
    while let Some((line, more)) = next_line(rest) {
        if !is_skipped(line) {
            return opens_sheet(line);
        }
        rest = more;
    }
    false
}

/// Judges a text that opens a sheet as `check_answer` does, and answers the lines of a good one.
pub fn check_sheet(alloc: Global, circuit: &Circuit, text: Vec<u8>) -> Result<GoodSheet, JudgeEnd>
    requires { is_sheet (kept_lines (lines_of text.items)) ≡ true }
    // What is answered is so of the text, and what is so is answered, unless memory is refused.
    ensures found { GivesSome (Err refused_memory) (DecidesLines circuit.now text.items) result }
    ensures exactly { (verdict : Result GoodOf JudgeEnd) → DecidesLines circuit.now text.items verdict
        → GivesSome (Err refused_memory) (λ end. end ≡ verdict) result }
    ensures unread { has_unread result ≡ false }
{
    match kept_lines(alloc, text.as_slice()) {
        Ok(lines) => with_lines(alloc, circuit, text, lines),
        Err(_) => Err(plain(AnswerEnd::Memory)),
    }
}

// The same of a text with these lines.
fn with_lines(
    alloc: Global,
    circuit: &Circuit,
    text: Vec<u8>,
    lines: Items<ProofLine>,
) -> Result<GoodSheet, JudgeEnd>
    requires lines { lines ≡ kept_lines (lines_of text.items) }
    requires sheet { is_sheet lines ≡ true }
    ensures found { GivesSome (Err refused_memory) (DecidesLines circuit.now text.items) result }
    ensures exactly { (verdict : Result GoodOf JudgeEnd) → DecidesLines circuit.now text.items verdict
        → GivesSome (Err refused_memory) (λ end. end ≡ verdict) result }
    ensures unread { has_unread result ≡ false }
{
    match check_text(alloc, circuit, text) {
        Ok(Judged::Sheet(_, entries)) => Ok(GoodSheet { lines, entries }),
        Ok(Judged::Text(_)) => unreachable!(),
        Err(end) => Err(end),
    }
}

// Judges a text.
fn check_text(alloc: Global, circuit: &Circuit, text: Vec<u8>) -> Result<Judged, JudgeEnd>
    ensures found { GivesSome no_memory (Decides circuit.now text.items) result }
    ensures exactly { (verdict : Result JudgedOf JudgeEnd) → Decides circuit.now text.items verdict
        → GivesSome no_memory (λ end. end ≡ verdict) result }
    ensures unread { has_unread result ≡ false }
{
    match shelf_with(alloc, text) {
        Ok(mut shelf) => check_answer(alloc, circuit, &mut shelf, "text"),
        Err(_) => Err(plain(AnswerEnd::Memory)),
    }
}

// The lines that are not skipped.
fn kept_lines(alloc: Global, text: &[u8]) -> Result<Items<ProofLine>, AllocError>
    ensures { IfOk result (λ lines. lines ≡ kept_lines (lines_of text.now)) }
{
    let mut kept = KeptLines::each(alloc);
    let mut rest = text;
    while let Some((line, more)) = next_line(rest) {
        kept.keep(alloc, line)?;
        rest = more;
    }
    let KeptLines { lines, .. } = kept;
    Ok(lines)
}
