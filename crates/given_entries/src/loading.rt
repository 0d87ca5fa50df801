//! The entries of an answer or a sheet, read and judged. The main call is `load_entries`.

ghost use Rattle.std.specs.Prelude.{◌≡◌, ◌≤◌, ℕ, List, [], Some, Result, Err, false, length, IfOk};
ghost use Rattle.std.specs.Str.{bytes_eq};
ghost use Rattle.edge.specs.Faults.{Rose, NoneFell};
ghost use Rattle.edge.specs.Reads.{KeepsTexts, Reads};
ghost use Rattle.text_grammar.specs.Lines.{lines_of};
ghost use Rattle.stimulus.specs.Texts.{kept_lines};
ghost use Rattle.entry.specs.declared.entries.Entry.{Entry as EntryOf};
ghost use Rattle.certificate.specs.declared.limits.TheConstants.{MAX_ENTRIES};
ghost use Rattle.unless_memory.specs.Answers.{GivesSome};
ghost use Rattle.sheet_answers.specs.Reading.{is_sheet};
ghost use Rattle.sheet_answers.specs.Ends.{has_unread};
ghost use Rattle.given_entries.specs.Given.{claims_lasso, DecidesEntries, AreProvedInTurn};
ghost use Rattle.given_entries.specs.Listing.{DecidesList, ListingSays, ListingEnds, no_list, unread_list};
ghost use Rattle.given_entries.specs.Taking.{as_listed};

use crate::sheets::sheet_entries;
use crate::taking::entries_in;
use cert_tools::trimmed_answers_are_good;
use certificate::{AnswerEnd, AnswerFault, answers_have_one_end, load};
use circuit::Circuit;
use edge::Shelf;
use entry::Entry;
use items::Items;
use sheet_answers::{JudgeEnd, is_sheet, read_whole, shelf_with};
use std::alloc::Global;
use stimulus::is_skipped;
use text_grammar::next_line;

/// Reads the text that the shelf holds under the name, judges it as `sheet_answers::check_answer` does, and answers the entries
/// of its certificate, of whatever property it is, or of its sheet. A stimulus has none, be it a good one or not: it is refused
/// as of unknown status at once, and so is a text about rounds. The text is read once and held, so this takes memory in
/// proportion to it.
pub fn load_entries<H: Shelf>(
    alloc: Global,
    circuit: &Circuit,
    shelf: &mut H,
    name: &str,
) -> Result<Items<Entry>, JudgeEnd>
    // What is answered is so, of the text that the shelf tells;
    ensures found { ListingSays circuit.now (H.held shelf.old name.now) result }
    // and what is so is answered, unless memory is refused or a read fails.
    ensures exactly { (text : List ℕ) (verdict : Result (List EntryOf) JudgeEnd) → H.held shelf.old name.now ≡ Some text
        → DecidesList circuit.now text verdict → ListingEnds result verdict }
    // Each entry is proved behind those before it, and they are no more than a text may have.
    ensures proved { IfOk result (AreProvedInTurn circuit.now []) }
    ensures few { IfOk result (λ entries. length entries ≤ MAX_ENTRIES) }
    ensures read { result ≡ unread_list → Rose (H.faults shelf.old name.now) (H.faults shelf.new name.now) }
    ensures reads { Reads H.reads name.now (has_unread {T = List EntryOf} result) shelf.old shelf.new }
    ensures counts { NoneFell (H.faults shelf.old) (H.faults shelf.new) }
    ensures kept { KeepsTexts (H.held shelf.old) (H.held shelf.new) }
{
    match read_whole(alloc, shelf, name) {
        Ok(text) => entries_of(alloc, circuit, text),
        Err(end) => Err(end),
    }
}

// The entries of a text.
fn entries_of(alloc: Global, circuit: &Circuit, text: Vec<u8>) -> Result<Items<Entry>, JudgeEnd>
    ensures found { GivesSome no_list (DecidesList circuit.now text.items) result }
    ensures exactly { (verdict : Result (List EntryOf) JudgeEnd) → DecidesList circuit.now text.items verdict
        → GivesSome no_list (λ given. given ≡ verdict) result }
    ensures proved { IfOk result (AreProvedInTurn circuit.now []) }
    ensures few { IfOk result (λ entries. length entries ≤ MAX_ENTRIES) }
    ensures unread { has_unread {T = List EntryOf} result ≡ false }
{
    if is_sheet(text.as_slice()) {
        return sheet_entries(alloc, circuit, text);
    }
    other_entries(alloc, circuit, text)
}

// The entries of a text that is no sheet.
fn other_entries(alloc: Global, circuit: &Circuit, text: Vec<u8>) -> Result<Items<Entry>, JudgeEnd>
    requires { is_sheet (kept_lines (lines_of text.items)) ≡ false }
    ensures found { GivesSome no_list (DecidesList circuit.now text.items) result }
    ensures exactly { (verdict : Result (List EntryOf) JudgeEnd) → DecidesList circuit.now text.items verdict
        → GivesSome no_list (λ given. given ≡ verdict) result }
    ensures proved { IfOk result (AreProvedInTurn circuit.now []) }
    ensures few { IfOk result (λ entries. length entries ≤ MAX_ENTRIES) }
    ensures unread { has_unread {T = List EntryOf} result ≡ false }
{
    trimmed_answers_are_good(circuit);
    answers_have_one_end(circuit);
    let end = answer_entries(alloc, circuit, text);
    as_listed(end)
}

// The end of the loading of an answer, as that of a text.
fn as_listed(end: Result<Items<Entry>, AnswerEnd>) -> Result<Items<Entry>, JudgeEnd>
    ensures { result ≡ as_listed end }
{
    match end {
        Ok(entries) => Ok(entries),
        Err(end) => Err(JudgeEnd::from(end)),
    }
}

// The entries of an answer.
fn answer_entries(
    alloc: Global,
    circuit: &Circuit,
    text: Vec<u8>,
) -> Result<Items<Entry>, AnswerEnd>
    ensures { GivesSome (Err AnswerEnd.Memory) (DecidesEntries circuit.now text.items) result }
{
    if claims_lasso(text.as_slice()) {
        return Err(AnswerEnd::Refused(AnswerFault::UnknownStatus));
    }
    judged(alloc, circuit, text)
}

// Whether the status is that of a stimulus: the first line that is not skipped.
fn claims_lasso(text: &[u8]) -> bool
    ensures { result ≡ claims_lasso (lines_of text.now) }
{
    let mut rest = text;
    while let Some((line, more)) = next_line(rest) {
        if !is_skipped(line) {
            return is_word(line, b"1");
        }
        rest = more;
    }
    false
}

fn is_word(line: &[u8], word: &[u8]) -> bool
    ensures { result ≡ bytes_eq line.now word.now }
{
    line == word
}

// The entries of a text that is no stimulus, judged.
fn judged(alloc: Global, circuit: &Circuit, text: Vec<u8>) -> Result<Items<Entry>, AnswerEnd>
    requires { claims_lasso (lines_of text.items) ≡ false }
    ensures { GivesSome (Err AnswerEnd.Memory) (DecidesEntries circuit.now text.items) result }
{
    let mut shelf = shelf_with(alloc, text)?;
    let loaded = load(alloc, circuit, &mut shelf, "text");
    entries_in(alloc, circuit, loaded)
}
