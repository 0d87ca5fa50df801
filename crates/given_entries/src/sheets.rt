//! The entries of a sheet, judged as its check does and then taken out of its lines. The main call is `sheet_entries`.

ghost use Rattle.std.specs.Prelude.{◌≡◌, ◌≤◌, List, [], Result, false, true, length, IfOk, IfErr};
ghost use Rattle.text_grammar.specs.Lines.{lines_of};
ghost use Rattle.stimulus.specs.Texts.{kept_lines};
ghost use Rattle.entry.specs.declared.entries.Entry.{Entry as EntryOf};
ghost use Rattle.fair_semantics.specs.Entries.{Entry as Sound};
ghost use Rattle.certificate.specs.Certificates.{AreProvedBehind};
ghost use Rattle.certificate.specs.declared.limits.TheConstants.{MAX_ENTRIES};
ghost use Rattle.unless_memory.specs.Answers.{GivesSome};
ghost use Rattle.sheet_answers.specs.Sheets.{Sheet as SheetOf};
ghost use Rattle.sheet_answers.specs.Reading.{is_sheet};
ghost use Rattle.sheet_answers.specs.Ends.{has_unread, refused_memory};
ghost use Rattle.given_entries.specs.Given.{AreEntriesOf, AreProvedInTurn};
ghost use Rattle.given_entries.specs.Listing.{DecidesList, no_list};
ghost use Rattle.given_entries.specs.Taking.{IsListedIn};

use crate::taking::written_entries;
use certificate::{AnswerEnd, EntryForm, TakeEnd, Written, take_many};
use certificate_lines::Version;
use circuit::Circuit;
use cnf::ProofLine;
use entry::Entry;
use items::Items;
use sheet_answers::{JudgeEnd, check_sheet};
use std::alloc::Global;

/// The entries of a text that opens a sheet.
pub(crate) fn sheet_entries(
    alloc: Global,
    circuit: &Circuit,
    text: Vec<u8>,
) -> Result<Items<Entry>, JudgeEnd>
    requires { is_sheet (kept_lines (lines_of text.items)) ≡ true }
    ensures found { GivesSome no_list (DecidesList circuit.now text.items) result }
    ensures exactly { (verdict : Result (List EntryOf) JudgeEnd) → DecidesList circuit.now text.items verdict
        → GivesSome no_list (λ given. given ≡ verdict) result }
    ensures proved { IfOk result (AreProvedInTurn circuit.now []) }
    ensures few { IfOk result (λ entries. length entries ≤ MAX_ENTRIES) }
    ensures unread { has_unread {T = List EntryOf} result ≡ false }
{
    match check_sheet(alloc, circuit, text) {
        Ok(sheet) => listed(
            alloc,
            circuit,
            u64::from(sheet.entries),
            sheet.lines.as_slice(),
        ),
        Err(end) => Err(end),
    }
}

// The entries, so many, of a good sheet with these lines.
fn listed(
    alloc: Global,
    circuit: &Circuit,
    count: u64,
    lines: &[ProofLine],
) -> Result<Items<Entry>, JudgeEnd>
    requires { (sheet : SheetOf) × IsListedIn circuit.now sheet count lines.now }
    ensures lists { (sheet : SheetOf) → IsListedIn circuit.now sheet count lines.now
        → IfOk result (AreEntriesOf circuit.now sheet.entries) }
    ensures ended { IfErr result (λ end. end ≡ refused_memory) }
{
    match take_many(
        alloc,
        &EntryForm {
            version: Version::Two,
        },
        count,
        &lines[2..],
    ) {
        Ok((written, _rest)) => taken(alloc, circuit, written),
        Err(TakeEnd::Memory) => Err(JudgeEnd::from(AnswerEnd::Memory)),
        Err(TakeEnd::Form) => unreachable!(),
    }
}

// The written entries, over the numbers of the latches.
fn taken(
    alloc: Global,
    circuit: &Circuit,
    written: Items<Written>,
) -> Result<Items<Entry>, JudgeEnd>
    requires { (all : List Sound) × AreProvedBehind circuit.now [] written all }
    ensures are { IfOk result (AreEntriesOf circuit.now written) }
    ensures ended { IfErr result (λ end. end ≡ refused_memory) }
{
    match written_entries(alloc, circuit, written) {
        Ok(entries) => Ok(entries),
        Err(refused) => Err(JudgeEnd::from(refused)),
    }
}
