//! The command `export`: reads MODEL and ANSWER, judges the answer, and makes the text of an item of it, for other checkers.
//! The main call is `export_item`. Writes nothing.

ghost use Rattle.std.specs.Prelude.{◌≡◌, ◌∷◌, [], false, IfOk, IfErr};
ghost use Rattle.edge.specs.Faults.{NoneFell};
ghost use Rattle.edge.specs.Reads.{KeepsTexts};
ghost use Rattle.sheet_answers.specs.declared.ends.Judged.{Judged as JudgedOf};
ghost use Rattle.certificate.specs.Loading.{IsHeld};
ghost use Rattle.plain_commands.specs.Check.{done_by};
ghost use Rattle.plain_commands.specs.Export.{GivesExport, DecidesExport};
ghost use Rattle.plain_commands.specs.Exporting.{IsItemEnd, IsExportEnd};
ghost use Rattle.plain_commands.specs.Written.{IsWritten};
ghost use Rattle.plain_commands.specs.Texts.{text_of};
ghost use Rattle.plain_commands.specs.Answering.{IsSilent, GivesVerdict, FailedOf, ReadsModelFirst};
ghost use Rattle.plain_commands.specs.Statuses.{status_in, is_read_fault};

use crate::commands::remaking::refused;
use crate::models::model_of;
use crate::status::{Done, Status};
use crate::texts::{Ending, with_text};
use cert_tools::{ExportEnd, ItemRequest, export, trimmed_answers_are_good};
use certificate::{AnswerEnd, Loaded, load, printed_answers_hold_the_same};
use circuit::Circuit;
use command_lines::ExportRequest;
use edge::Shelf;
use std::alloc::Global;

/// Reads the texts under both names, judges the answer, and makes the text of an item of it: the status with which the
/// command ends and the text that it writes, but for its writing; or the status of a run that writes nothing, `ReadFault` or
/// `Memory`.
pub fn export_item<H: Shelf>(
    alloc: Global,
    shelf: &mut H,
    model: &str,
    answer: &str,
    request: &ExportRequest,
) -> Result<Ending, Status>
    ensures found { IfOk result (λ ending.
        GivesExport (H.held shelf.old model.now) (H.held shelf.old answer.now) request.now ending.status ending.text.items) }
    ensures silent { IfErr result IsSilent }
    ensures aloud { IfOk result (λ ending. is_read_fault ending.status ≡ false) }
    ensures exactly { (verdict : Status) → DecidesExport (H.held shelf.old model.now) (H.held shelf.old answer.now) request.now verdict
        → GivesVerdict verdict (status_in result) }
    ensures shown { (accepted : JudgedOf) → status_in result ≡ Status.Done (done_by accepted) → ⊥ }
    ensures read { status_in result ≡ Status.ReadFault
        → FailedOf (H.held shelf.old) (model.now ∷ answer.now ∷ []) (H.faults shelf.old) (H.faults shelf.new) }
    ensures reads { ReadsModelFirst H.reads (H.held shelf.old) (model.now ∷ answer.now ∷ [])
        (is_read_fault (status_in result)) shelf.old shelf.new }
    ensures counts { NoneFell (H.faults shelf.old) (H.faults shelf.new) }
    ensures kept { KeepsTexts (H.held shelf.old) (H.held shelf.new) }
{
    match model_of(alloc, shelf, model) {
        Ok(found) => {
            let circuit = found.circuit();
            printed_answers_hold_the_same(circuit);
            trimmed_answers_are_good(circuit);
            let end = load(alloc, circuit, shelf, answer);
            let ending = exported(alloc, circuit, end, request);
            drop(found);
            ending
        }
        Err(status) => with_text(alloc, status),
    }
}

// The same for the end of the loading of the answer.
fn exported(
    alloc: Global,
    circuit: &Circuit,
    end: Result<Loaded, AnswerEnd>,
    request: &ExportRequest,
) -> Result<Ending, Status>
    requires { IfOk end (IsHeld circuit.now) }
    ensures { IsExportEnd circuit.now request.now end result }
{
    match end {
        Ok(loaded) => printed(alloc, circuit, &loaded, request),
        Err(AnswerEnd::Refused(fault)) => refused(alloc, fault),
        Err(AnswerEnd::ReadFault) => Err(Status::ReadFault),
        Err(AnswerEnd::Memory) => Err(Status::Memory),
    }
}

// The text of the item, or that there is none.
fn printed(
    alloc: Global,
    circuit: &Circuit,
    loaded: &Loaded,
    request: &ExportRequest,
) -> Result<Ending, Status>
    requires { IsHeld circuit.now loaded.now }
    ensures { IsItemEnd circuit.now loaded.now request.now result }
{
    let asked = ItemRequest {
        entry: request.entry,
        clause: request.clause,
        lrat: request.lrat,
    };
    match export(alloc, circuit, loaded, asked) {
        Ok(text) => Ok(Ending {
            status: Status::Done(Done::Printed),
            text,
        }),
        Err(ExportEnd::NoItem) => no_item(alloc, request.entry, request.clause),
        Err(ExportEnd::Memory) => Err(Status::Memory),
    }
}

// The answer has no item with these numbers.
fn no_item(alloc: Global, entry: u32, clause: u32) -> Result<Ending, Status>
    ensures { IsWritten result (Status.NoItem entry clause) (text_of (Status.NoItem entry clause)) }
{
    with_text(alloc, Status::NoItem(entry, clause))
}
