//! The command `safety`: reads MODEL, and makes the text of the translation of a property, for checkers of safety. The main
//! call is `safety`. Writes nothing.

ghost use Rattle.std.specs.Prelude.{◌≡◌, ◌∷◌, [], ◌↔◌, false, IfOk, IfErr};
ghost use Rattle.edge.specs.Faults.{NoneFell};
ghost use Rattle.edge.specs.Reads.{KeepsTexts};
ghost use Rattle.sheet_answers.specs.declared.ends.Judged.{Judged as JudgedOf};
ghost use Rattle.live_to_safe.specs.BadRuns.{HasBadRun, HasFairLasso};
ghost use Rattle.live_to_safe.specs.Translation.{safety_model};
ghost use Rattle.live_to_safe.specs.Ends.{IsTranslatable};
ghost use Rattle.plain_commands.specs.Check.{done_by};
ghost use Rattle.plain_commands.specs.Safety.{EndsSafety, GivesSafety, DecidesSafety};
ghost use Rattle.plain_commands.specs.Answering.{IsSilent, GivesVerdict, FailedOf, ReadsModelFirst};
ghost use Rattle.plain_commands.specs.Statuses.{status_in, is_read_fault};

use crate::models::model_of;
use crate::status::{Done, Status};
use crate::texts::{Ending, with_text};
use aiger_names::Model;
use circuit::Circuit;
use edge::Shelf;
use live_to_safe::{TranslateEnd, translate};
use std::alloc::Global;

/// Reads the model and translates its property: the status with which the command ends and the text that it writes, but
/// for its writing; or the status of a run that writes nothing, `ReadFault` or `Memory`.
pub fn safety<H: Shelf>(
    alloc: Global,
    shelf: &mut H,
    model: &str,
    property: u32,
) -> Result<Ending, Status>
    ensures found { IfOk result (λ ending. GivesSafety (H.held shelf.old model.now) property ending.status ending.text.items) }
    ensures silent { IfErr result IsSilent }
    ensures aloud { IfOk result (λ ending. is_read_fault ending.status ≡ false) }
    ensures exactly { (verdict : Status) → DecidesSafety (H.held shelf.old model.now) property verdict
        → GivesVerdict verdict (status_in result) }
    ensures shown { (accepted : JudgedOf) → status_in result ≡ Status.Done (done_by accepted) → ⊥ }
    ensures read { status_in result ≡ Status.ReadFault
        → FailedOf (H.held shelf.old) (model.now ∷ []) (H.faults shelf.old) (H.faults shelf.new) }
    ensures reads { ReadsModelFirst H.reads (H.held shelf.old) (model.now ∷ []) (is_read_fault (status_in result)) shelf.old shelf.new }
    ensures counts { NoneFell (H.faults shelf.old) (H.faults shelf.new) }
    ensures kept { KeepsTexts (H.held shelf.old) (H.held shelf.new) }
{
    match model_of(alloc, shelf, model) {
        Ok(found) => {
            let ending = translated(alloc, found.circuit(), property);
            drop(found);
            ending
        }
        Err(status) => with_text(alloc, status),
    }
}

// The same for a circuit.
fn translated(alloc: Global, circuit: &Circuit, property: u32) -> Result<Ending, Status>
    ensures found { IfOk result (λ ending. EndsSafety circuit.now property ending.status ending.text.items) }
    ensures ended { IfErr result (λ status. status ≡ Status.Memory) }
{
    match translate(alloc, circuit, property) {
        Ok(model) => {
            let ending = printed(alloc, circuit, property, &model);
            drop(model);
            ending
        }
        Err(TranslateEnd::NoProperty(_)) => with_text(alloc, Status::NoProperty(property)),
        Err(TranslateEnd::TooLarge(n)) => with_text(alloc, Status::TooLarge(n)),
        Err(TranslateEnd::Memory) => Err(Status::Memory),
    }
}

// The text of the translation.
fn printed(alloc: Global, circuit: &Circuit, property: u32, model: &Model) -> Result<Ending, Status>
    requires model { model.now ≡ safety_model circuit.now property }
    requires exact { HasBadRun model.now ↔ HasFairLasso circuit.now property }
    requires able { IsTranslatable circuit.now property }
    ensures found { IfOk result (λ ending. EndsSafety circuit.now property ending.status ending.text.items) }
    ensures ended { IfErr result (λ status. status ≡ Status.Memory) }
{
    match aiger_ascii::write(alloc, model) {
        Ok(text) => Ok(Ending {
            status: Status::Done(Done::Printed),
            text,
        }),
        Err(_) => Err(Status::Memory),
    }
}
