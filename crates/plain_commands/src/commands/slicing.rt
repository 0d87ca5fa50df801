//! The command `slice`: reads MODEL, and makes the text of the slice for a property. The main call is `write_slice`. Writes
//! nothing.

ghost use Rattle.std.specs.Prelude.{◌≡◌, ◌<◌, ◌∷◌, [], ◌↔◌, length, false, IfOk, IfErr};
ghost use Rattle.edge.specs.Faults.{NoneFell};
ghost use Rattle.edge.specs.Reads.{KeepsTexts};
ghost use Rattle.sheet_answers.specs.declared.ends.Judged.{Judged as JudgedOf};
ghost use Rattle.live_to_safe.specs.BadRuns.{HasFairLasso};
ghost use Rattle.slice.specs.Slicing.{IsSlice};
ghost use Rattle.plain_commands.specs.Check.{done_by};
ghost use Rattle.plain_commands.specs.Slice.{EndsSlice, GivesSlice, DecidesSlice};
ghost use Rattle.plain_commands.specs.Answering.{IsSilent, GivesVerdict, FailedOf, ReadsModelFirst};
ghost use Rattle.plain_commands.specs.Statuses.{status_in, is_read_fault};

use crate::models::model_of;
use crate::status::{Done, Status};
use crate::texts::{Ending, with_text};
use aiger_names::Model;
use edge::Shelf;
use slice::{SliceEnd, slice};
use std::alloc::Global;

/// Reads the model and slices it: the status with which the command ends and the text that it writes, but for its writing; or
/// the status of a run that writes nothing, `ReadFault` or `Memory`.
pub fn write_slice<H: Shelf>(
    alloc: Global,
    shelf: &mut H,
    model: &str,
    property: u32,
) -> Result<Ending, Status>
    ensures found { IfOk result (λ ending. GivesSlice (H.held shelf.old model.now) property ending.status ending.text.items) }
    ensures silent { IfErr result IsSilent }
    ensures aloud { IfOk result (λ ending. is_read_fault ending.status ≡ false) }
    ensures exactly { (verdict : Status) → DecidesSlice (H.held shelf.old model.now) property verdict
        → GivesVerdict verdict (status_in result) }
    ensures shown { (accepted : JudgedOf) → status_in result ≡ Status.Done (done_by accepted) → ⊥ }
    ensures read { status_in result ≡ Status.ReadFault
        → FailedOf (H.held shelf.old) (model.now ∷ []) (H.faults shelf.old) (H.faults shelf.new) }
    ensures reads { ReadsModelFirst H.reads (H.held shelf.old) (model.now ∷ []) (is_read_fault (status_in result)) shelf.old shelf.new }
    ensures counts { NoneFell (H.faults shelf.old) (H.faults shelf.new) }
    ensures kept { KeepsTexts (H.held shelf.old) (H.held shelf.new) }
{
    match model_of(alloc, shelf, model) {
        Ok(found) => {
            let ending = sliced(alloc, &found, property);
            drop(found);
            ending
        }
        Err(status) => with_text(alloc, status),
    }
}

// The same for a model.
fn sliced(alloc: Global, model: &Model, property: u32) -> Result<Ending, Status>
    ensures found { IfOk result (λ ending. EndsSlice model.now property ending.status ending.text.items) }
    ensures ended { IfErr result (λ status. status ≡ Status.Memory) }
{
    match slice(alloc, model, property) {
        Ok(part) => {
            let ending = printed(alloc, model, property, &part);
            drop(part);
            ending
        }
        Err(SliceEnd::NoProperty(_)) => with_text(alloc, Status::NoProperty(property)),
        Err(SliceEnd::Memory) => Err(Status::Memory),
    }
}

// The text of the slice.
fn printed(alloc: Global, model: &Model, property: u32, part: &Model) -> Result<Ending, Status>
    requires slice { IsSlice model.now property part.now }
    requires exact { HasFairLasso part.now.circuit 0 ↔ HasFairLasso model.now.circuit property }
    requires able { property < length model.now.circuit.justice }
    ensures found { IfOk result (λ ending. EndsSlice model.now property ending.status ending.text.items) }
    ensures ended { IfErr result (λ status. status ≡ Status.Memory) }
{
    match aiger_ascii::write(alloc, part) {
        Ok(text) => Ok(Ending {
            status: Status::Done(Done::Printed),
            text,
        }),
        Err(_) => Err(Status::Memory),
    }
}
