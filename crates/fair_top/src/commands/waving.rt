//! The command `wave`: reads MODEL and ANSWER, judges the answer, and makes the waves of its lasso; of a sheet those of a
//! block's. The main call is `wave`. Writes nothing.

ghost use Rattle.std.specs.Prelude.{◌≡◌, ◌∷◌, [], ℕ, List, Some, Result, false, IfOk, IfErr, IsTrue, IsFalse};
ghost use Rattle.edge.specs.Faults.{Rose, NoneFell};
ghost use Rattle.edge.specs.Reads.{KeepsTexts, Reads};
ghost use Rattle.sheet_answers.specs.declared.ends.Judged.{Judged as JudgedOf};
ghost use Rattle.plain_commands.specs.Check.{done_by};
ghost use Rattle.sheet_commands.specs.Blocks.{DecidesBlock};
ghost use Rattle.plain_commands.specs.ModelGiven.{OfSomeText};
ghost use Rattle.sheet_answers.specs.Reading.{opens_as_sheet};
ghost use Rattle.fair_top.specs.Wave.{EndsWave, DecidesWaveAs, block_status, GivesWave, DecidesWave};
ghost use Rattle.fair_top.specs.Waved.{CarriesLasso, IsGoodLasso, IsWaved, unknown, BlockWaved};
ghost use Rattle.plain_commands.specs.Written.{IsWritten, accepts};
ghost use Rattle.plain_commands.specs.Texts.{text_of};
ghost use Rattle.plain_commands.specs.declared.status.Done.TheVariants.{Printed};
ghost use Rattle.waves.specs.Dumps.{waves_text};
ghost use Rattle.plain_commands.specs.Answering.{IsSilent, GivesVerdict, FailedOf, ReadsModelFirst};
ghost use Rattle.plain_commands.specs.Statuses.{status_in, is_read_fault};

use crate::commands::status_of_end;
use aig_semantics::Lasso;
use aiger_names::Model;
use certificate::{Accepted, AnswerEnd, AnswerFault, check_with_lasso};
use edge::Shelf;
use plain_commands::{Done, Ending, Status, model_of, with_text};
use sheet_answers::JudgeEnd;
use sheet_commands::{BlockLasso, block_lasso};
use std::alloc::Global;

/// Reads the texts under both names, judges the answer, and makes the waves of its lasso, and of a sheet those of the lasso of
/// the block of this property: the status with which the command ends and the text that it writes, but for its writing; or the
/// status of a run that writes nothing, `ReadFault` or `Memory`.
pub(crate) fn wave<H: Shelf>(
    alloc: Global,
    shelf: &mut H,
    model: &str,
    answer: &str,
    property: u32,
) -> Result<Ending, Status>
    ensures found { IfOk result (λ ending.
        GivesWave (H.held shelf.old model.now) (H.held shelf.old answer.now) property ending.status ending.text.items) }
    ensures silent { IfErr result IsSilent }
    ensures aloud { IfOk result (λ ending. is_read_fault ending.status ≡ false) }
    ensures exactly { (verdict : Status) → DecidesWave (H.held shelf.old model.now) (H.held shelf.old answer.now) property verdict
        → GivesVerdict verdict (status_in result) }
    ensures shown { (accepted : JudgedOf) → status_in result ≡ Status.Done (done_by accepted) → ⊥ }
    ensures read { status_in result ≡ Status.ReadFault
        → FailedOf (H.held shelf.old) (model.now ∷ answer.now ∷ []) (H.faults shelf.old) (H.faults shelf.new) }
    ensures reads { ReadsModelFirst H.reads (H.held shelf.old) (model.now ∷ answer.now ∷ [])
        (is_read_fault (status_in result)) shelf.old shelf.new }
    ensures counts { NoneFell (H.faults shelf.old) (H.faults shelf.new) }
    ensures kept { KeepsTexts (H.held shelf.old) (H.held shelf.new) }
{
    match model_of(alloc, shelf, model) {
        Ok(found) => {
            let ending = waves_of(alloc, &found, shelf, answer, property);
            drop(found);
            ending
        }
        Err(status) => with_text(alloc, status),
    }
}

// The same for the model.
fn waves_of<H: Shelf>(
    alloc: Global,
    model: &Model,
    shelf: &mut H,
    answer: &str,
    property: u32,
) -> Result<Ending, Status>
    ensures found { IfOk result (λ ending. OfSomeText (H.held shelf.old answer.now)
        (λ claimed. EndsWave model.now claimed property ending.status ending.text.items)) }
    ensures exactly { (claimed : List ℕ) (verdict : Status) → H.held shelf.old answer.now ≡ Some claimed
        → DecidesWaveAs (opens_as_sheet claimed) model.now.circuit claimed property verdict → GivesVerdict verdict (status_in result) }
    ensures silent { IfErr result IsSilent }
    ensures aloud { IfOk result (λ ending. is_read_fault ending.status ≡ false) }
    ensures hidden { accepts (status_in result) ≡ false }
    ensures read { status_in result ≡ Status.ReadFault → Rose (H.faults shelf.old answer.now) (H.faults shelf.new answer.now) }
    ensures reads { Reads H.reads answer.now (is_read_fault (status_in result)) shelf.old shelf.new }
    ensures counts { NoneFell (H.faults shelf.old) (H.faults shelf.new) }
    ensures kept { KeepsTexts (H.held shelf.old) (H.held shelf.new) }
{
    let mut kept = None;
    let end = check_with_lasso(alloc, model.circuit(), shelf, answer, &mut kept);
    if is_unknown(&end) {
        return wave_block(alloc, model, shelf, answer, property);
    }
    waved(alloc, model, end, kept)
}

// Whether the status of an answer is unknown, as that of a sheet is.
fn is_unknown(end: &Result<Accepted, AnswerEnd>) -> bool
    ensures yes { IsTrue result → end.now ≡ unknown }
    ensures no { IsFalse result → end.now ≡ unknown → ⊥ }
{
    match end {
        Err(AnswerEnd::Refused(AnswerFault::UnknownStatus)) => true,
        _ => false,
    }
}

// The same of an answer whose status is unknown: the waves of the lasso of a block, where it is a sheet.
fn wave_block<H: Shelf>(
    alloc: Global,
    model: &Model,
    shelf: &mut H,
    answer: &str,
    property: u32,
) -> Result<Ending, Status>
    ensures waved { BlockWaved model.now (H.held shelf.old answer.now) property result }
    ensures exactly { (claimed : List ℕ) (end : Result BlockLasso JudgeEnd) → H.held shelf.old answer.now ≡ Some claimed
        → DecidesBlock model.now.circuit claimed property end → GivesVerdict (block_status end) (status_in result) }
    ensures aloud { IfOk result (λ ending. is_read_fault ending.status ≡ false) }
    ensures hidden { accepts (status_in result) ≡ false }
    ensures read { status_in result ≡ Status.ReadFault → Rose (H.faults shelf.old answer.now) (H.faults shelf.new answer.now) }
    ensures reads { Reads H.reads answer.now (is_read_fault (status_in result)) shelf.old shelf.new }
    ensures counts { NoneFell (H.faults shelf.old) (H.faults shelf.new) }
    ensures kept { KeepsTexts (H.held shelf.old) (H.held shelf.new) }
{
    match block_lasso(alloc, model.circuit(), shelf, answer, property) {
        Ok(BlockLasso { property, lasso }) => printed(alloc, model, property, &lasso),
        Err(end) => with_text(alloc, status_of_end(end)),
    }
}

// The same for the end of the check of the answer, of which the lasso was kept.
fn waved(
    alloc: Global,
    model: &Model,
    end: Result<Accepted, AnswerEnd>,
    kept: Option<Lasso>,
) -> Result<Ending, Status>
    requires { CarriesLasso model.now end kept }
    ensures { IsWaved model.now end kept result }
{
    match end {
        Ok(Accepted::Lasso { property, .. }) => match kept {
            Some(lasso) => printed(alloc, model, property, &lasso),
            None => unreachable!(),
        },
        Ok(Accepted::Holds { .. }) => { refused(alloc, AnswerFault::UnknownStatus) }
        Err(AnswerEnd::Refused(fault)) => refused(alloc, fault),
        Err(AnswerEnd::ReadFault) => Err(Status::ReadFault),
        Err(AnswerEnd::Memory) => Err(Status::Memory),
    }
}

// The waves of the lasso of a good answer.
fn printed(alloc: Global, model: &Model, property: u32, lasso: &Lasso) -> Result<Ending, Status>
    requires { IsGoodLasso model.now property lasso.now }
    ensures { IsWritten result (Status.Done Printed) (waves_text model.now property lasso.now) }
{
    match waves::write(alloc, model, property, lasso) {
        Ok(text) => Ok(Ending {
            status: Status::Done(Done::Printed),
            text,
        }),
        Err(_) => Err(Status::Memory),
    }
}

// The answer is refused for this fault.
fn refused(alloc: Global, fault: AnswerFault) -> Result<Ending, Status>
    ensures { IsWritten result (Status.Refused fault) (text_of (Status.Refused fault)) }
{
    with_text(alloc, Status::Refused(fault))
}
