//! The command `check`: reads MODEL and ANSWER, and judges the answer, the text about rounds or the sheet. Writes nothing.

ghost use Rattle.std.specs.Prelude.{◌≡◌, ◌⊎◌, [], ◌∷◌};
ghost use Rattle.edge.specs.Faults.{NoneFell};
ghost use Rattle.edge.specs.Reads.{KeepsTexts};
ghost use Rattle.sheet_answers.specs.declared.ends.Judged.{Judged as JudgedOf};
ghost use Rattle.plain_commands.specs.ModelGiven.{OfSomeText};
ghost use Rattle.plain_commands.specs.Check.{status_of, status_of_end, JudgesAs, DecidesCheck};
ghost use Rattle.plain_commands.specs.Check.{ShownByCheck, done_by, done_of_text, done_of};
ghost use Rattle.plain_commands.specs.Answering.{IsSilent, GivesVerdict, FailedOf, ReadsModelFirst};
ghost use Rattle.plain_commands.specs.Statuses.{is_read_fault};

use certificate::{Accepted, AnswerEnd};
use edge::Shelf;
use plain_commands::{Done, Status, model_of};
use round_answers::{JudgeEnd as TextEnd, Judged as TextJudged};
use sheet_answers::{JudgeEnd, Judged, check_answer};
use std::alloc::Global;

/// Reads the texts under both names and judges the answer: the status with which the command ends, but for its writing.
pub(crate) fn check<H: Shelf>(alloc: Global, shelf: &mut H, model: &str, answer: &str) -> Status
    ensures found { JudgesAs OfSomeText (H.held shelf.old model.now) (H.held shelf.old answer.now) result ⊎ IsSilent result }
    ensures exactly { (verdict : Status) → DecidesCheck (H.held shelf.old model.now) (H.held shelf.old answer.now) verdict
        → GivesVerdict verdict result }
    ensures shown { (accepted : JudgedOf) → result ≡ Status.Done (done_by accepted) → ShownByCheck (H.held shelf.old model.now) accepted }
    ensures read { result ≡ Status.ReadFault
        → FailedOf (H.held shelf.old) (model.now ∷ answer.now ∷ []) (H.faults shelf.old) (H.faults shelf.new) }
    ensures reads { ReadsModelFirst H.reads (H.held shelf.old) (model.now ∷ answer.now ∷ []) (is_read_fault result) shelf.old shelf.new }
    ensures counts { NoneFell (H.faults shelf.old) (H.faults shelf.new) }
    ensures kept { KeepsTexts (H.held shelf.old) (H.held shelf.new) }
{
    match model_of(alloc, shelf, model) {
        Ok(model) => {
            let status = checked(check_answer(alloc, model.circuit(), shelf, answer));
            drop(model);
            status
        }
        Err(status) => status,
    }
}

/// The status of a run that checked a text.
fn checked(end: Result<Judged, JudgeEnd>) -> Status
    ensures { result ≡ status_of end }
{
    match end {
        Ok(found) => Status::Done(done_by(found)),
        Err(end) => status_of_end(end),
    }
}

/// The status of a run that refused a text, or ended before its text was judged.
pub(crate) fn status_of_end(end: JudgeEnd) -> Status
    ensures { result ≡ status_of_end end }
{
    match end {
        JudgeEnd::Text(TextEnd::Answer(AnswerEnd::Refused(fault))) => Status::Refused(fault),
        JudgeEnd::Text(TextEnd::Answer(AnswerEnd::ReadFault)) => Status::ReadFault,
        JudgeEnd::Text(TextEnd::Answer(AnswerEnd::Memory)) => Status::Memory,
        JudgeEnd::Text(TextEnd::TooLarge(variable)) => Status::TooLarge(variable),
        JudgeEnd::Block(property, fault) => Status::RefusedBlock(property, fault),
    }
}

/// What was done where a text was accepted.
fn done_by(found: Judged) -> Done
    ensures { result ≡ done_by found }
{
    match found {
        Judged::Text(judged) => done_of_text(judged),
        Judged::Sheet(counts, entries) => Done::All {
            lassos: counts.lassos,
            holds: counts.holds,
            unknown: counts.unknown,
            entries,
        },
    }
}

/// What was done where a text that is no sheet was accepted.
fn done_of_text(found: TextJudged) -> Done
    ensures { result ≡ done_of_text found }
{
    match found {
        TextJudged::Answer(accepted) => done_of(accepted),
        TextJudged::Rounds {
            property,
            k,
            reached,
        } => Done::Rounds {
            property,
            k,
            reached,
        },
    }
}

/// What was done where an answer was accepted.
fn done_of(found: Accepted) -> Done
    ensures { result ≡ done_of found }
{
    match found {
        Accepted::Lasso {
            property,
            positions,
            from,
        } => Done::Lasso {
            property,
            positions,
            from,
        },
        Accepted::Holds { property, entries } => Done::Holds { property, entries },
    }
}
