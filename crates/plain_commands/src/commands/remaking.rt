//! What `convert` and `trim` share: MODEL and ANSWER are read, the answer is judged and held, and a text is made of it. The
//! main call is `remake`. Writes nothing.

ghost use Rattle.std.specs.Prelude.{◌≡◌, ◌∷◌, [], false, IfOk, IfErr};
ghost use Rattle.edge.specs.Faults.{NoneFell};
ghost use Rattle.edge.specs.Reads.{KeepsTexts};
ghost use Rattle.sheet_answers.specs.declared.ends.Judged.{Judged as JudgedOf};
ghost use Rattle.certificate.specs.Loading.{IsHeld};
ghost use Rattle.plain_commands.specs.Check.{done_by};
ghost use Rattle.plain_commands.specs.Remade.{GivesRemade, DecidesRemade};
ghost use Rattle.plain_commands.specs.Remaking.{IsRemade, IsMade, IsMadeOf};
ghost use Rattle.plain_commands.specs.Written.{IsWritten};
ghost use Rattle.plain_commands.specs.Texts.{text_of};
ghost use Rattle.plain_commands.specs.Answering.{IsSilent, GivesVerdict, FailedOf, ReadsModelFirst};
ghost use Rattle.plain_commands.specs.Statuses.{status_in, is_read_fault};

use crate::models::model_of;
use crate::status::{Done, Status};
use crate::texts::{Ending, with_text};
use certificate::{AnswerEnd, AnswerFault, Loaded, load};
use circuit::Circuit;
use edge::Shelf;
use std::alloc::{AllocError, Global};

/// How a text is made of an answer that is held.
pub trait MakesText {
    ghost use Rattle.std.specs.Prelude.{ℕ, List, IfOk};
    ghost use Rattle.aig_semantics.specs.Circuits.{Circuit};
    ghost use Rattle.certificate.specs.Loading.{IsHeld, HoldsAnswer};

    ghost made: { Self → Circuit → List ℕ → List ℕ → Type 0 };

    /// The text. The error is want of memory.
    fn text(&self, alloc: Global, circuit: &Circuit, loaded: &Loaded) -> Result<Vec<u8>, AllocError>
        requires { IsHeld circuit.now loaded.now }
        ensures { IfOk result (λ text.
            (claimed : List ℕ) → HoldsAnswer circuit.now claimed loaded.now → made self.now circuit.now claimed text.items) };
}

/// Reads the texts under both names, judges the answer, and makes a text of it: the status with which the command ends and
/// the text that it writes, but for its writing; or the status of a run that writes nothing, `ReadFault` or `Memory`.
pub fn remake<H: Shelf, R: MakesText>(
    alloc: Global,
    shelf: &mut H,
    model: &str,
    answer: &str,
    how: &R,
) -> Result<Ending, Status>
    ensures found { IfOk result (λ ending.
        GivesRemade (R.made how.now) (H.held shelf.old model.now) (H.held shelf.old answer.now) ending.status ending.text.items) }
    ensures silent { IfErr result IsSilent }
    ensures aloud { IfOk result (λ ending. is_read_fault ending.status ≡ false) }
    ensures exactly { (verdict : Status) → DecidesRemade (H.held shelf.old model.now) (H.held shelf.old answer.now) verdict
        → GivesVerdict verdict (status_in result) }
    ensures shown { (accepted : JudgedOf) → status_in result ≡ Status.Done (done_by accepted) → ⊥ }
    ensures read { status_in result ≡ Status.ReadFault
        → FailedOf (H.held shelf.old) (model.now ∷ answer.now ∷ []) (H.faults shelf.old) (H.faults shelf.new) }
    ensures reads { ReadsModelFirst H.reads (H.held shelf.old) (model.now ∷ answer.now ∷ [])
        (is_read_fault (status_in result)) shelf.old shelf.new }
    ensures counts { NoneFell (H.faults shelf.old) (H.faults shelf.new) }
    ensures kept { KeepsTexts (H.held shelf.old) (H.held shelf.new) }
{
    match model_of(alloc, shelf, model) {
        Ok(found) => {
            let circuit = found.circuit();
            let end = load(alloc, circuit, shelf, answer);
            let ending = remade(alloc, circuit, end, how);
            drop(found);
            ending
        }
        Err(status) => with_text(alloc, status),
    }
}

// The same for the end of the loading of the answer.
fn remade<R: MakesText>(
    alloc: Global,
    circuit: &Circuit,
    end: Result<Loaded, AnswerEnd>,
    how: &R,
) -> Result<Ending, Status>
    requires { IfOk end (IsHeld circuit.now) }
    ensures { IsRemade (R.made how.now) circuit.now end result }
{
    match end {
        Ok(loaded) => printed(alloc, circuit, &loaded, how),
        Err(AnswerEnd::Refused(fault)) => refused(alloc, fault),
        Err(AnswerEnd::ReadFault) => Err(Status::ReadFault),
        Err(AnswerEnd::Memory) => Err(Status::Memory),
    }
}

// The text that is made of it.
fn printed<R: MakesText>(
    alloc: Global,
    circuit: &Circuit,
    loaded: &Loaded,
    how: &R,
) -> Result<Ending, Status>
    requires { IsHeld circuit.now loaded.now }
    ensures { IsMade (IsMadeOf (R.made how.now) circuit.now loaded.now) result }
{
    match how.text(alloc, circuit, loaded) {
        Ok(text) => Ok(Ending {
            status: Status::Done(Done::Printed),
            text,
        }),
        Err(_) => Err(Status::Memory),
    }
}

/// The answer is refused for this fault.
pub(crate) fn refused(alloc: Global, fault: AnswerFault) -> Result<Ending, Status>
    ensures { IsWritten result (Status.Refused fault) (text_of (Status.Refused fault)) }
{
    with_text(alloc, Status::Refused(fault))
}
