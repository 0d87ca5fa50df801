//! The command `rounds`: reads MODEL, decides whether some initial run has so many rounds of a property, and makes the text of
//! what is known. The main call is `count_rounds`. Writes nothing.

ghost use Rattle.std.specs.Prelude.{◌≡◌, ◌<◌, ◌∷◌, [], length, false, IfOk, IfErr};
ghost use Rattle.edge.specs.Faults.{NoneFell};
ghost use Rattle.edge.specs.Reads.{KeepsTexts};
ghost use Rattle.round_monitor.specs.Ends.{IsMonitorable};
ghost use Rattle.sheet_answers.specs.declared.ends.Judged.{Judged as JudgedOf};
ghost use Rattle.round_answers.specs.Texts.{MayBeAsked};
ghost use Rattle.round_answers.specs.Writing.{IsSo, is_reached};
ghost use Rattle.k_live.specs.Deciding.{Settles};
ghost use Rattle.plain_commands.specs.Check.{done_by};
ghost use Rattle.plain_commands.specs.Rounds.{EndsRounds, GivesRounds, DecidesRounds, ShownByRounds};
ghost use Rattle.plain_commands.specs.Answering.{IsSilent, GivesVerdict, FailedOf, ReadsModelFirst};
ghost use Rattle.plain_commands.specs.Statuses.{status_in, is_read_fault};

use crate::models::model_of;
use crate::status::{Done, Status};
use crate::texts::{Ending, with_text};
use circuit::Circuit;
use command_lines::RoundsRequest;
use edge::{Meter, Shelf};
use k_live::{KnownRounds, RoundsEnd, decide, write};
use std::alloc::Global;

/// Reads the model and decides whether a run has so many rounds of its property: the status with which the command ends and
/// the text that it writes, but for its writing; or the status of a run that writes nothing, `ReadFault` or `Memory`.
pub fn count_rounds<H: Shelf>(
    alloc: Global,
    shelf: &mut H,
    model: &str,
    request: &RoundsRequest,
) -> Result<Ending, Status>
    requires { MayBeAsked request.now.k }
    ensures found { IfOk result (λ ending. GivesRounds (H.held shelf.old model.now) request.now ending.status ending.text.items) }
    ensures silent { IfErr result IsSilent }
    ensures aloud { IfOk result (λ ending. is_read_fault ending.status ≡ false) }
    ensures exactly { (verdict : Status) → DecidesRounds (H.held shelf.old model.now) request.now verdict
        → GivesVerdict verdict (status_in result) }
    ensures shown { (accepted : JudgedOf) → status_in result ≡ Status.Done (done_by accepted)
        → ShownByRounds (H.held shelf.old model.now) accepted }
    ensures read { status_in result ≡ Status.ReadFault
        → FailedOf (H.held shelf.old) (model.now ∷ []) (H.faults shelf.old) (H.faults shelf.new) }
    ensures reads { ReadsModelFirst H.reads (H.held shelf.old) (model.now ∷ []) (is_read_fault (status_in result)) shelf.old shelf.new }
    ensures counts { NoneFell (H.faults shelf.old) (H.faults shelf.new) }
    ensures kept { KeepsTexts (H.held shelf.old) (H.held shelf.new) }
{
    match model_of(alloc, shelf, model) {
        Ok(found) => {
            let ending = counted(alloc, found.circuit(), request);
            drop(found);
            ending
        }
        Err(status) => with_text(alloc, status),
    }
}

// The same for a circuit.
fn counted(alloc: Global, circuit: &Circuit, request: &RoundsRequest) -> Result<Ending, Status>
    requires { MayBeAsked request.now.k }
    ensures found { IfOk result (λ ending. EndsRounds circuit.now request.now ending.status ending.text.items) }
    ensures ended { IfErr result (λ status. status ≡ Status.Memory) }
{
    if request.property as usize >= circuit.property_count() {
        return with_text(alloc, Status::NoProperty(request.property));
    }
    decided(alloc, circuit, request)
}

// The same for a property that is there.
fn decided(alloc: Global, circuit: &Circuit, request: &RoundsRequest) -> Result<Ending, Status>
    requires asked { MayBeAsked request.now.k }
    requires property { request.now.property < length circuit.now.justice }
    ensures found { IfOk result (λ ending. EndsRounds circuit.now request.now ending.status ending.text.items) }
    ensures ended { IfErr result (λ status. status ≡ Status.Memory) }
{
    let property = request.property;
    let mut meter = Meter::new(request.conflicts, request.steps);
    match decide(alloc, circuit, property, request.k, &mut meter) {
        Ok(found) => printed(alloc, circuit, request, &found),
        Err(RoundsEnd::Unsettled(_)) => {
            let spent = meter.spending();
            with_text(alloc, Status::OpenRounds { property, spent })
        }
        Err(RoundsEnd::TooLarge(variable)) => with_text(alloc, Status::TooLarge(variable)),
        Err(RoundsEnd::Memory) => Err(Status::Memory),
    }
}

// The text of what is known.
fn printed(
    alloc: Global,
    circuit: &Circuit,
    request: &RoundsRequest,
    found: &KnownRounds,
) -> Result<Ending, Status>
    requires asked { MayBeAsked request.now.k }
    requires able { IsMonitorable circuit.now request.now.property request.now.k }
    requires so { IsSo circuit.now request.now.property request.now.k found.now }
    requires decided { Settles circuit.now request.now.property request.now.k found.now }
    ensures found { IfOk result (λ ending. EndsRounds circuit.now request.now ending.status ending.text.items) }
    ensures ended { IfErr result (λ status. status ≡ Status.Memory) }
{
    let reached = is_reached(found);
    match write(alloc, circuit, request.property, request.k, found) {
        Ok(text) => Ok(Ending {
            status: Status::Done(Done::Rounds {
                property: request.property,
                k: request.k,
                reached,
            }),
            text,
        }),
        Err(_) => Err(Status::Memory),
    }
}

fn is_reached(found: &KnownRounds) -> bool
    ensures { result ≡ is_reached found.now }
{
    matches!(found, KnownRounds::Reached { .. })
}
