//! The reading of an answer, line by line. The main calls are `step` and `finish`.

ghost use Rattle.std.specs.Prelude.{◌≡◌, ◌<◌, ◌^◌, Ok, Err, IfOk, IfErr};
ghost use Rattle.unless_memory.specs.Answers.{Gives};
ghost use Rattle.certificate.specs.declared.ends.Accepted.{Accepted as AcceptedOf};
ghost use Rattle.certificate.specs.declared.ends.AnswerFault.{AnswerFault as FaultOf};
ghost use Rattle.certificate.specs.Lassos.{IsLassoAtEnd, UnlessStimulus};
ghost use Rattle.certificate.specs.Reading.{Stepped, step, certificate_step};
ghost use Rattle.certificate.specs.Ends.{IsGoodAtEnd, IsFaultAtEnd};
ghost use Rattle.certificate.specs.Seen.{seen, seen_body, seen_wanted, IsKept};
ghost use Rattle.aig_semantics.specs.Circuits.{Circuit as CircuitOf};
ghost use Rattle.certificate.specs.Steps.{OfEnd, Tells, TellsWanted};

use crate::ending::end_in;
use crate::ends::{Accepted, AnswerEnd, AnswerFault};
use crate::entries::{clause_step, entry_uses_step, line_step, proof_step, start_step};
use crate::heads::{property_step, status_step, version_step};
use crate::refuting::{last_step, refutation_uses_step, refuting_step, state_step};
use crate::rows::{latches_step, row_step};
use crate::state::{Body, State, Wanted};
use aig_semantics::Lasso;
use circuit::Circuit;
use std::alloc::Global;

// The state in which this is wanted over the body.
fn certified(body: Body, next: Result<Wanted, AnswerEnd>) -> Result<State, AnswerEnd>
    ensures { (c : CircuitOf) (stepped : Stepped) → TellsWanted c stepped body next → Tells c stepped result }
{
    match next {
        Ok(wanted) => Ok(State::Certified(body, wanted)),
        Err(end) => {
            drop(body);
            Err(end)
        }
    }
}

// The state behind a line of a certificate.
fn certificate_step(
    alloc: Global,
    circuit: &Circuit,
    mut body: Body,
    wanted: Wanted,
    number: u64,
    line: &[u8],
) -> Result<State, AnswerEnd>
    requires { IsKept circuit.now (State.Certified body wanted) }
    ensures { Tells circuit.now (certificate_step circuit.now (seen_body body) (seen_wanted body wanted) number line.now) result }
{
    match wanted {
        Wanted::Start => {
            let next = start_step(circuit, &body, number, line);
            certified(body, next)
        }
        Wanted::EntryUses(opening) => {
            let next = entry_uses_step(alloc, circuit, &mut body, opening, number, line);
            certified(body, next)
        }
        Wanted::EntryClause(begun) => {
            let next = clause_step(alloc, circuit, &mut body, begun, number, line);
            certified(body, next)
        }
        Wanted::EntryProof(entry, i) => {
            let next = proof_step(alloc, circuit, &mut body, entry, i, number, line);
            certified(body, next)
        }
        Wanted::EntryLine(entry, i, proving) => {
            let next = line_step(circuit, &mut body, entry, i, proving, line);
            certified(body, next)
        }
        Wanted::RefutationUses(refuting) => {
            let next = refutation_uses_step(alloc, circuit, &mut body, refuting, number, line);
            certified(body, next)
        }
        Wanted::RefutationLine(proving) => {
            let next = refuting_step(circuit, &mut body, proving, line);
            certified(body, next)
        }
        Wanted::StateLine(checker, proving) => {
            let next = state_step(circuit, &body, checker, proving, line);
            certified(body, next)
        }
        Wanted::Last => last_step(circuit, body, number, line),
    }
}

// The state behind a line.
fn step_in(
    alloc: Global,
    circuit: &Circuit,
    state: State,
    number: u64,
    line: &[u8],
) -> Result<State, AnswerEnd>
    requires { IsKept circuit.now state }
    ensures { Tells circuit.now (step circuit.now (seen state) number line.now) result }
{
    match state {
        State::Status => status_step(circuit, number, line),
        State::Property(claim) => property_step(circuit, claim, number, line),
        State::Latches(property) => latches_step(alloc, circuit, property, number, line),
        State::Rows(property, stimulus) => {
            row_step(alloc, circuit, property, stimulus, number, line)
        }
        State::Versioned(property) => version_step(alloc, circuit, property, number, line),
        State::Certified(body, wanted) => {
            certificate_step(alloc, circuit, body, wanted, number, line)
        }
        State::Dotted(_, _) | State::Ended(_) => {
            Err(AnswerEnd::Refused(AnswerFault::Trailing(number)))
        }
    }
}

/// The state behind a line with this number, which is not skipped, or the line's fault. Other texts that have runs or entries
/// go on by it from a state of theirs.
pub fn step(
    alloc: Global,
    circuit: &Circuit,
    state: State,
    number: u64,
    line: &[u8],
) -> Result<State, AnswerEnd>
    requires { IsKept circuit.now state }
    ensures ok { IfOk result (λ next. step circuit.now (seen state) number line.now ≡ Ok (seen next)) }
    ensures kept { IfOk result (IsKept circuit.now) }
    ensures fault { IfErr result (OfEnd (λ fault. step circuit.now (seen state) number line.now ≡ Err fault)) }
{
    step_in(alloc, circuit, state, number, line)
}

/// How an answer ends in a state, where a line behind the last one would have this number. The lasso of a stimulus is
/// kept.
pub(crate) fn finish(
    alloc: Global,
    circuit: &Circuit,
    state: &State,
    number: u64,
    kept: &mut Option<Lasso>,
) -> Result<Accepted, AnswerEnd>
    requires { IsKept circuit.now state.now }
    ensures ok { IfOk result (λ accepted. IsGoodAtEnd circuit.now (seen state.now) accepted) }
    ensures fault { IfErr result (OfEnd (λ fault. IsFaultAtEnd circuit.now (seen state.now) number fault)) }
    ensures every { (accepted : AcceptedOf) → IsGoodAtEnd circuit.now (seen state.now) accepted
        → Gives (Err AnswerEnd.Memory) (Ok accepted) result }
    ensures each_fault { (fault : FaultOf) → IsFaultAtEnd circuit.now (seen state.now) number fault
        → Gives (Err AnswerEnd.Memory) (Err (AnswerEnd.Refused fault)) result }
    ensures lasso { IfOk result (λ accepted. IsLassoAtEnd (seen state.now) accepted kept.new) }
    ensures untouched { UnlessStimulus result (kept.new ≡ kept.old) }
{
    end_in(alloc, circuit, state, number, kept)
}
