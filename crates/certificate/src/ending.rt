//! How an answer ends behind its last line.

ghost use Rattle.std.specs.Prelude.{◌≡◌, ℕ, Ok, IfOk};
ghost use Rattle.certificate.specs.Lassos.{IsLassoAtEnd, UnlessStimulus};
ghost use Rattle.certificate.specs.Reading.State.{Dotted as DottedOf};
ghost use Rattle.certificate.specs.Seen.{seen, IsKept};
ghost use Rattle.certificate.specs.Steps.{TellsEnd};

use crate::ends::{Accepted, AnswerEnd, AnswerFault, misplaced};
use crate::state::{Body, State};
use aig_semantics::{Lasso, Stimulus};
use circuit::Circuit;
use std::alloc::Global;
use stimulus::{ReplayEnd, replay};

// Replays the stimulus of an answer for this property, and keeps its lasso.
fn replay_stimulus(
    alloc: Global,
    circuit: &Circuit,
    property: u32,
    stimulus: &Stimulus,
    kept: &mut Option<Lasso>,
) -> Result<Accepted, AnswerEnd>
    ensures tells { (number : ℕ) → TellsEnd circuit.now (DottedOf property stimulus.now) number result }
    ensures lasso { IfOk result (λ accepted. IsLassoAtEnd (DottedOf property stimulus.now) accepted kept.new) }
    ensures untouched { UnlessStimulus result (kept.new ≡ kept.old) }
{
    match replay(alloc, circuit, property, stimulus) {
        Ok(lasso) => {
            let accepted = Accepted::Lasso {
                property,
                positions: lasso.inputs.len() as u64,
                from: lasso.from,
            };
            *kept = Some(lasso);
            Ok(accepted)
        }
        Err(ReplayEnd::Fault(fault)) => Err(AnswerEnd::Refused(AnswerFault::Replay(fault))),
        Err(ReplayEnd::Memory) => Err(AnswerEnd::Memory),
    }
}

// A certificate that was read to its end.
fn held(_circuit: &Circuit, body: &Body) -> Accepted
    requires { IsKept _circuit.now (State.Ended body.now) }
    ensures { (number : ℕ) → TellsEnd _circuit.now (seen (State.Ended body.now)) number (Ok result) }
{
    Accepted::Holds {
        property: body.property,
        entries: body.list.len() as u32,
    }
}

/// How an answer ends in a state, where a line behind the last one would have this number. The lasso of a stimulus is
/// kept.
pub(crate) fn end_in(
    alloc: Global,
    circuit: &Circuit,
    state: &State,
    number: u64,
    kept: &mut Option<Lasso>,
) -> Result<Accepted, AnswerEnd>
    requires { IsKept circuit.now state.now }
    ensures tells { TellsEnd circuit.now (seen state.now) number result }
    ensures lasso { IfOk result (λ accepted. IsLassoAtEnd (seen state.now) accepted kept.new) }
    ensures untouched { UnlessStimulus result (kept.new ≡ kept.old) }
{
    match state {
        State::Dotted(property, stimulus) => {
            replay_stimulus(alloc, circuit, *property, stimulus, kept)
        }
        State::Ended(body) => Ok(held(circuit, body)),
        _ => Err(misplaced(number)),
    }
}
