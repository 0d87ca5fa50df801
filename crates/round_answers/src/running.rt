//! A run of a text, judged. The main call is `judge_run`.

ghost use Rattle.std.specs.Prelude.{◌≡◌, ◌↔◌, ◌<◌, map, length, All, IsTrue, IfOk, IfSome, IfNone};
ghost use Rattle.aig_semantics.specs.Runs.{IsInitial};
ghost use Rattle.aig_semantics.specs.Stimuli.{FitsCircuit};
ghost use Rattle.aig_semantics.specs.Literals.{literal_in};
ghost use Rattle.stimulus.specs.Faults.{IsFirstMisfit, IsFirstWrong};
ghost use Rattle.certificate.specs.declared.ends.AnswerEnd.TheVariants.{Refused};
ghost use Rattle.certificate.specs.declared.ends.AnswerFault.TheVariants.{Replay};
ghost use Rattle.round_answers.specs.Running.{IsLaidOut};
ghost use Rattle.round_answers.specs.Telling.{TellsRun};

use crate::ends::{JudgeEnd, Judged, refused, shown};
use crate::state::Asked;
use aig_semantics::{Position, Stimulus};
use certificate::AnswerFault;
use circuit::{Circuit, eval_into, literal_value, next_into, rounds};
use items::Items;
use std::alloc::{AllocError, Global};
use stimulus::ReplayFault;

// The first item with another number of values than there are latches or inputs.
fn first_misfit(c: &Circuit, s: &Stimulus) -> Option<u64>
    ensures found { IfSome result (IsFirstMisfit c.now s.now) }
    ensures none { IfNone result (FitsCircuit c.now s.now) }
{
    if s.latches.len() != c.latches().len() {
        return Some(0);
    }
    let width = c.inputs().len();
    for (k, values) in s.inputs.as_slice().iter().enumerate() {
        if values.len() != width {
            return Some(k as u64 + 1);
        }
    }
    None
}

// The first latch that may not begin with its value.
fn first_wrong(c: &Circuit, latches: &[bool]) -> Option<u64>
    requires { length latches.now ≡ length c.now.latches }
    ensures found { IfSome result (IsFirstWrong c.now latches.now) }
    ensures none { IfNone result (IsInitial c.now latches.now) }
{
    for (i, latch) in c.latches().iter().enumerate() {
        if !latch.reset.agrees_with(latches[i]) {
            return Some(i as u64);
        }
    }
    None
}

// The state behind a position with these values.
fn state_behind(alloc: Global, c: &Circuit, values: &[bool]) -> Result<Items<bool>, AllocError>
    ensures { IfOk result (λ state. state ≡ map (λ latch. literal_in values.now latch.next) c.now.latches) }
{
    let mut state = vec![in alloc; false; c.latches().len()]?;
    next_into(c, values, &mut state);
    Ok(Items::from_vec(state))
}

// Whether every constraint is true at a position with these values.
fn are_true(values: &[bool], literals: &[u64]) -> bool
    ensures { IsTrue result ↔ All (λ literal. IsTrue (literal_in values.now literal)) literals.now }
{
    literals
        .iter()
        .all(|literal| literal_value(values, *literal))
}

// The positions of the stimulus, up to the first at which a constraint is false, and whether there is none.
fn laid_out(alloc: Global, c: &Circuit, s: &Stimulus) -> Result<(Items<Position>, bool), AllocError>
    requires { FitsCircuit c.now s.now }
    ensures { IfOk result (λ r. IsLaidOut c.now s.now r.0 r.1) }
{
    let mut run = Items::new(alloc);
    let mut values = vec![in alloc; false; c.max() as usize + 1]?;
    let mut state = s.latches.try_copy(alloc)?;
    for inputs in s.inputs.as_slice() {
        eval_into(c, state.as_slice(), inputs.as_slice(), &mut values);
        if !are_true(&values, c.constraints()) {
            return Ok((run, false));
        }
        let next = state_behind(alloc, c, &values)?;
        run.push(Position {
            latches: state,
            inputs: inputs.try_copy(alloc)?,
        })?;
        state = next;
    }
    Ok((run, true))
}

/// Judges the run of a text that asks for so many rounds: an initial run that has them.
pub(crate) fn judge_run(
    alloc: Global,
    c: &Circuit,
    asked: Asked,
    s: &Stimulus,
) -> Result<Judged, JudgeEnd>
    requires { asked.property < length c.now.justice }
    ensures { TellsRun c.now asked.k asked.property s.now result }
{
    if let Some(item) = first_misfit(c, s) {
        return Err(replayed(ReplayFault::Width(item)));
    }
    if let Some(latch) = first_wrong(c, s.latches.as_slice()) {
        return Err(replayed(ReplayFault::NotInitial(latch)));
    }
    let (run, whole) = laid_out(alloc, c, s)?;
    if !whole {
        return Err(replayed(ReplayFault::Constraint(run.len() as u64)));
    }
    let count = rounds(alloc, c, asked.property, run.as_slice())?;
    if count < u64::from(asked.k) {
        return Err(refused(AnswerFault::FewRounds(count)));
    }
    Ok(shown(asked, true))
}

fn replayed(fault: ReplayFault) -> JudgeEnd
    ensures { result ≡ JudgeEnd.Answer (Refused (Replay fault)) }
{
    refused(AnswerFault::Replay(fault))
}
