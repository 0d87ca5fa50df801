//! The lines of a block behind its first: of a refutation, and of a stimulus.

ghost use Rattle.std.specs.Prelude.{◌≡◌, ◌<◌, length, Err};
ghost use Rattle.entry.specs.Listing.{entries_of};
ghost use Rattle.certificate_lines.specs.Words.{word_line_of};
ghost use Rattle.certificate.specs.Reading.{State as AnswerState, Stepped as AnswerStepped, step as step_of_answer};
ghost use Rattle.certificate.specs.Seen.{seen as seen_within, seen_body, IsKept as IsKeptWithin};
ghost use Rattle.sheet_answers.specs.Sheets.{total};
ghost use Rattle.sheet_answers.specs.Reading.{Replays, Stepped, Plain, after_answer, over, refute_step, proved, refuting_fault, replayed, shown};
ghost use Rattle.sheet_answers.specs.Ends.{AreReplays};
ghost use Rattle.sheet_answers.specs.Seen.{AreFew, TellsStep, OfEnd};
ghost use Rattle.certificate.specs.Steps.{OfEnd as OfAnswerEnd};

use crate::counts::Counts;
use crate::ends::{BlockFault, JudgeEnd, misplaced, plain};
use crate::heads::total;
use crate::state::State;
use aig_semantics::Stimulus;
use certificate::{
    AnswerEnd, AnswerFault, Body, Refuted, State as Within, Wanted, step as step_within,
};
use certificate_lines::{Version, WordLine, word_line_of};
use circuit::Circuit;
use std::alloc::Global;
use stimulus::{ReplayEnd, replay};

// ---- a refutation

// The same entries, as those of a certificate of property n.
fn over(mut body: Body, n: u32) -> Body
    ensures seen { seen_body result ≡ over n (entries_of body.list) }
    ensures list { result.list ≡ body.list }
{
    body.property = n;
    body.version = Version::Two;
    body.refuted = Refuted::Skeletons;
    body
}

/// Behind the first line of a refutation.
pub(crate) fn refute_step(
    circuit: &Circuit,
    t: Counts,
    body: Body,
    number: u64,
    line: &[u8],
) -> Result<State, JudgeEnd>
    requires owed { total t < length circuit.now.justice }
    requires few { AreFew body }
    ensures { TellsStep circuit.now (refute_step t (entries_of body.list) number (word_line_of line.now)) result }
{
    match word_line_of(line) {
        Some(WordLine::Refutation(refuting)) => {
            let body = over(body, total(circuit, t));
            Ok(State::Proving(t, Within::Certified(body, Wanted::RefutationUses(refuting))))
        }
        _ => {
            drop(body);
            Err(misplaced(number))
        }
    }
}

// The end of the reading of a refutation of property n.
fn refuting_end(n: u32, end: AnswerEnd) -> JudgeEnd
    ensures { (next : AnswerState → Stepped) (r : AnswerStepped) → OfAnswerEnd (λ fault. r ≡ Err fault) end
        → OfEnd (λ fault. after_answer next (refuting_fault n) r ≡ Err fault) result }
{
    match end {
        AnswerEnd::Refused(AnswerFault::RefuteUse(used)) => {
            JudgeEnd::Block(n, BlockFault::RefuteUse(used))
        }
        AnswerEnd::Refused(AnswerFault::Refutation(at, fault)) => {
            JudgeEnd::Block(n, BlockFault::Refutation(at, fault))
        }
        end => plain(end),
    }
}

// Behind a line of a refutation, which may have been its last.
fn proved(circuit: &Circuit, t: Counts, next: Within) -> State
    requires owed { total t < length circuit.now.justice }
    requires kept { IsKeptWithin circuit.now next }
    ensures { TellsStep circuit.now (proved t (seen_within next)) (Ok result) }
{
    let _next_number = total(circuit, t);
    match next {
        Within::Certified(body, Wanted::Last) => {
            let later = Counts {
                lassos: t.lassos,
                holds: t.holds + 1,
                unknown: t.unknown,
            };
            State::Between(later, body)
        }
        next => State::Proving(t, next),
    }
}

/// Behind a further line of a refutation.
pub(crate) fn prove_step(
    alloc: Global,
    circuit: &Circuit,
    t: Counts,
    refuted: Within,
    number: u64,
    line: &[u8],
) -> Result<State, JudgeEnd>
    requires owed { total t < length circuit.now.justice }
    requires kept { IsKeptWithin circuit.now refuted }
    ensures { TellsStep circuit.now (after_answer (proved t) (refuting_fault (total t)) (step_of_answer circuit.now (seen_within refuted) number line.now)) result }
{
    match step_within(alloc, circuit, refuted, number, line) {
        Ok(next) => Ok(proved(circuit, t, next)),
        Err(end) => Err(refuting_end(total(circuit, t), end)),
    }
}

// ---- a stimulus

// Behind the dot of a stimulus for property n, which is replayed.
fn replayed(
    alloc: Global,
    circuit: &Circuit,
    t: Counts,
    body: Body,
    n: u32,
    stimulus: &Stimulus,
) -> Result<State, JudgeEnd>
    requires owed { total t < length circuit.now.justice }
    requires few { AreFew body }
    ensures { (replays : Replays) → AreReplays circuit.now replays
        → TellsStep circuit.now (replayed t (entries_of body.list) n (replays n stimulus.now)) result }
{
    let _next_number = total(circuit, t);
    match replay(alloc, circuit, n, stimulus) {
        Ok(lasso) => {
            drop(lasso);
            let later = Counts {
                lassos: t.lassos + 1,
                holds: t.holds,
                unknown: t.unknown,
            };
            Ok(State::Between(later, body))
        }
        Err(ReplayEnd::Fault(fault)) => {
            drop(body);
            Err(JudgeEnd::Block(n, BlockFault::Replay(fault)))
        }
        Err(ReplayEnd::Memory) => {
            drop(body);
            Err(plain(AnswerEnd::Memory))
        }
    }
}

// Behind a line of a stimulus, which may have been its dot.
fn shown(
    alloc: Global,
    circuit: &Circuit,
    t: Counts,
    body: Body,
    next: Within,
) -> Result<State, JudgeEnd>
    requires owed { total t < length circuit.now.justice }
    requires few { AreFew body }
    requires kept { IsKeptWithin circuit.now next }
    ensures { (replays : Replays) → AreReplays circuit.now replays
        → TellsStep circuit.now (shown replays t (entries_of body.list) (seen_within next)) result }
{
    match next {
        Within::Dotted(n, stimulus) => replayed(alloc, circuit, t, body, n, &stimulus),
        next => Ok(State::Showing(t, body, next)),
    }
}

/// Behind a line of a stimulus.
pub(crate) fn show_step(
    alloc: Global,
    circuit: &Circuit,
    t: Counts,
    body: Body,
    within: Within,
    number: u64,
    line: &[u8],
) -> Result<State, JudgeEnd>
    requires owed { total t < length circuit.now.justice }
    requires few { AreFew body }
    requires kept { IsKeptWithin circuit.now within }
    ensures { (replays : Replays) → AreReplays circuit.now replays
        → TellsStep circuit.now (after_answer (shown replays t (entries_of body.list)) Plain (step_of_answer circuit.now (seen_within within) number line.now)) result }
{
    match step_within(alloc, circuit, within, number, line) {
        Ok(next) => shown(alloc, circuit, t, body, next),
        Err(end) => {
            drop(body);
            Err(plain(end))
        }
    }
}
