//! The lines of the refutation, and the last line.

ghost use Rattle.std.specs.Prelude.{◌≡◌, ◌<◌, ◌≤◌, length, IfOk};
ghost use Rattle.std.specs.List.{All};
ghost use Rattle.proof_semantics.specs.Proofs.{start, judge};
ghost use Rattle.fair_semantics.specs.Entries.{used_entries};
ghost use Rattle.cnf_unroll.specs.Obligations.{skeleton_clauses};
ghost use Rattle.certificate.specs.Refuted.{refuted_clauses, state_clauses};
ghost use Rattle.certificate_lines.specs.Words.{word_line_of};
ghost use Rattle.certificate_lines.specs.Uses.{uses_of};
ghost use Rattle.entry.specs.Listing.{entries_of};
ghost use Rattle.certificate.specs.Reading.{refutation_uses_step, next_refuting_line, begin_proof, refuting_step, last_step};
ghost use Rattle.certificate.specs.Seen.{seen_body, seen_proving, state_proving, IsAhead, IsKept, IsBody, ArePresent};
ghost use Rattle.certificate.specs.Steps.{Tells, TellsWanted};

use crate::ends::{AnswerEnd, AnswerFault, misplaced};
use crate::state::{Body, Proving, Refuted, State, Wanted};
use crate::states::state_cnf;
use crate::uses::{UsesEnd, read_uses};
use certificate_lines::{Refutation, WordLine, word_line_of};
use circuit::Circuit;
use entry::{Judge, Listed, User, used};
use fair_semantics::Use;
use lrat::{Checker, LratEnd};
use proof_semantics::{Lit, LratFault};
use std::alloc::{AllocError, Global};
use std::mem;

// A judge of the refutation, before its first line.
fn judge_of(
    alloc: Global,
    circuit: &Circuit,
    property: u32,
    list: &[Listed],
    uses: &[Use],
) -> Result<Judge, AllocError>
    requires property { property < length circuit.now.justice }
    requires present { All (λ u. u.entry < length list.now) uses.now }
    ensures { IfOk result (λ j. j.proof ≡ start (skeleton_clauses circuit.now property (used_entries (entries_of list.now) uses.now))) }
{
    let used = used(alloc, list, uses)?;
    Judge::refutation(alloc, circuit, property, used.as_slice())
}

// Behind some lines of the proof: behind the last an empty clause has been given or added.
fn next_refuting_line(
    _circuit: &Circuit,
    body: &mut Body,
    proving: Proving,
) -> Result<Wanted, AnswerEnd>
    requires body { IsBody _circuit.now body.old }
    requires read { proving.read ≤ proving.count }
    ensures { TellsWanted _circuit.now (next_refuting_line (seen_body body.old) (seen_proving body.old proving)) body.new result }
{
    if proving.read != proving.count {
        return Ok(Wanted::RefutationLine(proving));
    }
    if !body.judge.is_finished() {
        let fault = AnswerFault::Refutation(proving.count, LratFault::Unfinished);
        return Err(AnswerEnd::Refused(fault));
    }
    Ok(Wanted::Last)
}

// Behind the uses, each of which may stand, where skeletons are to be refuted.
fn begin_skeletons(
    alloc: Global,
    circuit: &Circuit,
    body: &mut Body,
    uses: &[Use],
    count: u64,
) -> Result<Wanted, AnswerEnd>
    requires body { IsBody circuit.now body.old }
    requires property { body.old.property < length circuit.now.justice }
    requires present { ArePresent body.old uses.now }
    ensures { TellsWanted circuit.now (next_refuting_line (seen_body body.old) (begin_proof count
        (skeleton_clauses circuit.now body.old.property (used_entries (entries_of body.old.list) uses.now)))) body.new result }
{
    let judge = judge_of(alloc, circuit, body.property, body.list.as_slice(), uses)?;
    drop(mem::replace(&mut body.judge, judge));
    next_refuting_line(circuit, body, Proving { count, read: 0 })
}

// Behind some lines of the proof that states with a literal are refuted by, which the checker judges.
fn next_state_line(
    _circuit: &Circuit,
    _body: &Body,
    checker: Checker,
    proving: Proving,
) -> Result<Wanted, AnswerEnd>
    requires body { IsBody _circuit.now _body.now }
    requires read { proving.read ≤ proving.count }
    ensures { TellsWanted _circuit.now (next_refuting_line (seen_body _body.now) (state_proving checker proving)) _body.now result }
{
    if proving.read != proving.count {
        return Ok(Wanted::StateLine(checker, proving));
    }
    let finished = checker.proved_empty();
    drop(checker);
    if !finished {
        let fault = AnswerFault::Refutation(proving.count, LratFault::Unfinished);
        return Err(AnswerEnd::Refused(fault));
    }
    Ok(Wanted::Last)
}

// A checker of the proof that no state that the used entries hold has the literal, before its first line.
fn checker_of(
    alloc: Global,
    circuit: &Circuit,
    literal: Lit,
    list: &[Listed],
    uses: &[Use],
) -> Result<Checker, AllocError>
    requires { All (λ u. u.entry < length list.now) uses.now }
    ensures { IfOk result (λ checker. checker ≡ start (state_clauses circuit.now literal (used_entries (entries_of list.now) uses.now))) }
{
    let used = used(alloc, list, uses)?;
    let clauses = state_cnf(alloc, circuit, literal, used.as_slice())?;
    Ok(Checker::new(alloc, clauses)?)
}

// The same where states that have the literal are to be refuted.
fn begin_states(
    alloc: Global,
    circuit: &Circuit,
    body: &Body,
    literal: Lit,
    uses: &[Use],
    count: u64,
) -> Result<Wanted, AnswerEnd>
    requires body { IsBody circuit.now body.now }
    requires present { ArePresent body.now uses.now }
    ensures { TellsWanted circuit.now (next_refuting_line (seen_body body.now) (begin_proof count
        (state_clauses circuit.now literal (used_entries (entries_of body.now.list) uses.now)))) body.now result }
{
    let checker = checker_of(alloc, circuit, literal, body.list.as_slice(), uses)?;
    next_state_line(circuit, body, checker, Proving { count, read: 0 })
}

// Behind the uses, each of which may stand.
fn begin_refutation(
    alloc: Global,
    circuit: &Circuit,
    body: &mut Body,
    uses: &[Use],
    count: u64,
) -> Result<Wanted, AnswerEnd>
    requires body { IsBody circuit.now body.old }
    requires present { ArePresent body.old uses.now }
    ensures { TellsWanted circuit.now (next_refuting_line (seen_body body.old) (begin_proof count
        (refuted_clauses circuit.now body.old.refuted body.old.property (used_entries (entries_of body.old.list) uses.now)))) body.new result }
{
    match body.refuted {
        Refuted::Skeletons => begin_skeletons(alloc, circuit, body, uses, count),
        Refuted::States(literal) => begin_states(alloc, circuit, &*body, literal, uses, count),
    }
}

/// Behind the uses of the refutation.
pub(crate) fn refutation_uses_step(
    alloc: Global,
    circuit: &Circuit,
    body: &mut Body,
    refuting: Refutation,
    number: u64,
    line: &[u8],
) -> Result<Wanted, AnswerEnd>
    requires { IsAhead circuit.now body.old (Wanted.RefutationUses refuting) }
    ensures { TellsWanted circuit.now (refutation_uses_step circuit.now (seen_body body.old) refuting number (uses_of body.old.version line.now)) body.new result }
{
    match read_uses(alloc, &*body, User::Refutation, refuting.uses, line) {
        Ok(uses) => begin_refutation(alloc, circuit, body, uses.as_slice(), refuting.proof_lines),
        Err(UsesEnd::Shape) => Err(misplaced(number)),
        Err(UsesEnd::Bad(used)) => Err(AnswerEnd::Refused(AnswerFault::RefuteUse(used))),
        Err(UsesEnd::Memory) => Err(AnswerEnd::Memory),
    }
}

/// Behind a line of the proof.
pub(crate) fn refuting_step(
    circuit: &Circuit,
    body: &mut Body,
    proving: Proving,
    line: &[u8],
) -> Result<Wanted, AnswerEnd>
    requires { IsAhead circuit.now body.old (Wanted.RefutationLine proving) }
    ensures { TellsWanted circuit.now (refuting_step (seen_body body.old) (seen_proving body.old proving) (judge body.old.judge.proof line.now)) body.new result }
{
    match body.judge.step(line) {
        Ok(()) => {
            let later = Proving {
                count: proving.count,
                read: proving.read + 1,
            };
            next_refuting_line(circuit, body, later)
        }
        Err(LratEnd::Fault(fault)) => {
            Err(AnswerEnd::Refused(AnswerFault::Refutation(proving.read, fault)))
        }
        Err(LratEnd::Memory) => Err(AnswerEnd::Memory),
    }
}

/// Behind a line of the proof that states with a literal are refuted by.
pub(crate) fn state_step(
    circuit: &Circuit,
    body: &Body,
    checker: Checker,
    proving: Proving,
    line: &[u8],
) -> Result<Wanted, AnswerEnd>
    requires { IsAhead circuit.now body.now (Wanted.StateLine checker proving) }
    ensures { TellsWanted circuit.now (refuting_step (seen_body body.now) (state_proving checker proving) (judge checker line.now)) body.now result }
{
    let mut checker = checker;
    match checker.step(line) {
        Ok(()) => {
            let later = Proving {
                count: proving.count,
                read: proving.read + 1,
            };
            next_state_line(circuit, body, checker, later)
        }
        Err(LratEnd::Fault(fault)) => {
            drop(checker);
            Err(AnswerEnd::Refused(AnswerFault::Refutation(proving.read, fault)))
        }
        Err(LratEnd::Memory) => {
            drop(checker);
            Err(AnswerEnd::Memory)
        }
    }
}

/// Behind the last line.
pub(crate) fn last_step(
    _circuit: &Circuit,
    body: Body,
    number: u64,
    line: &[u8],
) -> Result<State, AnswerEnd>
    requires { IsKept _circuit.now (State.Certified body Wanted.Last) }
    ensures { Tells _circuit.now (last_step (seen_body body) number (word_line_of line.now)) result }
{
    match word_line_of(line) {
        Some(WordLine::End) => Ok(State::Ended(body)),
        _ => {
            drop(body);
            Err(misplaced(number))
        }
    }
}
