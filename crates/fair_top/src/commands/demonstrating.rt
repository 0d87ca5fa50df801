//! The command `demo`: two workers decide property 0 of a generated model, and the answer is checked. The main call is
//! `demonstrate`. Writes nothing.

ghost use Rattle.std.specs.Prelude.{◌≡◌, ◌≤◌, [], Some, length, codes, false, IfOk, IfErr};
ghost use Rattle.std.specs.Arc.{arc_value};
ghost use Rattle.certificate.specs.declared.ends.Accepted.{Accepted as AcceptedOf};
ghost use Rattle.sheet_answers.specs.declared.ends.Judged.{Judged as JudgedOf};
ghost use Rattle.certificate.specs.Answers.{IsGood};
ghost use Rattle.wall_store.specs.Boards.{outcome_of};
ghost use Rattle.fair_workers.specs.Runs.{IsAnswered, IsAnswer, IsReport};
ghost use Rattle.plain_commands.specs.Check.{done_by};
ghost use Rattle.fair_top.specs.Demo.{demo_task, verdict_text, summary_text, SumsUpAnswer, SumsUpBoard, SumsUpReport, SumsUp, GivesDemo};
ghost use Rattle.fair_top.specs.Solve.{IsTextOfOutcome};
ghost use Rattle.plain_commands.specs.Statuses.{status_in, is_read_fault};

use crate::commands::solving::{entry_count, limits_of, printed};
use certificate::{AnswerEnd, check_answer};
use circuit::Circuit;
use command_lines::{DEFAULTS, DemoRequest, SolveRequest};
use edge::{MemShelf, Shelf};
use fair_workers::{Board, Ended, Report, run_turns};
use model_gen::scramble;
use plain_commands::{Done, Ending, Status};
use std::alloc::{AllocError, Global};
use std::sync::Arc;
use text_grammar::push_number;
use wall_store::Outcome as Found;

// Property 0, two workers, and the default budgets of `solve`.
const REQUEST: SolveRequest = SolveRequest {
    workers: 2,
    ..DEFAULTS
};

/// Lets two workers decide the property of the generated model: the status with which the command ends, and the summary.
/// The error is `Memory`.
pub(crate) fn demonstrate(alloc: Global, request: &DemoRequest) -> Result<Ending, Status>
    requires some { 1 ≤ request.now.size }
    requires few { request.now.size ≤ 256 }
    ensures found { IfOk result (λ ending. GivesDemo request.now ending.status ending.text.items) }
    ensures ended { IfErr result (λ status. status ≡ Status.Memory) }
    ensures aloud { IfOk result (λ ending. is_read_fault ending.status ≡ false) }
    ensures unread { is_read_fault (status_in result) ≡ false }
    ensures hidden { (accepted : JudgedOf) → status_in result ≡ Status.Done (done_by accepted) → ⊥ }
{
    match scramble(alloc, request.seed, request.size) {
        Ok(model) => summed_up(alloc, request, model.into_circuit()),
        Err(_) => Err(Status::Memory),
    }
}

// The same for a circuit with one property.
fn summed_up(alloc: Global, request: &DemoRequest, circuit: Circuit) -> Result<Ending, Status>
    requires { length circuit.justice ≡ 1 }
    ensures found { IfOk result (λ ending. SumsUp circuit request.now ending.status ending.text.items) }
    ensures ended { IfErr result (λ status. status ≡ Status.Memory) }
{
    match Arc::new(alloc, circuit) {
        Ok(circuit) => run_for(alloc, request, &circuit),
        Err(_) => Err(Status::Memory),
    }
}

// The same for a circuit that the workers share.
fn run_for(alloc: Global, request: &DemoRequest, circuit: &Arc<Circuit>) -> Result<Ending, Status>
    requires { length (arc_value circuit.now).justice ≡ 1 }
    ensures found { IfOk result (λ ending. SumsUp (arc_value circuit.now) request.now ending.status ending.text.items) }
    ensures ended { IfErr result (λ status. status ≡ Status.Memory) }
{
    let limits = limits_of(&REQUEST);
    match run_turns(alloc, circuit, &[REQUEST.property], limits, &[], &[]) {
        Ok(report) => answered(alloc, request, circuit, report),
        Err(Ended::Spent(report)) => reported(alloc, request, circuit, report),
        Err(Ended::Memory) => Err(Status::Memory),
    }
}

// The summary of an answer, which is checked.
fn answered(
    alloc: Global,
    request: &DemoRequest,
    circuit: &Circuit,
    report: Report,
) -> Result<Ending, Status>
    requires one { length circuit.now.justice ≡ 1 }
    requires answer { IsAnswer (demo_task circuit.now) report }
    ensures found { IfOk result (λ ending. SumsUpAnswer circuit.now request.now ending.status ending.text.items) }
    ensures ended { IfErr result (λ status. status ≡ Status.Memory) }
{
    let Report { board, .. } = report;
    match checked_summary(alloc, request, circuit, &board) {
        Ok(text) => Ok(Ending {
            status: Status::Done(Done::Demo(board)),
            text,
        }),
        Err(status) => Err(status),
    }
}

// Its text.
fn checked_summary(
    alloc: Global,
    request: &DemoRequest,
    circuit: &Circuit,
    board: &Board,
) -> Result<Vec<u8>, Status>
    requires one { length circuit.now.justice ≡ 1 }
    requires answered { IsAnswered (demo_task circuit.now) board.now }
    ensures sums { IfOk result (λ text. SumsUpBoard circuit.now request.now text.items board.now) }
    ensures ended { IfErr result (λ status. status ≡ Status.Memory) }
{
    let answer = match answer_text(alloc, circuit, board) {
        Ok(answer) => answer,
        Err(status) => return Err(status),
    };
    if let Err(status) = checked(alloc, circuit, answer) {
        return Err(status);
    }
    match summary(
        alloc,
        request,
        verdict(board),
        entry_count(board),
        "accepted",
    ) {
        Ok(text) => Ok(text),
        Err(_) => Err(Status::Memory),
    }
}

// The text that `solve` prints of the outcome.
fn answer_text(alloc: Global, circuit: &Circuit, board: &Board) -> Result<Vec<u8>, Status>
    requires one { length circuit.now.justice ≡ 1 }
    requires answered { IsAnswered (demo_task circuit.now) board.now }
    ensures text { IfOk result (λ text. IsTextOfOutcome circuit.now 0 board.now.entries (outcome_of board.now.served 0) text.items) }
    ensures good { IfOk result (λ text. (found : AcceptedOf) × IsGood circuit.now text.items found) }
    ensures ended { IfErr result (λ status. status ≡ Status.Memory) }
{
    match printed(alloc, circuit, &REQUEST, board) {
        Ok(answer) => Ok(answer.text),
        Err(status) => Err(status),
    }
}

// The summary of a report, with which there is nothing to check.
fn reported(
    alloc: Global,
    request: &DemoRequest,
    _circuit: &Circuit,
    report: Report,
) -> Result<Ending, Status>
    requires { IsReport (demo_task _circuit.now) report }
    ensures found { IfOk result (λ ending. SumsUpReport _circuit.now request.now ending.status ending.text.items) }
    ensures ended { IfErr result (λ status. status ≡ Status.Memory) }
{
    let entries = entry_count(&report.board);
    match summary(alloc, request, "2", entries, "none") {
        Ok(text) => Ok(Ending {
            status: Status::Unknown(report),
            text,
        }),
        Err(_) => Err(Status::Memory),
    }
}

// Checks the text of a good answer as `check` does. The shelf tells it whole and no read fails, so nothing but memory can be
// wanting.
fn checked(alloc: Global, circuit: &Circuit, text: Vec<u8>) -> Result<(), Status>
    requires { (found : AcceptedOf) × IsGood circuit.now text.items found }
    ensures ended { IfErr result (λ status. status ≡ Status.Memory) }
{
    let mut shelf = match shelf_with(alloc, text) {
        Ok(shelf) => shelf,
        Err(_) => return Err(Status::Memory),
    };
    match check_answer(alloc, circuit, &mut shelf, "answer") {
        Ok(_) => Ok(()),
        Err(AnswerEnd::Memory) => Err(Status::Memory),
        Err(AnswerEnd::Refused(_)) => unreachable!(),
        Err(AnswerEnd::ReadFault) => unreachable!(),
    }
}

// A shelf that holds the text as `answer`, and of which no call fails.
fn shelf_with(alloc: Global, text: Vec<u8>) -> Result<MemShelf, AllocError>
    ensures held { IfOk result (λ shelf. ⟦<MemShelf as Shelf>⟧.held shelf (codes "answer") ≡ Some text.items) }
    ensures steady { IfOk result (λ shelf. shelf.failing ≡ []) }
{
    let mut texts = Vec::new(alloc);
    texts.push((String::from_str(alloc, "answer")?, text))?;
    Ok(MemShelf::new(texts, u64::MAX, Vec::new(alloc)))
}

// The verdict, by the outcome of the property.
fn verdict(board: &Board) -> &'static str
    ensures { result.now ≡ verdict_text (outcome_of board.now.served 0) }
{
    match board.outcome(0) {
        Some(Found::Lasso(_)) => "1",
        Some(Found::Holds(_)) => "0",
        None => "2",
    }
}

fn summary(
    alloc: Global,
    request: &DemoRequest,
    verdict: &str,
    entries: u32,
    checked: &str,
) -> Result<Vec<u8>, AllocError>
    ensures { IfOk result (λ text. text.items ≡ summary_text request.now verdict.now entries checked.now) }
{
    let mut text = Vec::from_slice(alloc, b"demo scramble ")?;
    push_number(&mut text, request.seed)?;
    text.extend_from_slice(b" ")?;
    push_number(&mut text, request.size)?;
    text.extend_from_slice(b"\nverdict ")?;
    text.extend_from_slice(verdict.as_bytes())?;
    text.extend_from_slice(b"\nentries ")?;
    push_number(&mut text, u64::from(entries))?;
    text.extend_from_slice(b"\ncheck ")?;
    text.extend_from_slice(checked.as_bytes())?;
    text.extend_from_slice(b"\n")?;
    Ok(text)
}
