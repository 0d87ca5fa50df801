//! The command `solve`: lets workers search for what is asked, and makes the text of what they found. The main call is
//! `solve`. Writes nothing.

ghost use Rattle.std.specs.Prelude.{◌≡◌, ◌<◌, [], ◌∷◌, ℕ, List, length, option_map, false, IfOk, IfErr};
ghost use Rattle.aig_semantics.specs.Stimuli.{IsFairLassoOf};
ghost use Rattle.edge.specs.Faults.{NoneFell};
ghost use Rattle.edge.specs.Reads.{KeepsTexts};
ghost use Rattle.sheet_answers.specs.declared.ends.Judged.{Judged as JudgedOf};
ghost use Rattle.certificate_texts.specs.Writing.{certificate_text};
ghost use Rattle.certificate.specs.Writing.{certificate_of};
ghost use Rattle.entry.specs.CheckedEntries.{CheckedEntry};
ghost use Rattle.entry.specs.Proved.{IsGoodRefutation};
ghost use Rattle.given_entries.specs.Beginning.{told_of};
ghost use Rattle.command_lines.specs.Commands.{name_in};
ghost use Rattle.fair_workers.specs.Runs.{AreServed, IsAnswered, IsAnswer, IsReport, IsEnded};
ghost use Rattle.wall_store.specs.Boards.{properties_of, outcome_of, plain};
ghost use Rattle.wall_store.specs.Events.{IsSettled};
ghost use Rattle.sheet_commands.specs.Each.{property_numbers};
ghost use Rattle.plain_commands.specs.Check.{done_by};
ghost use Rattle.fair_top.specs.Solve.{limits_of, asked_in, task_for, task_of, HasProperty, HasAsked};
ghost use Rattle.fair_top.specs.Solve.{GivesSolve, DecidesSolve, ShownBySolve, IsStimulusOf, IsTextOfOutcome, IsSheetOfReport};
ghost use Rattle.fair_top.specs.Solved.{AreWithin, MayBegin, IsSearch, EndsFor, IsPrinted, IsSheetPrinted, SolvesUnlessCut};
ghost use Rattle.fair_top.specs.Beginnings.{circuit_in, served_in, given_in};
ghost use Rattle.plain_commands.specs.Answering.{IsSilent, GivesVerdict, FailedOf, ReadsModelFirst};
ghost use Rattle.fair_top.specs.Headline.{FailedFor};
ghost use Rattle.plain_commands.specs.Statuses.{status_in, is_read_fault};

use crate::beginnings::{Beginning, beginning_of};
use aig_semantics::Lasso;
use certificate::{good_answers_are_true, written_certificates_are_good, written_stimuli_are_good};
use circuit::Circuit;
use command_lines::SolveRequest;
use edge::Shelf;
use entry::Refutation;
use fair_workers::{Board, Ended, Limits, Report};
use plain_commands::{Done, Ending, Status, with_text};
use sheet_commands::{BoardSheet, board_sheet, first_lasso};
use std::alloc::{AllocError, Global};
use stimulus::Stimulus;
use wall_store::Outcome as Found;

/// Reads the model, and the answer where one is named, and lets workers decide the property, or all: the status with which the
/// command ends and the text that it writes, but for its writing; or the status of a run that writes nothing, `ReadFault` or
/// `Memory`.
pub(crate) fn solve<S: Fn(&Beginning, SolveRequest) -> Result<Report, Ended>, H: Shelf>(
    search: &S,
    alloc: Global,
    shelf: &mut H,
    model: &str,
    resume: Option<&str>,
    request: &SolveRequest,
) -> Result<Ending, Status>
    requires search { IsSearch (λ q. circuit_in q.now) (λ q. served_in q.now) (λ q. given_in q.now) (S.pre search.now) (S.post search.now) }
    requires within { AreWithin request.now }
    ensures found { IfOk result (λ ending. GivesSolve (H.held shelf.old model.now)
        (told_of (H.held shelf.old) (option_map (λ name. name.now) resume.entry)) request.now ending.status ending.text.items) }
    ensures silent { IfErr result IsSilent }
    ensures aloud { IfOk result (λ ending. is_read_fault ending.status ≡ false) }
    ensures exactly { (verdict : Status) → DecidesSolve (H.held shelf.old model.now)
        (told_of (H.held shelf.old) (option_map (λ name. name.now) resume.entry)) request.now verdict
        → GivesVerdict verdict (status_in result) }
    ensures shown { (accepted : JudgedOf) → status_in result ≡ Status.Done (done_by accepted)
        → ShownBySolve (H.held shelf.old model.now) accepted }
    ensures solved { HasAsked (H.held shelf.old model.now)
        (told_of (H.held shelf.old) (option_map (λ name. name.now) resume.entry)) request.now
        → SolvesUnlessCut request.now.all (status_in result) }
    ensures read { status_in result ≡ Status.ReadFault
        → FailedOf (H.held shelf.old) (model.now ∷ name_in (option_map (λ name. name.now) resume.entry)) (H.faults shelf.old)
        (H.faults shelf.new) }
    ensures there { status_in result ≡ Status.ReadFault
        → FailedFor (H.held shelf.old) model.now request.now (H.faults shelf.old) (H.faults shelf.new) }
    ensures reads { ReadsModelFirst H.reads (H.held shelf.old) (model.now ∷ name_in (option_map (λ name. name.now) resume.entry))
        (is_read_fault (status_in result)) shelf.old shelf.new }
    ensures counts { NoneFell (H.faults shelf.old) (H.faults shelf.new) }
    ensures kept { KeepsTexts (H.held shelf.old) (H.held shelf.new) }
{
    match beginning_of(alloc, shelf, model, resume, request) {
        Ok(beginning) => run_for(search, alloc, &beginning, request),
        Err(status) => with_text(alloc, status),
    }
}

// The same for what the search is asked.
fn run_for<S: Fn(&Beginning, SolveRequest) -> Result<Report, Ended>>(
    search: &S,
    alloc: Global,
    beginning: &Beginning,
    request: &SolveRequest,
) -> Result<Ending, Status>
    requires search { IsSearch (λ q. circuit_in q.now) (λ q. served_in q.now) (λ q. given_in q.now) (S.pre search.now) (S.post search.now) }
    requires within { AreWithin request.now }
    requires property { HasProperty (circuit_in beginning.now) request.now }
    requires served { served_in beginning.now ≡ asked_in request.now.all (circuit_in beginning.now) request.now.property }
    requires serves { AreServed (circuit_in beginning.now) (served_in beginning.now) }
    requires begins { MayBegin (circuit_in beginning.now) (given_in beginning.now) }
    ensures found { IfOk result (λ ending.
        EndsFor (circuit_in beginning.now) request.now (given_in beginning.now) ending.status ending.text.items) }
    ensures ended { IfErr result (λ status. status ≡ Status.Memory) }
{
    match searched(search, beginning, request) {
        Ok(report) => decided(alloc, &beginning.circuit, request, &report.board),
        Err(Ended::Spent(report)) => undecided(alloc, &beginning.circuit, request, report),
        Err(Ended::Memory) => Err(Status::Memory),
    }
}

// What the workers leave.
fn searched<S: Fn(&Beginning, SolveRequest) -> Result<Report, Ended>>(
    search: &S,
    beginning: &Beginning,
    request: &SolveRequest,
) -> Result<Report, Ended>
    requires search { IsSearch (λ q. circuit_in q.now) (λ q. served_in q.now) (λ q. given_in q.now) (S.pre search.now) (S.post search.now) }
    requires within { AreWithin request.now }
    requires served { served_in beginning.now ≡ asked_in request.now.all (circuit_in beginning.now) request.now.property }
    requires serves { AreServed (circuit_in beginning.now) (served_in beginning.now) }
    requires begins { MayBegin (circuit_in beginning.now) (given_in beginning.now) }
    ensures answer { IfOk result (IsAnswer (task_of (circuit_in beginning.now) request.now (given_in beginning.now))) }
    ensures ended { IfErr result (IsEnded (task_of (circuit_in beginning.now) request.now (given_in beginning.now))) }
{
    search(beginning, *request)
}

// The text of a board on which each property that was asked for has an outcome: a sheet where all were, else an answer.
fn decided(
    alloc: Global,
    circuit: &Circuit,
    request: &SolveRequest,
    board: &Board,
) -> Result<Ending, Status>
    requires answered { (given : List CheckedEntry) × IsAnswered (task_of circuit.now request.now given) board.now }
    requires property { HasProperty circuit.now request.now }
    ensures found { (given : List CheckedEntry) → IsAnswered (task_of circuit.now request.now given) board.now
        → IfOk result (λ ending. EndsFor circuit.now request.now given ending.status ending.text.items) }
    ensures ended { IfErr result (λ status. status ≡ Status.Memory) }
{
    if request.all {
        return sheet_printed(alloc, circuit, board);
    }
    printed(alloc, circuit, request, board)
}

// The sheet of a board on which each property has an outcome.
fn sheet_printed(alloc: Global, circuit: &Circuit, board: &Board) -> Result<Ending, Status>
    requires circuit { board.now.circuit ≡ circuit.now }
    requires each { properties_of board.now.served ≡ property_numbers circuit.now }
    requires settled { IsSettled board.now.served }
    ensures found { IfOk result (λ ending. IsSheetPrinted circuit.now board.now ending.status ending.text.items) }
    ensures ended { IfErr result (λ status. status ≡ Status.Memory) }
{
    match board_sheet(alloc, circuit, board) {
        Ok(BoardSheet { counts, text }) => Ok(Ending {
            status: Status::Done(Done::All {
                lassos: counts.lassos,
                holds: counts.holds,
                unknown: counts.unknown,
                entries: entry_count(board),
            }),
            text,
        }),
        Err(_) => Err(Status::Memory),
    }
}

// The text of a report: the sheet of its board where all properties were asked for, else what was spent.
fn undecided(
    alloc: Global,
    circuit: &Circuit,
    request: &SolveRequest,
    report: Report,
) -> Result<Ending, Status>
    requires report { (given : List CheckedEntry) × IsReport (task_of circuit.now request.now given) report }
    ensures found { (given : List CheckedEntry) → IsReport (task_of circuit.now request.now given) report
        → IfOk result (λ ending. EndsFor circuit.now request.now given ending.status ending.text.items) }
    ensures ended { IfErr result (λ status. status ≡ Status.Memory) }
{
    if request.all {
        return sheet_open(alloc, circuit, report);
    }
    with_text(alloc, Status::Unknown(report))
}

// The report with the sheet of its board.
fn sheet_open(alloc: Global, circuit: &Circuit, report: Report) -> Result<Ending, Status>
    requires { report.board.circuit ≡ circuit.now }
    ensures status { IfOk result (λ ending. ending.status ≡ Status.Unknown report) }
    ensures text { IfOk result (λ ending. IsSheetOfReport circuit.now report ending.text.items) }
    ensures ended { IfErr result (λ status. status ≡ Status.Memory) }
{
    match board_sheet(alloc, circuit, &report.board) {
        Ok(BoardSheet { text, .. }) => Ok(Ending {
            status: Status::Unknown(report),
            text,
        }),
        Err(_) => Err(Status::Memory),
    }
}

pub(crate) fn limits_of(request: &SolveRequest) -> Limits
    ensures { result ≡ limits_of request.now }
{
    Limits {
        workers: request.workers,
        conflicts: request.conflicts,
        steps: request.steps,
        skeletons: request.skeletons,
        lassos: if request.all { 0 } else { request.lassos },
        depth: request.depth,
    }
}

// The text of the outcome of the property, which the board has.
pub(crate) fn printed(
    alloc: Global,
    circuit: &Circuit,
    request: &SolveRequest,
    board: &Board,
) -> Result<Ending, Status>
    requires answered { (given : List CheckedEntry)
        × IsAnswered (task_for circuit.now (request.now.property ∷ []) request.now given) board.now }
    requires property { request.now.property < length circuit.now.justice }
    ensures found { IfOk result (λ ending. IsPrinted circuit.now request.now board.now.limit ending.status ending.text.items) }
    ensures text { IfOk result (λ ending. IsTextOfOutcome circuit.now request.now.property board.now.entries
        (outcome_of board.now.served request.now.property) ending.text.items) }
    ensures ended { IfErr result (λ status. status ≡ Status.Memory) }
{
    let written = match board.outcome(request.property) {
        Some(Found::Lasso(lasso)) => stimulus_text(alloc, circuit, request, lasso),
        Some(Found::Holds(refutation)) => {
            certificate_text(alloc, circuit, request, board, refutation)
        }
        None => unreachable!(),
    };
    match written {
        Ok(ending) => Ok(ending),
        Err(_) => Err(Status::Memory),
    }
}

// The answer with the stimulus of the lasso, cut where it first stands for one.
fn stimulus_text(
    alloc: Global,
    circuit: &Circuit,
    request: &SolveRequest,
    lasso: &Lasso,
) -> Result<Ending, AllocError>
    requires fair { IsFairLassoOf circuit.now request.now.property lasso.now }
    requires property { request.now.property < length circuit.now.justice }
    ensures printed { (most : ℕ) → IfOk result (λ ending. IsPrinted circuit.now request.now most ending.status ending.text.items) }
    ensures text { IfOk result (λ ending. IsStimulusOf circuit.now request.now.property lasso.now ending.text.items) }
{
    written_stimuli_are_good(circuit);
    good_answers_are_true(circuit);
    let j = request.property;
    let short = first_lasso(alloc, circuit, j, lasso)?;
    let Lasso {
        start,
        inputs,
        from,
    } = short;
    let positions = inputs.len() as u64;
    let stimulus = Stimulus {
        latches: start,
        inputs,
    };
    let text = stimulus::write(alloc, j, &stimulus)?;
    Ok(Ending {
        status: Status::Done(Done::Lasso {
            property: j,
            positions,
            from,
        }),
        text,
    })
}

// The answer with the certificate of the board's list.
fn certificate_text(
    alloc: Global,
    circuit: &Circuit,
    request: &SolveRequest,
    board: &Board,
    refutation: &Refutation,
) -> Result<Ending, AllocError>
    requires good { IsGoodRefutation circuit.now (plain board.now.entries) request.now.property refutation.now.uses refutation.now.proof }
    requires circuit { board.now.circuit ≡ circuit.now }
    requires property { request.now.property < length circuit.now.justice }
    ensures printed { IfOk result (λ ending. IsPrinted circuit.now request.now board.now.limit ending.status ending.text.items) }
    ensures text { IfOk result (λ ending.
        ending.text.items ≡ certificate_text request.now.property (certificate_of board.now.entries refutation.now)) }
{
    written_certificates_are_good(circuit);
    good_answers_are_true(circuit);
    board.holds();
    let j = request.property;
    let text = certificate::write(alloc, j, board.entries(), refutation)?;
    Ok(Ending {
        status: Status::Done(Done::Holds {
            property: j,
            entries: entry_count(board),
        }),
        text,
    })
}

pub(crate) fn entry_count(board: &Board) -> u32
    ensures { result ≡ length board.now.entries }
{
    board.holds();
    board.entries().len() as u32
}
