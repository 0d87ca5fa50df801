//! How workers end, and what they leave of their task, however they shared its list. The main call is `ended`.

ghost use Rattle.std.specs.Prelude.{◌≡◌, ◌+◌, ◌<◌, ◌≤◌, [], ◌++◌, true, Ok, Err, map, length, vec_len, vec_capacity, IfOk, IfErr};
ghost use Rattle.wall_store.specs.Events.{IsSettled};
ghost use Rattle.wall_store.specs.Scanning.{all_settled};
ghost use Rattle.fair_workers.specs.Runs.{IsInBudget, IsAnswer, IsEnded};
ghost use Rattle.fair_workers.specs.BoardWorkers.{task_in};
ghost use Rattle.fair_workers.specs.Ends.{AreDone, any_refused, depths_of, end_as, with_done};

use crate::board_workers::RunTask;
use crate::lasso_search::done_of;
use crate::working::{Phase, Worker};
use edge::{Meter, Spending};
use items::Items;
use search_reports::{Ended, Report};
use std::alloc::{AllocError, Global};
use wall_store::Board;

/// What a worker had spent when it ended, the phase in which it did, and, of a lasso worker, how many positions it had done.
#[derive(Drop)]
pub(crate) struct WorkerEnd {
    pub(crate) spent: Spending,
    pub(crate) phase: Phase,
    pub(crate) done: Option<u32>,
}

/// Room for what a report says of the workers, made before their first turn.
#[derive(Drop)]
pub(crate) struct ReportRoom {
    pub(crate) spent: Vec<Spending>,
    pub(crate) depths: Vec<u32>,
}

/// Room for a report of so many workers.
pub(crate) fn report_room(alloc: Global, workers: u32) -> Result<ReportRoom, AllocError>
    ensures empty { IfOk result (λ room. (room.spent.items ≡ []) × (room.depths.items ≡ [])) }
    ensures room { IfOk result (λ room. (workers ≤ vec_capacity room.spent) × (workers ≤ vec_capacity room.depths)) }
{
    let spent = Vec::with_capacity(alloc, workers as usize)?;
    Ok(ReportRoom {
        spent,
        depths: Vec::with_capacity(alloc, workers as usize)?,
    })
}

/// What was spent, which is within the limits.
pub(crate) fn spending_of(meter: &Meter) -> Spending
    ensures spent { result ≡ meter.now }
    ensures within { IsInBudget result }
{
    let spent = meter.spending();
    let _conflicts = spent.conflicts();
    let _steps = spent.steps();
    spent
}

/// How a worker ended.
pub(crate) fn end_of(worker: &Worker) -> WorkerEnd
    ensures end { result ≡ end_as worker.now }
    ensures within { IsInBudget result.spent }
{
    WorkerEnd {
        spent: spending_of(&worker.meter),
        phase: worker.phase,
        done: done_of(&worker.lasso_search),
    }
}

// Whether a worker was refused memory.
fn any_refused(ends: &[WorkerEnd]) -> bool
    ensures { result ≡ any_refused ends.now }
{
    ends.iter().any(|end| end.phase.is_refused())
}

// What each worker had spent, from worker 0 on. Takes no memory: there is room.
fn spendings(ends: &[WorkerEnd], room: Vec<Spending>) -> Items<Spending>
    requires empty { room.items ≡ [] }
    requires room { length ends.now ≤ vec_capacity room }
    ensures { result ≡ map (λ e. e.spent) ends.now }
{
    let mut spent = room;
    for k in 0..ends.len() {
        spent.push_reserved(ends[k].spent);
    }
    Items::from_vec(spent)
}

// Puts down what a worker has done that is a lasso worker. Takes no memory: there is room.
fn put_done(done: Option<u32>, depths: &mut Vec<u32>)
    requires { vec_len depths.old < vec_capacity depths.old }
    ensures depths { depths.new.items ≡ depths.old.items ++ with_done done [] }
    ensures len { vec_len depths.new ≤ vec_len depths.old + 1 }
    ensures capacity { vec_capacity depths.new ≡ vec_capacity depths.old }
{
    if let Some(done) = done {
        depths.push_reserved(done);
    }
}

// What each lasso worker had done, in their order. Takes no memory: there is room.
fn depths(ends: &[WorkerEnd], room: Vec<u32>) -> Items<u32>
    requires empty { room.items ≡ [] }
    requires room { length ends.now ≤ vec_capacity room }
    ensures { result ≡ depths_of ends.now }
{
    let mut done = room;
    for k in 0..ends.len() {
        put_done(ends[k].done, &mut done);
    }
    Items::from_vec(done)
}

// Whether each property has an outcome.
fn is_settled(board: &Board) -> bool
    ensures { result ≡ all_settled board.now.served }
{
    board.served().iter().all(|s| s.outcome.is_some())
}

// The report of workers that are done: with all outcomes; else want of memory, where a worker was refused some; else
// without all outcomes.
fn told(task: &RunTask<'_>, ends: &[WorkerEnd], report: Report) -> Result<Report, Ended>
    requires done { AreDone (task_in task.now) report.board ends.now }
    requires spent { report.workers ≡ map (λ e. e.spent) ends.now }
    requires depths { report.depths ≡ depths_of ends.now }
    requires depth { report.depth ≡ task.now.limits.depth }
    ensures answer { IfOk result (IsAnswer (task_in task.now)) }
    ensures ended { IfErr result (IsEnded (task_in task.now)) }
    ensures first { IsSettled report.board.served → result ≡ Ok report }
    ensures refused { (IsSettled report.board.served → ⊥) → any_refused ends.now ≡ true → result ≡ Err Ended.Memory }
{
    if is_settled(&report.board) {
        return Ok(report);
    }
    if any_refused(ends) {
        return Err(Ended::Memory);
    }
    Err(Ended::Spent(report))
}

/// What workers leave that are done with the board: where each property has an outcome these; else want of memory, where a
/// worker was refused some; else a report. Takes no memory: there is room.
pub(crate) fn ended(
    task: &RunTask<'_>,
    board: Board,
    ends: &[WorkerEnd],
    room: ReportRoom,
) -> Result<Report, Ended>
    requires done { AreDone (task_in task.now) board ends.now }
    requires empty { (room.spent.items ≡ []) × (room.depths.items ≡ []) }
    requires room { (length ends.now ≤ vec_capacity room.spent) × (length ends.now ≤ vec_capacity room.depths) }
    ensures answer { IfOk result (IsAnswer (task_in task.now)) }
    ensures ended { IfErr result (IsEnded (task_in task.now)) }
    ensures first { IsSettled board.served → IfErr result (λ _. ⊥) }
    ensures refused { (IsSettled board.served → ⊥) → any_refused ends.now ≡ true → result ≡ Err Ended.Memory }
{
    let report = Report {
        board,
        workers: spendings(ends, room.spent),
        depths: depths(ends, room.depths),
        depth: task.limits.depth,
    };
    told(task, ends, report)
}
