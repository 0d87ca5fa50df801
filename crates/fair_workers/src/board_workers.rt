//! The workers of a board, and whose turn it is. The main calls are `workers_on` and `turn_of`.

ghost use Rattle.std.specs.Prelude.{◌≡◌, ℕ, ◌<◌, ◌≤◌, [], true, false, All, map, length, slice_index, vec_capacity, IfOk, OnOk};
ghost use Rattle.std.specs.Arc.{arc_value};
ghost use Rattle.edge.specs.Units.{limit_of};
ghost use Rattle.wall_store.specs.Boards.{properties_of};
ghost use Rattle.fair_workers.specs.Runs.{AreLimits, IsInBudget, ServesOne};
ghost use Rattle.fair_workers.specs.Working.{is_running, Begins};
ghost use Rattle.fair_workers.specs.Ends.{end_as};
ghost use Rattle.fair_workers.specs.BoardWorkers.{task_in, IsFresh, IsBoardWorker, TakesTurn, Follows, AreWorkers, HaveEnded, runs_at, left_of};

use crate::ending::{WorkerEnd, end_of};
use crate::turning::take_turn;
use crate::working::{Worker, begin};
use circuit::Circuit;
use edge::Meter;
use entry::Checked;
use search_reports::Limits;
use shared_lists::LentBoard;
use std::alloc::{AllocError, Global};
use std::sync::Arc;
use wall_store::Board;

/// What is asked of the workers of a run: the circuit, the numbers of the properties, what they may spend, and the given
/// entries.
#[derive(Drop)]
pub(crate) struct RunTask<'a> {
    pub(crate) circuit: &'a Arc<Circuit>,
    pub(crate) properties: &'a [u32],
    pub(crate) limits: Limits,
    pub(crate) given: &'a [Arc<Checked>],
}

/// A worker of a board: its number, how many entries it has seen, and how many turns it has taken.
#[derive(Drop)]
pub(crate) struct BoardWorker {
    pub(crate) number: u32,
    pub(crate) seen: usize,
    pub(crate) turns: u32,
    pub(crate) worker: Worker,
}

// A worker that has seen so many entries, and has begun and spent nothing. No other meter is made for the work of a run.
fn new_worker(task: &RunTask<'_>, number: u32, seen: usize) -> BoardWorker
    requires limits { AreLimits task.now.limits }
    requires inside { number < task.now.limits.workers }
    requires one { ServesOne task.now.limits task.now.properties.now }
    ensures number { result.number ≡ number }
    ensures seen { result.seen ≡ seen }
    ensures turns { result.turns ≡ 0 }
    ensures meter { result.worker.meter ≡ record {
      conflicts = 0;
      conflict_limit = limit_of task.now.limits.conflicts;
      steps = 0;
      step_limit = limit_of task.now.limits.steps;
    } }
    ensures begins { Begins task.now.limits task.now.properties.now number result.worker }
{
    let limits = task.limits;
    let meter = Meter::new(limits.conflicts, limits.steps);
    BoardWorker {
        number,
        seen,
        turns: 0,
        worker: begin(task.properties, limits, number, meter),
    }
}

/// The workers over a board that each of them has seen whole, and whose entries are all given.
pub(crate) fn workers_on(
    alloc: Global,
    task: &RunTask<'_>,
    board: &Board,
) -> Result<Vec<BoardWorker>, AllocError>
    requires { IsFresh (task_in task.now) board.now }
    ensures count { IfOk result (λ made. length made.items ≡ task.now.limits.workers) }
    ensures workers { IfOk result (λ made. AreWorkers task.now.limits board.now made.items) }
{
    let mut workers = Vec::new(alloc);
    fill(task, board, &mut workers)?;
    Ok(workers)
}

// Puts the workers into a list in which there is none.
fn fill(task: &RunTask<'_>, board: &Board, workers: &mut Vec<BoardWorker>) -> Result<(), AllocError>
    requires fresh { IsFresh (task_in task.now) board.now }
    requires none { workers.old.items ≡ [] }
    ensures count { OnOk result (length workers.new.items ≡ task.now.limits.workers) }
    ensures workers { OnOk result (AreWorkers task.now.limits board.now workers.new.items) }
{
    board.holds();
    let seen = board.entries().len();
    for number in 0..task.limits.workers {
        workers.push(new_worker(task, number, seen))?;
    }
    Ok(())
}

/// A turn of a worker that has not ended, to which the board is lent.
pub(crate) fn turn_on_board(
    alloc: Global,
    c: &Arc<Circuit>,
    properties: &[u32],
    own: &mut BoardWorker,
    board: Board,
) -> Board
    requires circuit { arc_value c.now ≡ board.circuit }
    requires properties { properties.now ≡ properties_of board.served }
    requires worker { IsBoardWorker board own.old }
    requires running { is_running own.old.worker.phase ≡ true }
    ensures { TakesTurn board own.old result own.new }
{
    board.holds();
    let mut lent = LentBoard {
        board,
        number: own.number,
        seen: own.seen,
        turns: own.turns,
    };
    take_turn(alloc, c, properties, &mut own.worker, &mut lent);
    let LentBoard {
        board,
        seen,
        turns,
        ..
    } = lent;
    own.seen = seen;
    own.turns = turns;
    board
}

/// A turn of worker `k`, which has not ended.
pub(crate) fn turn_of(
    alloc: Global,
    task: &RunTask<'_>,
    workers: &mut [BoardWorker],
    k: usize,
    board: Board,
) -> Board
    requires circuit { arc_value task.now.circuit.now ≡ board.circuit }
    requires properties { task.now.properties.now ≡ properties_of board.served }
    requires workers { AreWorkers task.now.limits board workers.old }
    requires inside { k < length workers.old }
    requires running { runs_at workers.old k ≡ true }
    ensures workers { AreWorkers task.now.limits result workers.new }
    ensures follows { Follows board result }
    ensures less { left_of result workers.new < left_of board workers.old }
{
    board.holds();
    let after = turn_on_board(alloc, task.circuit, task.properties, &mut workers[k], board);
    after.holds();
    after
}

// Whether this is the number of a worker that has not ended.
fn is_due(workers: &[BoardWorker], number: u32) -> bool
    ensures { result ≡ runs_at workers.now number }
{
    let k = number as usize;
    if k >= workers.len() {
        return false;
    }
    workers[k].worker.phase.is_running()
}

/// The first place of the schedule from `from` on with the number of a worker that has not ended, or its end.
pub(crate) fn due(schedule: &[u32], from: usize, workers: &[BoardWorker]) -> usize
    requires { from ≤ length schedule.now }
    ensures low { from ≤ result }
    ensures high { result ≤ length schedule.now }
    ensures found { result < length schedule.now → runs_at workers.now (slice_index schedule.now result) ≡ true }
    ensures skipped { (i : ℕ) → from ≤ i → i < result → runs_at workers.now (slice_index schedule.now i) ≡ false }
{
    for at in from..schedule.len() {
        if is_due(workers, schedule[at]) {
            return at;
        }
    }
    schedule.len()
}

// The first worker from `from` on that has not ended, or the number of workers.
fn running_from(workers: &[BoardWorker], from: usize) -> usize
    requires { from ≤ length workers.now }
    ensures high { result ≤ length workers.now }
    ensures found { result < length workers.now → runs_at workers.now result ≡ true }
    ensures ended { (i : ℕ) → from ≤ i → i < result → runs_at workers.now i ≡ false }
{
    for k in from..workers.len() {
        if is_running_at(workers, k) {
            return k;
        }
    }
    workers.len()
}

fn is_running_at(workers: &[BoardWorker], k: usize) -> bool
    requires { k < length workers.now }
    ensures { result ≡ runs_at workers.now k }
{
    workers[k].worker.phase.is_running()
}

/// The next worker from `from` on that has not ended, and then from worker 0 on; or the number of workers, exactly
/// where all have ended.
pub(crate) fn next_running(workers: &[BoardWorker], from: usize) -> usize
    requires { from ≤ length workers.now }
    ensures high { result ≤ length workers.now }
    ensures found { result < length workers.now → runs_at workers.now result ≡ true }
    ensures over { result ≡ length workers.now → HaveEnded workers.now }
{
    let k = running_from(workers, from);
    if k < workers.len() {
        return k;
    }
    running_from(workers, 0)
}

/// How each worker ended, from worker 0 on. Takes no memory: there is room.
pub(crate) fn ends_of(workers: &[BoardWorker], room: Vec<WorkerEnd>) -> Vec<WorkerEnd>
    requires empty { room.items ≡ [] }
    requires room { length workers.now ≤ vec_capacity room }
    ensures ends { result.items ≡ map (λ m. end_as m.worker) workers.now }
    ensures within { All (λ e. IsInBudget e.spent) result.items }
{
    let mut ends = room;
    for k in 0..workers.len() {
        ends.push_reserved(end_of(&workers[k].worker));
    }
    ends
}
