//! Workers that take turns on one thread. The main call is `run_turns`.

ghost use Rattle.std.specs.Prelude.{◌≡◌, ◌≤◌, [], map, length, vec_capacity, IfOk, IfErr};
ghost use Rattle.std.specs.Arc.{arc_value};
ghost use Rattle.wall_store.specs.Boards.{IsSoundList, most_entries};
ghost use Rattle.fair_workers.specs.Runs.{AreLimits, AreServed, IsAnswer, IsEnded, ServesOne};
ghost use Rattle.fair_workers.specs.BoardWorkers.{ServeTask, HaveEnded, task_in};
ghost use Rattle.fair_workers.specs.Ends.{AreDone};

use crate::board_workers::{BoardWorker, RunTask, due, ends_of, next_running, turn_of, workers_on};
use crate::ending::{WorkerEnd, ended, report_room};
use circuit::Circuit;
use entry::Checked;
use search_reports::{Ended, Limits, Report};
use std::alloc::Global;
use std::sync::Arc;
use wall_store::Board;

// The turns of the schedule.
fn by_schedule(
    alloc: Global,
    task: &RunTask<'_>,
    schedule: &[u32],
    workers: &mut [BoardWorker],
    board: Board,
) -> Board
    requires { ServeTask (task_in task.now) board workers.old }
    ensures { ServeTask (task_in task.now) result workers.new }
{
    let mut board = board;
    let mut at = due(schedule, 0, workers);
    while at < schedule.len() {
        board = turn_of(alloc, task, workers, schedule[at] as usize, board);
        at = due(schedule, at + 1, workers);
    }
    board
}

// Turns from worker 0 upwards, again and again, until all have ended.
fn round_robin(
    alloc: Global,
    task: &RunTask<'_>,
    workers: &mut [BoardWorker],
    board: Board,
) -> Board
    requires { ServeTask (task_in task.now) board workers.old }
    ensures workers { ServeTask (task_in task.now) result workers.new }
    ensures over { HaveEnded workers.new }
{
    let mut board = board;
    let mut k = next_running(workers, 0);
    while k < workers.len() {
        board = turn_of(alloc, task, workers, k, board);
        k = next_running(workers, k + 1);
    }
    board
}

// All turns of the workers, and what they then leave. Takes no memory beside their turns: there is room.
fn all_turns(
    alloc: Global,
    task: &RunTask<'_>,
    schedule: &[u32],
    workers: &mut [BoardWorker],
    board: Board,
    room: Vec<WorkerEnd>,
) -> (Board, Vec<WorkerEnd>)
    requires workers { ServeTask (task_in task.now) board workers.old }
    requires empty { room.items ≡ [] }
    requires room { task.now.limits.workers ≤ vec_capacity room }
    ensures { AreDone (task_in task.now) result.0 result.1.items }
{
    let board = by_schedule(alloc, task, schedule, workers, board);
    let board = round_robin(alloc, task, workers, board);
    let ends = ends_of(workers, room);
    (board, ends)
}

// What the workers of a task leave.
fn run_task(alloc: Global, task: &RunTask<'_>, schedule: &[u32]) -> Result<Report, Ended>
    requires served { AreServed (arc_value task.now.circuit.now) task.now.properties.now }
    requires limits { AreLimits task.now.limits }
    requires one { ServesOne task.now.limits task.now.properties.now }
    requires few_given { length task.now.given.now ≤ most_entries }
    requires given { IsSoundList (arc_value task.now.circuit.now) (map arc_value task.now.given.now) }
    ensures answer { IfOk result (IsAnswer (task_in task.now)) }
    ensures ended { IfErr result (IsEnded (task_in task.now)) }
{
    let limits = task.limits;
    let room = Vec::with_capacity(alloc, limits.workers as usize)?;
    let report = report_room(alloc, limits.workers)?;
    let board = Board::new(
        alloc,
        task.circuit,
        task.properties,
        limits.workers,
        limits.skeletons,
        task.given,
    )?;
    board.holds();
    let mut workers = workers_on(alloc, task, &board)?;
    let (board, ends) = all_turns(alloc, task, schedule, &mut workers, board, room);
    ended(task, board, &ends, report)
}

/// What workers leave that search over one list for a fair lasso of each of these properties, or for a refutation, until
/// each has one: the board with the outcomes, and what each worker has spent. The list begins with the given entries, each
/// sound behind those before it.
///
/// A worker asks for an open property and serves it until that has an outcome; workers begin at places spread over the
/// properties. On a full list it goes through those that are open once more, and then ends.
///
/// The last workers are lasso workers, as many as the limits say, but never all. A lasso worker simulates first, and then
/// searches for lassos of one position more at a time. Before each search it asks whether its property is open. It ends where
/// that has an outcome, which may be its own, where its conflicts are spent, or where its depth is done. It adds nothing to
/// the list.
///
/// A turn of a worker is its work up to its next event of the board, that event included, or to its end, or, of a lasso
/// worker, one search that finds nothing. The schedule says who takes the first turns; a number of it that is no worker's,
/// or that of a worker that has ended, is skipped. Then the workers take turns from worker 0 upwards, again and again. No
/// clause says who takes a turn; tests show it.
///
/// A worker that is refused memory ends, be it at its start, and the others go on. All outcomes come before want of memory,
/// and that before a report without one of them (clauses of the inner `ended`, and none of this call). `Spent` comes only
/// where a property has no outcome, and either the list is full and its entries allow a skeleton of each such property, or
/// each worker has spent its conflicts or its steps, a lasso worker its conflicts or its depth.
/// Whatever their limit is, no worker takes more steps than `most_steps` says; so a limit above that is never spent. In
/// turns below `most_turns`, in ascending order, it found what it added to the list.
pub fn run_turns(
    alloc: Global,
    c: &Arc<Circuit>,
    properties: &[u32],
    limits: Limits,
    schedule: &[u32],
    given: &[Arc<Checked>],
) -> Result<Report, Ended>
    requires served { AreServed (arc_value c.now) properties.now }
    requires limits { AreLimits limits }
    requires one { ServesOne limits properties.now }
    requires few_given { length given.now ≤ most_entries }
    requires given { IsSoundList (arc_value c.now) (map arc_value given.now) }
    ensures answer { IfOk result (IsAnswer (record {
      circuit = arc_value c.now;
      properties = properties.now;
      limits = limits;
      given = map arc_value given.now;
    })) }
    ensures ended { IfErr result (IsEnded (record {
      circuit = arc_value c.now;
      properties = properties.now;
      limits = limits;
      given = map arc_value given.now;
    })) }
{
    let task = RunTask {
        circuit: c,
        properties,
        limits,
        given,
    };
    run_task(alloc, &task, schedule)
}
