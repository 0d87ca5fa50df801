//! Workers on threads over one ledger. The main call is `run_all`.

ghost use Rattle.std.specs.Prelude.{◌≡◌, ◌≤◌, [], map, length, vec_capacity, All, IfOk, IfErr};
ghost use Rattle.std.specs.Arc.{arc_value};
ghost use Rattle.entry.specs.declared.origins.Origin.TheVariants.{Given};
ghost use Rattle.wall_store.specs.Boards.{IsSoundList, most_entries};
ghost use Rattle.fair_workers.specs.Runs.{AreLimits, AreServed, IsAnswer, IsEnded, ServesOne};
ghost use Rattle.fair_workers.specs.BoardWorkers.{task_in};
ghost use Rattle.fair_workers.specs.Ends.{AreDone};
ghost use Rattle.fair_workers.specs.OnThreads.{MayRun, HasRun, HaveRun, IsBegunFor};

use crate::board_workers::RunTask;
use crate::ending::{WorkerEnd, ended, report_room};
use crate::runners::{Runner, ThreadRun, parted, run_through, runners_of};
use circuit::Circuit;
use edge::{Bell, Gate};
use entry::Checked;
use search_reports::{Ended, Limits, Report};
use std::alloc::{AllocError, Global};
use std::sync::{Arc, Wait};
use std::thread;
use std::thread::Threads;
use wall_ledger::{Ledger, Pass};
use wall_store::Board;

// Where and for what workers run: the threads, the allocator, the task, the gate that they pass, and the bell that ends their
// searches.
#[derive(Drop)]
struct Run<'a, R: Threads + Wait + Sync, G: Gate> {
    rt: &'a R,
    alloc: Global,
    task: &'a RunTask<'a>,
    gate: &'a G,
    bell: &'a Arc<Bell>,
}

// Room for what comes back from the threads, made before any of them begins: so nothing is refused after the last turn.
#[derive(Drop)]
struct Room {
    passes: Vec<Pass>,
    ends: Vec<WorkerEnd>,
}

// Runs each worker on a thread of its own, and comes back when all have ended. With one worker, or where no thread can be
// made, they run one after the other.
fn run_each<R: Threads + Wait + Sync, G: Gate>(
    run: &Run<'_, R, G>,
    ledger: &Ledger,
    runners: &mut [Runner],
)
    requires limits { AreLimits run.now.task.now.limits }
    requires ready { All (MayRun run.now.task.now.limits run.now.task.now.properties.now ledger.now) runners.old }
    ensures { HaveRun run.now.task.now.limits ledger.now runners.old runners.new }
{
    let rt = run.rt;
    let alloc = run.alloc;
    let properties = run.task.properties;
    let limits = run.task.limits;
    let gate = run.gate;
    let bell = run.bell;
    thread::for_each_mut(
        rt,
        runners,
        limits.workers as usize,
        &move |_i: usize, runner: &mut Runner|
            requires { MayRun limits properties.now ledger.now runner.old }
            ensures { HasRun limits ledger.entry.now runner.old runner.new }
        {
            let thread_run = ThreadRun {
                rt,
                alloc,
                ledger,
                properties,
                limits,
                gate,
                bell,
            };
            run_through(&thread_run, runner);
        },
    );
}

// The same for a list of workers.
fn run_listed<R: Threads + Wait + Sync, G: Gate>(
    run: &Run<'_, R, G>,
    ledger: &Ledger,
    runners: &mut Vec<Runner>,
)
    requires limits { AreLimits run.now.task.now.limits }
    requires ready { All (MayRun run.now.task.now.limits run.now.task.now.properties.now ledger.now) runners.old.items }
    ensures { HaveRun run.now.task.now.limits ledger.now runners.old.items runners.new.items }
{
    run_each(run, ledger, runners);
}

// The ledger of a task, and a runner for each of its passes.
fn begun(alloc: Global, task: &RunTask<'_>) -> Result<(Ledger, Vec<Runner>), AllocError>
    requires served { AreServed (arc_value task.now.circuit.now) task.now.properties.now }
    requires limits { AreLimits task.now.limits }
    requires one { ServesOne task.now.limits task.now.properties.now }
    requires few_given { length task.now.given.now ≤ most_entries }
    requires given { IsSoundList (arc_value task.now.circuit.now) (map arc_value task.now.given.now) }
    requires origins { All (λ e. e.origin ≡ Given) (map arc_value task.now.given.now) }
    ensures begun { IfOk result (λ r. IsBegunFor (task_in task.now) r.0 r.1.items) }
    ensures ready { IfOk result (λ r. All (MayRun task.now.limits task.now.properties.now r.0) r.1.items) }
{
    let limits = task.limits;
    let room = Vec::with_capacity(alloc, limits.workers as usize)?;
    let made = Ledger::new(
        alloc,
        task.circuit,
        task.properties,
        limits.workers,
        limits.skeletons,
        task.given,
    )?;
    let (ledger, passes) = made;
    Ok((ledger, runners_of(passes, room)))
}

// The board that the workers of a task leave, and how each of them ended. Takes no memory.
fn all_run<R: Threads + Wait + Sync, G: Gate>(
    run: &Run<'_, R, G>,
    ledger: Ledger,
    runners: Vec<Runner>,
    room: Room,
) -> (Board, Vec<WorkerEnd>)
    requires limits { AreLimits run.now.task.now.limits }
    requires origins { All (λ e. e.origin ≡ Given) (map arc_value run.now.task.now.given.now) }
    requires begun { IsBegunFor (task_in run.now.task.now) ledger runners.items }
    requires ready { All (MayRun run.now.task.now.limits run.now.task.now.properties.now ledger) runners.items }
    requires empty { (room.passes.items ≡ []) × (room.ends.items ≡ []) }
    requires room { (run.now.task.now.limits.workers ≤ vec_capacity room.passes)
        × (run.now.task.now.limits.workers ≤ vec_capacity room.ends) }
    ensures { AreDone (task_in run.now.task.now) result.0 result.1.items }
{
    let mut runners = runners;
    run_listed(run, &ledger, &mut runners);
    let (passes, ends) = parted(runners, room.passes, room.ends);
    let board = ledger.close(passes);
    (board, ends)
}

// Room for so many workers.
fn room_for(alloc: Global, workers: u32) -> Result<Room, AllocError>
    ensures empty { IfOk result (λ room. (room.passes.items ≡ []) × (room.ends.items ≡ [])) }
    ensures room { IfOk result (λ room. (workers ≤ vec_capacity room.passes) × (workers ≤ vec_capacity room.ends)) }
{
    let passes = Vec::with_capacity(alloc, workers as usize)?;
    Ok(Room {
        passes,
        ends: Vec::with_capacity(alloc, workers as usize)?,
    })
}

// What the workers of a task leave.
fn run_task<R: Threads + Wait + Sync, G: Gate>(run: &Run<'_, R, G>) -> Result<Report, Ended>
    requires served { AreServed (arc_value run.now.task.now.circuit.now) run.now.task.now.properties.now }
    requires limits { AreLimits run.now.task.now.limits }
    requires one { ServesOne run.now.task.now.limits run.now.task.now.properties.now }
    requires few_given { length run.now.task.now.given.now ≤ most_entries }
    requires given { IsSoundList (arc_value run.now.task.now.circuit.now) (map arc_value run.now.task.now.given.now) }
    requires origins { All (λ e. e.origin ≡ Given) (map arc_value run.now.task.now.given.now) }
    ensures answer { IfOk result (IsAnswer (task_in run.now.task.now)) }
    ensures ended { IfErr result (IsEnded (task_in run.now.task.now)) }
{
    let workers = run.task.limits.workers;
    let report = report_room(run.alloc, workers)?;
    let room = room_for(run.alloc, workers)?;
    let (ledger, runners) = begun(run.alloc, run.task)?;
    let (board, ends) = all_run(run, ledger, runners, room);
    ended(run.task, board, &ends, report)
}

/// What workers leave that search at the same time, each on a thread of its own, over one list for a fair lasso of each of
/// these properties or for a refutation, until each has one: the board with the outcomes, and what each worker has spent.
/// The list begins with the given entries, none of them a worker's, each sound behind those before it.
///
/// A worker asks for an open property and serves it until that has an outcome; workers begin at places spread over the
/// properties. On a full list it goes through those that are open once more, and then ends.
///
/// The last workers are lasso workers, as many as the limits say, but never all. A lasso worker simulates first, and then
/// searches for lassos of one position more at a time. Before each search it asks whether its property is open. It ends where
/// that has an outcome, which may be its own, where its conflicts are spent, or where its depth is done. It adds nothing to
/// the list.
///
/// Where no thread can be made, workers run one after the other. Each passes the gate at its start, after each of its
/// rounds, and at its end; there it may be made to wait. May wait. Which worker finds what, and in which order, no clause
/// says.
///
/// A worker that is refused memory ends, be it at its start, and the others go on. All outcomes come before want of memory,
/// and that before a report without one of them (clauses of the inner `ended`, and none of this call). `Spent` comes only
/// where a property has no outcome, and either the list is full and its entries allow a skeleton of each such property, or
/// each worker has spent its conflicts or its steps, a lasso worker its conflicts or its depth.
/// Whatever their limit is, no worker takes more steps than `most_steps` says; so a limit above that is never spent. In
/// turns below `most_turns`, in ascending order, it found what it added to the list.
pub fn run_all<R: Threads + Wait + Sync, G: Gate>(
    rt: &R,
    alloc: Global,
    c: &Arc<Circuit>,
    properties: &[u32],
    limits: Limits,
    given: &[Arc<Checked>],
    gate: &G,
) -> Result<Report, Ended>
    requires served { AreServed (arc_value c.now) properties.now }
    requires limits { AreLimits limits }
    requires one { ServesOne limits properties.now }
    requires few_given { length given.now ≤ most_entries }
    requires given { IsSoundList (arc_value c.now) (map arc_value given.now) }
    requires origins { All (λ e. e.origin ≡ Given) (map arc_value given.now) }
    ensures answer { IfOk result (IsAnswer (record {
      circuit = arc_value c.now;
      properties = properties.now;
      limits = limits;
      given = map arc_value given.now;
    })) }
    ensures ended { IfErr result (IsEnded (record {
      circuit = arc_value c.now;
      properties = properties.now;
      limits = limits;
      given = map arc_value given.now;
    })) }
{
    let task = RunTask {
        circuit: c,
        properties,
        limits,
        given,
    };
    let bell = match Arc::new(alloc, Bell::new()) {
        Ok(bell) => bell,
        Err(_) => return Err(Ended::Memory),
    };
    let run = Run {
        rt,
        alloc,
        task: &task,
        gate,
        bell: &bell,
    };
    run_task(&run)
}
