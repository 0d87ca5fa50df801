//! A worker on a thread: it takes turns until it ends. The main call is `run_through`.

ghost use Rattle.std.specs.Prelude.{◌≡◌, ◌≤◌, [], false, Some, map, vec_len, vec_capacity, All};
ghost use Rattle.fair_workers.specs.Working.{is_running};
ghost use Rattle.fair_workers.specs.OnThreads.{fresh_meter, Goes, IsReady, IsThrough, MayRun, HasRun, HasEnded};

use crate::ending::{WorkerEnd, end_of};
use crate::turning::take_turn;
use crate::working::{Phase, Worker, begin};
use edge::{Bell, Gate, Meter, Point};
use search_reports::Limits;
use shared_lists::{Held, SharedList};
use std::alloc::Global;
use std::sync::{Arc, Wait};
use wall_ledger::{Ledger, Pass};

/// What the workers of a run share: where they wait, their ledger, the numbers of their properties, what each of them may
/// spend, the gate that they pass, and the bell that ends their searches.
#[derive(Drop)]
pub(crate) struct ThreadRun<'a, R: Wait, G: Gate> {
    pub(crate) rt: &'a R,
    pub(crate) alloc: Global,
    pub(crate) ledger: &'a Ledger,
    pub(crate) properties: &'a [u32],
    pub(crate) limits: Limits,
    pub(crate) gate: &'a G,
    pub(crate) bell: &'a Arc<Bell>,
}

/// A worker that goes to a thread and comes back: its pass, and its end once it has one.
#[derive(Drop)]
pub(crate) struct Runner {
    pub(crate) pass: Option<Pass>,
    pub(crate) end: Option<WorkerEnd>,
}

// The turns of a worker until it ends. It passes the gate after each round.
fn take_turns<R: Wait, G: Gate>(
    run: &ThreadRun<'_, R, G>,
    worker: &mut Worker,
    held: &mut Held<'_, R>,
)
    requires goes { Goes run.now.limits held.old.ledger.now held.old.pass worker.old }
    requires properties { run.now.properties.now ≡ held.old.ledger.now.properties }
    ensures goes { Goes run.now.limits held.new.ledger.now held.new.pass worker.new }
    ensures ledger { held.new.ledger.now ≡ held.old.ledger.now }
    ensures number { held.new.pass.number ≡ held.old.pass.number }
    ensures over { is_running worker.new.phase ≡ false }
{
    let number = held.number();
    while worker.phase.is_running() {
        let ledger = held.ledger;
        let searches = worker.phase.searches();
        take_turn(run.alloc, ledger.circuit(), run.properties, worker, held);
        if searches {
            run.gate.pass(number, Point::Turn);
        }
    }
}

// The work of a worker, which may have begun.
fn run_worker<R: Wait, G: Gate>(
    run: &ThreadRun<'_, R, G>,
    worker: Worker,
    held: &mut Held<'_, R>,
) -> WorkerEnd
    requires goes { Goes run.now.limits held.old.ledger.now held.old.pass worker }
    requires properties { run.now.properties.now ≡ held.old.ledger.now.properties }
    ensures number { held.new.pass.number ≡ held.old.pass.number }
    ensures through { IsThrough run.now.limits held.old.ledger.now held.new.pass result }
{
    let mut worker = worker;
    take_turns(run, &mut worker, held);
    let end = end_of(&worker);
    drop(worker);
    end
}

// A meter that has counted nothing, with the bell where a handle of it is not refused. No other meter is made for the work of
// a worker.
fn meter_of(limits: Limits, bell: &Arc<Bell>) -> Meter
    ensures { result ≡ fresh_meter limits }
{
    let meter = Meter::new(limits.conflicts, limits.steps);
    match Arc::try_clone(bell) {
        Ok(bell) => meter.with_bell(bell),
        Err(_) => meter,
    }
}

// A worker with this pass that has begun nothing yet.
fn begun_worker(
    bell: &Arc<Bell>,
    limits: Limits,
    properties: &[u32],
    _ledger: &Ledger,
    pass: &Pass,
) -> Worker
    requires { IsReady limits properties.now _ledger.now pass.now }
    ensures { Goes limits _ledger.now pass.now result }
{
    begin(properties, limits, pass.number(), meter_of(limits, bell))
}

// The work of the worker that has this pass.
fn run_held<R: Wait, G: Gate>(run: &ThreadRun<'_, R, G>, held: &mut Held<'_, R>) -> WorkerEnd
    requires { IsReady run.now.limits run.now.properties.now held.old.ledger.now held.old.pass }
    ensures number { held.new.pass.number ≡ held.old.pass.number }
    ensures through { IsThrough run.now.limits held.old.ledger.now held.new.pass result }
{
    let ledger = held.ledger;
    let worker = begun_worker(run.bell, run.limits, run.properties, ledger, &held.pass);
    run_worker(run, worker, held)
}

// Rings the bell where the worker was told that each property has an outcome.
fn ring_where_closed(bell: &Arc<Bell>, end: &WorkerEnd) {
    match end.phase {
        Phase::Closed => bell.ring(),
        _ => {}
    }
}

// The pass of a runner that may run.
fn taken(runner: &mut Runner, _limits: Limits, _properties: &[u32], _ledger: &Ledger) -> Pass
    requires { MayRun _limits _properties.now _ledger.now runner.old }
    ensures pass { runner.old.pass ≡ Some result }
    ensures ready { IsReady _limits _properties.now _ledger.now result }
{
    runner.pass.take().unwrap()
}

/// The work of a worker from its start to its end. Where memory is refused, it ends alone.
pub(crate) fn run_through<R: Wait, G: Gate>(run: &ThreadRun<'_, R, G>, runner: &mut Runner)
    requires { MayRun run.now.limits run.now.properties.now run.now.ledger.now runner.old }
    ensures { HasRun run.now.limits run.now.ledger.now runner.old runner.new }
{
    let pass = taken(runner, run.limits, run.properties, run.ledger);
    let number = pass.number();
    run.gate.pass(number, Point::Start);
    let mut held = Held {
        rt: run.rt,
        ledger: run.ledger,
        pass,
    };
    let end = run_held(run, &mut held);
    ring_where_closed(run.bell, &end);
    run.gate.pass(number, Point::Done);
    let Held { pass, .. } = held;
    pass.own_turns();
    runner.pass = Some(pass);
    runner.end = Some(end);
}

/// A runner for each pass. Takes no memory: there is room.
pub(crate) fn runners_of(passes: Vec<Pass>, room: Vec<Runner>) -> Vec<Runner>
    requires empty { room.items ≡ [] }
    requires room { vec_len passes ≤ vec_capacity room }
    ensures { map (λ r. r.pass) result.items ≡ map Some passes.items }
{
    let mut rest = passes;
    let mut runners = room;
    for number in 0..rest.len() {
        let _ = number;
        let pass = rest.remove(0);
        runners.push_reserved(Runner {
            pass: Some(pass),
            end: None,
        });
    }
    runners
}

/// The passes and the ends of runners that have both. Takes no memory: there is room.
pub(crate) fn parted(
    runners: Vec<Runner>,
    passes: Vec<Pass>,
    ends: Vec<WorkerEnd>,
) -> (Vec<Pass>, Vec<WorkerEnd>)
    requires each { All HasEnded runners.items }
    requires empty { (passes.items ≡ []) × (ends.items ≡ []) }
    requires room { (vec_len runners ≤ vec_capacity passes) × (vec_len runners ≤ vec_capacity ends) }
    ensures passes { map Some result.0.items ≡ map (λ r. r.pass) runners.items }
    ensures ends { map Some result.1.items ≡ map (λ r. r.end) runners.items }
{
    let mut rest = runners;
    let mut passes = passes;
    let mut ends = ends;
    for number in 0..rest.len() {
        let _ = number;
        let runner = rest.remove(0);
        let Runner { pass, end } = runner;
        let pass = pass.unwrap();
        let end = end.unwrap();
        passes.push_reserved(pass);
        ends.push_reserved(end);
    }
    (passes, ends)
}
