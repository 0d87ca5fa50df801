//! Runs of workers on a model's text.

ghost use Rattle.std.specs.Prelude.{◌≡◌, ◌+◌, ◌<◌, ◌≤◌, length, IfOk, OnOk};
ghost use Rattle.std.specs.Arc.{arc_value};
ghost use Rattle.fair_workers.specs.Runs.{AreLimits, AreServed};
ghost use Rattle.worker_tests.specs.Serving.{AreFirst};

use circuit::Circuit;
use edge::Gate;
use fair_workers::{Ended, Limits, Report, run_all, run_turns};
use std::alloc::{AllocError, Global};
use std::sync::{Arc, Wait};
use std::thread::Threads;
use wall_store::sound_lists_grow;

/// How many workers there are, how many conflicts and steps each of them may count, by how many entries their list may
/// grow, how many of them are lasso workers, and to what depth these go.
#[derive(Clone, Copy)]
pub struct Numbers {
    pub workers: u32,
    pub conflicts: u64,
    pub steps: u64,
    pub skeletons: u32,
    pub lassos: u32,
    pub depth: u32,
}

/// Limits of these numbers, or of the nearest that may be: 1 to 64 workers, and up to 65,536 entries and positions.
pub fn limits(n: &Numbers) -> Limits
    ensures { AreLimits result }
{
    Limits {
        workers: within(n.workers, 1, 64),
        conflicts: n.conflicts,
        steps: n.steps,
        skeletons: within(n.skeletons, 0, 65_536),
        lassos: n.lassos,
        depth: within(n.depth, 0, 65_536),
    }
}

// The number, or the nearest one of these.
fn within(number: u32, least: u32, most: u32) -> u32
    requires { least ≤ most }
    ensures low { least ≤ result }
    ensures high { result ≤ most }
{
    if number < least {
        return least;
    }
    if most < number {
        return most;
    }
    number
}

/// Workers that search for an outcome of property 0, with no entry given.
pub fn run(
    alloc: Global,
    c: &Arc<Circuit>,
    limits: Limits,
    schedule: &[u32],
) -> Result<Report, Ended>
    requires property { 0 < length (arc_value c.now).justice }
    requires limits { AreLimits limits }
{
    sound_lists_grow(&**c);
    run_turns(alloc, c, &[0], limits, schedule, &[])
}

// The same limits, without lasso workers.
fn without_lassos(limits: Limits) -> Limits
    requires { AreLimits limits }
    ensures limits { AreLimits result }
    ensures none { result.lassos ≡ 0 }
{
    Limits {
        lassos: 0,
        ..limits
    }
}

/// Workers that search for an outcome of each of these properties, with no entry given. None of them is a lasso worker.
pub fn run_several(
    alloc: Global,
    c: &Arc<Circuit>,
    properties: &[u32],
    limits: Limits,
    schedule: &[u32],
) -> Result<Report, Ended>
    requires served { AreServed (arc_value c.now) properties.now }
    requires limits { AreLimits limits }
{
    sound_lists_grow(&**c);
    run_turns(alloc, c, properties, without_lassos(limits), schedule, &[])
}

/// The same on threads.
pub fn run_several_threaded<R: Threads + Wait + Sync, G: Gate>(
    rt: &R,
    alloc: Global,
    c: &Arc<Circuit>,
    properties: &[u32],
    limits: Limits,
    gate: &G,
) -> Result<Report, Ended>
    requires served { AreServed (arc_value c.now) properties.now }
    requires limits { AreLimits limits }
{
    sound_lists_grow(&**c);
    run_all(rt, alloc, c, properties, without_lassos(limits), &[], gate)
}

/// The properties of the circuit whose bits are 1, of the first 64.
pub fn served_of(alloc: Global, c: &Circuit, bits: u64) -> Result<Vec<u32>, AllocError>
    ensures { IfOk result (λ properties. AreServed c.now properties.items) }
{
    let mut properties = Vec::new(alloc);
    let mut rest = bits;
    for j in 0..property_count(c) {
        push_if(&mut properties, j, rest % 2 == 1)?;
        rest /= 2;
    }
    Ok(properties)
}

// Puts property `j` behind those below it, where it is asked for.
fn push_if(properties: &mut Vec<u32>, j: u32, is_asked: bool) -> Result<(), AllocError>
    requires { AreFirst j properties.old.items }
    ensures { OnOk result (AreFirst (j + 1) properties.new.items) }
{
    if is_asked {
        return push_next(properties, j);
    }
    Ok(())
}

fn push_next(properties: &mut Vec<u32>, j: u32) -> Result<(), AllocError>
    requires { AreFirst j properties.old.items }
    ensures { OnOk result (AreFirst (j + 1) properties.new.items) }
{
    properties.push(j)?;
    Ok(())
}

// How many properties the circuit has, or 64 where it has more.
fn property_count(c: &Circuit) -> u32
    ensures there { result ≤ length c.now.justice }
    ensures few { result ≤ 64 }
{
    let count = c.property_count();
    if count < 64 { count as u32 } else { 64 }
}

/// Workers on threads that search for an outcome of property 0, with no entry given.
pub fn run_threaded<R: Threads + Wait + Sync, G: Gate>(
    rt: &R,
    alloc: Global,
    c: &Arc<Circuit>,
    limits: Limits,
    gate: &G,
) -> Result<Report, Ended>
    requires property { 0 < length (arc_value c.now).justice }
    requires limits { AreLimits limits }
{
    sound_lists_grow(&**c);
    run_all(rt, alloc, c, &[0], limits, &[], gate)
}
