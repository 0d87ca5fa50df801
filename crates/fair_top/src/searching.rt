//! How the workers of `solve` search: on threads, or in turns on one thread. Code above is generic over a closure that
//! calls one of the two.

ghost use Rattle.std.specs.Prelude.{IfOk, IfErr};
ghost use Rattle.fair_workers.specs.Runs.{AreServed, ServesOne, IsAnswer, IsEnded};
ghost use Rattle.fair_top.specs.Beginnings.{circuit_in, served_in, given_in};
ghost use Rattle.fair_top.specs.Solve.{limits_of, task_for};
ghost use Rattle.fair_top.specs.Solved.{AreWithin, MayBegin};

use crate::beginnings::Beginning;
use crate::commands::limits_of;
use command_lines::SolveRequest;
use edge::Gate;
use fair_workers::{Ended, Report, run_all, run_turns};
use std::alloc::Global;
use std::sync::Wait;
use std::thread::Threads;

/// What workers leave that take turns on one thread, from worker 0 upwards.
pub(crate) fn in_turns(
    alloc: Global,
    beginning: &Beginning,
    request: &SolveRequest,
) -> Result<Report, Ended>
    requires within { AreWithin request.now }
    requires serves { AreServed (circuit_in beginning.now) (served_in beginning.now) }
    requires one { ServesOne (limits_of request.now) (served_in beginning.now) }
    requires begins { MayBegin (circuit_in beginning.now) (given_in beginning.now) }
    ensures answer { IfOk result (IsAnswer
        (task_for (circuit_in beginning.now) (served_in beginning.now) request.now (given_in beginning.now))) }
    ensures ended { IfErr result (IsEnded
        (task_for (circuit_in beginning.now) (served_in beginning.now) request.now (given_in beginning.now))) }
{
    let limits = limits_of(request);
    let served = beginning.served.as_slice();
    let given = beginning.given.as_slice();
    run_turns(alloc, &beginning.circuit, served, limits, &[], given)
}

/// What workers leave that have a thread each, and pass a gate between their rounds.
pub(crate) fn on_threads<R: Threads + Wait + Sync, G: Gate>(
    rt: &R,
    gate: &G,
    alloc: Global,
    beginning: &Beginning,
    request: &SolveRequest,
) -> Result<Report, Ended>
    requires within { AreWithin request.now }
    requires serves { AreServed (circuit_in beginning.now) (served_in beginning.now) }
    requires one { ServesOne (limits_of request.now) (served_in beginning.now) }
    requires begins { MayBegin (circuit_in beginning.now) (given_in beginning.now) }
    ensures answer { IfOk result (IsAnswer
        (task_for (circuit_in beginning.now) (served_in beginning.now) request.now (given_in beginning.now))) }
    ensures ended { IfErr result (IsEnded
        (task_for (circuit_in beginning.now) (served_in beginning.now) request.now (given_in beginning.now))) }
{
    let limits = limits_of(request);
    let served = beginning.served.as_slice();
    let given = beginning.given.as_slice();
    run_all(rt, alloc, &beginning.circuit, served, limits, given, gate)
}
