//! States that were reached, in which a skeleton may begin. The main call is `pooled`.

ghost use Rattle.std.specs.Prelude.{◌≡◌, ◌<◌, ◌≤◌, ◌∷◌, [], ◌++◌, map, take, length, slice_index_or, All, IfOk, IfErr, IfSome, OnOk};
ghost use Rattle.edge.specs.Ends.{CountsConflicts};
ghost use Rattle.skeleton.specs.Finding.{BeginsNone, IsFirst};
ghost use Rattle.fair_round.specs.Spending.{IsStop};
ghost use Rattle.fair_round.specs.Scopes.{IsScope, IsQueryOf, AreAvoided, entries_of};
ghost use Rattle.fair_round.specs.Pools.{IsRun, IsHit, IsBegun, IsReachedRun, IsBegunIn};

use crate::scope::Scope;
use crate::stopping::{Stop, solver_stop};
use circuit::{Circuit, Position};
use cnf::Cube;
use edge::Meter;
use fair_semantics::Skeleton;
use items::Items;
use round_choices::lies_in;
use skeleton::{First, Query};
use std::alloc::{AllocError, Global};

/// How many runs are kept.
const MOST_RUNS: usize = 64;

/// An initial run; a skeleton may begin in the states of its first `left` positions.
#[derive(Drop)]
pub(crate) struct Run {
    pub(crate) positions: Items<Position>,
    pub(crate) left: usize,
}

/// A skeleton that begins in the state of a position of a run.
#[derive(Drop)]
pub(crate) struct Hit {
    pub(crate) at: usize,
    pub(crate) skeleton: Skeleton,
}

/// A skeleton, and an initial run to its first state.
#[derive(Drop)]
pub(crate) struct Begun {
    pub(crate) way: Items<Position>,
    pub(crate) skeleton: Skeleton,
}

fn copy_position(alloc: Global, p: &Position) -> Result<Position, AllocError>
    ensures { IfOk result (λ copy. copy ≡ p.now) }
{
    Ok(Position {
        latches: p.latches.try_copy(alloc)?,
        inputs: p.inputs.try_copy(alloc)?,
    })
}

/// Puts copies of the positions behind a run. After an error the run is lost.
pub(crate) fn append(
    alloc: Global,
    run: &mut Vec<Position>,
    positions: &[Position],
) -> Result<(), AllocError>
    ensures { OnOk result (run.new.items ≡ run.old.items ++ positions.now) }
{
    for position in positions {
        run.push(copy_position(alloc, position)?)?;
    }
    Ok(())
}

/// Puts a copy of the position behind a run. After an error the run is lost.
pub(crate) fn append_one(
    alloc: Global,
    run: &mut Vec<Position>,
    position: &Position,
) -> Result<(), AllocError>
    ensures { OnOk result (run.new.items ≡ run.old.items ++ position.now ∷ []) }
{
    run.push(copy_position(alloc, position)?)?;
    Ok(())
}

// The first `n` positions.
fn front(alloc: Global, positions: &[Position], n: usize) -> Result<Items<Position>, AllocError>
    requires { n ≤ length positions.now }
    ensures { IfOk result (λ copy. copy ≡ take n positions.now) }
{
    let mut copy = Vec::new(alloc);
    append(alloc, &mut copy, &positions[..n])?;
    Ok(Items::from_vec(copy))
}

// A skeleton that begins in the state, or a cube of states in which none begins.
fn first_asked(
    alloc: Global,
    scope: &Scope<'_>,
    query: &mut Query,
    state: &[bool],
    meter: &mut Meter,
) -> Result<First, Stop>
    requires scope { IsScope scope.now }
    requires query { IsQueryOf scope.now query.old }
    requires state { length state.now ≡ length scope.now.circuit.now.latches }
    ensures first { IfOk result (IsFirst scope.now.circuit.now scope.now.property (entries_of scope.now) state.now) }
    ensures query { IsQueryOf scope.now query.new }
    ensures stop { IfErr result (IsStop meter.new) }
    ensures counted { CountsConflicts meter.old meter.new }
{
    match query.with_first(alloc, scope.view, state, meter) {
        Ok(first) => Ok(first),
        Err(end) => Err(solver_stop(end, meter)),
    }
}

// Adds a cube to those in which no skeleton begins.
fn add_cube(_scope: &Scope<'_>, avoid: &mut Items<Cube>, cube: Cube) -> Result<(), AllocError>
    requires cube { BeginsNone _scope.now.circuit.now _scope.now.property (entries_of _scope.now) cube }
    requires avoid { AreAvoided _scope.now avoid.old }
    ensures { AreAvoided _scope.now avoid.new }
{
    avoid.push(cube)?;
    Ok(())
}

/// A skeleton that begins in the state. Where there is none, the state is avoided from now on.
pub(crate) fn tried(
    alloc: Global,
    scope: &Scope<'_>,
    query: &mut Query,
    state: &[bool],
    avoid: &mut Items<Cube>,
    meter: &mut Meter,
) -> Result<Option<Skeleton>, Stop>
    requires scope { IsScope scope.now }
    requires query { IsQueryOf scope.now query.old }
    requires state { length state.now ≡ length scope.now.circuit.now.latches }
    requires avoid { AreAvoided scope.now avoid.old }
    ensures begun { IfOk result (λ found. IfSome found
        (IsBegunIn scope.now.circuit.now scope.now.property (entries_of scope.now) state.now)) }
    ensures avoid { AreAvoided scope.now avoid.new }
    ensures query { IsQueryOf scope.now query.new }
    ensures stop { IfErr result (IsStop meter.new) }
    ensures counted { CountsConflicts meter.old meter.new }
{
    if lies_in(avoid.as_slice(), state) {
        return Ok(None);
    }
    match first_asked(alloc, scope, query, state, meter)? {
        First::Skeleton(skeleton) => Ok(Some(skeleton)),
        First::Never(cube) => {
            add_cube(scope, avoid, cube)?;
            Ok(None)
        }
    }
}

// The state of a position.
fn state_of(positions: &[Position], at: usize) -> &[bool]
    requires { at < length positions.now }
    ensures { result.now ≡ slice_index_or (map (λ p. p.latches) positions.now) at [] }
{
    positions[at].latches.as_slice()
}

// The last of the first `left` positions in whose state a skeleton begins.
fn newest(
    alloc: Global,
    scope: &Scope<'_>,
    query: &mut Query,
    positions: &[Position],
    left: usize,
    avoid: &mut Items<Cube>,
    meter: &mut Meter,
) -> Result<Option<Hit>, Stop>
    requires scope { IsScope scope.now }
    requires query { IsQueryOf scope.now query.old }
    requires run { IsReachedRun scope.now.circuit.now positions.now }
    requires left { left ≤ length positions.now }
    requires avoid { AreAvoided scope.now avoid.old }
    ensures hit { IfOk result (λ found. IfSome found
        (IsHit scope.now.circuit.now scope.now.property (entries_of scope.now) positions.now)) }
    ensures avoid { AreAvoided scope.now avoid.new }
    ensures query { IsQueryOf scope.now query.new }
    ensures stop { IfErr result (IsStop meter.new) }
    ensures counted { CountsConflicts meter.old meter.new }
{
    let mut at = left;
    'places: while at > 0 {
        at -= 1;
        let state = state_of(positions, at);
        if let Some(skeleton) = tried(alloc, scope, query, state, avoid, meter)? {
            return Ok(Some(Hit { at, skeleton }));
        }
    }
    Ok(None)
}

// Puts a run behind the others.
fn put(
    _c: &Circuit,
    runs: &mut Vec<Run>,
    positions: Items<Position>,
    left: usize,
) -> Result<(), AllocError>
    requires runs { All (IsRun _c.now) runs.old.items }
    requires run { IsReachedRun _c.now positions }
    requires left { left ≤ length positions }
    ensures { All (IsRun _c.now) runs.new.items }
{
    runs.push(Run { positions, left })?;
    Ok(())
}

// Takes the newest run out, where there is one.
fn take_newest(_c: &Circuit, runs: &mut Vec<Run>) -> Option<Run>
    requires { All (IsRun _c.now) runs.old.items }
    ensures run { IfSome result (IsRun _c.now) }
    ensures runs { All (IsRun _c.now) runs.new.items }
    ensures fewer { IfSome result (λ run. length runs.new.items < length runs.old.items) }
{
    runs.pop()
}

/// A skeleton that begins in a state of the runs, the newest first, and the way to it. Runs in which none begins go.
pub(crate) fn pooled(
    alloc: Global,
    scope: &Scope<'_>,
    query: &mut Query,
    runs: &mut Vec<Run>,
    avoid: &mut Items<Cube>,
    meter: &mut Meter,
) -> Result<Option<Begun>, Stop>
    requires scope { IsScope scope.now }
    requires query { IsQueryOf scope.now query.old }
    requires runs { All (IsRun scope.now.circuit.now) runs.old.items }
    requires avoid { AreAvoided scope.now avoid.old }
    ensures begun { IfOk result (λ found. IfSome found (IsBegun scope.now.circuit.now scope.now.property (entries_of scope.now))) }
    ensures runs { All (IsRun scope.now.circuit.now) runs.new.items }
    ensures avoid { AreAvoided scope.now avoid.new }
    ensures query { IsQueryOf scope.now query.new }
    ensures stop { IfErr result (IsStop meter.new) }
    ensures counted { CountsConflicts meter.old meter.new }
{
    let c = scope.circuit;
    'runs: while let Some(run) = take_newest(c, runs) {
        let Run { positions, left } = run;
        let walked = positions.as_slice();
        if let Some(hit) = newest(alloc, scope, query, walked, left, avoid, meter)? {
            let way = front(alloc, walked, hit.at)?;
            put(c, runs, positions, hit.at + 1)?;
            let skeleton = hit.skeleton;
            return Ok(Some(Begun { way, skeleton }));
        }
    }
    Ok(None)
}

// Where there is no room for one more, the oldest run goes.
fn drop_oldest(_c: &Circuit, runs: &mut Vec<Run>)
    requires { All (IsRun _c.now) runs.old.items }
    ensures { All (IsRun _c.now) runs.new.items }
{
    if runs.len() >= MOST_RUNS {
        runs.remove(0);
    }
}

/// Keeps a run whose states were reached. Where there is no room, the oldest goes.
pub(crate) fn keep(
    c: &Circuit,
    runs: &mut Vec<Run>,
    positions: Items<Position>,
) -> Result<(), AllocError>
    requires run { IsReachedRun c.now positions }
    requires runs { All (IsRun c.now) runs.old.items }
    ensures runs { All (IsRun c.now) runs.new.items }
{
    drop_oldest(c, runs);
    let left = positions.len();
    put(c, runs, positions, left)
}

// Takes the last run out, where there is one.
fn take_last(_c: &Circuit, runs: &mut Vec<Items<Position>>) -> Option<Items<Position>>
    requires { All (IsReachedRun _c.now) runs.old.items }
    ensures run { IfSome result (IsReachedRun _c.now) }
    ensures runs { All (IsReachedRun _c.now) runs.new.items }
    ensures fewer { IfSome result (λ run. length runs.new.items < length runs.old.items) }
{
    runs.pop()
}

/// Keeps runs whose states were reached.
pub(crate) fn keep_all(
    c: &Circuit,
    runs: &mut Vec<Run>,
    reached: Vec<Items<Position>>,
) -> Result<(), AllocError>
    requires reached { All (IsReachedRun c.now) reached.items }
    requires runs { All (IsRun c.now) runs.old.items }
    ensures runs { All (IsRun c.now) runs.new.items }
{
    let mut reached = reached;
    'runs: while let Some(run) = take_last(c, &mut reached) {
        keep(c, runs, run)?;
    }
    Ok(())
}
