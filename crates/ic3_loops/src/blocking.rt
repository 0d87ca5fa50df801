//! The last frame is strengthened: one obligation after another is blocked, until no state of the goal is left in it, or a
//! path is found. The main call is `strengthen`. To block an obligation is to go from it to one before it in the frame
//! below, and to one before that: the last of them has a start, and then they are a path, or no step leads into it, and a
//! lemma excludes its state. Each state that is found stands for a cube of states that take the same way.
ghost use Rattle.std.specs.Prelude.{◌≡◌, ◌+◌, ◌<◌, ◌≤◌, true, false, length, IfOk, IfErr, OnOk};
ghost use Rattle.proof_semantics.specs.Clauses.{cube_value, values_of, is_part};
ghost use Rattle.edge.specs.Ends.{CountsConflicts, IsEnd};
ghost use Rattle.ic3_frames.specs.Frames.{frame_at};
ghost use Rattle.ic3_frames.specs.Room.{room, allowed_by};
ghost use Rattle.ic3_semantics.specs.Searching.{IsReachEnd};
ghost use Rattle.ic3_semantics.specs.Stepping.{IsOver, IsPredecessor};
ghost use Rattle.ic3_generalise.specs.Cubes.{value_literals, IsBased};
ghost use Rattle.ic3_loops.specs.Sound.{IsSearch, IsGoalOf, IsBlocked, KeepsQuestion, Agree};
ghost use Rattle.ic3_semantics.specs.Searching.{CountsUpTo};
ghost use Rattle.ic3_loops.specs.Propagating.{Narrows};
ghost use Rattle.ic3_loops.specs.Keeping.{Keeps, Bounds};
ghost use Rattle.ic3_loops.specs.Blocking.{AreObligations, IsOpen, IsBefore, TellsConsecution, IsPutIn, IsKeptWith, IsBlockedAt, IsChained, IsBlockedNext};

use crate::aim::Aim;
use crate::generalizing::generalize;
use crate::lifting::lift_step;
use crate::obligations::{
    Consecution, Lifted, Node, Obligation, Obligations, Top, Way, cube_at, put_due, put_node,
    state_at, take_next,
};
use crate::replaying::way_of;
use crate::step_solver::StepSolver;
use circuit::Position;
use cnf::Cube;
use edge::{Meter, SolveEnd};
use ic3_frames::Frames;
use ic3_generalise::{based, holds_in, misses_starts, state_cube};
use ic3_semantics::{Found, ReachEnd};
use items::Items;
use std::alloc::{AllocError, Global};

/// What blocking an obligation comes to.
#[derive(Drop)]
pub(crate) enum Blocked {
    /// The positions of a path to the goal.
    Path(Items<Position>),
    /// The last frame has no state of the goal.
    Missed,
    /// There is less room.
    More,
}

/// What a question for a step into an obligation comes to.
#[derive(Clone, Copy, Drop)]
pub(crate) enum ConsecutionEnd {
    /// Its state is a start.
    Start,
    /// This one, of a state before it in the frame below, is blocked first.
    Before(Obligation),
    /// A lemma excludes its state.
    Excluded,
}

/// Puts lemmas into the frames until the last one has no state of the goal; or answers the positions of a path. Each
/// lemma is counted, and takes room.
pub(crate) fn strengthen<S: StepSolver>(
    aim: &Aim<'_, '_>,
    steps: &mut S,
    frames: &mut Frames,
    meter: &mut Meter,
) -> Result<Option<Items<Position>>, ReachEnd>
    requires search { IsSearch aim.now.starts.now (S.seen steps.old) frames.old }
    requires two { 2 ≤ length frames.old }
    requires goal { IsGoalOf (S.seen steps.old) aim.now.goal.now }
    ensures blocked { IfOk result (IsBlocked (S.seen steps.old).question aim.now.goal.now frames.new) }
    ensures kept { OnOk result (Keeps aim.now.starts.now (S.seen steps.old) (S.seen steps.new) frames.old frames.new
        meter.old meter.new) }
    ensures bounded { Bounds (S.seen steps.old) (S.seen steps.new) frames.old meter.old meter.new }
    ensures end { IfErr result (IsReachEnd meter.new) }
{
    let top = Top {
        aim,
        level: frames.len() - 1,
    };
    let mut obligations = Obligations {
        nodes: Vec::new(aim.alloc),
        queue: Vec::new(aim.alloc),
    };
    'obligations: loop {
        match block_next(&top, &mut obligations, steps, frames, meter)? {
            Blocked::Path(positions) => return Ok(Some(positions)),
            Blocked::Missed => return Ok(None),
            Blocked::More => {}
        }
    }
}

// Blocks the next obligation: a path, no state of the goal in the last frame, or a lemma more.
fn block_next<S: StepSolver>(
    top: &Top<'_, '_>,
    obligations: &mut Obligations,
    steps: &mut S,
    frames: &mut Frames,
    meter: &mut Meter,
) -> Result<Blocked, ReachEnd>
    requires search { IsSearch top.now.aim.now.starts.now (S.seen steps.old) frames.old }
    requires top { top.now.level + 1 ≡ length frames.old }
    requires goal { IsGoalOf (S.seen steps.old) top.now.aim.now.goal.now }
    requires obligations { AreObligations (S.seen steps.old).question top.now.aim.now.goal.now top.now.level obligations.old }
    ensures outcome { IfOk result (IsBlockedNext (S.seen steps.old).question top.now.aim.now.goal.now top.now.level frames.old frames.new) }
    ensures obligations { OnOk result (AreObligations (S.seen steps.old).question top.now.aim.now.goal.now top.now.level obligations.new) }
    ensures kept { OnOk result (Keeps top.now.aim.now.starts.now (S.seen steps.old) (S.seen steps.new) frames.old frames.new
        meter.old meter.new) }
    ensures bounded { Bounds (S.seen steps.old) (S.seen steps.new) frames.old meter.old meter.new }
    ensures end { IfErr result (IsReachEnd meter.new) }
{
    match take_next(top, obligations, steps, frames, meter)? {
        Some(due) => block(top, due, obligations, steps, frames, meter),
        None => Ok(Blocked::Missed),
    }
}

// The same of the obligation that was taken.
fn block<S: StepSolver>(
    top: &Top<'_, '_>,
    due: Obligation,
    obligations: &mut Obligations,
    steps: &mut S,
    frames: &mut Frames,
    meter: &mut Meter,
) -> Result<Blocked, ReachEnd>
    requires search { IsSearch top.now.aim.now.starts.now (S.seen steps.old) frames.old }
    requires top { top.now.level + 1 ≡ length frames.old }
    requires obligations { AreObligations (S.seen steps.old).question top.now.aim.now.goal.now top.now.level obligations.old }
    requires due { IsOpen top.now.level frames.old obligations.old.nodes.items due }
    ensures outcome { IfOk result (IsBlockedNext (S.seen steps.old).question top.now.aim.now.goal.now top.now.level frames.old frames.new) }
    ensures obligations { OnOk result (AreObligations (S.seen steps.old).question top.now.aim.now.goal.now top.now.level obligations.new) }
    ensures kept { OnOk result (Keeps top.now.aim.now.starts.now (S.seen steps.old) (S.seen steps.new) frames.old frames.new
        meter.old meter.new) }
    ensures bounded { Bounds (S.seen steps.old) (S.seen steps.new) frames.old meter.old meter.new }
    ensures end { IfErr result (IsReachEnd meter.new) }
{
    match block_chain(top, due, obligations, steps, frames, meter)? {
        Some(first) => {
            let way = way_of(
                top.aim.alloc,
                top.aim.goal,
                &obligations.nodes,
                first,
                steps,
            )?;
            Ok(Blocked::Path(way))
        }
        None => Ok(Blocked::More),
    }
}

// Goes from an obligation to one before it, a level at a time: to a start, and answers its node, or to a state that a
// lemma excludes. All but a start are put into the queue.
fn block_chain<S: StepSolver>(
    top: &Top<'_, '_>,
    due: Obligation,
    obligations: &mut Obligations,
    steps: &mut S,
    frames: &mut Frames,
    meter: &mut Meter,
) -> Result<Option<u64>, ReachEnd>
    requires search { IsSearch top.now.aim.now.starts.now (S.seen steps.old) frames.old }
    requires top { top.now.level + 1 ≡ length frames.old }
    requires obligations { AreObligations (S.seen steps.old).question top.now.aim.now.goal.now top.now.level obligations.old }
    requires due { IsOpen top.now.level frames.old obligations.old.nodes.items due }
    ensures outcome { IfOk result (IsChained (length (S.seen steps.old).question.circuit.latches) top.now.aim.now.starts.now
        frames.old frames.new obligations.new.nodes.items) }
    ensures obligations { OnOk result (AreObligations (S.seen steps.old).question top.now.aim.now.goal.now top.now.level obligations.new) }
    ensures kept { OnOk result (Keeps top.now.aim.now.starts.now (S.seen steps.old) (S.seen steps.new) frames.old frames.new
        meter.old meter.new) }
    ensures bounded { Bounds (S.seen steps.old) (S.seen steps.new) frames.old meter.old meter.new }
    ensures end { IfErr result (IsReachEnd meter.new) }
{
    let mut at = due;
    'levels: loop {
        match block_at(top, at, obligations, steps, frames, meter)? {
            ConsecutionEnd::Start => return Ok(Some(at.node)),
            ConsecutionEnd::Before(before) => at = before,
            ConsecutionEnd::Excluded => return Ok(None),
        }
    }
}

// One level of that.
fn block_at<S: StepSolver>(
    top: &Top<'_, '_>,
    at: Obligation,
    obligations: &mut Obligations,
    steps: &mut S,
    frames: &mut Frames,
    meter: &mut Meter,
) -> Result<ConsecutionEnd, ReachEnd>
    requires search { IsSearch top.now.aim.now.starts.now (S.seen steps.old) frames.old }
    requires top { top.now.level + 1 ≡ length frames.old }
    requires obligations { AreObligations (S.seen steps.old).question top.now.aim.now.goal.now top.now.level obligations.old }
    requires due { IsOpen top.now.level frames.old obligations.old.nodes.items at }
    ensures outcome { IfOk result (IsBlockedAt (length (S.seen steps.old).question.circuit.latches) top.now.level
        top.now.aim.now.starts.now frames.old frames.new obligations.new.nodes.items at) }
    ensures obligations { OnOk result (AreObligations (S.seen steps.old).question top.now.aim.now.goal.now top.now.level obligations.new) }
    ensures kept { OnOk result (Keeps top.now.aim.now.starts.now (S.seen steps.old) (S.seen steps.new) frames.old frames.new
        meter.old meter.new) }
    ensures bounded { Bounds (S.seen steps.old) (S.seen steps.new) frames.old meter.old meter.new }
    ensures end { IfErr result (IsReachEnd meter.new) }
{
    let state = state_at(&obligations.nodes, at.node);
    if holds_in(top.aim.starts, state) {
        return Ok(ConsecutionEnd::Start);
    }
    let below = at.level - 1;
    let cube = cube_at(&obligations.nodes, at.node);
    let asked = asked_about(top.aim.alloc, top.aim.starts, state, cube)?;
    let asking = Consecution {
        below,
        state,
        into: cube,
        asked: &asked,
    };
    let found = consecution(top.aim, &asking, steps, frames, meter)?;
    Ok(keep(obligations, at, below, found)?)
}

// Puts an obligation into the queue, and makes one of the step before it, from the frame `below`, if there is one.
fn keep(
    obligations: &mut Obligations,
    at: Obligation,
    below: u64,
    found: Option<Lifted>,
) -> Result<ConsecutionEnd, AllocError>
    ensures due { OnOk result (IsPutIn at obligations.old.queue.items obligations.new.queue.items) }
    ensures kept { IfOk result (IsKeptWith obligations.old.nodes.items obligations.new.nodes.items at below found) }
{
    put_due(&mut obligations.queue, at)?;
    match found {
        Some(Lifted { cube, position }) => {
            let way = Way::Step(position, at.node);
            let node = put_node(&mut obligations.nodes, Node { cube, way })?;
            Ok(ConsecutionEnd::Before(Obligation { node, level: below }))
        }
        None => Ok(ConsecutionEnd::Excluded),
    }
}

// Whether no step leads into a node whose state is no start, from the frame below its own: a step, lifted, or a lemma that
// excludes the state.
fn consecution<S: StepSolver>(
    aim: &Aim<'_, '_>,
    asking: &Consecution<'_>,
    steps: &mut S,
    frames: &mut Frames,
    meter: &mut Meter,
) -> Result<Option<Lifted>, ReachEnd>
    requires search { IsSearch aim.now.starts.now (S.seen steps.old) frames.old }
    requires level { asking.now.below + 1 < length frames.old }
    requires size { length asking.now.state.now ≡ length (S.seen steps.old).question.circuit.latches }
    requires frame { allowed_by (frame_at frames.old (asking.now.below + 1)) asking.now.state.now ≡ true }
    requires based { IsBased aim.now.starts.now (value_literals 0 asking.now.state.now) asking.now.into.now asking.now.asked.now }
    ensures outcome { IfOk result (TellsConsecution (S.seen steps.old).question frames.old frames.new
        asking.now.below asking.now.into.now) }
    ensures kept { OnOk result (Keeps aim.now.starts.now (S.seen steps.old) (S.seen steps.new) frames.old frames.new
        meter.old meter.new) }
    ensures bounded { Bounds (S.seen steps.old) (S.seen steps.new) frames.old meter.old meter.new }
    ensures end { IfErr result (IsReachEnd meter.new) }
{
    match steps.predecessor(aim.alloc, asking.below, asking.asked, meter)? {
        Found::Step(position) => Ok(Some(from_start(aim, asking, position, steps, frames, meter)?)),
        Found::Missing(part) => {
            generalize(aim, asking, part, steps, frames, meter)?;
            Ok(None)
        }
    }
}

// The cube that is asked about: that of a node whose state is no start, with a literal by which the state differs from the
// starts, if it has none.
fn asked_about(
    alloc: Global,
    starts: &Cube,
    state: &[bool],
    cube: &Cube,
) -> Result<Cube, AllocError>
    requires over { IsOver (length state.now) starts.now }
    requires outside { cube_value (values_of state.now) starts.now ≡ false }
    requires part { is_part cube.now (value_literals 0 state.now) ≡ true }
    ensures { IfOk result (IsBased starts.now (value_literals 0 state.now) cube.now) }
{
    let whole = state_cube(alloc, state)?;
    let copy = cube.clone()?;
    based(alloc, starts, &whole, copy)
}

// The position of a step that was found, lifted. Where its cube meets the starts, that of a step from a start, if the
// solver finds one.
fn from_start<S: StepSolver>(
    aim: &Aim<'_, '_>,
    asking: &Consecution<'_>,
    position: Position,
    steps: &mut S,
    frames: &Frames,
    meter: &mut Meter,
) -> Result<Lifted, SolveEnd>
    requires agree { Agree (S.seen steps.old).lemmas frames.now }
    requires over { IsOver (length (S.seen steps.old).question.circuit.latches) asking.now.asked.now }
    requires part { is_part asking.now.into.now asking.now.asked.now ≡ true }
    requires found { IsPredecessor (S.seen steps.old) asking.now.below asking.now.asked.now position }
    ensures before { IfOk result (IsBefore (S.seen steps.old).question frames.now asking.now.below asking.now.into.now) }
    ensures same { (S.seen steps.new) ≡ (S.seen steps.old) }
    ensures counted { CountsConflicts meter.old meter.new }
    ensures end { IfErr result (IsEnd meter.new) }
{
    let found = lifted(aim.alloc, asking, asking.below, position, steps, frames)?;
    if misses_starts(aim.starts, &found.cube) {
        return Ok(found);
    }
    match steps.predecessor(aim.alloc, 0, asking.asked, meter) {
        Ok(Found::Step(first)) => {
            drop(found);
            Ok(lifted(aim.alloc, asking, 0, first, steps, frames)?)
        }
        Ok(Found::Missing(_)) => Ok(found),
        Err(end) => {
            drop(found);
            Err(end)
        }
    }
}

// The position of a step from a level up to the one that was asked, with a cube of states that its inputs lead into the
// cube of the node.
fn lifted<S: StepSolver>(
    alloc: Global,
    asking: &Consecution<'_>,
    _level: u64,
    position: Position,
    steps: &S,
    _frames: &Frames,
) -> Result<Lifted, AllocError>
    requires agree { Agree (S.seen steps.now).lemmas _frames.now }
    requires over { IsOver (length (S.seen steps.now).question.circuit.latches) asking.now.asked.now }
    requires part { is_part asking.now.into.now asking.now.asked.now ≡ true }
    requires level { _level ≤ asking.now.below }
    requires found { IsPredecessor (S.seen steps.now) _level asking.now.asked.now position }
    ensures { IfOk result (IsBefore (S.seen steps.now).question _frames.now asking.now.below asking.now.into.now) }
{
    let cube = lift_step(alloc, steps.circuit(), &position, asking.into, &[])?;
    Ok(Lifted { cube, position })
}
