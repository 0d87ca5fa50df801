//! Obligations of a search: cubes that lead to the goal, each with a level, in a queue. The main type is `Obligations`.
ghost use Rattle.std.specs.Prelude.{◌≡◌, ℕ, ◌+◌, ◌<◌, ◌≤◌, true, false, [], ◌∷◌, ◌++◌, length, IfOk, IfErr, IfSome, IfNone, OnOk};
ghost use Rattle.std.specs.List.{All};
ghost use Rattle.edge.specs.Ends.{CountsConflicts, IsEnd};
ghost use Rattle.ic3_frames.specs.Frames.{frame_at};
ghost use Rattle.ic3_frames.specs.Room.{allowed_by};
ghost use Rattle.ic3_semantics.specs.Searching.{IsReachEnd, MeetsLiteral};
ghost use Rattle.ic3_semantics.specs.Stepping.{MeetsFrom};
ghost use Rattle.ic3_loops.specs.Sound.{IsSearch, IsGoalOf};
ghost use Rattle.ic3_loops.specs.Lifting.{IsGoalLifted};
ghost use Rattle.ic3_loops.specs.Blocking.{way_state, state_at, cube_at, AreNodes, IsDue, IsOpen, IsPutIn, IsFirst, IsStateFirst, IsLastFirst, IsLiteralFirst, IsNext, AreObligations, levels_left, left_above};

use crate::aim::Aim;
use crate::lifting::lift_goal;
use crate::step_solver::StepSolver;
use circuit::Position;
use cnf::Cube;
use edge::{Held, Meter, SolveEnd};
use ic3_frames::Frames;
use ic3_generalise::{misses_starts, state_cube};
use ic3_semantics::{Goal, ReachEnd};
use items::Items;
use std::alloc::{AllocError, Global};

/// How a state leads to the goal. The other states of its cube do by the same inputs.
#[derive(Drop)]
pub(crate) enum Way {
    /// It is the goal.
    Goal(Items<bool>),
    /// It is that of a position that meets the literal as goal.
    Last(Position),
    /// It is that of a position whose successor lies in the cube of the node with this number.
    Step(Position, u64),
}

impl Way {
    fn state(&self) -> &[bool]
        ensures { result.now ≡ way_state self.now }
    {
        match self {
            Way::Goal(state) => state.as_slice(),
            Way::Last(position) => position.latches.as_slice(),
            Way::Step(position, _) => position.latches.as_slice(),
        }
    }
}

/// A cube of states that lead to the goal, and how one of them does, which was found.
#[derive(Drop)]
pub(crate) struct Node {
    pub(crate) cube: Cube,
    pub(crate) way: Way,
}

/// A position that was found before a cube, and a cube of states that step there by its inputs.
#[derive(Drop)]
pub(crate) struct Lifted {
    pub(crate) cube: Cube,
    pub(crate) position: Position,
}

/// A question for a step from the frame of the level `below` into a cube, of a node whose state is no start: `asked` has
/// the cube's literals, and one at least by which the state differs from the starts.
#[derive(Drop)]
pub(crate) struct Consecution<'a> {
    pub(crate) below: u64,
    pub(crate) state: &'a [bool],
    pub(crate) into: &'a Cube,
    pub(crate) asked: &'a Cube,
}

/// What is to be shown: that the frame of a level need not have the cube of the node with this number.
#[derive(Clone, Copy, Drop)]
pub(crate) struct Obligation {
    pub(crate) node: u64,
    pub(crate) level: u64,
}

/// The last frame of a search: what the search aims at, and the number of that frame.
#[derive(Drop)]
pub(crate) struct Top<'a, 'b> {
    pub(crate) aim: &'a Aim<'a, 'b>,
    pub(crate) level: u64,
}

/// Nodes in the order in which they came, numbered from 0, and the obligations that are left. The last obligation is the
/// next: its level is the lowest, and of these it came last.
#[derive(Drop)]
pub(crate) struct Obligations {
    pub(crate) nodes: Vec<Node>,
    pub(crate) queue: Vec<Obligation>,
}

/// The state of the node with this number.
pub(crate) fn state_at(nodes: &Vec<Node>, node: u64) -> &[bool]
    requires { node < length nodes.now.items }
    ensures { result.now ≡ state_at nodes.now.items node }
{
    nodes[node as usize].way.state()
}

/// The cube of the node with this number.
pub(crate) fn cube_at(nodes: &Vec<Node>, node: u64) -> &Cube
    requires { node < length nodes.now.items }
    ensures { result.now ≡ cube_at nodes.now.items node }
{
    &nodes[node as usize].cube
}

/// Puts a node behind the others, and answers its number.
pub(crate) fn put_node(nodes: &mut Vec<Node>, node: Node) -> Result<u64, AllocError>
    ensures number { IfOk result (λ number. number ≡ length nodes.old.items) }
    ensures nodes { OnOk result (nodes.new.items ≡ nodes.old.items ++ node ∷ []) }
{
    let number = nodes.len() as u64;
    nodes.push(node)?;
    Ok(number)
}

// Where an obligation of a level goes: behind those of its level and of the levels above.
fn place_of(queue: &[Obligation], level: u64) -> usize
    ensures { result ≤ length queue.now }
{
    let mut place = queue.len();
    'places: while place > 0 {
        if queue[place - 1].level >= level {
            return place;
        }
        place -= 1;
    }
    0
}

/// Puts an obligation into the queue.
pub(crate) fn put_due(queue: &mut Vec<Obligation>, o: Obligation) -> Result<(), AllocError>
    ensures { OnOk result (IsPutIn o queue.old.items queue.new.items) }
{
    let place = place_of(queue.as_slice(), o.level);
    queue.insert(place, o)?;
    Ok(())
}

// The lowest level above this one, up to `top`, whose frame allows the state.
fn level_above(frames: &Frames, level: u64, top: u64, state: &[bool]) -> Option<u64>
    ensures found { IfSome result (λ next. (level < next) × (next ≤ top)
        × (allowed_by (frame_at frames.now next) state.now ≡ true)) }
    ensures lowest { IfSome result (λ next. (k : ℕ) → level < k → k < next
        → allowed_by (frame_at frames.now k) state.now ≡ false) }
    ensures none { IfNone result ((next : ℕ) → level < next → next ≤ top
        → allowed_by (frame_at frames.now next) state.now ≡ false) }
{
    let mut next = level;
    'levels: while next < top {
        next += 1;
        if frames.at(next).allows(state) {
            return Some(next);
        }
    }
    None
}

// Puts an obligation that its frame excludes back at the lowest level above its own whose frame allows its state; where
// there is none up to `top`, it is dropped.
fn raise(
    frames: &Frames,
    top: u64,
    state: &[bool],
    o: Obligation,
    queue: &mut Vec<Obligation>,
) -> Result<(), AllocError>
    requires { o.level ≤ top }
    ensures due { OnOk result ((count : ℕ) → o.node < count → All (IsDue count top) queue.old.items
        → All (IsDue count top) queue.new.items) }
    ensures smaller { OnOk result (levels_left top queue.new.items < levels_left top queue.old.items + left_above top o) }
{
    match level_above(frames, o.level, top, state) {
        Some(level) => put_due(
            queue,
            Obligation {
                node: o.node,
                level,
            },
        ),
        None => Ok(()),
    }
}

// Takes the first obligation whose frame allows its state. Those before it are put back at higher levels, or dropped.
fn take_open(
    top: u64,
    nodes: &Vec<Node>,
    queue: &mut Vec<Obligation>,
    frames: &Frames,
) -> Result<Option<Obligation>, AllocError>
    requires { All (IsDue (length nodes.now.items) top) queue.old.items }
    ensures due { OnOk result (All (IsDue (length nodes.now.items) top) queue.new.items) }
    ensures allowed { IfOk result (λ found. IfSome found (IsOpen top frames.now nodes.now.items)) }
{
    'queue: while let Some(o) = queue.pop() {
        let state = state_at(nodes, o.node);
        if frames.at(o.level).allows(state) {
            return Ok(Some(o));
        }
        raise(frames, top, state, o, queue)?;
    }
    Ok(None)
}

// The goal state, where the frame of a level allows it.
fn state_node(
    alloc: Global,
    to: &[bool],
    frames: &Frames,
    level: u64,
) -> Result<Option<Node>, AllocError>
    ensures { IfOk result (IsStateFirst to.now (frame_at frames.now level)) }
{
    if !frames.at(level).allows(to) {
        return Ok(None);
    }
    let cube = state_cube(alloc, to)?;
    let way = Way::Goal(Items::from_slice(alloc, to)?);
    Ok(Some(Node { cube, way }))
}

// The cube of a position that meets the literal as goal.
fn goal_cube<S: StepSolver>(
    alloc: Global,
    literal: u64,
    position: &Position,
    steps: &S,
) -> Result<Cube, AllocError>
    requires { MeetsLiteral (S.seen steps.now).question literal (S.seen steps.now).avoid position.now }
    ensures { let q = (S.seen steps.now).question in
        IfOk result (IsGoalLifted q.circuit q.view q.start (S.seen steps.now).avoid literal position.now) }
{
    lift_goal(
        alloc,
        steps.circuit(),
        steps.view(),
        steps.start(),
        steps.avoid(),
        literal,
        position,
    )
}

// The node of a position that meets the literal as goal, from a state of the frame of a level up to `_top`.
fn last_node<S: StepSolver>(
    alloc: Global,
    literal: u64,
    _level: u64,
    _top: u64,
    position: Position,
    steps: &S,
) -> Result<Node, AllocError>
    requires level { _level ≤ _top }
    requires found { MeetsFrom (S.seen steps.now) _level literal position }
    ensures { IfOk result (IsLastFirst (S.seen steps.now) _top literal) }
{
    let cube = goal_cube(alloc, literal, &position, steps)?;
    let way = Way::Last(position);
    Ok(Node { cube, way })
}

// A node of a position that meets the literal as goal. Where its cube meets the starts, that of a position from a start,
// if the solver finds one.
fn last_from_start<S: StepSolver>(
    aim: &Aim<'_, '_>,
    literal: u64,
    top: u64,
    node: Node,
    steps: &mut S,
    meter: &mut Meter,
) -> Result<Node, SolveEnd>
    requires { IsLastFirst (S.seen steps.old) top literal node }
    ensures first { IfOk result (IsLastFirst (S.seen steps.old) top literal) }
    ensures same { (S.seen steps.new) ≡ (S.seen steps.old) }
    ensures end { IfErr result (IsEnd meter.new) }
    ensures counted { CountsConflicts meter.old meter.new }
{
    if misses_starts(aim.starts, &node.cube) {
        return Ok(node);
    }
    match steps.meets_goal(aim.alloc, 0, literal, meter) {
        Ok(Some(position)) => {
            drop(node);
            Ok(last_node(aim.alloc, literal, 0, top, position, steps)?)
        }
        Ok(None) => Ok(node),
        Err(end) => {
            drop(node);
            Err(end)
        }
    }
}

// A position that meets the literal as goal, with its cube, if the frame of a level allows one.
fn literal_node<S: StepSolver>(
    aim: &Aim<'_, '_>,
    literal: u64,
    level: u64,
    steps: &mut S,
    meter: &mut Meter,
) -> Result<Option<Node>, SolveEnd>
    ensures found { IfOk result (IsLiteralFirst (S.seen steps.old) level literal) }
    ensures same { (S.seen steps.new) ≡ (S.seen steps.old) }
    ensures end { IfErr result (IsEnd meter.new) }
    ensures counted { CountsConflicts meter.old meter.new }
{
    match steps.meets_goal(aim.alloc, level, literal, meter)? {
        Some(position) => {
            let node = last_node(aim.alloc, literal, level, level, position, steps)?;
            Ok(Some(last_from_start(aim, literal, level, node, steps, meter)?))
        }
        None => Ok(None),
    }
}

// A node of the goal that the last frame allows, if there is one. `top` is the number of the last frame.
fn first_node<S: StepSolver>(
    aim: &Aim<'_, '_>,
    top: u64,
    steps: &mut S,
    frames: &Frames,
    meter: &mut Meter,
) -> Result<Option<Node>, ReachEnd>
    requires search { IsSearch aim.now.starts.now (S.seen steps.old) frames.now }
    requires goal { IsGoalOf (S.seen steps.old) aim.now.goal.now }
    ensures first { IfOk result (IsFirst (S.seen steps.old).question aim.now.goal.now frames.now top) }
    ensures same { (S.seen steps.new) ≡ (S.seen steps.old) }
    ensures end { IfErr result (IsReachEnd meter.new) }
    ensures counted { CountsConflicts meter.old meter.new }
{
    match aim.goal {
        Goal::State(to) => Ok(state_node(aim.alloc, to, frames, top)?),
        Goal::Literal { literal, .. } => Ok(literal_node(aim, *literal, top, steps, meter)?),
    }
}

// The obligation of a state of the goal at the last level, if its frame has one.
fn begin<S: StepSolver>(
    aim: &Aim<'_, '_>,
    top: u64,
    nodes: &mut Vec<Node>,
    steps: &mut S,
    frames: &Frames,
    meter: &mut Meter,
) -> Result<Option<Obligation>, ReachEnd>
    requires search { IsSearch aim.now.starts.now (S.seen steps.old) frames.now }
    requires goal { IsGoalOf (S.seen steps.old) aim.now.goal.now }
    requires nodes { AreNodes (S.seen steps.old).question aim.now.goal.now nodes.old.items }
    ensures nodes { OnOk result (AreNodes (S.seen steps.old).question aim.now.goal.now nodes.new.items) }
    ensures more { OnOk result (length nodes.old.items ≤ length nodes.new.items) }
    ensures next { IfOk result (IsNext (S.seen steps.old).question aim.now.goal.now top frames.now nodes.new.items) }
    ensures same { (S.seen steps.new) ≡ (S.seen steps.old) }
    ensures end { IfErr result (IsReachEnd meter.new) }
    ensures counted { CountsConflicts meter.old meter.new }
{
    match first_node(aim, top, steps, frames, meter)? {
        Some(first) => {
            let node = put_node(nodes, first)?;
            Ok(Some(Obligation { node, level: top }))
        }
        None => Ok(None),
    }
}

/// Takes the next obligation whose frame allows its state, or begins with a state of the goal in the last frame; `None`
/// where there is none of either.
pub(crate) fn take_next<S: StepSolver>(
    top: &Top<'_, '_>,
    obligations: &mut Obligations,
    steps: &mut S,
    frames: &Frames,
    meter: &mut Meter,
) -> Result<Option<Obligation>, ReachEnd>
    requires search { IsSearch top.now.aim.now.starts.now (S.seen steps.old) frames.now }
    requires goal { IsGoalOf (S.seen steps.old) top.now.aim.now.goal.now }
    requires obligations { AreObligations (S.seen steps.old).question top.now.aim.now.goal.now top.now.level obligations.old }
    ensures obligations { OnOk result (AreObligations (S.seen steps.old).question top.now.aim.now.goal.now top.now.level obligations.new) }
    ensures next { IfOk result (IsNext (S.seen steps.old).question top.now.aim.now.goal.now top.now.level
        frames.now obligations.new.nodes.items) }
    ensures same { (S.seen steps.new) ≡ (S.seen steps.old) }
    ensures end { IfErr result (IsReachEnd meter.new) }
    ensures counted { CountsConflicts meter.old meter.new }
{
    match take_open(
        top.level,
        &obligations.nodes,
        &mut obligations.queue,
        frames,
    )? {
        Some(due) => Ok(Some(due)),
        None => begin(
            top.aim,
            top.level,
            &mut obligations.nodes,
            steps,
            frames,
            meter,
        ),
    }
}
