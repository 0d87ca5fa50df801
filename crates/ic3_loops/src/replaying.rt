//! Paths from the nodes of a search: the inputs of the nodes are given again, from a state that was found. The main call
//! is `way_of`.
ghost use Rattle.std.specs.Prelude.{◌≡◌, ◌<◌, ◌++◌, ◌∷◌, [], length, Some, None, IfOk, OnOk};
ghost use Rattle.aig_semantics.specs.Runs.{position_of, successor, MeetsConstraints};
ghost use Rattle.ic3_loops.specs.Blocking.{AreNodes, CanGo, IsGoneAlong, LeadsOn, state_at};

use crate::ending::successor_of;
use crate::obligations::{Node, Way, state_at};
use crate::step_solver::StepSolver;
use circuit::{Circuit, Position};
use ic3_semantics::Goal;
use items::Items;
use std::alloc::{AllocError, Global};

/// The positions of the way from the state of a node to the goal.
pub(crate) fn way_of<S: StepSolver>(
    alloc: Global,
    _goal: &Goal<'_>,
    nodes: &Vec<Node>,
    first: u64,
    steps: &S,
) -> Result<Items<Position>, AllocError>
    requires nodes { AreNodes (S.seen steps.now).question _goal.now nodes.now.items }
    requires first { first < length nodes.now.items }
    ensures { IfOk result (LeadsOn (S.seen steps.now).question _goal.now (state_at nodes.now.items first)) }
{
    let c = steps.circuit();
    let mut way = Items::new(alloc);
    let mut state = Items::from_slice(alloc, state_at(nodes, first))?;
    let mut at = first;
    'nodes: loop {
        match go_along(alloc, c, &nodes[at as usize].way, &mut state, &mut way)? {
            Some(next) => at = next,
            None => return Ok(way),
        }
    }
}

// Goes by the inputs of a node, if it has a position, and answers the number of the next node.
fn go_along(
    alloc: Global,
    c: &Circuit,
    by: &Way,
    state: &mut Items<bool>,
    way: &mut Items<Position>,
) -> Result<Option<u64>, AllocError>
    requires { CanGo c.now by.now state.old }
    ensures { IfOk result (IsGoneAlong c.now by.now state.old state.new way.old way.new) }
{
    match by {
        Way::Goal(_) => Ok(None),
        Way::Last(position) => {
            step(alloc, c, &position.inputs, state, way)?;
            Ok(None)
        }
        Way::Step(position, next) => {
            step(alloc, c, &position.inputs, state, way)?;
            Ok(Some(*next))
        }
    }
}

// Puts the position of a state and inputs at the end, and takes its successor as the state.
fn step(
    alloc: Global,
    c: &Circuit,
    inputs: &Items<bool>,
    state: &mut Items<bool>,
    way: &mut Items<Position>,
) -> Result<(), AllocError>
    requires { MeetsConstraints c.now (position_of state.old inputs.now) }
    ensures state { OnOk result (state.new ≡ successor c.now (position_of state.old inputs.now)) }
    ensures way { OnOk result (way.new ≡ way.old ++ position_of state.old inputs.now ∷ []) }
{
    let position = Position {
        latches: state.try_copy(alloc)?,
        inputs: inputs.try_copy(alloc)?,
    };
    *state = successor_of(alloc, c, &position)?;
    way.push(position)
}
