//! The replay of a stimulus on a circuit. The main call is `replay`.
ghost use Rattle.std.specs.Prelude.{◌≡◌, ℕ, ◌+◌, ◌<◌, ◌≤◌, List, ◌++◌, None, length, map, take, Err, IsOk, IfOk, OnOk};
ghost use Rattle.aig_semantics.specs.Circuits.{fair_literals};
ghost use Rattle.aig_semantics.specs.Stimuli.{HasLasso, StandsFor};
ghost use Rattle.stimulus.specs.declared.ends.ReplayFault.{ReplayFault};
ghost use Rattle.stimulus.specs.Ends.{IfFault};
ghost use Rattle.stimulus.specs.Faults.{CanBegin, HasReplayFault};
ghost use Rattle.stimulus.specs.Places.{packed, place_at};
ghost use Rattle.stimulus.specs.Walks.{unmet};
ghost use Rattle.unless_memory.specs.Answers.{GivesSome, GivesExactlyWhere};

use crate::beginning::fault_before;
use crate::ends::{ReplayEnd, ReplayFault};
use crate::places::{Places, packed};
use crate::walks::{Walk, Watched, loop_from, visit};
use aig_semantics::{Lasso, Stimulus};
use circuit::Circuit;
use items::Items;
use std::alloc::{AllocError, Global};

/// The lasso that a stimulus stands for: of the fair lassos of property `j`, counted from 0, that are its first
/// positions the one with the fewest positions, and of these the one that goes back to the least place.
///
/// The first fault, in this order: `NoProperty` where there is no property `j`; `Width` of the first item with
/// another number of values than the circuit has latches (item 0) or inputs (item k + 1, of position k);
/// `NotInitial` of the first latch that may not begin with its value; `Constraint` of the first position where a
/// constraint is false, with no lasso before it; `NoFairLoop` where the positions end.
///
/// Time is near-linear in positions times the size of the circuit: each state is looked up in an ordered map. For each
/// state that is met the first place is kept, in one byte for eight latches and some 32 bytes more; all else is in
/// proportion to the circuit and the positions.
pub fn replay(alloc: Global, c: &Circuit, j: u32, s: &Stimulus) -> Result<Lasso, ReplayEnd>
    ensures found { IfOk result (λ lasso. StandsFor c.now j s.now (length lasso.inputs) lasso.from) }
    ensures start { IfOk result (λ lasso. lasso.start ≡ s.now.latches) }
    ensures inputs { IfOk result (λ lasso. lasso.inputs ≡ take (length lasso.inputs) s.now.inputs) }
    ensures every { (k from : ℕ) → HasLasso c.now j s.now k from → GivesSome (Err ReplayEnd.Memory) IsOk result }
    ensures fault { (fault : ReplayFault) → GivesExactlyWhere (Err ReplayEnd.Memory) (Err (ReplayEnd.Fault fault))
        (HasReplayFault c.now j s.now fault) result }
{
    find_lasso(alloc, c, j, s)
}

// The same, without what follows of it.
fn find_lasso(alloc: Global, c: &Circuit, j: u32, s: &Stimulus) -> Result<Lasso, ReplayEnd>
    ensures found { IfOk result (λ lasso. StandsFor c.now j s.now (length lasso.inputs) lasso.from) }
    ensures start { IfOk result (λ lasso. lasso.start ≡ s.now.latches) }
    ensures inputs { IfOk result (λ lasso. lasso.inputs ≡ take (length lasso.inputs) s.now.inputs) }
    ensures fault { IfFault result (HasReplayFault c.now j s.now) }
{
    if let Some(fault) = fault_before(c, j, s) {
        return Err(ReplayEnd::Fault(fault));
    }
    let mut values = vec![in alloc; false; c.max() as usize + 1]?;
    let mut walk = begin(alloc, c, j as usize, s.latches.as_slice())?;
    walk_on(alloc, c, j, s, &mut values, &mut walk)
}

// The same from the walk before its first position.
fn walk_on(
    alloc: Global,
    c: &Circuit,
    j: u32,
    s: &Stimulus,
    values: &mut [bool],
    walk: &mut Walk,
) -> Result<Lasso, ReplayEnd>
    requires can { CanBegin c.now j s.now }
    requires room { length values.old ≡ c.now.max + 1 }
    requires places { (key : List ℕ) → place_at walk.old.places key ≡ None }
    requires key { walk.old.key.items ≡ packed s.now.latches }
    requires next { walk.old.next ≡ s.now.latches }
    requires watched { walk.old.watched.items ≡ map unmet (fair_literals c.now j) }
    ensures found { IfOk result (λ lasso. StandsFor c.now j s.now (length lasso.inputs) lasso.from) }
    ensures start { IfOk result (λ lasso. lasso.start ≡ s.now.latches) }
    ensures inputs { IfOk result (λ lasso. lasso.inputs ≡ take (length lasso.inputs) s.now.inputs) }
    ensures fault { IfFault result (HasReplayFault c.now j s.now) }
{
    for (k, inputs) in s.inputs.as_slice().iter().enumerate() {
        let number = k as u64 + 1;
        let allowed = visit(alloc, c, inputs.as_slice(), number, values, walk)?;
        if !allowed {
            return Err(ReplayEnd::Fault(ReplayFault::Constraint(k as u64)));
        }
        if let Some(from) = loop_from(walk) {
            return Ok(lasso_of(alloc, s, k + 1, from)?);
        }
    }
    Err(ReplayEnd::Fault(ReplayFault::NoFairLoop))
}

// Puts the literals behind those that are watched.
fn watch(literals: &[u64], watched: &mut Vec<Watched>) -> Result<(), AllocError>
    ensures { OnOk result (watched.new.items ≡ watched.old.items ++ map unmet literals.now) }
{
    for literal in literals {
        watched.push(Watched {
            literal: *literal,
            end: 0,
        })?;
    }
    Ok(())
}

// A walk before its first position, whose state is the one given.
fn begin(alloc: Global, c: &Circuit, j: usize, state: &[bool]) -> Result<Walk, AllocError>
    requires { j < length c.now.justice }
    ensures places { IfOk result (λ walk. (key : List ℕ) → place_at walk.places key ≡ None) }
    ensures key { IfOk result (λ walk. walk.key.items ≡ packed state.now) }
    ensures next { IfOk result (λ walk. walk.next ≡ state.now) }
    ensures watched { IfOk result (λ walk. walk.watched.items ≡ map unmet (fair_literals c.now j)) }
{
    let mut watched = Vec::new(alloc);
    watch(c.property(j), &mut watched)?;
    watch(c.fairness(), &mut watched)?;
    Ok(Walk {
        places: Places::new(alloc),
        next: Items::from_slice(alloc, state)?,
        key: packed(alloc, state)?,
        watched,
    })
}

// The first positions of a stimulus as a lasso.
fn lasso_of(alloc: Global, s: &Stimulus, positions: usize, from: u64) -> Result<Lasso, AllocError>
    requires { positions ≤ length s.now.inputs }
    ensures start { IfOk result (λ lasso. lasso.start ≡ s.now.latches) }
    ensures inputs { IfOk result (λ lasso. lasso.inputs ≡ take positions s.now.inputs) }
    ensures from { IfOk result (λ lasso. lasso.from ≡ from) }
{
    let inputs = first_inputs(alloc, s, positions)?;
    match s.latches.try_copy(alloc) {
        Ok(start) => Ok(Lasso {
            start,
            inputs,
            from,
        }),
        Err(refused) => {
            drop(inputs);
            Err(refused)
        }
    }
}

// The inputs of its first positions.
fn first_inputs(
    alloc: Global,
    s: &Stimulus,
    positions: usize,
) -> Result<Items<Items<bool>>, AllocError>
    requires { positions ≤ length s.now.inputs }
    ensures { IfOk result (λ inputs. inputs ≡ take positions s.now.inputs) }
{
    let mut inputs = Items::new(alloc);
    for values in &s.inputs.as_slice()[..positions] {
        inputs.push(values.try_copy(alloc)?)?;
    }
    Ok(inputs)
}
