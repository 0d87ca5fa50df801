//! A run under way: where its states were first met and its literals last true. The main calls are
//! `visit`, which goes one position on, and `loop_from`.
ghost use Rattle.std.specs.Prelude.{◌≡◌, ℕ, ◌+◌, ◌<◌, ◌≤◌, [], ◌∷◌, ◌++◌, length, map, All, IsTrue, ◌↔◌, IfOk, IfSome, IfNone};
ghost use Rattle.std.specs.Bool.{OnTrue};
ghost use Rattle.aig_semantics.specs.declared.traces.Position.{Position};
ghost use Rattle.aig_semantics.specs.Literals.{literal_in};
ghost use Rattle.aig_semantics.specs.Valuations.{valuation};
ghost use Rattle.aig_semantics.specs.Runs.{literal_at, position_of, successor};
ghost use Rattle.aig_semantics.specs.Circuits.{fair_literals};
ghost use Rattle.stimulus.specs.Walks.{watched_after, GoesOn, ClosesFrom};

use crate::places::{Places, keep_place, packed};
use circuit::{Circuit, eval_into, literal_value, next_into};
use items::Items;
use std::alloc::{AllocError, Global};
use std::mem;

/// A literal, and one more than the last position where it was true, or 0.
#[derive(Clone, Copy)]
pub(crate) struct Watched {
    pub(crate) literal: u64,
    pub(crate) end: u64,
}

/// What is kept of the positions so far.
#[derive(Drop)]
pub(crate) struct Walk {
    /// The first place of each state.
    pub(crate) places: Places,
    /// The state that comes next.
    pub(crate) next: Items<bool>,
    /// The same, packed.
    pub(crate) key: Vec<u8>,
    /// The literals that a fair loop makes true.
    pub(crate) watched: Vec<Watched>,
}

// Whether the literals are all true.
fn are_true(values: &[bool], literals: &[u64]) -> bool
    ensures { IsTrue result ↔ All (λ literal. IsTrue (literal_in values.now literal)) literals.now }
{
    literals
        .iter()
        .all(|literal| literal_value(values, *literal))
}

// A watched literal after the position with these values and this number.
fn watched_after(values: &[bool], number: u64, w: Watched) -> Watched
    ensures { result ≡ watched_after (literal_in values.now) number w }
{
    if literal_value(values, w.literal) {
        Watched {
            literal: w.literal,
            end: number,
        }
    } else {
        w
    }
}

// Keeps the number of a position for each watched literal that is true there.
fn note(values: &[bool], number: u64, watched: &mut [Watched])
    ensures { watched.new ≡ map (watched_after (literal_in values.now) number) watched.old }
{
    for w in watched.iter_mut() {
        *w = watched_after(values, number, *w);
    }
}

// The latches' next values at a position with these values.
fn state_behind(alloc: Global, c: &Circuit, values: &[bool]) -> Result<Items<bool>, AllocError>
    ensures { IfOk result (λ state. state ≡ map (λ latch. literal_in values.now latch.next) c.now.latches) }
{
    let mut state = vec![in alloc; false; c.latches().len()]?;
    next_into(c, values, &mut state);
    Ok(Items::from_vec(state))
}

/// Goes one position on, with these inputs, where every constraint is true there; the answer tells whether it is so.
/// `number` counts positions from 1. The valuation of the position is left in `values`.
pub(crate) fn visit(
    alloc: Global,
    c: &Circuit,
    inputs: &[bool],
    number: u64,
    values: &mut [bool],
    walk: &mut Walk,
) -> Result<bool, AllocError>
    requires latches { length walk.old.next ≡ length c.now.latches }
    requires inputs { length inputs.now ≡ length c.now.inputs }
    requires values { length values.old ≡ c.now.max + 1 }
    requires number { 1 ≤ number }
    ensures allowed { IfOk result (λ allowed. IsTrue allowed ↔ All (λ literal. IsTrue (literal_at c.now (position_of walk.old.next inputs.now) literal)) c.now.constraints) }
    ensures goes { IfOk result (λ allowed. OnTrue allowed (GoesOn c.now inputs.now number walk.old walk.new)) }
{
    eval_into(c, walk.next.as_slice(), inputs, values);
    if !are_true(values, c.constraints()) {
        return Ok(false);
    }
    note(values, number, &mut walk.watched);
    walk.next = state_behind(alloc, c, values)?;
    let later = packed(alloc, walk.next.as_slice())?;
    let now = mem::replace(&mut walk.key, later);
    keep_place(&mut walk.places, now, number - 1)?;
    Ok(true)
}

/// The place from which a loop closes that has all that is watched. Of the places with the state that comes next it
/// is the first, since from there on the most is seen.
pub(crate) fn loop_from(walk: &Walk) -> Option<u64>
    ensures found { IfSome result (ClosesFrom walk.now) }
    ensures none { IfNone result ((from : ℕ) → ClosesFrom walk.now from → ⊥) }
{
    let from = *walk.places.get(walk.key.as_slice())?;
    if walk.watched.iter().all(|w| from < w.end) {
        Some(from)
    } else {
        None
    }
}
