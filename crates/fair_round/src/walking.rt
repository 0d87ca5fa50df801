//! The walk along a skeleton, from each of its positions to the next. The main call is `walk`. It asks for any position at
//! which the next literal is true, which then stands in the place of the skeleton's own. Where there is none, the wall
//! excludes all such skeletons.

ghost use Rattle.std.specs.Prelude.{◌≡◌, ◌+◌, ◌-◌, ◌*◌, ◌<◌, ◌≤◌, [], ◌∷◌, ◌++◌, length, slice_index_or, IfOk, IfErr, IfSome, IfNone, OnOk};
ghost use Rattle.aig_semantics.specs.Circuits.{fair_literals};
ghost use Rattle.aig_semantics.specs.Runs.{successor, MeetsConstraints};
ghost use Rattle.fair_round.specs.Spending.{IsStop, Asks};
ghost use Rattle.fair_round.specs.Scopes.{IsScope, IsAllowedIn, entries_of};
ghost use Rattle.fair_round.specs.Walks.{EndsPossible, IsPieceOf, IsAdvanceTo, IsWalk, skeleton_of, states};

use crate::scope::Scope;
use crate::stopping::Stop;
use crate::ways::{Bar, asked};
use circuit::{Circuit, Position, eval_into, next_into};
use edge::Meter;
use fair_semantics::{Kind, Situation};
use ic3::{Goal, Reached, Start};
use items::Items;
use std::alloc::{AllocError, Global};

/// What going on to the next situation comes to: a run to one that stands in its place, or a wall.
#[derive(Drop)]
pub(crate) enum Advance {
    Piece(Items<Position>, Situation),
    Barred(Bar),
}

/// What a walk comes to: a run for each situation but the first; or a wall, and the runs before it.
#[derive(Drop)]
pub(crate) enum Walked {
    Pieces(Items<Items<Position>>),
    Barred(Bar, Items<Items<Position>>),
}

/// Literal k of the property and of fairness.
pub(crate) fn fair_literal(c: &Circuit, j: u32, k: usize) -> u64
    requires property { j < length c.now.justice }
    requires inside { k < length (fair_literals c.now j) }
    ensures value { result ≡ slice_index_or (fair_literals c.now j) k 0 }
    ensures range { result ≤ 2 * c.now.max + 1 }
{
    let _limits = c.max();
    let own = c.property(j as usize);
    if k < own.len() {
        return own[k];
    }
    c.fairness()[k - own.len()]
}

// The latches' next values.
fn successor_of(alloc: Global, c: &Circuit, p: &Position) -> Result<Items<bool>, AllocError>
    requires { MeetsConstraints c.now p.now }
    ensures { IfOk result (λ next. next ≡ successor c.now p.now) }
{
    let mut values = vec![in alloc; false; c.max() as usize + 1]?;
    eval_into(c, p.latches.as_slice(), p.inputs.as_slice(), &mut values);
    let mut next = vec![in alloc; false; c.latches().len()]?;
    next_into(c, &values, &mut next);
    Ok(Items::from_vec(next))
}

fn situation_of(alloc: Global, c: &Circuit, position: Position) -> Result<Situation, AllocError>
    requires { MeetsConstraints c.now position }
    ensures { IfOk result (λ s. s ≡ record { position = position; successor = successor c.now position }) }
{
    let successor = successor_of(alloc, c, &position)?;
    Ok(Situation {
        position,
        successor,
    })
}

// All but the last position, and that one.
fn split_last(positions: Items<Position>) -> Option<(Items<Position>, Position)>
    ensures none { IfNone result (positions ≡ []) }
    ensures some { IfSome result (λ parts. positions ≡ parts.0 ++ parts.1 ∷ []) }
{
    let mut positions = positions.into_vec();
    let last = positions.pop()?;
    Some((Items::from_vec(positions), last))
}

// A run to another situation.
fn piece_to(alloc: Global, c: &Circuit, positions: Items<Position>) -> Result<Advance, AllocError>
    requires { EndsPossible c.now positions }
    ensures { IfOk result (IsPieceOf c.now positions) }
{
    match split_last(positions) {
        Some((before, last)) => Ok(Advance::Piece(before, situation_of(alloc, c, last)?)),
        None => unreachable!(),
    }
}

/// A run from the successor of the situation before situation `k` to some position at which literal `k` is true and which
/// the entries allow in its place, or a wall that excludes the skeleton.
fn advance_to(
    alloc: Global,
    scope: &Scope<'_>,
    situations: &[Situation],
    k: usize,
    meter: &mut Meter,
) -> Result<Advance, Stop>
    requires scope { IsScope scope.now }
    requires allowed { IsAllowedIn scope.now (skeleton_of situations.now) }
    requires behind { 0 < k }
    requires inside { k < length situations.now }
    ensures advance { IfOk result (IsAdvanceTo scope.now.circuit.now (entries_of scope.now) scope.now.property situations.now k) }
    ensures stop { IfErr result (IsStop meter.new) }
    ensures counted { Asks (length scope.now.circuit.now.latches) 1 meter.old meter.new }
{
    let start = Start::State(situations[k - 1].successor.try_copy(alloc)?);
    let goal = Goal::Literal {
        literal: fair_literal(scope.circuit, scope.property, k),
        avoid: &[],
    };
    match asked(alloc, scope, &start, &goal, meter)? {
        Reached::Path(positions) => Ok(piece_to(alloc, scope.circuit, positions)?),
        Reached::Closed { clauses, uses } => Ok(Advance::Barred(Bar {
            kind: Kind::Wall,
            clauses,
            uses,
        })),
    }
}

/// Walks from the first situation to the last. Each run puts a situation in the place of the skeleton's own, and the
/// skeleton stays allowed.
pub(crate) fn walk(
    alloc: Global,
    scope: &Scope<'_>,
    situations: &mut Vec<Situation>,
    meter: &mut Meter,
) -> Result<Walked, Stop>
    requires scope { IsScope scope.now }
    requires allowed { IsAllowedIn scope.now (skeleton_of situations.old.items) }
    requires some { 0 < length situations.old.items }
    ensures walk { IfOk result (IsWalk scope.now.circuit.now (entries_of scope.now) situations.new.items) }
    ensures allowed { OnOk result (IsAllowedIn scope.now (skeleton_of situations.new.items)) }
    ensures first { OnOk result (slice_index_or (states situations.new.items) 0 []
        ≡ slice_index_or (states situations.old.items) 0 []) }
    ensures size { OnOk result (length situations.new.items ≡ length situations.old.items) }
    ensures stop { IfErr result (IsStop meter.new) }
    ensures counted { Asks (length scope.now.circuit.now.latches) (length situations.old.items - 1) meter.old meter.new }
{
    let mut pieces = Items::new(alloc);
    for k in 1..situations.len() {
        match advance_to(alloc, scope, situations.as_slice(), k, meter)? {
            Advance::Piece(before, to) => {
                situations[k] = to;
                pieces.push(before)?;
            }
            Advance::Barred(bar) => return Ok(Walked::Barred(bar, pieces)),
        }
    }
    Ok(Walked::Pieces(pieces))
}
