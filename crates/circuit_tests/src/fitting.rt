//! Whether parts fit, seen before they are joined. The main call is `checked_join`.
ghost use Rattle.std.specs.Prelude.{◌≡◌, ℕ, ◌+◌, ◌%◌, ◌<◌, [], length, slice_index_or, IfOk, OnOk, IsTrue};
ghost use Rattle.std.specs.List.{All};
ghost use Rattle.aig_semantics.specs.Literals.{literal_in};
ghost use Rattle.aig_semantics.specs.Circuits.{fair_literals};
ghost use Rattle.aig_semantics.specs.Runs.{IsPosition, valuation_at, literal_at, successor, MeetsConstraints};
ghost use Rattle.fair_semantics.specs.Skeletons.{IsSituation, IsSkeleton, AreTrueInTurn};
ghost use Rattle.lasso_join.specs.Fitting.{LeadsTo, IsStemTo, Fit};
ghost use Rattle.circuit_tests.specs.Testing.{ArePieces};

use circuit::{
    Circuit, Lasso, Position, eval_into, is_fair_lasso, is_initial, literal_value, next_into,
};
use fair_semantics::{Situation, Skeleton};
use items::Items;
use lasso_join::{join, shortest_prefix};
use std::alloc::{AllocError, AllocFailed, Global};

/// The parts do not fit, or memory was refused.
#[derive(Debug, Drop)]
pub(crate) struct NoFit;

impl From<AllocError> for NoFit {
    fn from(_error: AllocError) -> NoFit {
        NoFit
    }
}

impl<T: Drop> From<AllocFailed<T>> for NoFit {
    fn from(_error: AllocFailed<T>) -> NoFit {
        NoFit
    }
}

fn check_same(a: &[bool], b: &[bool]) -> Result<(), NoFit>
    ensures { OnOk result (a.now ≡ b.now) }
{
    if a.len() != b.len() {
        return Err(NoFit);
    }
    for (k, value) in a.iter().enumerate() {
        if *value != b[k] {
            return Err(NoFit);
        }
    }
    Ok(())
}

fn check_constraints(values: &[bool], literals: &[u64]) -> Result<(), NoFit>
    ensures { OnOk result (All (λ literal. IsTrue (literal_in values.now literal)) literals.now) }
{
    if literals.iter().all(|l| literal_value(values, *l)) {
        return Ok(());
    }
    Err(NoFit)
}

// The valuation at a position.
fn values_at(alloc: Global, c: &Circuit, p: &Position) -> Result<Vec<bool>, NoFit>
    ensures position { OnOk result (IsPosition c.now p.now) }
    ensures values { IfOk result (λ values. values.items ≡ valuation_at c.now p.now) }
{
    if p.latches.len() != c.latches().len() || p.inputs.len() != c.inputs().len() {
        return Err(NoFit);
    }
    let mut values = vec![in alloc; false; c.max() as usize + 1]?;
    eval_into(c, p.latches.as_slice(), p.inputs.as_slice(), &mut values);
    Ok(values)
}

/// The successor of a position at which every constraint is true.
pub(crate) fn successor_of(alloc: Global, c: &Circuit, p: &Position) -> Result<Items<bool>, NoFit>
    ensures possible { OnOk result (MeetsConstraints c.now p.now) }
    ensures next { IfOk result (λ next. next ≡ successor c.now p.now) }
{
    let values = values_at(alloc, c, p)?;
    check_constraints(&values, c.constraints())?;
    let mut next = vec![in alloc; false; c.latches().len()]?;
    next_into(c, &values, &mut next);
    Ok(Items::from_vec(next))
}

fn check_way(
    alloc: Global,
    c: &Circuit,
    from: &[bool],
    to: &[bool],
    positions: &[Position],
) -> Result<(), NoFit>
    ensures { OnOk result (LeadsTo c.now from.now to.now positions.now) }
{
    let mut state = Items::from_slice(alloc, from)?;
    for p in positions {
        check_same(p.latches.as_slice(), state.as_slice())?;
        state = successor_of(alloc, c, p)?;
    }
    check_same(state.as_slice(), to)
}

fn check_stem(alloc: Global, c: &Circuit, to: &[bool], stem: &[Position]) -> Result<(), NoFit>
    ensures { OnOk result (IsStemTo c.now to.now stem.now) }
{
    let mut start = to;
    if !stem.is_empty() {
        start = stem[0].latches.as_slice();
    }
    if !is_initial(c, start) {
        return Err(NoFit);
    }
    check_way(alloc, c, start, to, stem)
}

fn check_situation(alloc: Global, c: &Circuit, s: &Situation) -> Result<(), NoFit>
    ensures { OnOk result (IsSituation c.now s.now) }
{
    let next = successor_of(alloc, c, &s.position)?;
    check_same(s.successor.as_slice(), next.as_slice())
}

fn check_situations(alloc: Global, c: &Circuit, situations: &[Situation]) -> Result<(), NoFit>
    ensures { OnOk result (All (IsSituation c.now) situations.now) }
{
    for s in situations {
        check_situation(alloc, c, s)?;
    }
    Ok(())
}

fn check_literal(alloc: Global, c: &Circuit, literal: u64, p: &Position) -> Result<(), NoFit>
    ensures { OnOk result (IsTrue (literal_at c.now p.now literal)) }
{
    let values = values_at(alloc, c, p)?;
    if !literal_value(&values, literal) {
        return Err(NoFit);
    }
    Ok(())
}

fn check_literals(
    alloc: Global,
    c: &Circuit,
    literals: &[u64],
    situations: &[Situation],
) -> Result<(), NoFit>
    ensures { OnOk result (AreTrueInTurn c.now literals.now situations.now) }
{
    if situations.len() < literals.len() {
        return Err(NoFit);
    }
    for (k, literal) in literals.iter().enumerate() {
        check_literal(alloc, c, *literal, &situations[k].position)?;
    }
    Ok(())
}

// The literals of property `j`, and then those of fairness.
fn literals_of(alloc: Global, c: &Circuit, j: u32) -> Result<Vec<u64>, NoFit>
    requires { j < length c.now.justice }
    ensures { IfOk result (λ literals. literals.items ≡ fair_literals c.now j) }
{
    let mut literals = Vec::from_slice(alloc, c.property(j as usize))?;
    literals.extend_from_slice(c.fairness())?;
    Ok(literals)
}

fn check_skeleton(alloc: Global, c: &Circuit, j: u32, skeleton: &Skeleton) -> Result<(), NoFit>
    ensures { OnOk result (IsSkeleton c.now j skeleton.now) }
{
    if j as usize >= c.property_count() {
        return Err(NoFit);
    }
    let literals = literals_of(alloc, c, j)?;
    let situations = skeleton.situations.as_slice();
    if situations.len() != literals.len().max(1) {
        return Err(NoFit);
    }
    check_situations(alloc, c, situations)?;
    check_literals(alloc, c, &literals, situations)
}

fn check_piece(
    alloc: Global,
    c: &Circuit,
    now: &Situation,
    next: &Situation,
    piece: &[Position],
) -> Result<(), NoFit>
    ensures { OnOk result (LeadsTo c.now now.now.successor next.now.position.latches piece.now) }
{
    let to = next.position.latches.as_slice();
    check_way(alloc, c, now.successor.as_slice(), to, piece)
}

fn check_pieces(
    alloc: Global,
    c: &Circuit,
    skeleton: &Skeleton,
    pieces: &[Items<Position>],
) -> Result<(), NoFit>
    requires { length pieces.now ≡ length skeleton.now.situations }
    ensures { OnOk result (ArePieces c.now skeleton.now pieces.now (length pieces.now)) }
{
    let situations = skeleton.situations.as_slice();
    for (k, piece) in pieces.iter().enumerate() {
        let next = (k + 1) % pieces.len();
        check_piece(
            alloc,
            c,
            &situations[k],
            &situations[next],
            piece.as_slice(),
        )?;
    }
    Ok(())
}

fn check_fit(
    alloc: Global,
    c: &Circuit,
    stem: &[Position],
    skeleton: &Skeleton,
    pieces: &[Items<Position>],
) -> Result<(), NoFit>
    ensures { OnOk result (Fit c.now stem.now skeleton.now pieces.now) }
{
    let situations = skeleton.situations.as_slice();
    if situations.is_empty() || pieces.len() != situations.len() {
        return Err(NoFit);
    }
    check_stem(alloc, c, situations[0].position.latches.as_slice(), stem)?;
    check_pieces(alloc, c, skeleton, pieces)
}

/// What `join` gives, where the parts fit and the skeleton is one of property `j`.
pub(crate) fn checked_join(
    alloc: Global,
    c: &Circuit,
    j: u32,
    stem: &[Position],
    skeleton: &Skeleton,
    pieces: &[Items<Position>],
) -> Result<Lasso, NoFit> {
    check_skeleton(alloc, c, j, skeleton)?;
    check_fit(alloc, c, stem, skeleton, pieces)?;
    Ok(join(alloc, c, stem, skeleton, pieces)?)
}

/// What `shortest_prefix` gives, where the lasso is a fair one of property `j`.
pub(crate) fn shortened(alloc: Global, c: &Circuit, j: u32, lasso: Lasso) -> Result<Lasso, NoFit> {
    if !is_fair_lasso(alloc, c, j, &lasso)? {
        return Err(NoFit);
    }
    Ok(shortest_prefix(alloc, c, j, lasso)?)
}
