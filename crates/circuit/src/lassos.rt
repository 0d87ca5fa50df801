//! Which states are initial, and which lassos are fair. The main call is `is_fair_lasso`, which goes along the lasso
//! once and keeps only the latches at the place that it steps back to.

ghost use Rattle.std.specs.Prelude.{◌≡◌, ◌↔◌, ◌+◌, ◌<◌, ◌&&◌, ◌||◌, Bool, List, length, replicate, false, IsTrue, IfOk};
ghost use Rattle.std.specs.List.{list_all};
ghost use Rattle.std.specs.Bool.{OnTrue};
ghost use Rattle.aig_semantics.specs.Literals.{literal_in};
ghost use Rattle.aig_semantics.specs.Circuits.{fair_literals};
ghost use Rattle.aig_semantics.specs.Valuations.{valuation};
ghost use Rattle.aig_semantics.specs.Runs.{IsInitial, position_of, successor};
ghost use Rattle.aig_semantics.specs.Stimuli.{state_after, IsFairLassoOf};
ghost use Rattle.circuit.specs.Following.{all_agree, follows, seen_with, seen_after, IsFollowed};

use crate::circuits::Circuit;
use crate::evaluating::{eval_into, literal_value, next_into};
use aig_semantics::{Lasso, Latch};
use items::Items;
use std::alloc::{AllocError, Global};

fn all_agree(latches: &[Latch], values: &[bool]) -> bool
    ensures { result ≡ all_agree latches.now values.now }
{
    if latches.len() != values.len() {
        return false;
    }
    for (k, latch) in latches.iter().enumerate() {
        if !latch.reset.agrees_with(values[k]) {
            return false;
        }
    }
    true
}

/// Whether `latches` has one value for each latch, which its reset allows.
pub fn is_initial(c: &Circuit, latches: &[bool]) -> bool
    ensures { IsTrue result ↔ IsInitial c.now latches.now }
{
    all_agree(c.latches(), latches)
}

fn all_hold(values: &[bool], literals: &[u64]) -> bool
    ensures { result ≡ list_all (λ literal. literal_in values.now literal) literals.now }
{
    literals
        .iter()
        .all(|literal| literal_value(values, *literal))
}

fn either(a: bool, b: bool) -> bool
    ensures { result ≡ (a || b) }
{
    a || b
}

pub(crate) fn note_seen(values: &[bool], literals: &[u64], seen: &mut [bool])
    requires { length seen.old ≡ length literals.now }
    ensures { seen.new ≡ seen_with values.now literals.now seen.old }
{
    for (k, literal) in literals.iter().enumerate() {
        seen[k] = either(seen[k], literal_value(values, *literal));
    }
}

/// Evaluates a position and goes on to its successor. Answers whether the constraints are true at the position.
fn step_along(c: &Circuit, inputs: &[bool], latches: &mut [bool], values: &mut [bool]) -> bool
    requires latches { length latches.old ≡ length c.now.latches }
    requires inputs { length inputs.now ≡ length c.now.inputs }
    requires values { length values.old ≡ c.now.max + 1 }

    ensures answer { result
        ≡ list_all (λ literal. literal_in (valuation c.now latches.old inputs.now) literal) c.now.constraints }
    ensures values { values.new ≡ valuation c.now latches.old inputs.now }
    ensures latches { latches.new ≡ successor c.now (position_of latches.old inputs.now) }
{
    eval_into(c, latches, inputs, values);
    next_into(c, values, latches);
    all_hold(values, c.constraints())
}

/// Goes along the positions that these inputs give from `latches`, and notes which literals are true at one of them.
/// Answers whether they are a run; if not, it stops at the first that breaks it.
fn follow(
    c: &Circuit,
    inputs: &[Items<bool>],
    latches: &mut [bool],
    values: &mut [bool],
    literals: &[u64],
    seen: &mut [bool],
) -> bool
    requires latches { length latches.old ≡ length c.now.latches }
    requires values { length values.old ≡ c.now.max + 1 }
    requires seen { length seen.old ≡ length literals.now }

    ensures answer { result ≡ follows c.now latches.old inputs.now }
    ensures latches { OnTrue result (latches.new ≡ state_after c.now latches.old inputs.now) }
    ensures seen { OnTrue result
        (seen.new ≡ seen_after c.now latches.old inputs.now literals.now seen.old) }
{
    for now in inputs {
        if now.len() != c.inputs().len() {
            return false;
        }
        if !step_along(c, now.as_slice(), latches, values) {
            return false;
        }
        note_seen(values, literals, seen);
    }
    true
}

fn same(a: &[bool], b: &[bool]) -> bool
    requires { length a.now ≡ length b.now }
    ensures { IsTrue result ↔ (a.now ≡ b.now) }
{
    for (k, value) in a.iter().enumerate() {
        if *value != b[k] {
            return false;
        }
    }
    true
}

pub(crate) fn all_true(values: &[bool]) -> bool
    ensures { result ≡ list_all (λ b. b) values.now }
{
    values.iter().all(|value| *value)
}

/// The literals of property `j`, and then those of fairness.
pub(crate) fn literals_of(alloc: Global, c: &Circuit, j: usize) -> Result<Vec<u64>, AllocError>
    requires { j < length c.now.justice }
    ensures { IfOk result (λ literals. literals.items ≡ fair_literals c.now j) }
{
    let mut literals = Vec::from_slice(alloc, c.property(j))?;
    literals.extend_from_slice(c.fairness())?;
    Ok(literals)
}

/// Goes along a lasso from its start, which `latches` holds. `kept` gets the latches at its place.
fn follow_lasso(
    c: &Circuit,
    lasso: &Lasso,
    literals: &[u64],
    latches: &mut [bool],
    kept: &mut [bool],
    values: &mut [bool],
    seen: &mut [bool],
) -> bool
    requires from { lasso.now.from < length lasso.now.inputs }
    requires start { latches.old ≡ lasso.now.start }
    requires latches { length latches.old ≡ length c.now.latches }
    requires kept { length kept.old ≡ length c.now.latches }
    requires values { length values.old ≡ c.now.max + 1 }
    requires seen { seen.old ≡ replicate (length literals.now) false }
    ensures { IsTrue result ↔ IsFollowed c.now lasso.now.start lasso.now.inputs lasso.now.from literals.now }
{
    let inputs = lasso.inputs.as_slice();
    let from = lasso.from as usize;
    if !follow(c, &inputs[..from], latches, values, &[], &mut []) {
        return false;
    }
    kept.copy_from_slice(latches);
    if !follow(c, &inputs[from..], latches, values, literals, seen) {
        return false;
    }
    same(latches, kept) && all_true(seen)
}

/// Whether a lasso is a fair lasso of property `j`, counted from 0. Any property number and any lengths are taken:
/// what does not fit is no fair lasso.
pub fn is_fair_lasso(alloc: Global, c: &Circuit, j: u32, lasso: &Lasso) -> Result<bool, AllocError>
    ensures { IfOk result (λ fair. IsTrue fair ↔ IsFairLassoOf c.now j lasso.now) }
{
    let start = lasso.start.as_slice();
    if j as usize >= c.property_count() {
        return Ok(false);
    }
    if lasso.from >= lasso.inputs.len() as u64 {
        return Ok(false);
    }
    if !is_initial(c, start) {
        return Ok(false);
    }
    let literals = literals_of(alloc, c, j as usize)?;
    let mut latches = Vec::from_slice(alloc, start)?;
    let mut kept = Vec::from_slice(alloc, start)?;
    let mut values = vec![in alloc; false; c.max() as usize + 1]?;
    let mut seen = vec![in alloc; false; literals.len()]?;
    Ok(follow_lasso(
        c,
        lasso,
        &literals,
        &mut latches,
        &mut kept,
        &mut values,
        &mut seen,
    ))
}
