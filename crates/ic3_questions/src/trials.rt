//! What is told of a step by values alone: the circuit's own values, that constraints are true, and that clauses hold. The
//! main call is `stands`.
ghost use Rattle.std.specs.Prelude.{◌≡◌, ◌+◌, true, drop, map, length, IfOk};
ghost use Rattle.std.specs.List.{list_all};
ghost use Rattle.aig_semantics.specs.Literals.{literal_in};
ghost use Rattle.aig_semantics.specs.Runs.{IsPosition, valuation_at};
ghost use Rattle.proof_semantics.specs.Clauses.{clauses_value, values_of};
ghost use Rattle.cnf_unroll.specs.Blocks.{step_clauses};

use circuit::{Circuit, Position, eval_into, literal_value, next_into};
use cnf::{Clause, Db, holds};
use cnf_unroll::before_latch;
use items::Items;
use std::alloc::{AllocError, Global};

/// The circuit's values at a position.
pub fn valuation(alloc: Global, c: &Circuit, p: &Position) -> Result<Items<bool>, AllocError>
    requires { IsPosition c.now p.now }
    ensures values { IfOk result (λ values. values ≡ valuation_at c.now p.now) }
    ensures size { IfOk result (λ values. length values ≡ c.now.max + 1) }
{
    let mut values = vec![in alloc; false; c.max() as usize + 1]?;
    eval_into(c, p.latches.as_slice(), p.inputs.as_slice(), &mut values);
    Ok(Items::from_vec(values))
}

/// The latches' next values, where the variables have these.
pub fn next_state(alloc: Global, c: &Circuit, values: &[bool]) -> Result<Items<bool>, AllocError>
    ensures { IfOk result (λ state. state ≡ map (λ latch. literal_in values.now latch.next) c.now.latches) }
{
    let mut state = vec![in alloc; false; c.latches().len()]?;
    next_into(c, values, &mut state);
    Ok(Items::from_vec(state))
}

fn value_in(values: &[bool], number: u64) -> bool
    ensures { result ≡ values_of values.now number }
{
    values.get(number as usize).copied().unwrap_or(false)
}

/// The values of the variables with these numbers.
pub fn values_in(alloc: Global, values: &[bool], place: &[u64]) -> Result<Items<bool>, AllocError>
    ensures { IfOk result (λ out. out ≡ map (values_of values.now) place.now) }
{
    let mut out = Items::new(alloc);
    for number in place {
        out.push(value_in(values, *number))?;
    }
    Ok(out)
}

// How many clauses of the base are those of the block.
fn block_len(c: &Circuit) -> usize
    ensures { result ≡ length (step_clauses c.now) }
{
    before_latch(c, c.latches().len())
}

fn all_hold(clauses: &[Clause], values: &[bool]) -> bool
    ensures { result ≡ clauses_value (values_of values.now) clauses.now }
{
    clauses.iter().all(|clause| holds(clause, values))
}

// Whether the clauses from a place on hold.
fn hold_from(base: &Db, place: usize, values: &[bool]) -> bool
    ensures { result ≡ true → clauses_value (values_of values.now) (drop place base.now.clauses) ≡ true }
{
    let clauses = base.as_slice();
    if clauses.len() < place {
        return false;
    }
    all_hold(&clauses[place..], values)
}

fn are_true(values: &[bool], literals: &[u64]) -> bool
    ensures { result ≡ list_all (literal_in values.now) literals.now }
{
    literals
        .iter()
        .all(|literal| literal_value(values, *literal))
}

fn are_same(values: &[bool], others: &[bool]) -> bool
    ensures { result ≡ true → values.now ≡ others.now }
{
    values == others
}

/// Whether an assignment tells these next values of latches, and makes the clauses of entries true; and the constraints are
/// true.
pub fn stands(
    c: &Circuit,
    base: &Db,
    values: &[bool],
    next: &[bool],
    told: &[bool],
    all: &[bool],
) -> bool
    ensures next { result ≡ true → told.now ≡ next.now }
    ensures constraints { result ≡ true → list_all (literal_in values.now) c.now.constraints ≡ true }
    ensures entries { result ≡ true
        → clauses_value (values_of all.now) (drop (length (step_clauses c.now)) base.now.clauses) ≡ true }
{
    are_same(told, next) && are_true(values, c.constraints()) && hold_from(base, block_len(c), all)
}
