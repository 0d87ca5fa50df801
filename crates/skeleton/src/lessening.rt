//! A refutation with fewer uses. The main call is `lessened`.
ghost use Rattle.std.specs.Prelude.{◌<◌, ◌^◌, length, All, IfOk, IfSome};
ghost use Rattle.edge.specs.Ends.{CountsConflicts};
ghost use Rattle.entry.specs.CheckedEntries.{viewed};
ghost use Rattle.entry.specs.Listing.{entries_of};
ghost use Rattle.entry.specs.Proved.{IsGoodRefutation};

use crate::needed::needed_uses;
use cdcl::{Refuted, Solver};
use circuit::Circuit;
use cnf::{Clause, Proof};
use cnf_unroll::unrolled_skeleton;
use edge::{Meter, SolveEnd};
use entry::{Checked, Listed, Refutation, list_of, refutation_fault, used};
use fair_semantics::Use;
use items::Items;
use std::alloc::{AllocError, Global};
use std::sync::Arc;

// The skeleton clauses over these uses.
fn clauses_over(
    alloc: Global,
    c: &Circuit,
    j: u32,
    list: &[Listed],
    uses: &[Use],
) -> Result<Vec<Clause>, AllocError>
    requires property { j < length c.now.justice }
    requires present { All (λ u. u.entry < length list.now) uses.now }
{
    let lent = used(alloc, list, uses)?;
    let unrolled = unrolled_skeleton(alloc, c, j, lent.as_slice())?;
    Ok(unrolled.clauses.into_vec())
}

// What a solver of these clauses answers.
fn refuted(alloc: Global, clauses: Vec<Clause>, meter: &mut Meter) -> Result<Refuted, SolveEnd>
    ensures counted { CountsConflicts meter.old meter.new }
{
    let mut solver = Solver::with_clauses(alloc, clauses)?;
    let answer = solver.refute(alloc, &[], meter);
    drop(solver);
    answer
}

// A proof over these uses, if there is one.
fn proof_over(
    alloc: Global,
    c: &Circuit,
    j: u32,
    list: &[Listed],
    uses: Items<Use>,
    meter: &mut Meter,
) -> Result<Option<Refutation>, SolveEnd>
    requires property { j < length c.now.justice }
    requires present { All (λ u. u.entry < length list.now) uses }
    ensures counted { CountsConflicts meter.old meter.new }
{
    let clauses = clauses_over(alloc, c, j, list, uses.as_slice())?;
    match refuted(alloc, clauses, meter)? {
        Refuted::Sat => Ok(None),
        Refuted::Unsat(proof) => Ok(Some(Refutation { uses, proof })),
    }
}

// The refutation, where it is good.
fn if_good(
    alloc: Global,
    c: &Circuit,
    j: u32,
    list: &[Listed],
    refutation: Refutation,
) -> Result<Option<Refutation>, AllocError>
    requires property { j < length c.now.justice }
    ensures { IfOk result (λ found. IfSome found (λ r. IsGoodRefutation c.now (entries_of list.now) j r.uses r.proof)) }
{
    match refutation_fault(alloc, c, list, j, &refutation)? {
        None => Ok(Some(refutation)),
        Some(_) => Ok(None),
    }
}

// A refutation over these uses, where one is found that is good.
fn good_over(
    alloc: Global,
    c: &Circuit,
    j: u32,
    list: &[Listed],
    uses: Items<Use>,
    meter: &mut Meter,
) -> Result<Option<Refutation>, SolveEnd>
    requires property { j < length c.now.justice }
    requires present { All (λ u. u.entry < length list.now) uses }
    ensures good { IfOk result (λ found. IfSome found (λ r.
        IsGoodRefutation c.now (entries_of list.now) j r.uses r.proof)) }
    ensures counted { CountsConflicts meter.old meter.new }
{
    match proof_over(alloc, c, j, list, uses, meter)? {
        Some(refutation) => Ok(if_good(alloc, c, j, list, refutation)?),
        None => Ok(None),
    }
}

// A good refutation over the entries alone that a proof needs, where these are fewer.
fn fewer(
    alloc: Global,
    c: &Circuit,
    j: u32,
    view: &[Arc<Checked>],
    ends: &[u64],
    proof: &Proof,
    meter: &mut Meter,
) -> Result<Option<Refutation>, SolveEnd>
    requires property { j < length c.now.justice }
    requires few { length view.now < 2 ^ 32 }
    ensures good { IfOk result (λ found. IfSome found (λ r.
        IsGoodRefutation c.now (viewed view.now) j r.uses r.proof)) }
    ensures counted { CountsConflicts meter.old meter.new }
{
    let uses = needed_uses(alloc, view, ends, proof.as_slice())?;
    if uses.len() >= view.len() {
        return Ok(None);
    }
    let list = list_of(alloc, view)?;
    good_over(alloc, c, j, list.as_slice(), uses, meter)
}

/// A good refutation of property `j` over the entries that the given one needs, by where their clauses end. Where the
/// meter or memory does not suffice for it, or a test refuses it, the given one stands.
pub(crate) fn lessened(
    alloc: Global,
    c: &Circuit,
    j: u32,
    view: &[Arc<Checked>],
    ends: &[u64],
    given: Refutation,
    meter: &mut Meter,
) -> Refutation
    requires property { j < length c.now.justice }
    requires few { length view.now < 2 ^ 32 }
    requires good { IsGoodRefutation c.now (viewed view.now) j given.uses given.proof }
    ensures good { IsGoodRefutation c.now (viewed view.now) j result.uses result.proof }
    ensures counted { CountsConflicts meter.old meter.new }
{
    match fewer(alloc, c, j, view, ends, &given.proof, meter) {
        Ok(Some(refutation)) => refutation,
        _ => given,
    }
}
