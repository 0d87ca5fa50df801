//! Proofs of entries by a solver. The main call is `proofs_of`.

use crate::ends::ProvingEnd;
use cdcl::{Refuted, Solver, are_sized};
use circuit::Circuit;
use cnf::{Clause, Proof};
use cnf_unroll::{Begun, Used, broken, shared};
use edge::Meter;
use entry::{Checked, Listed, Use};
use items::Items;
use std::alloc::{AllocError, Global};
use std::sync::Arc;

// No limit of conflicts.
const NO_LIMIT: u64 = 4_294_967_295;

fn lent(number: u32, checked: &Arc<Checked>) -> Used<'_> {
    let listed = checked.listed();
    Used {
        number,
        kind: listed.kind,
        set: &listed.set,
        uses: listed.uses.as_slice(),
    }
}

// The entries that these uses name, as clauses take them.
fn lend<'a>(
    alloc: Global,
    view: &'a [Arc<Checked>],
    uses: &[Use],
) -> Result<Items<Used<'a>>, AllocError> {
    let mut found = Items::new(alloc);
    for u in uses {
        match view.get(u.entry as usize) {
            Some(checked) => found.push(lent(u.entry, checked))?,
            None => {}
        }
    }
    Ok(found)
}

// The clauses that the obligations of an entry share.
fn shared_clauses(
    alloc: Global,
    c: &Circuit,
    view: &[Arc<Checked>],
    entry: &Listed,
) -> Result<Begun, AllocError> {
    let uses = entry.uses.as_slice();
    let used = lend(alloc, view, uses)?;
    shared(alloc, c, used.as_slice(), uses, &entry.set)
}

// A solver of what the obligations of an entry share.
fn solver_of(
    alloc: Global,
    c: &Circuit,
    view: &[Arc<Checked>],
    entry: &Listed,
) -> Result<Solver, AllocError> {
    let begun = shared_clauses(alloc, c, view, entry)?;
    Solver::with_clauses(alloc, begun.clauses.into_vec())
}

// A proof that no step breaks the clause, if there is one.
fn clause_proof(
    alloc: Global,
    c: &Circuit,
    solver: &mut Solver,
    clause: &Clause,
) -> Result<Proof, ProvingEnd> {
    let literals = broken(alloc, c, clause)?;
    if !are_sized(literals.as_slice()) {
        return Err(ProvingEnd::Refused);
    }
    let mut meter = Meter::new(NO_LIMIT, 0);
    match solver.refute(alloc, literals.as_slice(), &mut meter)? {
        Refuted::Unsat(proof) => Ok(proof),
        Refuted::Sat => Err(ProvingEnd::Refused),
    }
}

fn add_proof(
    alloc: Global,
    c: &Circuit,
    solver: &mut Solver,
    clause: &Clause,
    proofs: &mut Items<Proof>,
) -> Result<(), ProvingEnd> {
    let proof = clause_proof(alloc, c, solver, clause)?;
    proofs.push(proof)?;
    Ok(())
}

fn add_proofs(
    alloc: Global,
    c: &Circuit,
    solver: &mut Solver,
    set: &[Clause],
    proofs: &mut Items<Proof>,
) -> Result<(), ProvingEnd> {
    for clause in set {
        add_proof(alloc, c, solver, clause, proofs)?;
    }
    Ok(())
}

fn proofs_by(
    alloc: Global,
    c: &Circuit,
    solver: &mut Solver,
    set: &[Clause],
) -> Result<Items<Proof>, ProvingEnd> {
    let mut proofs = Items::new(alloc);
    add_proofs(alloc, c, solver, set, &mut proofs)?;
    Ok(proofs)
}

/// A proof for each clause of an entry behind those of the view. `Refused` where a step that its uses allow leaves its set.
pub(crate) fn proofs_of(
    alloc: Global,
    c: &Circuit,
    view: &[Arc<Checked>],
    entry: &Listed,
) -> Result<Items<Proof>, ProvingEnd> {
    let mut solver = solver_of(alloc, c, view, entry)?;
    let proofs = proofs_by(alloc, c, &mut solver, entry.set.as_slice());
    drop(solver);
    proofs
}
