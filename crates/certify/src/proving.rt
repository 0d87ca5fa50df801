//! Proofs for the clauses of an entry, by one solver. The main calls are `proofs_by` and `prove_entry`.
ghost use Rattle.std.specs.Prelude.{◌≡◌, ◌-◌, ◌++◌, ◌<◌, length, All, IfOk, IfErr};
ghost use Rattle.edge.specs.Ends.{CountsConflicts, IsEnd};
ghost use Rattle.proof_semantics.specs.Clauses.{IsUnsatisfiable};
ghost use Rattle.cdcl.specs.Solving.{with_conflicts};
ghost use Rattle.cnf_unroll.specs.Laws.{AreOver};
ghost use Rattle.cnf_unroll.specs.Obligations.{units, shared_clauses, broken_literals};
ghost use Rattle.fair_semantics.specs.Entries.{used_entries};
ghost use Rattle.fair_semantics.specs.declared.entries.Kind.TheVariants.{Reach};
ghost use Rattle.fair_semantics.specs.Validity.{IsValid};
ghost use Rattle.entry.specs.Entries.{said};
ghost use Rattle.entry.specs.Laws.{IsGoodList};
ghost use Rattle.entry.specs.Listing.{entry_of, entries_of};
ghost use Rattle.entry.specs.Proved.{holds_initial, AreProofs, IsProved};
ghost use Rattle.certify.specs.Refuted.{AreRefuted};

use crate::refuting::{refutation_of, sized_broken};
use cdcl::Solver;
use circuit::Circuit;
use cnf::Proof;
use cnf_unroll::{ClauseSet, obligations_tell, shared};
use edge::{Meter, SolveEnd};
use entry::{Entry, Listed, used};
use items::Items;
use std::alloc::{AllocError, Global};

/// A proof for each of the clauses, in their order: that the solver's clauses and a successor that breaks it have no
/// model. The meter counts what the solver learns.
pub(crate) fn proofs_by(
    alloc: Global,
    c: &Circuit,
    clauses: &ClauseSet,
    solver: &mut Solver,
    meter: &mut Meter,
) -> Result<Items<Proof>, SolveEnd>
    requires { All (λ clause. IsUnsatisfiable (solver.old.added ++ units (broken_literals c.now clause))) clauses.now }
    ensures proofs { IfOk result (AreRefuted c.now solver.old.added clauses.now) }
    ensures end { IfErr result (IsEnd meter.new) }
    ensures counted { meter.new ≡ with_conflicts meter.old (length solver.new.learned - length solver.old.learned) }
    ensures alone { CountsConflicts meter.old meter.new }
{
    let mut proofs = Items::new(alloc);
    for clause in clauses.as_slice() {
        let literals = sized_broken(alloc, c, clause)?;
        let proof = refutation_of(alloc, solver, literals.as_slice(), meter)?;
        proofs.push(proof)?;
    }
    Ok(proofs)
}

// A solver of what the obligations of the entry share. The error is want of memory.
fn solver_of(
    alloc: Global,
    c: &Circuit,
    list: &[Listed],
    claim: &Listed,
) -> Result<Solver, AllocError>
    requires { All (λ u. u.entry < length list.now) claim.now.uses }
    ensures { IfOk result (λ solver. solver.added
        ≡ shared_clauses c.now (used_entries (entries_of list.now) claim.now.uses) claim.now.uses claim.now.set) }
{
    let uses = claim.uses.as_slice();
    let used = used(alloc, list, uses)?;
    let begun = shared(alloc, c, used.as_slice(), uses, &claim.set)?;
    Solver::with_clauses(alloc, begun.clauses.into_vec())
}

fn proofs_of(
    alloc: Global,
    c: &Circuit,
    list: &[Listed],
    claim: &Listed,
    meter: &mut Meter,
) -> Result<Items<Proof>, SolveEnd>
    requires list { IsGoodList c.now (entries_of list.now) }
    requires valid { IsValid c.now (entries_of list.now) (entry_of claim.now) }
    requires over { AreOver (length c.now.latches) claim.now.set }
    ensures proofs { IfOk result (AreProofs c.now (entries_of list.now) (entry_of claim.now)) }
    ensures end { IfErr result (IsEnd meter.new) }
    ensures counted { CountsConflicts meter.old meter.new }
{
    obligations_tell(c);
    let mut solver = solver_of(alloc, c, list, claim)?;
    let proofs = proofs_by(alloc, c, &claim.set, &mut solver, meter);
    drop(solver);
    proofs
}

/// The entry with a proof for each of its clauses, behind those of the list. What is asked of it is that no step which its
/// uses allow leaves its set, so a proof is always found. `Spent` comes only where the meter's count of conflicts is at its
/// limit; the other error is want of memory.
pub fn prove_entry(
    alloc: Global,
    c: &Circuit,
    list: &[Listed],
    claim: Listed,
    meter: &mut Meter,
) -> Result<Entry, SolveEnd>
    requires list { IsGoodList c.now (entries_of list.now) }
    requires valid { IsValid c.now (entries_of list.now) (entry_of claim) }
    requires over { AreOver (length c.now.latches) claim.set }
    requires base { claim.kind ≡ Reach → All (holds_initial c.now) claim.set }
    ensures entry { IfOk result (λ e. said e ≡ entry_of claim) }
    ensures proved { IfOk result (λ e. IsProved c.now (entries_of list.now) (entry_of claim) e.proofs) }
    ensures end { IfErr result (IsEnd meter.new) }
    ensures counted { CountsConflicts meter.old meter.new }
{
    let proofs = proofs_of(alloc, c, list, &claim, meter)?;
    let Listed { kind, set, uses } = claim;
    Ok(Entry {
        kind,
        set,
        uses,
        proofs,
    })
}
