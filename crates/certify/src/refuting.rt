//! The proof of one clause. The main call is `refutation_of`.
ghost use Rattle.std.specs.Prelude.{◌≡◌, ◌-◌, ◌++◌, length, IfOk, IfErr};
ghost use Rattle.edge.specs.Ends.{CountsConflicts, IsEnd};
ghost use Rattle.proof_semantics.specs.Clauses.{IsUnsatisfiable};
ghost use Rattle.proof_semantics.specs.Lines.{AreSized};
ghost use Rattle.proof_semantics.specs.Proofs.{Refutes};
ghost use Rattle.cdcl.specs.Solving.{Learns, with_conflicts};
ghost use Rattle.cnf_unroll.specs.Obligations.{units, broken_literals};

use cdcl::{Refuted, Solver, are_sized};
use circuit::Circuit;
use cnf::{Clause, Lit, Proof};
use cnf_unroll::broken;
use edge::{Meter, SolveEnd};
use items::Items;
use std::alloc::{AllocError, Global};

/// The literals by which a successor breaks the clause. A number from 2^63 on could not be held.
pub(crate) fn sized_broken(
    alloc: Global,
    c: &Circuit,
    clause: &Clause,
) -> Result<Items<Lit>, AllocError>
    ensures value { IfOk result (λ literals. literals ≡ broken_literals c.now clause.now) }
    ensures sizes { IfOk result AreSized }
{
    let literals = broken(alloc, c, clause)?;
    if !are_sized(literals.as_slice()) {
        return Err(AllocError);
    }
    Ok(literals)
}

/// The proof that the solver's clauses, and behind them these literals as unit clauses, have no model. The meter counts
/// what the solver learns.
pub(crate) fn refutation_of(
    alloc: Global,
    solver: &mut Solver,
    literals: &[Lit],
    meter: &mut Meter,
) -> Result<Proof, SolveEnd>
    requires none { IsUnsatisfiable (solver.old.added ++ units literals.now) }
    requires sizes { AreSized literals.now }
    ensures proof { IfOk result (Refutes (solver.old.added ++ units literals.now)) }
    ensures added { solver.new.added ≡ solver.old.added }
    ensures end { IfErr result (IsEnd meter.new) }
    ensures learned { Learns solver.old.added solver.old.learned solver.new.learned }
    ensures counted { meter.new ≡ with_conflicts meter.old (length solver.new.learned - length solver.old.learned) }
    ensures alone { CountsConflicts meter.old meter.new }
{
    match solver.refute(alloc, literals, meter)? {
        Refuted::Unsat(proof) => Ok(proof),
        Refuted::Sat => unreachable!(),
    }
}
