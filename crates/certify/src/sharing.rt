//! The solver of an entry's obligations, with what they share. The main call is `solver_of`.
ghost use Rattle.std.specs.Prelude.{◌≡◌, ◌<◌, length, All, IfOk};
ghost use Rattle.fair_semantics.specs.Entries.{used_entries};
ghost use Rattle.cnf_unroll.specs.Obligations.{shared_clauses};
ghost use Rattle.entry.specs.CheckedEntries.{viewed};

use crate::claims::Claim;
use cdcl::Solver;
use circuit::Circuit;
use cnf_unroll::shared;
use entry::{Checked, lend_used};
use std::alloc::{AllocError, Global};
use std::sync::Arc;

/// A solver of what the obligations of the claimed entry share. The error is want of memory.
pub(crate) fn solver_of(
    alloc: Global,
    c: &Circuit,
    view: &[Arc<Checked>],
    claim: &Claim,
) -> Result<Solver, AllocError>
    requires { All (λ u. u.entry < length view.now) claim.now.uses }
    ensures { IfOk result (λ solver. solver.added
        ≡ shared_clauses c.now (used_entries (viewed view.now) claim.now.uses) claim.now.uses claim.now.clauses) }
{
    let uses = claim.uses.as_slice();
    let used = lend_used(alloc, view, uses)?;
    let begun = shared(alloc, c, used.as_slice(), uses, &claim.clauses)?;
    Solver::with_clauses(alloc, begun.clauses.into_vec())
}
