//! The check of a refutation. The main call is `refutation_fault`.

ghost use Rattle.std.specs.Prelude.{◌≡◌, ◌↔◌, ◌<◌, None, length, All, IfOk};
ghost use Rattle.proof_semantics.specs.Proofs.{start};
ghost use Rattle.fair_semantics.specs.Entries.{used_entries};
ghost use Rattle.cnf_unroll.specs.Obligations.{skeleton_clauses};
ghost use Rattle.entry.specs.Listing.{entries_of};
ghost use Rattle.entry.specs.Proved.{IsGoodRefutation};
ghost use Rattle.entry.specs.Faults.{first_bad_use, proof_fault};
ghost use Rattle.entry.specs.Refutations.{first_refutation_fault};

use crate::faults::RefutationFault;
use crate::judge::Judge;
use crate::list::{Listed, used};
use crate::uses::{User, first_bad_use};
use circuit::Circuit;
use cnf::Proof;
use fair_semantics::Use;
use items::Items;
use proof_semantics::LratFault;
use std::alloc::{AllocError, Global};

/// The uses of a refutation, which name no side, and its proof.
#[derive(Drop)]
pub struct Refutation {
    pub uses: Items<Use>,
    pub proof: Proof,
}

fn judge_of(
    alloc: Global,
    c: &Circuit,
    list: &[Listed],
    j: u32,
    r: &Refutation,
) -> Result<Judge, AllocError>
    requires property { j < length c.now.justice }
    requires present { All (λ u. u.entry < length list.now) r.now.uses }
    ensures { IfOk result (λ judge. judge.proof ≡ start (skeleton_clauses c.now j (used_entries (entries_of list.now) r.now.uses))) }
{
    let used = used(alloc, list, r.uses.as_slice())?;
    Judge::refutation(alloc, c, j, used.as_slice())
}

// The first fault of the proof, where the uses may stand.
fn fault_behind_uses(
    alloc: Global,
    c: &Circuit,
    list: &[Listed],
    j: u32,
    r: &Refutation,
) -> Result<Option<(u64, LratFault)>, AllocError>
    requires property { j < length c.now.justice }
    requires uses { first_bad_use User.Refutation (entries_of list.now) r.now.uses ≡ None }
    ensures { IfOk result (λ fault. fault ≡ proof_fault (skeleton_clauses c.now j (used_entries (entries_of list.now) r.now.uses)) r.now.proof) }
{
    let mut judge = judge_of(alloc, c, list, j, r)?;
    judge.proof_fault(r.proof.as_slice())
}

fn first_fault(
    alloc: Global,
    c: &Circuit,
    list: &[Listed],
    j: u32,
    r: &Refutation,
) -> Result<Option<RefutationFault>, AllocError>
    requires { j < length c.now.justice }
    ensures { IfOk result (λ fault. fault ≡ first_refutation_fault c.now (entries_of list.now) j r.now.uses r.now.proof) }
{
    if let Some(number) = first_bad_use(User::Refutation, list, r.uses.as_slice()) {
        return Ok(Some(RefutationFault::BadUse(number)));
    }
    match fault_behind_uses(alloc, c, list, j, r)? {
        Some((line, fault)) => Ok(Some(RefutationFault::Proof(line, fault))),
        None => Ok(None),
    }
}

/// The first fault of a refutation of property `j`, counted from 0, over the entries of the list: of its uses in their
/// order, else of its proof. `None` comes exactly for a good refutation. The error is want of memory.
pub fn refutation_fault(
    alloc: Global,
    c: &Circuit,
    list: &[Listed],
    j: u32,
    r: &Refutation,
) -> Result<Option<RefutationFault>, AllocError>
    requires { j < length c.now.justice }
    ensures good { IfOk result (λ fault. (fault ≡ None) ↔ IsGoodRefutation c.now (entries_of list.now) j r.now.uses r.now.proof) }
    ensures fault { IfOk result (λ fault. fault ≡ first_refutation_fault c.now (entries_of list.now) j r.now.uses r.now.proof) }
{
    first_fault(alloc, c, list, j, r)
}
