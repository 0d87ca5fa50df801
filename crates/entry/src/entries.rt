//! The check of an entry with its proofs. The main call is `check_entry`.

ghost use Rattle.std.specs.Prelude.{◌≡◌, ◌<◌, ◌++◌, Ok, Err, length, All, IfOk, None, slice_index_or, []};
ghost use Rattle.proof_semantics.specs.Proofs.{start};
ghost use Rattle.cnf_unroll.specs.Obligations.{units, shared_clauses, broken_literals};
ghost use Rattle.fair_semantics.specs.Entries.{used_entries};
ghost use Rattle.entry.specs.Listing.{entries_of};
ghost use Rattle.entry.specs.Proved.{obligation_of, IsProved};
ghost use Rattle.unless_memory.specs.Answers.{GivesExactlyWhere};
ghost use Rattle.cnf_unroll.specs.Laws.{AreOver};
ghost use Rattle.entry.specs.Faults.{first_bad_use, fault_from, proof_fault, clause_fault, proofs_fault, first_fault};
ghost use Rattle.entry.specs.Entries.{said, verdict};
ghost use Rattle.entry.specs.Answers.{Tells};

use crate::clauses::first_baseless;
use crate::faults::{EntryEnd, EntryFault};
use crate::judge::Judge;
use crate::list::{Listed, used};
use crate::uses::{User, first_bad_use};
use circuit::Circuit;
use cnf::{Clause, Proof, ProofLine};
use cnf_unroll::ClauseSet;
use fair_semantics::{Kind, Use};
use items::Items;
use std::alloc::{AllocError, Global};

/// An entry with its proofs, one for each clause, in the order of the clauses.
#[derive(Drop)]
pub struct Entry {
    pub kind: Kind,
    pub set: ClauseSet,
    pub uses: Items<Use>,
    pub proofs: Items<Proof>,
}

// The fault of the proof of a clause, from the judge of its entry.
fn clause_fault(
    alloc: Global,
    judge: &mut Judge,
    c: &Circuit,
    i: u64,
    clause: &Clause,
    proof: &[ProofLine],
) -> Result<Option<EntryFault>, AllocError>
    ensures fault { IfOk result (λ fault. fault ≡ clause_fault i
        (fault_from 0 (start (judge.old.shared ++ units (broken_literals c.now clause.now))) proof.now) None) }
    ensures shared { judge.new.shared ≡ judge.old.shared }
{
    judge.begin(alloc, c, clause)?;
    match judge.proof_fault(proof)? {
        Some((line, fault)) => Ok(Some(EntryFault::Proof(i, line, fault))),
        None => Ok(None),
    }
}

// The fault of the proof of the clause with the number i.
fn fault_at(
    alloc: Global,
    judge: &mut Judge,
    c: &Circuit,
    e: &Entry,
    i: usize,
) -> Result<Option<EntryFault>, AllocError>
    requires clause { i < length e.now.set }
    requires proof { i < length e.now.proofs }
    ensures fault { IfOk result (λ fault. fault ≡ clause_fault i
        (proof_fault (judge.old.shared ++ units (broken_literals c.now (slice_index_or e.now.set i []))) (slice_index_or e.now.proofs i [])) None) }
    ensures shared { judge.new.shared ≡ judge.old.shared }
{
    clause_fault(
        alloc,
        judge,
        c,
        i as u64,
        &e.set.as_slice()[i],
        e.proofs.as_slice()[i].as_slice(),
    )
}

fn judge_of(alloc: Global, c: &Circuit, list: &[Listed], e: &Entry) -> Result<Judge, AllocError>
    requires { All (λ u. u.entry < length list.now) e.now.uses }
    ensures { IfOk result (λ j. j.shared ≡ shared_clauses c.now (used_entries (entries_of list.now) e.now.uses) e.now.uses e.now.set) }
{
    let used = used(alloc, list, e.uses.as_slice())?;
    let mut judge = Judge::new(alloc, c)?;
    match judge.enter(alloc, c, used.as_slice(), e.uses.as_slice(), &e.set) {
        Ok(()) => Ok(judge),
        Err(refused) => {
            drop(judge);
            Err(refused)
        }
    }
}

// The first fault of the proofs, by a judge of the entry.
fn first_refused(
    alloc: Global,
    judge: &mut Judge,
    c: &Circuit,
    list: &[Listed],
    e: &Entry,
) -> Result<Option<EntryFault>, AllocError>
    requires count { length e.now.proofs ≡ length e.now.set }
    requires shared { judge.old.shared ≡ shared_clauses c.now (used_entries (entries_of list.now) e.now.uses) e.now.uses e.now.set }
    ensures { IfOk result (λ fault. fault ≡ proofs_fault (obligation_of c.now (entries_of list.now) (said e.now)) 0 e.now.proofs) }
{
    for i in 0..e.proofs.len() {
        match fault_at(alloc, judge, c, e, i)? {
            Some(found) => return Ok(Some(found)),
            None => {}
        }
    }
    Ok(None)
}

// The first fault of the proofs.
fn proofs_fault(
    alloc: Global,
    c: &Circuit,
    list: &[Listed],
    e: &Entry,
) -> Result<Option<EntryFault>, AllocError>
    requires present { All (λ u. u.entry < length list.now) e.now.uses }
    requires count { length e.now.proofs ≡ length e.now.set }
    ensures { IfOk result (λ fault. fault ≡ proofs_fault (obligation_of c.now (entries_of list.now) (said e.now)) 0 e.now.proofs) }
{
    let mut judge = judge_of(alloc, c, list, e)?;
    let fault = first_refused(alloc, &mut judge, c, list, e);
    drop(judge);
    fault
}

// The first fault of the proofs of an entry whose uses may stand.
fn fault_behind_uses(
    alloc: Global,
    c: &Circuit,
    list: &[Listed],
    e: &Entry,
) -> Result<Option<EntryFault>, AllocError>
    requires uses { first_bad_use (User.Entry e.now.kind) (entries_of list.now) e.now.uses ≡ None }
    requires count { length e.now.proofs ≡ length e.now.set }
    ensures { IfOk result (λ fault. fault ≡ proofs_fault (obligation_of c.now (entries_of list.now) (said e.now)) 0 e.now.proofs) }
{
    proofs_fault(alloc, c, list, e)
}

// The first fault of the entry, as an answer.
fn judge_entry(alloc: Global, c: &Circuit, list: &[Listed], e: &Entry) -> Result<(), EntryEnd>
    requires { length e.now.proofs ≡ length e.now.set }
    ensures { Tells result (verdict (first_fault c.now (entries_of list.now) (said e.now) e.now.proofs)) }
{
    if let Some(number) = first_bad_use(User::Entry(e.kind), list, e.uses.as_slice()) {
        return Err(EntryEnd::Fault(EntryFault::BadUse(number)));
    }
    if let Some(clause) = first_baseless(c, e.kind, e.set.as_slice()) {
        return Err(EntryEnd::Fault(EntryFault::Base(clause)));
    }
    match fault_behind_uses(alloc, c, list, e)? {
        Some(fault) => Err(EntryEnd::Fault(fault)),
        None => Ok(()),
    }
}

/// Judges an entry behind those of the list. `Ok` comes exactly for an entry that is proved behind them. Else the fault is
/// the first: of its uses in their order, else of its clauses in theirs, else of its proofs. It is never `NotLatch`: that
/// the clauses are over the latches is asked where they are made, by `clause_from_aiger`.
pub fn check_entry(alloc: Global, c: &Circuit, list: &[Listed], e: &Entry) -> Result<(), EntryEnd>
    requires { length e.now.proofs ≡ length e.now.set }
    ensures proved { AreOver (length c.now.latches) e.now.set → GivesExactlyWhere (Err EntryEnd.Memory) (Ok tt)
        (IsProved c.now (entries_of list.now) (said e.now) e.now.proofs) result }
    ensures fault { Tells result (verdict (first_fault c.now (entries_of list.now) (said e.now) e.now.proofs)) }
{
    judge_entry(alloc, c, list, e)
}
