//! The entries of a good certificate, over the numbers of latches. The main call is `listed`.

ghost use Rattle.std.specs.Prelude.{◌≡◌, [], List, Ok, IfOk};
ghost use Rattle.proof_semantics.specs.declared.literals.Lit.{Lit as LitOf};
ghost use Rattle.fair_semantics.specs.Entries.{Entry as EntryOf};
ghost use Rattle.entry.specs.Clauses.{clause_of};
ghost use Rattle.entry.specs.Listing.{entry_of, entries_of};
ghost use Rattle.certificate.specs.Certificates.{AreClausesOf, entry_with, AreProvedBehind};

use certificate::Written;
use circuit::Circuit;
use cnf::Clause;
use cnf_unroll::ClauseSet;
use entry::{EntryEnd, Listed, clause_from_aiger};
use items::Items;
use std::alloc::{AllocError, Global};

fn clause(alloc: Global, c: &Circuit, literals: &[u64]) -> Result<Clause, AllocError>
    requires { (clause : List LitOf) × (clause_of c.now literals.now ≡ Ok clause) }
    ensures { IfOk result (λ clause. clause_of c.now literals.now ≡ Ok clause) }
{
    match clause_from_aiger(alloc, c, literals) {
        Ok(clause) => Ok(clause),
        Err(EntryEnd::Memory) => Err(AllocError),
        Err(EntryEnd::Fault(_)) => unreachable!(),
    }
}

fn clause_set(alloc: Global, c: &Circuit, clauses: &[Items<u64>]) -> Result<ClauseSet, AllocError>
    requires { (set : List (List LitOf)) × AreClausesOf c.now clauses.now set }
    ensures { IfOk result (λ set. AreClausesOf c.now clauses.now set) }
{
    let mut set = Items::new(alloc);
    for literals in clauses {
        set.push(clause(alloc, c, literals.as_slice())?)?;
    }
    Ok(set)
}

fn listed_entry(alloc: Global, c: &Circuit, e: &Written) -> Result<Listed, AllocError>
    requires { (set : List (List LitOf)) × AreClausesOf c.now e.now.clauses set }
    ensures { IfOk result (λ l. (set : List (List LitOf)) → AreClausesOf c.now e.now.clauses set → entry_of l ≡ entry_with e.now set) }
{
    let set = clause_set(alloc, c, e.clauses.as_slice())?;
    let uses = e.uses.try_copy(alloc)?;
    Ok(Listed {
        kind: e.kind,
        set,
        uses,
    })
}

/// The entries, as the clauses of obligations are made of them.
pub(crate) fn listed(
    alloc: Global,
    c: &Circuit,
    entries: &[Written],
) -> Result<Vec<Listed>, AllocError>
    requires { (all : List EntryOf) × AreProvedBehind c.now [] entries.now all }
    ensures { IfOk result (λ list. (all : List EntryOf) → AreProvedBehind c.now [] entries.now all → entries_of list.items ≡ all) }
{
    let mut list = Vec::new(alloc);
    for e in entries {
        list.push(listed_entry(alloc, c, e)?)?;
    }
    Ok(list)
}
