//! The entries out of an answer that is held. The main calls are `entries_in`, and `written_entries`.

ghost use Rattle.std.specs.Prelude.{◌≡◌, ◌∷◌, ◌++◌, List, [], Ok, IfOk, OnOk};
ghost use Rattle.proof_semantics.specs.declared.literals.Lit.{Lit as LitOf};
ghost use Rattle.fair_semantics.specs.Entries.{Entry as EntryOf};
ghost use Rattle.entry.specs.declared.entries.Entry.{Entry as WithProofs};
ghost use Rattle.entry.specs.Clauses.{clause_of};
ghost use Rattle.certificate.specs.Certificates.{AreClausesOf, AreProvedBehind};
ghost use Rattle.certificate.specs.Loading.{IsHeld};
ghost use Rattle.given_entries.specs.Given.{IsEntryOf, AreEntriesOf};
ghost use Rattle.given_entries.specs.Taking.{IsNoLasso, IsTaken};

use certificate::{AnswerEnd, Certificate, Loaded, Written};
use circuit::Circuit;
use cnf::Clause;
use cnf_unroll::ClauseSet;
use entry::{Entry, EntryEnd, clause_from_aiger};
use items::Items;
use std::alloc::{AllocError, Global};

/// The entries of the certificate that is held. It ends as the loading ended, but for want of memory.
pub(crate) fn entries_in(
    alloc: Global,
    circuit: &Circuit,
    end: Result<Loaded, AnswerEnd>,
) -> Result<Items<Entry>, AnswerEnd>
    requires held { IfOk end (IsHeld circuit.now) }
    requires certificate { IfOk end IsNoLasso }
    ensures { IsTaken circuit.now end result }
{
    match end {
        Ok(Loaded::Holds { certificate, .. }) => Ok(certificate_entries(
            alloc,
            circuit,
            certificate,
        )?),
        Ok(Loaded::Lasso { .. }) => unreachable!(),
        Err(end) => Err(end),
    }
}

fn certificate_entries(
    alloc: Global,
    circuit: &Circuit,
    certificate: Certificate,
) -> Result<Items<Entry>, AllocError>
    requires { (all : List EntryOf) × AreProvedBehind circuit.now [] certificate.entries all }
    ensures { IfOk result (AreEntriesOf circuit.now certificate.entries) }
{
    let Certificate { entries, .. } = certificate;
    written_entries(alloc, circuit, entries)
}

/// Written entries, over the numbers of the latches.
pub(crate) fn written_entries(
    alloc: Global,
    circuit: &Circuit,
    written: Items<Written>,
) -> Result<Items<Entry>, AllocError>
    requires { (all : List EntryOf) × AreProvedBehind circuit.now [] written all }
    ensures { IfOk result (AreEntriesOf circuit.now written) }
{
    let mut list = Items::new(alloc);
    match take_all(alloc, circuit, written, &mut list) {
        Ok(()) => Ok(list),
        Err(refused) => Err(refused),
    }
}

// Puts the entries into an empty list.
fn take_all(
    alloc: Global,
    circuit: &Circuit,
    entries: Items<Written>,
    list: &mut Items<Entry>,
) -> Result<(), AllocError>
    requires empty { list.old ≡ [] }
    requires proved { (all : List EntryOf) × AreProvedBehind circuit.now [] entries all }
    ensures { OnOk result (AreEntriesOf circuit.now entries list.new) }
{
    for written in entries.into_vec() {
        take(alloc, circuit, written, list)?;
    }
    Ok(())
}

// Puts one behind the others.
fn take(
    alloc: Global,
    circuit: &Circuit,
    written: Written,
    list: &mut Items<Entry>,
) -> Result<(), AllocError>
    requires { (set : List (List LitOf)) × AreClausesOf circuit.now written.clauses set }
    ensures { OnOk result ((e : WithProofs) × IsEntryOf circuit.now written e × (list.new ≡ list.old ++ e ∷ [])) }
{
    let entry = entry_of(alloc, circuit, written)?;
    list.push(entry)?;
    Ok(())
}

// The entry, over the numbers of the latches.
fn entry_of(alloc: Global, c: &Circuit, written: Written) -> Result<Entry, AllocError>
    requires { (set : List (List LitOf)) × AreClausesOf c.now written.clauses set }
    ensures { IfOk result (IsEntryOf c.now written) }
{
    let Written {
        kind,
        clauses,
        uses,
        proofs,
    } = written;
    let set = clause_set(alloc, c, clauses.as_slice())?;
    Ok(Entry {
        kind,
        set,
        uses,
        proofs,
    })
}

fn clause_set(alloc: Global, c: &Circuit, clauses: &[Items<u64>]) -> Result<ClauseSet, AllocError>
    requires { (set : List (List LitOf)) × AreClausesOf c.now clauses.now set }
    ensures { IfOk result (AreClausesOf c.now clauses.now) }
{
    let mut set = Items::new(alloc);
    for literals in clauses {
        set.push(clause(alloc, c, literals.as_slice())?)?;
    }
    Ok(set)
}

fn clause(alloc: Global, c: &Circuit, literals: &[u64]) -> Result<Clause, AllocError>
    requires { (clause : List LitOf) × (clause_of c.now literals.now ≡ Ok clause) }
    ensures { IfOk result (λ clause. clause_of c.now literals.now ≡ Ok clause) }
{
    match clause_from_aiger(alloc, c, literals) {
        Ok(clause) => Ok(clause),
        Err(EntryEnd::Memory) => Err(AllocError),
        Err(EntryEnd::Fault(_)) => unreachable!(),
    }
}
