//! Entries made from rows of tables. The main calls are `entry_answer` and `refutation_is`.

use circuit::Circuit;
use cnf::Proof;
use cnf_unroll::ClauseSet;
use entry::{
    Entry, EntryEnd, Kind, Listed, Refutation, RefutationFault, Side, Use, check_entry,
    clause_from_aiger, refutation_fault,
};
use items::Items;
use std::alloc::{AllocError, Global};

/// The kind of an entry, its clauses, each with its literals of the model, and its uses.
pub(crate) type Claim = (Kind, &'static [&'static [u64]], &'static [Use]);

pub(crate) const FIRST: Use = Use {
    entry: 0,
    side: Side::Any,
};

pub(crate) const INSIDE: Use = Use {
    entry: 0,
    side: Side::In,
};

pub(crate) const OUTSIDE: Use = Use {
    entry: 0,
    side: Side::Out,
};

pub(crate) const SECOND: Use = Use {
    entry: 1,
    side: Side::Any,
};

fn push_clauses(
    alloc: Global,
    c: &Circuit,
    clauses: &[&[u64]],
    set: &mut ClauseSet,
) -> Result<(), EntryEnd> {
    for literals in clauses {
        set.push(clause_from_aiger(alloc, c, literals)?)?;
    }
    Ok(())
}

/// The clauses of these literals of the model.
fn set_of(alloc: Global, c: &Circuit, clauses: &[&[u64]]) -> Result<ClauseSet, EntryEnd> {
    let mut set = Items::new(alloc);
    push_clauses(alloc, c, clauses, &mut set)?;
    Ok(set)
}

fn listed(alloc: Global, c: &Circuit, claim: &Claim) -> Result<Listed, EntryEnd> {
    let (kind, clauses, uses) = *claim;
    let set = set_of(alloc, c, clauses)?;
    Ok(Listed {
        kind,
        set,
        uses: Items::from_slice(alloc, uses)?,
    })
}

fn push_entries(
    alloc: Global,
    c: &Circuit,
    claims: &[Claim],
    list: &mut Vec<Listed>,
) -> Result<(), EntryEnd> {
    for claim in claims {
        list.push(listed(alloc, c, claim)?)?;
    }
    Ok(())
}

/// The list of these entries.
pub(crate) fn list_of(
    alloc: Global,
    c: &Circuit,
    claims: &[Claim],
) -> Result<Vec<Listed>, EntryEnd> {
    let mut list = Vec::new(alloc);
    push_entries(alloc, c, claims, &mut list)?;
    Ok(list)
}

fn push_line(alloc: Global, line: &str, proof: &mut Proof) -> Result<(), AllocError> {
    if line.is_empty() {
        return Ok(());
    }
    proof.push(Items::from_slice(alloc, line.as_bytes())?)
}

/// A proof of one line, or of none where it is empty.
pub(crate) fn proof_of(alloc: Global, line: &str) -> Result<Proof, AllocError> {
    let mut proof = Items::new(alloc);
    push_line(alloc, line, &mut proof)?;
    Ok(proof)
}

fn push_proofs(alloc: Global, lines: &[&str], proofs: &mut Items<Proof>) -> Result<(), AllocError> {
    for line in lines {
        proofs.push(proof_of(alloc, line)?)?;
    }
    Ok(())
}

fn proofs_of(alloc: Global, lines: &[&str]) -> Result<Items<Proof>, AllocError> {
    let mut proofs = Items::new(alloc);
    push_proofs(alloc, lines, &mut proofs)?;
    Ok(proofs)
}

/// The entry that a list has with these proofs.
pub(crate) fn with_proofs(entry: Listed, proofs: Items<Proof>) -> Entry {
    Entry {
        kind: entry.kind,
        set: entry.set,
        uses: entry.uses,
        proofs,
    }
}

/// The entry of a claim, with a proof of at most one line for each of its clauses.
pub(crate) fn entry_of(
    alloc: Global,
    c: &Circuit,
    claim: &Claim,
    lines: &[&str],
) -> Result<Entry, EntryEnd> {
    let proofs = proofs_of(alloc, lines)?;
    Ok(with_proofs(listed(alloc, c, claim)?, proofs))
}

/// What is said of an entry that has a proof for each clause, as a row has a line.
pub(crate) fn judged(
    alloc: Global,
    c: &Circuit,
    list: &[Listed],
    e: &Entry,
) -> Result<(), EntryEnd> {
    if e.proofs.len() != e.set.len() {
        return Err(EntryEnd::Memory);
    }
    check_entry(alloc, c, list, e)
}

fn judged_of(
    alloc: Global,
    c: &Circuit,
    list: &[Listed],
    claim: &Claim,
    lines: &[&str],
) -> Result<(), EntryEnd> {
    let e = entry_of(alloc, c, claim, lines)?;
    judged(alloc, c, list, &e)
}

/// What is said of an entry behind a list of entries, with a proof of at most one line for each of its clauses.
pub(crate) fn entry_answer(
    alloc: Global,
    c: &Circuit,
    claims: &[Claim],
    claim: &Claim,
    lines: &[&str],
) -> Result<(), EntryEnd> {
    let list = list_of(alloc, c, claims)?;
    judged_of(alloc, c, list.as_slice(), claim, lines)
}

/// The refutation over these uses with a proof of one line.
pub(crate) fn refutation_of(
    alloc: Global,
    uses: &[Use],
    line: &str,
) -> Result<Refutation, AllocError> {
    let uses = Items::from_slice(alloc, uses)?;
    Ok(Refutation {
        uses,
        proof: proof_of(alloc, line)?,
    })
}

// A row's circuit has a property.
fn refutation_answer(
    alloc: Global,
    c: &Circuit,
    list: &[Listed],
    r: &Refutation,
) -> Result<Option<RefutationFault>, AllocError> {
    if c.property_count() == 0 {
        return Err(AllocError);
    }
    refutation_fault(alloc, c, list, 0, r)
}

fn fault_over(
    alloc: Global,
    c: &Circuit,
    list: &[Listed],
    uses: &[Use],
    line: &str,
) -> Result<Option<RefutationFault>, AllocError> {
    let r = refutation_of(alloc, uses, line)?;
    refutation_answer(alloc, c, list, &r)
}

/// Whether this is the first fault of a refutation of property 0 over a list of entries, with a proof of at most one
/// line.
pub(crate) fn refutation_is(
    alloc: Global,
    c: &Circuit,
    claims: &[Claim],
    uses: &[Use],
    line: &str,
    wanted: Option<RefutationFault>,
) -> Result<bool, EntryEnd> {
    let list = list_of(alloc, c, claims)?;
    Ok(fault_over(alloc, c, list.as_slice(), uses, line)? == wanted)
}
