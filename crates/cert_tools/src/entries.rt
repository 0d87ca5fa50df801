//! Which entries of a certificate its refutation needs, and what becomes of each. The main calls are `needed` and
//! `trimmed_entries`.

ghost use Rattle.std.specs.Prelude.{◌≡◌, ◌<◌, ◌≤◌, ◌+◌, ◌^◌, ◌↔◌, ◌∷◌, ◌++◌, []};
ghost use Rattle.std.specs.Prelude.{ℕ, List, Some, true, length, slice_get, if◌then◌else◌, IfOk, OnOk};
ghost use Rattle.aig_semantics.specs.Circuits.{Circuit as CircuitOf};
ghost use Rattle.fair_semantics.specs.Entries.{Entry as EntryOf};
ghost use Rattle.certificate.specs.Certificates.{AreProvedBehind};
ghost use Rattle.certificate_texts.specs.declared.certificates.Written.{Written as WrittenOf};
ghost use Rattle.cert_tools.specs.Reaching.{is_in, IsReachedFrom};
ghost use Rattle.cert_tools.specs.Trimmed.{Numbered, IsTrimmedEntry};
ghost use Rattle.cert_tools.specs.TrimmingEntries.{numbers_of, entry_node, entry_nodes, needed_entries, ArePlaces, IsEntryOf, GetsEntry};
ghost use Rattle.std.specs.List.{AllZip};

use crate::reaching::{Node, Numbers, reached};
use crate::shortening::kept_proofs;
use crate::uses::{given_empty, numbers_of, renumbered};
use certificate::{Certificate, Written};
use items::Items;
use std::alloc::{AllocError, Global};

/// The numbers of the entries that are needed, and for each entry how many of those stand before it.
#[derive(Drop)]
pub(crate) struct NeededEntries {
    pub(crate) numbers: Numbers,
    pub(crate) places: Vec<u32>,
}

/// What the refutation reaches.
pub(crate) fn needed(alloc: Global, certificate: &Certificate) -> Result<NeededEntries, AllocError>
    requires few { length certificate.now.entries < 2 ^ 32 }
    requires proved { (c : CircuitOf) × (all : List EntryOf) × AreProvedBehind c [] certificate.now.entries all }
    ensures exact { IfOk result (λ needed. (n : ℕ) → (is_in needed.numbers n ≡ true)
        ↔ IsReachedFrom (entry_nodes 0 certificate.now.entries) (numbers_of certificate.now.uses) n) }
    ensures places { IfOk result (λ needed. ArePlaces (needed_entries needed.numbers certificate.now.entries)
        (length certificate.now.entries) needed.places.items) }
{
    let numbers = needed_numbers(alloc, certificate)?;
    let places = places(alloc, certificate.entries.as_slice(), &numbers)?;
    Ok(NeededEntries { numbers, places })
}

fn needed_numbers(alloc: Global, certificate: &Certificate) -> Result<Numbers, AllocError>
    requires { (c : CircuitOf) × (all : List EntryOf) × AreProvedBehind c [] certificate.now.entries all }
    ensures { IfOk result (λ numbers. (n : ℕ) → (is_in numbers n ≡ true)
        ↔ IsReachedFrom (entry_nodes 0 certificate.now.entries) (numbers_of certificate.now.uses) n) }
{
    let nodes = entry_nodes(alloc, certificate.entries.as_slice())?;
    let from = numbers_of(alloc, certificate.uses.as_slice())?;
    reached(alloc, nodes.as_slice(), from.as_slice())
}

fn entry_nodes(alloc: Global, entries: &[Written]) -> Result<Vec<Node>, AllocError>
    ensures { IfOk result (λ nodes. nodes.items ≡ entry_nodes 0 entries.now) }
{
    let mut nodes = Vec::new(alloc);
    for k in 0..entries.len() {
        push_node(alloc, &mut nodes, k as u64, &entries[k])?;
    }
    Ok(nodes)
}

fn push_node(
    alloc: Global,
    nodes: &mut Vec<Node>,
    number: u64,
    e: &Written,
) -> Result<(), AllocError>
    ensures { OnOk result (nodes.new.items ≡ nodes.old.items ++ entry_node number e.now ∷ []) }
{
    let further = numbers_of(alloc, e.uses.as_slice())?;
    nodes.push(Node { number, further })?;
    Ok(())
}

// For each entry how many of those before it are needed.
fn places(alloc: Global, entries: &[Written], numbers: &Numbers) -> Result<Vec<u32>, AllocError>
    requires { length entries.now < 2 ^ 32 }
    ensures { IfOk result (λ places. ArePlaces (needed_entries numbers.now entries.now) (length entries.now) places.items) }
{
    let mut places = Vec::new(alloc);
    let mut place = 0;
    for k in 0..entries.len() {
        places.push(place)?;
        place = next_place(numbers, k as u64, place);
    }
    Ok(places)
}

fn next_place(numbers: &Numbers, number: u64, place: u32) -> u32
    requires { place + 1 < 2 ^ 32 }
    ensures { result ≡ (if is_in numbers.now number then place + 1 else place) }
{
    if numbers.has(number) {
        place + 1
    } else {
        place
    }
}

/// What becomes of the entries that are needed.
pub(crate) fn trimmed_entries(
    alloc: Global,
    entries: &[Written],
    needed: &NeededEntries,
) -> Result<Items<Written>, AllocError>
    requires { (c : CircuitOf) × (all : List EntryOf) × AreProvedBehind c [] entries.now all }
    ensures { IfOk result (λ kept. (c : CircuitOf) (all : List EntryOf) (among : List Numbered) → AreProvedBehind c [] entries.now all
        → ArePlaces among (length entries.now) needed.now.places.items
        → AllZip (IsTrimmedEntry c all among) (needed_entries needed.now.numbers entries.now) kept) }
{
    let mut kept = Items::new(alloc);
    for k in 0..entries.len() {
        add_entry(alloc, &mut kept, entries, k, needed)?;
    }
    Ok(kept)
}

// What becomes of the entry with this number, where it is needed.
fn add_entry(
    alloc: Global,
    kept: &mut Items<Written>,
    entries: &[Written],
    k: usize,
    needed: &NeededEntries,
) -> Result<(), AllocError>
    requires inside { k < length entries.now }
    requires proved { (c : CircuitOf) × (all : List EntryOf) × AreProvedBehind c [] entries.now all }
    ensures { OnOk result ((c : CircuitOf) (all : List EntryOf) (among : List Numbered) (e : WrittenOf) → IsEntryOf c entries.now all k e
        → ArePlaces among (length entries.now) needed.now.places.items
        → GetsEntry (IsTrimmedEntry c all among) (is_in needed.now.numbers k) (k, e) kept.old kept.new) }
{
    if needed.numbers.has(k as u64) {
        kept.push(trimmed_entry(alloc, entries, &entries[k], needed.places.as_slice())?)?;
    }
    Ok(())
}

fn trimmed_entry(
    alloc: Global,
    entries: &[Written],
    e: &Written,
    places: &[u32],
) -> Result<Written, AllocError>
    requires { (c : CircuitOf) × (all : List EntryOf) × (k : ℕ) × IsEntryOf c entries.now all k e.now }
    ensures { IfOk result (λ to. (c : CircuitOf) (all : List EntryOf) (among : List Numbered) (k : ℕ) → IsEntryOf c entries.now all k e.now
        → ArePlaces among (length entries.now) places.now → IsTrimmedEntry c all among (k, e.now) to) }
{
    let empty = given_empty(entries, e);
    let proofs = kept_proofs(alloc, empty, e.proofs.as_slice())?;
    let clauses = copied_clauses(alloc, e.clauses.as_slice())?;
    let uses = renumbered(alloc, e.uses.as_slice(), places)?;
    Ok(Written {
        kind: e.kind,
        clauses,
        uses,
        proofs,
    })
}

fn copied_clauses(alloc: Global, clauses: &[Items<u64>]) -> Result<Items<Items<u64>>, AllocError>
    ensures { IfOk result (λ copy. copy ≡ clauses.now) }
{
    let mut copy = Items::new(alloc);
    for literals in clauses {
        copy.push(literals.try_copy(alloc)?)?;
    }
    Ok(copy)
}
