//! A circuit whose latches stay at 0, and what is found of it.

ghost use Rattle.std.specs.Prelude.{◌≡◌, ◌≤◌, ◌<◌, [], ◌∷◌, ◌++◌, true, false, Bool, map, length, All, IfOk, IfSome, OnOk};
ghost use Rattle.std.specs.Arc.{arc_value};
ghost use Rattle.aig_semantics.specs.Circuits.{Circuit};
ghost use Rattle.circuit.specs.Sections.{circuit_of};
ghost use Rattle.entry.specs.declared.origins.Origin.TheVariants.{Given};
ghost use Rattle.entry.specs.Entries.{said};
ghost use Rattle.entry.specs.Proved.{IsProved, IsGoodRefutation};
ghost use Rattle.entry.specs.Listing.{entry_of, entries_of};
ghost use Rattle.entry.specs.CheckedEntries.{viewed};
ghost use Rattle.wall_store.specs.Boards.{IsSound, IsSoundList, Allow, most_entries};
ghost use Rattle.wall_store.specs.Scanning.{NoneWithin};
ghost use Rattle.ledger_tests.specs.Passes.{model, with_justice, keeps_0, at_0, raised, target, IsFindOf};

use crate::boards::{circuit_of, entry_of, proof_of, skeleton_of};
use aig_semantics::{Latch, Reset};
use circuit::{Circuit, ModelEnd, Parts};
use cnf::Lit;
use cnf_unroll::ClauseSet;
use entry::{
    Checked, Entry, EntryEnd, Kind, Listed, Refutation, check_entry, excludes, good_lists_grow,
    proved_entries_are_valid, refutation_fault,
};
use fair_semantics::{Side, Skeleton, Use};
use items::Items;
use std::alloc::{AllocError, Global};
use std::sync::Arc;
use wall_store::sound_lists_grow;

// The properties: one or two, each that the first latch is 1.
fn justice(alloc: Global, two: bool) -> Result<Items<Items<u64>>, AllocError>
    ensures { IfOk result (λ js. js ≡ (model two).justice) }
{
    let mut justice = Items::new(alloc);
    push_property(alloc, &mut justice)?;
    if two {
        push_property(alloc, &mut justice)?;
    }
    Ok(justice)
}

// Puts the property that the first latch is 1 behind those that are there.
fn push_property(alloc: Global, justice: &mut Items<Items<u64>>) -> Result<(), AllocError>
    ensures { OnOk result (justice.new ≡ justice.old ++ (2 ∷ []) ∷ []) }
{
    let property = Items::from_slice(alloc, &[2])?;
    justice.push(property)
}

fn latch(var: u64, next: u64) -> Latch
    ensures { result ≡ keeps_0 var next }
{
    Latch {
        var,
        next,
        reset: Reset::Zero,
    }
}

fn parts_with(alloc: Global, justice: Items<Items<u64>>) -> Result<Parts, AllocError>
    ensures { IfOk result (λ parts. circuit_of parts ≡ with_justice justice) }
{
    let latches = [
        latch(1, 2),
        latch(2, 4),
        latch(3, 6),
        latch(4, 8),
        latch(5, 10),
        latch(6, 12),
    ];
    Ok(Parts {
        max: 6,
        inputs: Items::new(alloc),
        latches: Items::from_slice(alloc, &latches)?,
        gates: Items::new(alloc),
        outputs: Items::new(alloc),
        bad: Items::new(alloc),
        constraints: Items::new(alloc),
        justice,
        fairness: Items::new(alloc),
    })
}

fn circuit_with(alloc: Global, justice: Items<Items<u64>>) -> Result<Circuit, ModelEnd>
    ensures { IfOk result (λ c. c ≡ with_justice justice) }
{
    let parts = parts_with(alloc, justice)?;
    let c = circuit_of(alloc, &parts);
    drop(parts);
    c
}

/// The circuit of six latches that stay at 0, with one property or two, each that the first latch is 1.
#[tactic(auto, using(crate::proofs::Modelling::model_with))]
pub fn circuit(alloc: Global, two: bool) -> Result<Circuit, ModelEnd>
    ensures { IfOk result (λ c. c ≡ model two) }
{
    let justice = justice(alloc, two)?;
    Ok(circuit_with(alloc, justice)?)
}

fn state(alloc: Global, k: u32) -> Result<Items<bool>, AllocError>
    ensures { IfOk result (λ s. s ≡ raised k) }
{
    Items::from_slice(alloc, &[true, k == 1, k == 2, k == 3, k == 4, k == 5])
}

// The skeleton in which the first latch is 1, and latch k, counted from 0.
fn skeleton(alloc: Global, k: u32) -> Result<Skeleton, AllocError>
    ensures { IfOk result (λ s. s ≡ target k) }
{
    let latches = state(alloc, k)?;
    let successor = state(alloc, k)?;
    skeleton_of(alloc, latches, successor)
}

// Behind the clauses of a block, two for each latch, stand that of the entry, with the number 14, and the broken one.
fn proof_line(k: u32) -> &'static str {
    match k {
        0 => "16 0 14 2 15 0",
        1 => "16 0 14 4 15 0",
        2 => "16 0 14 6 15 0",
        3 => "16 0 14 8 15 0",
        4 => "16 0 14 10 15 0",
        _ => "16 0 14 12 15 0",
    }
}

// The entry that latch k is 0 in each state that is reached, with its proof.
fn at_0(alloc: Global, k: u32) -> Result<Entry, AllocError>
    ensures said { IfOk result (λ e. said e ≡ at_0 k) }
    ensures count { IfOk result (λ e. length e.proofs ≡ 1) }
{
    let literal = Lit {
        var: k as u64,
        positive: false,
    };
    entry_of(alloc, literal, proof_line(k))
}

// The entry that says nothing.
fn nothing(alloc: Global) -> Entry
    ensures said { said result ≡ record { kind = Kind.Reach; clauses = []; uses = [] } }
    ensures proofs { result.proofs ≡ [] }
{
    Entry {
        kind: Kind::Reach,
        set: Items::new(alloc),
        uses: Items::new(alloc),
        proofs: Items::new(alloc),
    }
}

#[tactic(auto, using(crate::proofs::Modelling::over_said))]
fn judge(alloc: Global, c: &Circuit, k: u32, e: &Entry) -> Result<(), EntryEnd>
    requires latches { length c.now.latches ≡ 6 }
    requires latch { k < 6 }
    requires said { said e.now ≡ at_0 k }
    requires count { length e.now.proofs ≡ 1 }
    ensures { OnOk result (IsProved c.now [] (said e.now) e.now.proofs) }
{
    check_entry(alloc, c, &[], e)?;
    Ok(())
}

fn judge_nothing(alloc: Global, c: &Circuit, e: &Entry) -> Result<(), EntryEnd>
    requires said { said e.now ≡ record { kind = Kind.Reach; clauses = []; uses = [] } }
    requires count { e.now.proofs ≡ [] }
    ensures { OnOk result (IsProved c.now [] (said e.now) e.now.proofs) }
{
    check_entry(alloc, c, &[], e)?;
    Ok(())
}

fn checked(
    alloc: Global,
    shared: &Arc<Circuit>,
    author: u32,
    turn: u32,
    k: u32,
    e: Entry,
) -> Result<Checked, EntryEnd>
    requires circuit { (two : Bool) × (arc_value shared.now ≡ model two) }
    requires latch { k < 6 }
    requires said { said e ≡ at_0 k }
    requires count { length e.proofs ≡ 1 }
    ensures { IfOk result (λ found. IsFindOf (arc_value shared.now) author turn k found) }
{
    let c: &Circuit = &**shared;
    judge(alloc, c, k, &e)?;
    proved_entries_are_valid(c);
    good_lists_grow(c);
    let skeleton = skeleton(alloc, k)?;
    Ok(Checked::new(alloc, shared, &[], e, author, turn, skeleton)?)
}

/// What this worker finds in that turn, behind no entry: latch k is 0 in each state that is reached.
pub fn find(
    alloc: Global,
    shared: &Arc<Circuit>,
    author: u32,
    turn: u32,
    k: u32,
) -> Result<Arc<Checked>, EntryEnd>
    requires circuit { (two : Bool) × (arc_value shared.now ≡ model two) }
    requires latch { k < 6 }
    ensures { IfOk result (λ found. IsFindOf (arc_value shared.now) author turn k (arc_value found)) }
{
    let e = at_0(alloc, k)?;
    Ok(Arc::new(alloc, checked(alloc, shared, author, turn, k, e)?)?)
}

fn given(alloc: Global, shared: &Arc<Circuit>) -> Result<Checked, EntryEnd>
    ensures sound { IfOk result (λ e. IsSound (arc_value shared.now) [] e) }
    ensures origin { IfOk result (λ e. e.origin ≡ Given) }
{
    let c: &Circuit = &**shared;
    let e = nothing(alloc);
    judge_nothing(alloc, c, &e)?;
    proved_entries_are_valid(c);
    good_lists_grow(c);
    let checked = Checked::given(alloc, shared, &[], e)?;
    checked.holds_where_uses_stand();
    Ok(checked)
}

fn list_of_given(alloc: Global, shared: &Arc<Circuit>) -> Result<Vec<Arc<Checked>>, EntryEnd>
    ensures sound { IfOk result (λ es. IsSoundList (arc_value shared.now) (map arc_value es.items)) }
    ensures origins { IfOk result (λ es. All (λ e. e.origin ≡ Given) (map arc_value es.items)) }
    ensures few { IfOk result (λ es. length es.items ≤ 1) }
{
    sound_lists_grow(&**shared);
    let e = given(alloc, shared)?;
    let mut entries = Vec::new(alloc);
    entries.push(Arc::new(alloc, e)?)?;
    Ok(entries)
}

/// Entries that are given: none, or the one that says nothing.
pub fn front(alloc: Global, shared: &Arc<Circuit>, one: bool) -> Result<Vec<Arc<Checked>>, EntryEnd>
    ensures sound { IfOk result (λ es. IsSoundList (arc_value shared.now) (map arc_value es.items)) }
    ensures origins { IfOk result (λ es. All (λ e. e.origin ≡ Given) (map arc_value es.items)) }
    ensures few { IfOk result (λ es. length es.items ≤ 1) }
{
    if one {
        return list_of_given(alloc, shared);
    }
    sound_lists_grow(&**shared);
    Ok(Vec::new(alloc))
}

fn none_bars(view: &[Arc<Checked>], skeleton: &Skeleton, scratch: &mut [bool]) -> bool
    requires few { length view.now ≤ most_entries }
    requires room { length view.now ≤ length scratch.old }
    ensures { result ≡ true → NoneWithin (viewed view.now) skeleton.now 0 (length view.now) }
{
    for n in 0..view.len() as u32 {
        if excludes(view, n, skeleton, scratch) {
            return false;
        }
    }
    true
}

// Whether the entries of the view allow the skeleton.
fn allows(alloc: Global, view: &[Arc<Checked>], skeleton: &Skeleton) -> Result<bool, AllocError>
    ensures { IfOk result (λ b. b ≡ true → Allow (map arc_value view.now) skeleton.now) }
{
    if view.len() > 65_536 {
        return Ok(false);
    }
    let mut scratch = vec![in alloc; false; view.len()]?;
    Ok(none_bars(view, skeleton, &mut scratch))
}

/// Whether they allow the skeleton in which the first latch is 1, and latch k, counted from 0.
pub fn allows_at(alloc: Global, view: &[Arc<Checked>], k: u32) -> Result<bool, AllocError>
    ensures { IfOk result (λ b. b ≡ true → Allow (map arc_value view.now) (target k)) }
{
    let target = skeleton(alloc, k)?;
    let free = allows(alloc, view, &target);
    drop(target);
    free
}

fn set_again(alloc: Global, set: &ClauseSet) -> Result<ClauseSet, AllocError>
    ensures { IfOk result (λ copy. copy ≡ set.now) }
{
    let mut copy = Items::new(alloc);
    for clause in set.as_slice() {
        copy.push(clause.clone()?)?;
    }
    Ok(copy)
}

fn listed_again(alloc: Global, listed: &Listed) -> Result<Listed, AllocError>
    ensures { IfOk result (λ copy. entry_of copy ≡ entry_of listed.now) }
{
    let set = set_again(alloc, &listed.set)?;
    let uses = listed.uses.try_copy(alloc)?;
    Ok(Listed {
        kind: listed.kind,
        set,
        uses,
    })
}

fn list_of(alloc: Global, view: &[Arc<Checked>]) -> Result<Vec<Listed>, AllocError>
    ensures { IfOk result (λ list. entries_of list.items ≡ viewed view.now) }
{
    let mut list = Vec::new(alloc);
    for checked in view {
        list.push(listed_again(alloc, checked.listed())?)?;
    }
    Ok(list)
}

/// The refutation that uses this entry, with a proof of this line.
pub fn refutation(alloc: Global, entry: u32, line: &str) -> Result<Refutation, AllocError> {
    let used = Use {
        entry,
        side: Side::Any,
    };
    let uses = Items::from_slice(alloc, &[used])?;
    let proof = proof_of(alloc, line)?;
    Ok(Refutation { uses, proof })
}

/// This refutation of the property, where it is good over the view.
pub fn judged(
    alloc: Global,
    c: &Circuit,
    view: &[Arc<Checked>],
    property: u32,
    r: Refutation,
) -> Result<Option<Refutation>, AllocError>
    requires { property < length c.now.justice }
    ensures { IfOk result (λ found. IfSome found (λ r. IsGoodRefutation c.now (viewed view.now) property r.uses r.proof)) }
{
    let list = list_of(alloc, view)?;
    match refutation_fault(alloc, c, &list, property, &r)? {
        None => Ok(Some(r)),
        Some(_) => Ok(None),
    }
}

/// A refutation of the property that uses the entry of the view with this number, by the one proof or the other, where it is
/// good.
pub fn refuted(
    alloc: Global,
    c: &Circuit,
    view: &[Arc<Checked>],
    property: u32,
    by: (u32, bool),
) -> Result<Option<Refutation>, AllocError>
    requires { property < length c.now.justice }
    ensures { IfOk result (λ found. IfSome found (λ r. IsGoodRefutation c.now (viewed view.now) property r.uses r.proof)) }
{
    let (entry, other) = by;
    let line = if other {
        "20 0 14 15 0"
    } else {
        "17 0 14 15 0"
    };
    let r = refutation(alloc, entry, line)?;
    judged(alloc, c, view, property, r)
}
