//! Checked entries of circuits of one latch: what they keep, the sides of states, the skeletons that they exclude, and
//! the same entries from claims without a proof.

ghost use Rattle.std.specs.Prelude.{◌≡◌, ◌∷◌, [], length, IfOk};
ghost use Rattle.std.specs.Arc.{arc_value};
ghost use Rattle.cnf_unroll.specs.Laws.{AreOver};
ghost use Rattle.entry.specs.Listing.{entry_of};
ghost use Rattle.entry.specs.Proved.{IsProved};
ghost use Rattle.certify.specs.Claims.{claimed};

use crate::claims::{judged, proof_of, with_proofs};
use crate::tests::{RISES, STUCK};
use aig_semantics::Position;
use certify::{Claim, certify};
use circuit::Circuit;
use cnf::Proof;
use cnf_unroll::ClauseSet;
use edge::{Meter, SolveEnd};
use entry::{
    Checked, Entry, EntryEnd, Kind, Listed, Origin, check_entry, clause_from_aiger, excludes,
    good_lists_grow, proved_entries_are_valid, side,
};
use fair_semantics::{Situation, Skeleton};
use items::Items;
use std::alloc::{AllocError, Global};
use std::sync::Arc;
use std::test::Fail;

/// An entry of one clause of one literal of the model, without uses, and the line of its proof.
pub(crate) struct Row {
    model: &'static str,
    pub(crate) kind: Kind,
    pub(crate) literal: u64,
    line: &'static str,
    // The value of the latch on the entry's inside.
    inside: bool,
    // Values of the latch and of its next one, and whether the entry excludes a skeleton of them.
    skeletons: [(bool, bool, bool); 3],
}

/// The wall of the states in which a latch that rises is 1.
pub(crate) const WALL: Row = Row {
    model: RISES,
    kind: Kind::Wall,
    literal: 2,
    line: "6 0 1 3 5 0",
    inside: true,
    skeletons: [
        (true, true, false),
        (false, false, false),
        (false, true, true),
    ],
};

/// The reach entry of the states in which a stuck latch is 0.
pub(crate) const REACHED: Row = Row {
    model: STUCK,
    kind: Kind::Reach,
    literal: 3,
    line: "6 0 4 2 5 0",
    inside: false,
    skeletons: [
        (false, false, false),
        (false, true, true),
        (true, true, true),
    ],
};

// A list of one value.
fn only<T: Drop>(alloc: Global, value: T) -> Result<Items<T>, AllocError>
    ensures { IfOk result (λ list. list ≡ value ∷ []) }
{
    let mut list = Items::new(alloc);
    list.push(value)?;
    Ok(list)
}

/// The set of one clause of one literal of the model.
pub(crate) fn set_of(alloc: Global, c: &Circuit, literal: u64) -> Result<ClauseSet, EntryEnd>
    ensures over { IfOk result (λ set. AreOver (length c.now.latches) set) }
    ensures one { IfOk result (λ set. length set ≡ 1) }
{
    let clause = clause_from_aiger(alloc, c, &[literal])?;
    Ok(only(alloc, clause)?)
}

// A proof of one line, alone.
fn proofs_of(alloc: Global, line: &str) -> Result<Items<Proof>, AllocError>
    ensures { IfOk result (λ proofs. length proofs ≡ 1) }
{
    let proof = proof_of(alloc, line)?;
    only(alloc, proof)
}

fn row_entry(alloc: Global, c: &Circuit, row: &Row) -> Result<Entry, EntryEnd>
    ensures over { IfOk result (λ e. AreOver (length c.now.latches) e.set) }
    ensures count { IfOk result (λ e. length e.proofs ≡ length e.set) }
{
    let set = set_of(alloc, c, row.literal)?;
    let proofs = proofs_of(alloc, row.line)?;
    Ok(Entry {
        kind: row.kind,
        set,
        uses: Items::new(alloc),
        proofs,
    })
}

/// The entry of a row, checked behind no entries.
pub(crate) fn checked_row(
    alloc: Global,
    shared: &Arc<Circuit>,
    row: &Row,
) -> Result<Checked, EntryEnd>
    ensures { IfOk result (λ e. IsProved (arc_value shared.now) [] e.entry e.proofs) }
{
    let c: &Circuit = &**shared;
    let e = row_entry(alloc, c, row)?;
    check_entry(alloc, c, &[], &e)?;
    proved_entries_are_valid(c);
    good_lists_grow(c);
    Ok(Checked::given(alloc, shared, &[], e)?)
}

// One position with this value of the latch, and its successor.
fn situation_of(alloc: Global, now: bool, next: bool) -> Result<Situation, AllocError> {
    let latches = Items::from_slice(alloc, &[now])?;
    let successor = Items::from_slice(alloc, &[next])?;
    Ok(Situation {
        position: Position {
            latches,
            inputs: Items::new(alloc),
        },
        successor,
    })
}

fn skeleton_of(alloc: Global, now: bool, next: bool) -> Result<Skeleton, AllocError> {
    let situations = only(alloc, situation_of(alloc, now, next)?)?;
    Ok(Skeleton { situations })
}

// The claim of an entry, for a skeleton.
fn claim_of(alloc: Global, listed: &Listed, skeleton: Skeleton) -> Result<Claim, AllocError>
    ensures { IfOk result (λ claim. claimed claim ≡ entry_of listed.now) }
{
    let copy = listed.try_copy(alloc)?;
    Ok(Claim {
        kind: copy.kind,
        clauses: copy.set,
        uses: copy.uses,
        author: 7,
        turn: 9,
        skeleton,
    })
}

// A claim of what a checked entry says, certified behind no entries, if the entry excludes the claim's skeleton.
fn certified(
    alloc: Global,
    shared: &Arc<Circuit>,
    known: Checked,
    claim: Claim,
) -> Result<Checked, SolveEnd>
    requires proved { IsProved (arc_value shared.now) [] known.entry known.proofs }
    requires same { claimed claim ≡ known.entry }
{
    let c: &Circuit = &**shared;
    proved_entries_are_valid(c);
    good_lists_grow(c);
    let view = [Arc::new(alloc, known)?];
    let mut scratch = [true];
    let excluded = excludes(view.as_slice(), 0, &claim.skeleton, &mut scratch);
    drop(view);
    if !excluded {
        return Err(SolveEnd::Memory);
    }
    let mut meter = Meter::new(0, 0);
    certify(alloc, shared, &[], claim, &mut meter)
}

fn claim_for(alloc: Global, known: &Checked, row: &Row) -> Result<Claim, AllocError>
    ensures { IfOk result (λ claim. claimed claim ≡ known.now.entry) }
{
    let (now, next, _) = row.skeletons[2];
    let skeleton = skeleton_of(alloc, now, next)?;
    claim_of(alloc, known.listed(), skeleton)
}

// The claim of a row for its last skeleton, certified.
fn certified_row(alloc: Global, shared: &Arc<Circuit>, row: &Row) -> Result<Checked, Fail> {
    let known = checked_row(alloc, shared, row)?;
    let claim = claim_for(alloc, &known, row)?;
    Ok(certified(alloc, shared, known, claim)?)
}

fn push_lines(alloc: Global, proof: &Proof, copy: &mut Proof) -> Result<(), AllocError> {
    for line in proof.as_slice() {
        copy.push(line.try_copy(alloc)?)?;
    }
    Ok(())
}

fn proof_again(alloc: Global, proof: &Proof) -> Result<Proof, AllocError> {
    let mut copy = Items::new(alloc);
    push_lines(alloc, proof, &mut copy)?;
    Ok(copy)
}

fn push_proofs(
    alloc: Global,
    proofs: &[Proof],
    copies: &mut Items<Proof>,
) -> Result<(), AllocError> {
    for proof in proofs {
        copies.push(proof_again(alloc, proof)?)?;
    }
    Ok(())
}

fn proofs_again(alloc: Global, proofs: &[Proof]) -> Result<Items<Proof>, AllocError> {
    let mut copies = Items::new(alloc);
    push_proofs(alloc, proofs, &mut copies)?;
    Ok(copies)
}

// A checked entry as it could be read from a certificate.
fn entry_again(alloc: Global, checked: &Checked) -> Result<Entry, AllocError> {
    let listed = checked.listed().try_copy(alloc)?;
    Ok(with_proofs(listed, proofs_again(alloc, checked.proofs())?))
}

fn keeps(checked: &Checked, row: &Row) -> bool {
    checked.seen() == 0
        && checked.used().is_empty()
        && checked.proofs().len() == 1
        && checked.listed().kind == row.kind
        && checked.circuit().latches().len() == 1
}

fn is_by(origin: &Origin) -> bool {
    match origin {
        Origin::Given => false,
        Origin::Worker(work) => {
            work.author == 7 && work.turn == 9 && work.skeleton.situations.len() == 1
        }
    }
}

fn sides_are(view: &[Arc<Checked>], row: &Row) -> bool {
    let mut scratch = [true];
    if view.is_empty() {
        return false;
    }
    side(view, 0, &[row.inside], &mut scratch) && !side(view, 0, &[!row.inside], &mut scratch)
}

fn excludes_is(view: &[Arc<Checked>], skeleton: &Skeleton, wanted: bool) -> bool {
    let mut scratch = [true];
    if view.is_empty() {
        return false;
    }
    excludes(view, 0, skeleton, &mut scratch) == wanted
}

fn excludes_row(
    alloc: Global,
    view: &[Arc<Checked>],
    row: &(bool, bool, bool),
) -> Result<bool, AllocError> {
    let (now, next, wanted) = *row;
    let skeleton = skeleton_of(alloc, now, next)?;
    Ok(excludes_is(view, &skeleton, wanted))
}

// How many of the row's skeletons the entry excludes, or not, as the row says.
fn right_skeletons(alloc: Global, view: &[Arc<Checked>], row: &Row) -> Result<u64, AllocError> {
    let mut count = 0u64;
    for skeleton in &row.skeletons {
        if excludes_row(alloc, view, skeleton)? {
            count = count.saturating_add(1);
        }
    }
    Ok(count)
}

fn lies(alloc: Global, view: &[Arc<Checked>], row: &Row) -> Result<bool, AllocError> {
    Ok(sides_are(view, row) && right_skeletons(alloc, view, row)? == 3)
}

// Whether the entry lies as the row says.
fn tells(alloc: Global, checked: Checked, row: &Row) -> Result<bool, AllocError> {
    let view = [Arc::new(alloc, checked)?];
    let told = lies(alloc, view.as_slice(), row);
    drop(view);
    told
}

fn given_tells(alloc: Global, c: &Arc<Circuit>, row: &Row) -> Result<bool, Fail> {
    let checked = checked_row(alloc, c, row)?;
    let kept = keeps(&checked, row) && matches!(checked.origin(), Origin::Given);
    let told = tells(alloc, checked, row)?;
    Ok(kept && told)
}

// An error where the entry is not accepted as one that is read.
fn judged_again(alloc: Global, c: &Circuit, checked: &Checked) -> Result<(), EntryEnd> {
    let e = entry_again(alloc, checked)?;
    judged(alloc, c, &[], &e)
}

fn certified_tells(alloc: Global, c: &Arc<Circuit>, row: &Row) -> Result<bool, Fail> {
    let checked = certified_row(alloc, c, row)?;
    let judged = judged_again(alloc, &**c, &checked).is_ok();
    let kept = judged && keeps(&checked, row) && is_by(checked.origin());
    let told = tells(alloc, checked, row)?;
    Ok(kept && told)
}

fn both_tell(alloc: Global, c: &Arc<Circuit>, row: &Row) -> Result<[bool; 2], Fail> {
    let given = given_tells(alloc, c, row)?;
    Ok([given, certified_tells(alloc, c, row)?])
}

fn row_tells(alloc: Global, row: &Row) -> Result<[bool; 2], Fail> {
    let model = aiger_ascii::read(alloc, row.model.as_bytes())?;
    let c = Arc::new(alloc, model.into_circuit())?;
    let told = both_tell(alloc, &c, row);
    drop(c);
    told
}

#[test]
fn checked_entries(rt: HostRuntime) -> Result<(), Fail> {
    assert!(rt; row_tells(rt.alloc(), &WALL)? == [true; 2]);
    assert!(rt; row_tells(rt.alloc(), &REACHED)? == [true; 2]);
    Ok(())
}
