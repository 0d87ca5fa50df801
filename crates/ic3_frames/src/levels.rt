//! A set of lemmas for each level. The main call is `put`, which keeps each lemma in one level, and none that it implies
//! beside it or below.
ghost use Rattle.std.specs.Prelude.{◌≡◌, ◌≢◌, ℕ, ◌+◌, ◌≤◌, ◌<◌, ◌++◌, ◌∷◌, ◌↔◌, [], Some, length, drop, filter, slice_get, slice_index_or, option_copied, OnOk, OnErr, IfOk, IfErr, IsErr, IfSome, IfNone};
ghost use Rattle.proof_semantics.specs.Clauses.{clauses_value, values_of};
ghost use Rattle.edge.specs.Faults.{one_more};
ghost use Rattle.edge.specs.declared.metering.Counted.TheVariants.{Steps};
ghost use Rattle.ic3_frames.specs.Frames.{has_clause, own_lemmas, frame_at, stays, with_lemma, AllDiffer};
ghost use Rattle.ic3_frames.specs.Kept.{keys_of, taken_out};
ghost use Rattle.indexmap.specs.IndexSet.{spare};

use crate::signatures::WithSignature;
use cnf::{Clause, holds};
use edge::{Meter, Spent};
use indexmap::IndexSet;
use std::alloc::AllocError;

// Whether one of the sets has the lemma.
fn is_in(sets: &[IndexSet<WithSignature>], lemma: &WithSignature) -> bool
    ensures { result ≡ has_clause (frame_at (keys_of sets.now) 0) lemma.now }
{
    for own in sets {
        if own.contains(lemma) {
            return true;
        }
    }
    false
}

// Whether a level from this one on has the lemma.
fn is_from(levels: &[IndexSet<WithSignature>], level: usize, lemma: &WithSignature) -> bool
    requires { level < length levels.now }
    ensures { result ≡ has_clause (frame_at (keys_of levels.now) level) lemma.now }
{
    is_in(&levels[level..], lemma)
}

// Whether a lemma of a level stays where `lemma` comes to this level or to one above it.
fn stays(level: usize, lemma: &WithSignature, other: &WithSignature) -> bool
    ensures { result ≡ stays level lemma.now other.now }
{
    if level == 0 {
        lemma != other
    } else {
        !lemma.is_part_of(other)
    }
}

// Takes out of a level what does not stay beside the lemma.
fn take_from(own: &mut IndexSet<WithSignature>, level: usize, lemma: &WithSignature)
    ensures keys { own.new.keys ≡ filter (stays level lemma.now) own.old.keys }
    ensures room { spare own.old ≤ spare own.new }
{
    own.retain(|other| stays(level, lemma, other));
}

// The same of the first `below` levels.
fn take_out(levels: &mut [IndexSet<WithSignature>], below: usize, lemma: &WithSignature)
    requires { below ≤ length levels.old }
    ensures keys { keys_of levels.new ≡ taken_out 0 (keys_of levels.old) below lemma.now }
    ensures rest { drop below levels.new ≡ drop below levels.old }
{
    for k in 0..below {
        take_from(&mut levels[k], k, lemma);
    }
}

// Makes room for one more lemma.
fn make_room(own: &mut IndexSet<WithSignature>) -> Result<(), AllocError>
    ensures keys { own.new.keys ≡ own.old.keys }
    ensures ok { OnOk result (1 ≤ spare own.new) }
{
    own.reserve(1)
}

// Puts the lemma at the end of a level, where there is room, in place of what does not stay beside it.
fn put_last(own: &mut IndexSet<WithSignature>, level: usize, lemma: WithSignature)
    requires { 1 ≤ spare own.old }
    ensures { own.new.keys ≡ filter (stays level lemma) own.old.keys ++ lemma ∷ [] }
{
    take_from(own, level, &lemma);
    match own.insert(lemma) {
        Ok(_) => {}
        Err(_) => unreachable!(),
    }
}

/// Puts the lemma at the end of a level, and takes out of it and of those below what does not stay beside it, unless the
/// lemma stands in this level or above. The error is want of memory, and leaves each level as it was.
pub(crate) fn put(
    levels: &mut Vec<IndexSet<WithSignature>>,
    level: usize,
    lemma: Clause,
) -> Result<(), AllocError>
    requires { level < length levels.old.items }
    ensures ok { OnOk result (keys_of levels.new.items ≡ with_lemma (keys_of levels.old.items) level lemma) }
    ensures err { OnErr result (keys_of levels.new.items ≡ keys_of levels.old.items) }
    ensures size { length levels.new.items ≡ length levels.old.items }
{
    put_at(levels, level, WithSignature::new(lemma))
}

// The same over the levels as a slice.
fn put_at(
    levels: &mut [IndexSet<WithSignature>],
    level: usize,
    lemma: WithSignature,
) -> Result<(), AllocError>
    requires { level < length levels.old }
    ensures ok { OnOk result (keys_of levels.new ≡ with_lemma (keys_of levels.old) level lemma) }
    ensures err { OnErr result (keys_of levels.new ≡ keys_of levels.old) }
{
    if is_from(levels, level, &lemma) {
        return Ok(());
    }
    make_room(&mut levels[level])?;
    take_out(levels, level, &lemma);
    put_last(&mut levels[level], level, lemma);
    Ok(())
}

/// Puts a level without lemmas above the others, and one more count. The error is want of memory, and changes no
/// level and no count.
pub(crate) fn add_level(
    levels: &mut Vec<IndexSet<WithSignature>>,
    counts: &mut Vec<u64>,
) -> Result<(), AllocError>
    ensures ok { OnOk result (keys_of levels.new.items ≡ keys_of levels.old.items ++ [] ∷ []) }
    ensures counted { OnOk result (length counts.new.items ≡ length counts.old.items + 1) }
    ensures err { OnErr result (keys_of levels.new.items ≡ keys_of levels.old.items) }
    ensures counts { OnErr result (counts.new.items ≡ counts.old.items) }
{
    let alloc = *levels.allocator();
    counts.reserve(1)?;
    levels.push(IndexSet::new(alloc))?;
    counts.push_reserved(0);
    Ok(())
}

// Writes how many lemmas each level has.
fn write_counts(levels: &[IndexSet<WithSignature>], counts: &mut [u64])
    requires { length counts.old ≡ length levels.now }
    ensures { (i : ℕ) → i < length levels.now
        → slice_index_or counts.new i 0 ≡ length (own_lemmas (keys_of levels.now) i) }
{
    for (k, own) in levels.iter().enumerate() {
        counts[k] = own.len() as u64;
    }
}

/// The first level below the last without lemmas.
pub(crate) fn first_empty(levels: &[IndexSet<WithSignature>]) -> Option<u64>
    ensures found { IfSome result (λ k. k + 1 < length levels.now) }
    ensures empty { IfSome result (λ k. own_lemmas (keys_of levels.now) k ≡ []) }
    ensures none { IfNone result ((k : ℕ) → k + 1 < length levels.now → own_lemmas (keys_of levels.now) k ≢ []) }
{
    for k in 1..levels.len() {
        if levels[k - 1].is_empty() {
            return Some(k as u64 - 1);
        }
    }
    None
}

/// Counts the step of a frame above these levels, each of which has to differ from the next.
pub(crate) fn count(
    levels: &[IndexSet<WithSignature>],
    counts: &mut [u64],
    meter: &mut Meter,
) -> Result<(), Spent>
    requires counts { length counts.old ≡ length levels.now }
    requires two { 2 ≤ length levels.now }
    requires differ { AllDiffer (keys_of levels.now) }
    ensures spent { IsErr result ↔ (meter.old.step_limit ≡ Some meter.old.steps) }
    ensures limit { IfErr result (λ spent. spent ≡ record { kind = Steps; limit = meter.old.steps }) }
    ensures counted { OnOk result (meter.new ≡ record meter.old { steps = one_more meter.old.steps }) }
    ensures kept { OnErr result (meter.new ≡ meter.old) }
{
    write_counts(levels, counts);
    meter.frame(&counts[..levels.len() - 1])
}

/// How many lemmas a level has.
pub(crate) fn count_at(levels: &[IndexSet<WithSignature>], level: usize) -> u64
    ensures { result ≡ length (own_lemmas (keys_of levels.now) level) }
{
    if level < levels.len() {
        levels[level].len() as u64
    } else {
        0
    }
}

/// The lemma at a place of a level.
pub(crate) fn lemma_at(
    levels: &[IndexSet<WithSignature>],
    level: usize,
    place: usize,
) -> Option<&Clause>
    ensures { option_copied result ≡ slice_get (own_lemmas (keys_of levels.now) level) place }
{
    if level < levels.len() {
        Some(levels[level].get_index(place)?.clause())
    } else {
        None
    }
}

/// A copy of the lemma at a place of a level.
pub(crate) fn copy_at(
    levels: &[IndexSet<WithSignature>],
    level: usize,
    place: usize,
) -> Result<Clause, AllocError>
    requires level { level < length levels.now }
    requires place { place < length (own_lemmas (keys_of levels.now) level) }
    ensures { IfOk result (λ lemma. lemma ≡ slice_index_or (own_lemmas (keys_of levels.now) level) place []) }
{
    let own = levels[level].as_slice();
    own[place].clause().clone()
}

fn all_hold(lemmas: &[WithSignature], state: &[bool]) -> bool
    ensures { result ≡ clauses_value (values_of state.now) lemmas.now }
{
    lemmas.iter().all(|lemma| holds(lemma.clause(), state))
}

/// Whether the lemmas of all these levels are true where variable v has the value at place v.
pub(crate) fn allow(levels: &[IndexSet<WithSignature>], state: &[bool]) -> bool
    ensures { result ≡ clauses_value (values_of state.now) (frame_at (keys_of levels.now) 0) }
{
    for own in levels {
        if !all_hold(own.as_slice(), state) {
            return false;
        }
    }
    true
}
