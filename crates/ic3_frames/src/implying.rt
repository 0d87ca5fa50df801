//! Which lemmas need no clause in a new solver: those that a later one implies. The main calls are `implying_places`,
//! which chooses and has no contract, and `is_implied_by`, which judges what was chosen.
ghost use Rattle.std.specs.Prelude.{◌≡◌, ◌<◌, ◌&&◌, true, nat_le, length};
ghost use Rattle.proof_semantics.specs.Clauses.{is_part};
ghost use Rattle.ic3_frames.specs.Implying.{IsImpliedBehind};

use crate::signatures::signature_of;
use cnf::{Lit, subset};
use ic3_semantics::Lemma;
use std::alloc::{AllocError, Global};

// A lemma that no later one implies: its place, and the signature of its clause.
#[derive(Drop)]
struct Kept {
    place: usize,
    signature: u64,
}

fn number_of(literal: Lit) -> usize {
    let twice = (literal.var as usize).saturating_mul(2);
    if literal.positive {
        twice
    } else {
        twice.saturating_add(1)
    }
}

fn no_lists(alloc: Global, count: usize) -> Result<Vec<Vec<Kept>>, AllocError> {
    let mut lists = Vec::new(alloc);
    for _ in 0..count {
        lists.push(Vec::new(alloc))?;
    }
    Ok(lists)
}

// How many lemmas are listed by the literal.
fn listed(lists: &[Vec<Kept>], literal: usize) -> usize {
    match lists.get(literal) {
        Some(list) => list.len(),
        None => usize::MAX,
    }
}

// The literal of the clause by which the fewest are listed.
fn rarest(lists: &[Vec<Kept>], clause: &[Lit]) -> usize {
    let mut best = 0;
    let mut least = usize::MAX;
    for literal in clause {
        let number = number_of(*literal);
        let count = listed(lists, number);
        if count < least {
            least = count;
            best = number;
        }
    }
    best
}

fn list(lists: &mut [Vec<Kept>], literal: usize, kept: Kept) -> Result<(), AllocError> {
    if let Some(list) = lists.get_mut(literal) {
        list.push(kept)?;
    }
    Ok(())
}

// The place of a listed lemma that implies this one, if there is one.
fn found_in(list: &[Kept], lemmas: &[Lemma], lemma: &Lemma, signature: u64) -> Option<usize> {
    for kept in list {
        if kept.signature | signature == signature
            && kept.place < lemmas.len()
            && implies(&lemmas[kept.place], lemma)
        {
            return Some(kept.place);
        }
    }
    None
}

fn found(lists: &[Vec<Kept>], lemmas: &[Lemma], lemma: &Lemma, signature: u64) -> Option<usize> {
    for literal in lemma.clause.as_slice() {
        if let Some(list) = lists.get(number_of(*literal)) {
            if let Some(place) = found_in(list.as_slice(), lemmas, lemma, signature) {
                return Some(place);
            }
        }
    }
    None
}

// What is found for the lemma at a place, which is listed where nothing is.
fn implying_place(
    lists: &mut [Vec<Kept>],
    lemmas: &[Lemma],
    place: usize,
) -> Result<usize, AllocError>
    requires { place < length lemmas.now }
{
    let lemma = &lemmas[place];
    let signature = signature_of(lemma.clause.as_slice());
    match found(lists, lemmas, lemma, signature) {
        Some(other) => Ok(other),
        None => {
            let literal = rarest(lists, lemma.clause.as_slice());
            list(lists, literal, Kept { place, signature })?;
            Ok(place)
        }
    }
}

/// For each lemma the place of a later one that implies it, or its own. The lemmas are over so many latches. For the first
/// of them `known` has what was found before; those that were implied are so still.
pub fn implying_places(
    alloc: Global,
    lemmas: &[Lemma],
    latches: usize,
    known: &[usize],
) -> Result<Vec<usize>, AllocError> {
    let mut lists = no_lists(alloc, latches.saturating_mul(2))?;
    let mut places = Vec::from_slice(alloc, known)?;
    for place in known.len()..lemmas.len() {
        places.push(place)?;
    }
    for place in (0..lemmas.len()).rev() {
        if places.as_slice().get(place).copied() == Some(place) {
            let other = implying_place(&mut lists, lemmas, place)?;
            if let Some(kept) = places.get_mut(place) {
                *kept = other;
            }
        }
    }
    Ok(places)
}

fn implies(by: &Lemma, lemma: &Lemma) -> bool
    ensures { result ≡ (nat_le lemma.now.level by.now.level && is_part by.now.clause lemma.now.clause) }
{
    lemma.level <= by.level && subset(&by.clause, &lemma.clause)
}

/// Whether the other lemma is one behind this place and implies the lemma.
pub fn is_implied_by(lemmas: &[Lemma], place: usize, lemma: &Lemma, other: usize) -> bool
    ensures { result ≡ true → IsImpliedBehind lemmas.now place lemma.now }
{
    if other <= place || lemmas.len() <= other {
        return false;
    }
    implies(&lemmas[other], lemma)
}
