//! Which learned clauses a proof needs. The main call is `needed_by`. No contract rests on it: what
//! it leaves out is written all the same.
use items::Items;
use std::alloc::{AllocError, Global};
use std::collections::BTreeSet;

/// The places of the learned clauses that the clauses with the numbers `hints` lead to, by the hints
/// of each, the first one first.
pub(crate) fn needed_by(
    alloc: Global,
    sources: &[Option<Items<u64>>],
    hints: &[u64],
) -> Result<Vec<usize>, AllocError> {
    let mut needed = BTreeSet::new(alloc);
    let mut open = Vec::new(alloc);
    meet(&mut needed, &mut open, sources, hints)?;
    for _turn in 0..sources.len() {
        let Some(place) = open.pop() else {
            break;
        };
        if let Some(Some(own)) = sources.get(place) {
            meet(&mut needed, &mut open, sources, own.as_slice())?;
        }
    }
    in_order(alloc, &needed)
}

// The places of a set, in their order.
fn in_order(alloc: Global, set: &BTreeSet<usize>) -> Result<Vec<usize>, AllocError> {
    let mut places = Vec::new(alloc);
    for place in set {
        places.push(*place)?;
    }
    Ok(places)
}

// Takes in the places of the learned clauses with these numbers, and opens those that are new.
fn meet(
    needed: &mut BTreeSet<usize>,
    open: &mut Vec<usize>,
    sources: &[Option<Items<u64>>],
    numbers: &[u64],
) -> Result<(), AllocError> {
    for number in numbers {
        let Some(place) = number.checked_sub(1) else {
            continue;
        };
        let place = place as usize;
        if is_learned(sources, place) && needed.insert(place)? {
            open.push(place)?;
        }
    }
    Ok(())
}

// Whether the clause at a place is learned.
fn is_learned(sources: &[Option<Items<u64>>], place: usize) -> bool {
    matches!(sources.get(place), Some(Some(_)))
}
