//! The lemmas of a closed set. The main call is `lemmas_from`.
ghost use Rattle.std.specs.Prelude.{◌≡◌, ◌++◌, IfOk, OnOk};
ghost use Rattle.ic3_frames.specs.Frames.{frame_at, own_lemmas};

use crate::lemmas::{has_lemma, lemma_at, one_more};
use cnf::Clause;
use ic3_frames::Frames;
use items::Items;
use std::alloc::{AllocError, Global};

/// The lemmas of the frame of a level, in the order of the levels.
pub fn lemmas_from(alloc: Global, frames: &Frames, level: u64) -> Result<Items<Clause>, AllocError>
    ensures { IfOk result (λ clauses. clauses ≡ frame_at frames.now level) }
{
    let mut clauses = Items::new(alloc);
    for k in level..frames.len() {
        push_own(frames, k, &mut clauses)?;
    }
    Ok(clauses)
}

// Puts the lemmas that a level has and the next has not at the end.
fn push_own(frames: &Frames, level: u64, clauses: &mut Items<Clause>) -> Result<(), AllocError>
    ensures { OnOk result (clauses.new ≡ clauses.old ++ own_lemmas frames.now level) }
{
    let mut place: u64 = 0;
    'places: while has_lemma(frames, level, place) {
        let lemma = lemma_at(frames, level, place)?;
        clauses.push(lemma)?;
        place = one_more(place)?;
    }
    Ok(())
}
