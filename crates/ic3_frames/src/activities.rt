//! In how many lemmas each literal stands, counted now and then. No contract rests on it. The main type is `Activities`.

use crate::signatures::WithSignature;
use cnf::{Clause, Lit};
use indexmap::IndexSet;
use std::alloc::{AllocError, Global};

/// The lemmas are counted anew once this part of them came since they were counted last.
const PART: u64 = 16;

/// For each literal in how many lemmas above the lowest level it stood at the last count, and how many lemmas came since.
#[derive(Drop)]
pub(crate) struct Activities {
    counts: Vec<u64>,
    came: u64,
}

impl Activities {
    /// No lemma. Takes no memory.
    pub(crate) fn new(alloc: Global) -> Activities {
        Activities {
            counts: Vec::new(alloc),
            came: 0,
        }
    }

    /// In how many lemmas the literal stood at the last count. Takes no memory.
    pub(crate) fn of(&self, literal: Lit) -> u64 {
        let counts = self.counts.as_slice();
        counts.get(place_of(literal)).copied().unwrap_or(0)
    }

    /// Takes note of a lemma that comes, and counts those of the levels anew where it is time. The error is want of
    /// memory, and changes no count.
    pub(crate) fn note(
        &mut self,
        levels: &[IndexSet<WithSignature>],
        lemma: &Clause,
    ) -> Result<(), AllocError> {
        self.reach(lemma)?;
        self.came = self.came.saturating_add(1);
        if self.came.saturating_mul(PART) > count_lemmas(levels) {
            self.came = 0;
            self.count_all(levels);
        }
        Ok(())
    }

    // Makes room for the counts of a lemma's literals.
    fn reach(&mut self, lemma: &Clause) -> Result<(), AllocError> {
        for literal in lemma.as_slice() {
            let length = place_of(*literal).saturating_add(1);
            if self.counts.len() < length {
                self.counts.resize(length, 0)?;
            }
        }
        Ok(())
    }

    // Counts the lemmas above the lowest level, which has the starts' own.
    fn count_all(&mut self, levels: &[IndexSet<WithSignature>]) {
        for count in self.counts.iter_mut() {
            *count = 0;
        }
        for level in 1..levels.len() {
            for lemma in levels[level].as_slice() {
                self.count_one(lemma.clause());
            }
        }
    }

    fn count_one(&mut self, lemma: &Clause) {
        for literal in lemma.as_slice() {
            if let Some(count) = self.counts.get_mut(place_of(*literal)) {
                *count = count.saturating_add(1);
            }
        }
    }
}

// The place of a literal's count.
fn place_of(literal: Lit) -> usize {
    let twice = (literal.var as usize).saturating_mul(2);
    if literal.positive {
        twice
    } else {
        twice.saturating_add(1)
    }
}

fn count_lemmas(levels: &[IndexSet<WithSignature>]) -> u64 {
    let mut lemmas: u64 = 0;
    for own in levels {
        lemmas = lemmas.saturating_add(own.len() as u64);
    }
    lemmas
}
