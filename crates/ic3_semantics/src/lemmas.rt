//! Lemmas of a search. The main type is `Lemma`.

use cnf::Clause;

/// A clause over latch numbers that restricts the frame of its level and of those below it.
#[derive(Debug, Drop)]
pub struct Lemma {
    pub level: u64,
    pub clause: Clause,
}
