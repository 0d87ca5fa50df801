//! Tools that make another answer of one that is held, or what other checkers take of it.
//!
//! | Call | What it does |
//! |---|---|
//! | `trim` | an answer without what it does not need |
//! | `export` | an obligation of it, or its refutation, as clauses in the DIMACS format or as a proof in LRAT |
//! | `trimmed_answers_are_good` | a law: what is printed of a trimmed answer is a good one, and trimming it changes nothing |
#![tactic(auto)]

mod dimacs;
mod entries;
mod exporting;
mod laws;
mod listing;
mod numbering;
mod reaching;
mod shortening;
mod spelling;
mod trimming;
mod uses;

pub use exporting::{ExportEnd, ItemRequest, export};
pub use laws::trimmed_answers_are_good;
pub use trimming::trim;
