//! The clauses that a solver holds, each learned one with the hints that it follows by, and the
//! proofs that are written of them. The main type is `Log`.
//!
//! | Call | What it does |
//! |---|---|
//! | `Log::new` | no clause |
//! | `Log::add` | one clause more, which is given |
//! | `Log::learn` | one clause more, which is learned; a meter counts it |
//! | `Log::clauses`, `Log::added` | all clauses, in the order in which they came; how many were added |
//! | `Log::variables`, `Log::variables_with` | the variables of the clauses; the same, where literals have no other |
//! | `proof_of` | the lines of a proof of a clause, by the clauses that it follows along |
#![tactic(auto)]

mod cover;
mod ids;
mod log;
mod marking;
mod spelling;
mod writing;

pub use log::Log;
pub use writing::{MOST_CLAUSES, proof_of};
