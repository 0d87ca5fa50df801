//! Claims of sets that no allowed step leaves, and the proofs that make checked entries of them.
//!
//! | Call | Gives |
//! |---|---|
//! | `Claim` | what is claimed: an entry without proofs, who found it and when, and the skeleton that it excludes |
//! | `certify` | the claim as a checked entry, each of whose clauses has its proof |
//! | `prove_entry` | an entry of a list, each of whose clauses has its proof |
#![tactic(auto)]

mod certifying;
mod claims;
mod proving;
mod refuting;
mod sharing;

pub use certifying::certify;
pub use claims::Claim;
pub use proving::prove_entry;
