//! What clauses mean, and which proofs show that a list of clauses has no model: definitions,
//! and the laws that tie them. The definitions stand in specs/.
#![tactic(auto)]

mod faults;
mod laws;
mod literals;

pub use faults::LratFault;
pub use laws::{
    accepted_lines_are_implied, lines_are_judged_as_accepted, lines_are_read_as_spelled,
    refuted_clauses_have_no_model,
};
pub use literals::Lit;
