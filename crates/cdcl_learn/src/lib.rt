//! What a solver learns from a conflict: a clause of the first unique implication point, with the
//! hints of its proof.
//!
//! | Call | What it does |
//! |---|---|
//! | `learn` | the clause that a conflict teaches |
//! | `trace`, `trace_literal` | of which assumed literals a conflict comes, or a false literal |
#![tactic(auto)]

mod implied;
mod learning;
mod marking;
mod minimising;
mod numbered;
mod tracing;

pub use learning::{Learned, learn};
pub use tracing::{trace, trace_literal};
