//! Liveness to safety: a circuit and one of its justice properties as a model with one bad state literal, for checkers
//! of safety, after Biere, Artho, Schuppan, Liveness Checking as Safety Checking (FMICS 2002).
//!
//! | Call | What it gives |
//! |---|---|
//! | `translate` | the model, which has a bad run exactly where the circuit has a fair lasso of the property |
//! | `TranslateEnd` | why there is none |
#![tactic(auto)]

mod ends;
mod gates;
mod latches;
mod sizes;
mod translating;
pub mod worked_rows;

pub use ends::TranslateEnd;
pub use translating::translate;
