//! Texts about the rounds of a property: that no initial run has k of them, or that one has; judged and written. After
//! k-liveness: Claessen, Sörensson, A Liveness Checking Algorithm that Counts (FMCAD 2012).
//!
//! | Call | What it does |
//! |---|---|
//! | `check_answer` | judges the text that a shelf holds, as one about rounds or as an answer |
//! | `write` | writes the text of what is known of a property's rounds |
//! | `full_runs_are_refuted` | a law: entries and a refutation of states leave no run that comes to one |
#![tactic(auto)]

mod checking;
mod ends;
mod heads;
mod laws;
mod limits;
mod rounds;
mod running;
mod state;
mod steps;
mod writing;

pub use checking::check_answer;
pub use ends::{JudgeEnd, Judged};
pub use laws::full_runs_are_refuted;
pub use limits::MAX_ROUNDS;
pub use rounds::KnownRounds;
pub use writing::write;
