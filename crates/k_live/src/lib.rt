//! Whether some run has k rounds of a property: k-liveness, after Claessen, Sörensson, A Liveness Checking Algorithm that
//! Counts (FMCAD 2012), by one search for a path over the property's monitor.
//!
//! | Call | What it gives |
//! |---|---|
//! | `decide` | a run with so many rounds; or, exactly where there is none, a proved set of the monitor's states that shows it |
//! | `KnownRounds`, `RoundsEnd` | what it answers, and why it answers nothing |
//! | `monitor`, `write`, `check_answer` | handed on: the monitor of a property, the text of what is known, and the judge of such texts |
#![tactic(auto)]

mod closing;
mod deciding;
mod ends;
mod running;
mod searching;
mod states;
mod watched;

pub use deciding::decide;
pub use ends::RoundsEnd;
pub use round_answers::{JudgeEnd, Judged, KnownRounds, check_answer, write};
pub use round_monitor::monitor;
