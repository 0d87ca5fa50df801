//! The trail of a solver: assumed literals, unit propagation by two watched literals, and the way
//! back.
//!
//! | Call | What it does |
//! |---|---|
//! | `Trail::new` | a trail without a literal, which has taken over no clause |
//! | `Trail::assume` | one assumed literal more, which opens a level |
//! | `Trail::propagate` | takes over the clauses that are new, and adds what the clauses force, or tells a false one |
//! | `Trail::back_to` | leaves the literals of a level and of those below it |
//! | `Trail::watched` | the two watched literals of a clause |
//! | `Table::new`, `insert`, `remove`, `get` | of `packed_literals`, for the crates above: a value under each variable that was told one |
//! | `Trail::value`, `level`, `level_of`, `reason` | the value of a variable; the level; the level and the reason of a variable |
//! | `Trail::literals`, `Trail::reasons` | the literals in the order in which they came; beside each the clause that forced it |
//! | `Trail::places`, `Places::get` | where the literal of each variable stands among them |
#![tactic(auto)]

mod assignment;
mod choosing;
mod looking;
mod pairs;
mod places;
mod propagation;
mod tracks;
mod trail;
mod watching;

pub use packed_literals::Table;
pub use places::Places;
pub use trail::Trail;
