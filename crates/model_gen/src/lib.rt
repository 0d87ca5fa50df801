//! Models made from a seed: a ring of latches, and a circuit whose gates, latches and property are drawn.
//!
//! | Call | What it gives |
//! |---|---|
//! | `ring` | latches in a ring, one of which begins with 1, and the property that each is 1 |
//! | `scramble` | two inputs, and latches, gates, a property and a fairness literal that are drawn |
//! | `first_draws` | draws that another program computed |
#![tactic(auto)]

mod drawing;
mod kinds;
mod worked_rows;

pub use kinds::{ring, scramble};
pub use worked_rows::first_draws;
