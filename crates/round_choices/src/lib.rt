//! What a round of a worker tries next, and how much of it.
//!
//! | Call | Gives |
//! |---|---|
//! | `work_of`, `is_at_limit` | what a meter has counted, and whether one of its counts is at its limit |
//! | `Costs`, `first_costs`, `asks_literal`, `add_cost` | which of two kinds of rounds comes next: the one that has cost less |
//! | `Pauses`, `NO_PAUSE`, `looks` | how many rounds pass between two that look for walls of one latch |
//! | `Expense`, `no_expense`, `Size`, `is_due`, `charge` | how long a search with one position more each time goes on |
//! | `lies_in` | whether a state lies in one of some cubes |
//! | `Place`, `place_with` | where in a skeleton a latch has a value |
//! | `wall_sides` | the values that a state has in the latches of walls of one latch |
//! | `breaking_state` | the first state of a skeleton that entries allow and that breaks one of some clauses |
//!
//! All of this only chooses what is tried: no contract says anything of what it answers, and what is found is judged where
//! it is tried.
#![tactic(auto)]

mod allowing;
mod breaking;
mod spending;
mod states;
mod turns;

pub use allowing::{Expense, Size, charge, is_due, no_expense};
pub use breaking::breaking_state;
pub use spending::{is_at_limit, work_of};
pub use states::{Place, lies_in, place_with, wall_sides};
pub use turns::{Costs, NO_PAUSE, Pauses, add_cost, asks_literal, first_costs, looks};
