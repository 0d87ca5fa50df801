//! Which variable a solver decides next, and with which value: the most active one, with the value
//! that it had last. No contract of a search rests on what this crate keeps or gives: a solver tests
//! what it takes.
//!
//! | Call | What it does |
//! |---|---|
//! | `FirstValues` | the values that variables are decided with before they had one |
//! | `Order::new` | no variable |
//! | `Order::begin` | meets the variables of the clauses that are new, and lets them be decided |
//! | `Order::take` | the most active variable without a value, with its value and a clause that has it (`Candidate`) |
//! | `Order::keep` | keeps the values of literals that are taken back, and lets their variables be decided |
//! | `Order::bump` | makes the variables more active that a learned clause comes from |
#![tactic(auto)]

mod first_values;
mod heap;
mod order;
mod ranked;

pub use first_values::FirstValues;
pub use order::{Candidate, Order};
