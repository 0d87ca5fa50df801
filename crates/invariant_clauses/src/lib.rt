//! Clauses of one latch and of two that no step breaks, chosen by the states of drawn runs and struck out by a solver
//! until the rest is inductive (as in Houdini; Flanagan, Leino, 2001; for circuits van Eijk, 2000).
//!
//! | Call | Gives |
//! |---|---|
//! | `inductive_clauses` | clauses that hold in all states of drawn runs, of which no step breaks one where all hold |
//!
//! `candidates` takes from the states what none of them breaks; `striking` strikes out what a step breaks. It only chooses: no
//! contract says what comes, and whoever makes an entry of it has it judged. Each error that is not want of memory comes where
//! the count of conflicts is at its limit.
#![tactic(auto)]

mod candidates;
mod choosing;
mod columns;
mod striking;

pub use choosing::inductive_clauses;
