//! A checker of proofs in LRAT by unit propagation: what it accepts is implied.
//!
//! - `Checker::new`: a checker of the given clauses, before the first line
//! - `Checker::restart`: back to the first given clauses, with more behind them
//! - `Checker::given`: how many clauses were given
//! - `Checker::step`: judges a line, which adds a clause or deletes some
//! - `Checker::proved_empty`: whether an empty clause was given or added
//! - `read_line`: what a line asks for, with its literals and hints, or its ids
//! - `threads_hand_on_checkers`: nothing: a checker may be handed to another thread
#![tactic(auto)]

mod arena;
mod checker;
mod faults;
mod judging;
mod lines;
mod marks;
mod propagation;
mod store;

pub use checker::{Checker, threads_hand_on_checkers};
pub use faults::LratEnd;
pub use lines::{Kind, read_line};
pub use proof_semantics::LratFault;
