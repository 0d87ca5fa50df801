//! A solver of clauses in conjunctive normal form that learns from conflicts. It answers with a
//! model, or with assumptions that are refused and a proof. The main type is `Solver`.
//!
//! | Call | What it does |
//! |---|---|
//! | `Solver::new`, `Solver::deciding`, `Solver::with_clauses` | a solver without clauses; with the values (`FirstValues`) that variables are decided with first; with given clauses |
//! | `Solver::add` | one clause more, of variables that a solver can hold |
//! | `Solver::add_sized`, `Solver::add_all` | the same of any clause, or list, which is tested; what cannot be held is want of memory |
//! | `Solver::count_added` | how many clauses were added |
//! | `Solver::solve` | a model, or a core of the assumptions with a proof |
//! | `Solver::ask` | the same question of any assumptions, without values or a proof |
//! | `Solver::refute` | the same of literals that are clauses of the list which a proof refutes |
//! | `Solver::value` | the value of a variable in the model that `ask` or `refute` found |
//! | `are_sized`, `has_opposites` | the tests of what `solve` and `refute` ask for |
//! | `retired_clauses_change_nothing` | does nothing: the law of clauses that a question brings and retires |
//! | `threads_hand_on_solvers` | does nothing: it has a proof only where a solver may be handed to another thread |
#![tactic(auto)]

mod answering;
mod asking;
mod choosing;
mod conditions;
mod finding;
mod refusing;
mod refuting;
mod restarts;
mod retiring;
mod returning;
mod searching;
mod solver;
mod solving;
mod values;

pub use asking::{Asked, Refuted};
pub use cdcl_order::FirstValues;
pub use conditions::{are_sized, has_opposites};
pub use retiring::retired_clauses_change_nothing;
pub use solver::{Solver, threads_hand_on_solvers};
pub use solving::Answer;
