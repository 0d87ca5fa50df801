//! Lassos as clauses: which are satisfiable exactly where a circuit has a fair lasso of so many positions. Clauses of one
//! position more are only added, so a solver can grow with the length.
//!
//! | Call | Gives |
//! |---|---|
//! | `position_cnf` | the clauses of one position |
//! | `closing_literal` | the literal by which a position is the last one of a lasso |
//! | `lasso_cnf` | the lasso clauses of a property for k positions: those of the positions, and that literal |
//! | `moment_base` | where the numbers of a position begin |
//! | `lasso_clauses_tell` | nothing: the law of lasso clauses |
//!
//! Variables are numbered from 1. Each error is want of memory.
#![tactic(auto)]

mod growing;
mod laws;
mod moments;
mod numbers;
mod parts;
pub mod worked_rows;

pub use circuit::Circuit;
pub use cnf::{Db, Lit};
pub use growing::{lasso_cnf, position_cnf};
pub use laws::lasso_clauses_tell;
pub use moments::{closing_literal, moment_base};
