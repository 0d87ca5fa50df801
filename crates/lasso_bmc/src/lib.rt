//! Bounded search for the shortest fair lassos of a property, by one solver that grows by a position at a time and keeps
//! what it learned (bounded model checking: Biere, Cimatti, Clarke, Zhu, 1999; grown as by Eén, Sörensson, 2003).
//!
//! | Call | What it gives |
//! |---|---|
//! | `search` | a fair lasso with the fewest positions, or that none has at most so many |
//! | `Deepening`, `deepen` | the same, one length at a time |
//! | `Searched`, `SearchEnd` | what a search answers, and why it answers nothing |
//! | `lasso_cnf` | clauses that are satisfiable exactly where some fair lasso has so many positions |
//! | `ConeSearch`, `deepen_cone` | the same search over the cone of a property, one length at a time: a fair lasso of the whole circuit |
//!
//! `cone_circuits` makes a circuit of the cone. The inputs of a lasso of the cone are given to the whole circuit
//! (`spreading`), and those of the loop are repeated until its state is back. No contract says what the search over a cone
//! chooses: it is judged whether it is a fair lasso.
#![tactic(auto)]

mod cone_circuits;
mod cone_searching;
mod deepening;
mod ends;
mod listing;
mod parting;
mod reading;
mod replaying;
mod searching;
mod spreading;

pub use cone_searching::{ConeSearch, deepen_cone};
pub use deepening::{Deepening, deepen};
pub use ends::{SearchEnd, Searched};
pub use listing::lasso_cnf;
pub use searching::search;
