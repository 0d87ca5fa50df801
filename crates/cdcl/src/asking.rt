//! What a solver answers without values or a proof being written. The main types are `Asked` and
//! `Refuted`.

use cnf::{Lit, Proof};

/// What a solver answers to a question without a proof.
#[derive(Drop)]
pub enum Asked {
    /// An assignment makes every added clause and each assumption true, and `Solver::value` tells
    /// it.
    Sat,
    /// Assumptions that the added clauses refuse together.
    Unsat(Vec<Lit>),
}

/// What a solver answers of its clauses and unit clauses behind them.
#[derive(Drop)]
pub enum Refuted {
    /// An assignment makes all of them true, and `Solver::value` tells it.
    Sat,
    /// The lines of a proof that refutes them. The units are numbered after the added clauses.
    Unsat(Proof),
}
