//! What a solver answers. The main type is `Answer`.

use cnf::{Lit, Proof};

/// What a solver answers.
#[derive(Drop)]
pub enum Answer {
    /// Values that make every added clause and each assumption true. Variable v has the value at
    /// place v, and is false past the end.
    Sat(Vec<bool>),
    /// Assumptions that the added clauses refuse together, and the lines of a proof whose last
    /// clause is that of their negations.
    Unsat(Vec<Lit>, Proof),
}
