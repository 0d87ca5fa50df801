//! Clauses, cubes, lists of clauses and proofs, and the tests of whether they hold.
#![tactic(auto)]

mod clause;
mod cube;
mod db;
mod evaluation;
mod handing;
mod literals;

pub use clause::Clause;
pub use cube::Cube;
pub use db::Db;
pub use evaluation::{eval, holds, subset};
pub use handing::threads_hand_on_cubes;
use items::Items;
pub use literals::has_literal;
pub use proof_semantics::Lit;

/// The number of a variable: from 1 in lists for a solver, from 0 where it is that of a latch.
pub type Var = u64;

/// The bytes of one line of a proof, without its line feed.
pub type ProofLine = Items<u8>;

/// The lines of a proof, in their order.
pub type Proof = Items<ProofLine>;
