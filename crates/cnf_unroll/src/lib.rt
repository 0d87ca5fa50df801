//! Circuits, obligations and skeletons as lists of clauses, which a solver decides and a proof refutes.
//!
//! | Call | Gives |
//! |---|---|
//! | `step_cnf` | the clauses of one block: a position, its constraints and its successor |
//! | `before_gate`, `before_constraints`, `before_latch` | how many of these stand before those of a part |
//! | `shared` | what the obligations of an entry share, the next free number, and where the parts end |
//! | `shared_behind` | the same without the block |
//! | `broken` | the literals by which the successor breaks a clause |
//! | `obligation` | the obligation of a clause: `shared`, and `broken` as unit clauses |
//! | `skeleton_cnf` | a block for each literal of a property, and the used entries over all of them |
//! | `unrolled_skeleton` | the same, and where the clauses of each use end |
//! | `decode` | the position and the successor that an assignment gives to a block |
//! | `blocks_are_situations` | nothing: the law that a block's assignments are positions with their successors |
//! | `obligations_tell` | nothing: the law of obligations |
//! | `skeleton_clauses_tell` | nothing: the law of skeleton clauses |
//! | `closed_uses_are_understood` | nothing: what these two laws ask of the used entries is so of closed uses |
//!
//! Variables are numbered from 1. Each error is want of memory, which is answered too where a number would reach 2^63.
#![tactic(auto)]

mod blocks;
mod decoding;
mod laws;
mod numbers;
mod obligations;
mod parts;
mod places;
mod sides;
mod skeletons;
mod used;
mod uses;
pub mod worked_rows;

pub use blocks::step_cnf;
pub use decoding::decode;
pub use fair_semantics::{Kind, Side, Situation, Use};
pub use laws::{
    blocks_are_situations, closed_uses_are_understood, obligations_tell, skeleton_clauses_tell,
};
pub use obligations::{Begun, broken, obligation, shared, shared_behind};
pub use parts::{before_constraints, before_gate, before_latch};
pub use skeletons::{Unrolled, skeleton_cnf, unrolled_skeleton};
pub use used::{ClauseSet, Used};
