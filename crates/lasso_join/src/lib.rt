//! Lassos from their parts: a stem, the positions of a skeleton and the pieces between them, and the shortest lasso of
//! a stimulus.
//!
//! | Call | Gives |
//! |---|---|
//! | `join` | the lasso that a stem, a skeleton and its pieces make; it is a fair one of each property of the skeleton |
//! | `shortest_prefix` | the lasso that the stimulus of a fair lasso stands for; all of its positions are needed |
//!
//! The definitions stand in `specs/`. Each error is want of memory.
#![tactic(auto)]

mod joining;
mod shortening;

pub use circuit::{Circuit, Lasso, Position};
pub use fair_semantics::{Situation, Skeleton};
pub use items::Items;
pub use joining::join;
pub use shortening::shortest_prefix;
