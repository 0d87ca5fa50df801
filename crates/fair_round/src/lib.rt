//! One round of a worker that searches for a fair lasso or a refutation: what it does next, decided over the entries that
//! it has seen alone, after FAIR (Bradley, Somenzi, Hassan, Zhang, 2011).
//!
//! | Call | Gives |
//! |---|---|
//! | `Rounds::new` | what a worker keeps from round to round, before the first |
//! | `decide` | a round: an entry to post, or an outcome to hand in |
//! | `Rounds::next` | a skeleton that the entries allow, or a refutation, without a search behind it |
//!
//! A round takes a skeleton that the entries allow, and a run to its first state: of the pool, or by the search for stems.
//! It walks along the skeleton, and closes the loop. Where all is found, it has a lasso; where a part is not, an entry that
//! excludes the skeleton. The definitions stand in `specs/`.
#![tactic(auto)]

mod bounded;
mod deciding;
mod invariants;
mod latch_walls;
mod pool;
mod rounds;
mod scope;
mod seeking;
mod stopping;
mod walking;
mod walls;
mod ways;

pub use deciding::{Author, Deed, decide};
pub use rounds::Rounds;
pub use stopping::Stop;
