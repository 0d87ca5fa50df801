//! Closed sets that lose what they do not need: the clauses and uses on which no clause of the set rests (as for a closed
//! subset of a frame in IC3).
//!
//! | Call | Gives |
//! |---|---|
//! | `ClosedSet` | the clauses and uses of an entry that separates a start from a goal |
//! | `shrink` | such a set of some of the clauses and uses of another |
//!
//! `needing` chooses what to keep by the solver's cores, and no contract rests on it; `standing` sees to it that what is
//! kept is closed and misses the goal. `specs/` is scaffolding.
#![tactic(auto)]

mod asking;
mod goals;
mod guarded;
mod judging;
mod keeping;
mod needing;
mod sets;
mod shrinking;
mod standing;

pub use judging::separates;
pub use sets::ClosedSet;
pub use shrinking::shrink;
