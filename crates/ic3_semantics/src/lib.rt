//! What a search for a path of a circuit under entries is asked and answers: definitions, with their laws, and the types
//! that they speak of.
//!
//! | Item | What it is |
//! |---|---|
//! | `Start`, `Goal` | where a search starts, and what it is for |
//! | `Reached`, `ReachEnd` | a path or a closed set; why a search ended without an answer |
//! | `Found`, `Lemma` | what a question for a step into a cube answers; a clause that restricts frames |
//! | `steps_keep_to_the_arena` | nothing: the law of which steps the entries allow |
//! | `separated_goals_are_not_reached` | nothing: the law that a set which separates start and goal leaves no path |
//!
//! `Arenas` and `Searching` of `specs/` define what a search is asked and answers, `Stepping` what is seen of the solver of
//! its steps; `Ends` is scaffolding.
#![tactic(auto)]

mod found;
mod laws;
mod lemmas;
mod questions;

pub use found::Found;
pub use laws::{separated_goals_are_not_reached, steps_keep_to_the_arena};
pub use lemmas::Lemma;
pub use questions::{Goal, ReachEnd, Reached, Start};
