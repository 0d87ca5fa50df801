//! The search for a path of a circuit under entries, or for a set that shows that there is none: IC3 inside the arena
//! of a start.
//!
//! | Call | Gives |
//! |---|---|
//! | `reach` | a path from a start to a goal, or a set that holds the start, misses the goal and is left by no step |
//! | `by_latch` | such a set of the literal of one latch, from a state to a state, or none; when one comes, no clause says |
//! | `Search::new` | a search from a start, which was asked nothing yet |
//! | `Search::reach` | what `reach` gives; goal after goal, while the view grows, over frames that are kept |
//! | `Search::frames`, `Search::solver_questions` | how many these are, and how many questions its solvers were asked |
//! | `Steps` | the solver of one step that a search asks; public for its tests |
//!
//! The search is told in `ic3_loops`, over any solver of one step; here is the solver: `steps`, with `cone` (which clauses
//! of the circuit it has), `renewing` (it is made anew) and `trying` (its steps are tried on all). What is asked and
//! answered is defined in `ic3_semantics`, and in `Searches` of `specs/`; the rest of `specs/` is scaffolding.
#![tactic(auto)]

mod asking_again;
mod cone;
mod renewing;
mod searching;
mod stepping_clauses;
mod stepping_lemmas;
mod stepping_questions;
mod stepping_start;
mod steps;
mod trying;

pub use asking_again::Search;
pub use ic3_semantics::{Goal, ReachEnd, Reached, Start};
pub use searching::{by_latch, reach};
pub use steps::Steps;
