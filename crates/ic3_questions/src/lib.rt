//! The clauses of the questions that a search asks its solver, over the block of one step under entries.
//!
//! | Call | Gives |
//! |---|---|
//! | `own_uses`, `used` | the entries that restrict the steps of a search, as uses with the start's sides; the entries that they name |
//! | `state_place`, `successor_place`, `input_place` | the numbers of latches and inputs in the first block |
//! | `literal_at`, `guarded`, `guarded_denial` | a literal and a clause at a place, the latter where a guard is true |
//! | `is_read`, `literal_in_block` | whether the block tells of a variable; an AIGER literal in it |
//! | `valuation`, `next_state` | the circuit's values at a position; the next values of latches |
//! | `values_in` | what an assignment gives the variables with these numbers |
//! | `stands` | whether a step stands up to a trial of constraints, next values and the clauses of entries |
//!
//! What a search is asked and answers is defined in `ic3_semantics`; the definitions here are scaffolding.
#![tactic(auto)]

mod read_variables;
mod stepping_clauses;
mod stepping_places;
mod stepping_sides;
mod trials;

pub use read_variables::{is_read, literal_in_block};
pub use stepping_clauses::{guarded, guarded_denial, literal_at};
pub use stepping_places::{input_place, state_place, successor_place};
pub use stepping_sides::{own_uses, used};
pub use trials::{next_state, stands, valuation, values_in};
