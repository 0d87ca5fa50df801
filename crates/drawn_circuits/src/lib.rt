//! Small drawn circuits for tests, with steps of their own, so that a search of all states can judge another search. A
//! state is a number: latch i has the value of its bit i.
//!
//! | Call | Gives |
//! |---|---|
//! | `circuit_drawn` | the circuit with a number |
//! | `text_of` | its text |
//! | `values_of`, `next_of` | the values of all variables at a position, and the state that follows it |
#![tactic(auto)]

mod drawing;
mod running;
mod writing;

pub use drawing::{Drawn, circuit_drawn, draw, literal_count, power, rest};
pub use running::{bit, may_begin, next_of, state_of, value, values_of};
pub use writing::text_of;
