//! Ternary simulation of circuits, with X for what is not known, and cubes lifted by it.
//!
//! | Call | Gives |
//! |---|---|
//! | `eval3_into` | the ternary value of each variable, from those of the latches and inputs |
//! | `eval3_lanes` | the same of 64 states at once |
//! | `literal3_value`, `literal3_lanes` | the value of a literal, from the values of variables |
//! | `lift` | a cube of states that make the same literals true, without latches that they do not need |
#![tactic(auto)]

mod lanes;
mod lifting;
mod simulating;
mod values;
pub mod worked_rows;

pub use lanes::{LANES, Lanes};
pub use lifting::lift;
pub use simulating::{eval3_into, eval3_lanes, literal3_lanes, literal3_value};
pub use values::Value3;
