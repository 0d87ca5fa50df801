//! What circuits of and-inverter graphs mean: valuations, runs, fair lassos and stimuli, after AIGER 1.9
//! (Biere, Heljanko, Wieringa, 2011). The definitions stand in `specs/`; here are the types that they speak of.
#![tactic(auto)]

mod limits;
mod parts;
mod traces;
pub mod worked_rows;

pub use limits::{MAX_MODEL_BYTES, MAX_NUMBER, MAX_PROPERTY_LITERALS, MAX_VARIABLE};
pub use parts::{Gate, Latch, Reset};
pub use traces::{Lasso, Position, Stimulus};
