//! Values of latches that no step leaves in the arena of a state.
//!
//! | Call | Gives |
//! |---|---|
//! | `cone_latches` | of each latch whether it is in the cone of a property |
//! | `lasting_values` | the values that no step leaves of the latches that are asked for |
//!
//! Both only choose what is tried: no contract says anything of what they answer.
#![tactic(auto)]

mod lasting;

pub use lasting::{cone_latches, lasting_values};
