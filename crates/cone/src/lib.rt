//! The cone of a property: what a fair lasso of it depends on, through gates and latches.
//!
//! | Call | Gives |
//! |---|---|
//! | `cone_of` | the cone of a property |
//! | `Cone::has` | whether a variable is in it |
//! | `Cone::marks` | the same for all variables from 0 to the greatest |
//!
//! The definitions stand in `specs/Cones.antt`. Each error is want of memory.
#![tactic(auto)]

mod finding;
mod tables;

pub use circuit::Circuit;
pub use finding::{Cone, cone_of};
