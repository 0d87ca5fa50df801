//! The slice of a model for one of its justice properties: the inputs, latches and gates of the property's cone, with the
//! constraints, this one property and fairness. It has a fair lasso of its property exactly where the model has one.
//!
//! | Call | What it gives |
//! |---|---|
//! | `slice` | the slice for a property |
//! | `SliceEnd` | why there is none |
#![tactic(auto)]

mod ends;
mod sections;
mod slicing;
mod symbols;

pub use ends::SliceEnd;
pub use slicing::slice;
