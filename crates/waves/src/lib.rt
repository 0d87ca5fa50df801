//! A lasso as waves that a viewer shows: a value change dump (IEEE 1364-2005, clause 18).
//!
//! | Call | What it gives |
//! |---|---|
//! | `write` | the waves of a lasso of a model |
//! | `dump_laws` | the laws: names and identifiers are apart, buses have the bits of their names, and values are read back |
#![tactic(auto)]

mod bits;
mod buses;
mod dumps;
mod groups;
mod laws;
mod named;
mod names;
mod signals;
mod symbols;
mod wires;

pub use dumps::write;
pub use laws::dump_laws;
pub use signals::Signal;
pub use wires::{Section, Wire};
