//! Binary texts of models, after AIGER 1.9 (Biere, Heljanko, Wieringa, 2011). The main calls are `read`, `write` and
//! `is_ordered`, which tells what can be written.
//!
//! | Call | What it gives |
//! |---|---|
//! | `read` | the model of a text, or its first fault with the place |
//! | `is_ordered` | whether a model has a binary text |
//! | `write` | the text of a model that is ordered |
//! | `binary_laws` | a text stands for one model, or has one fault; a model has a text exactly where it is ordered |
#![tactic(auto)]

mod deltas;
mod differences;
mod laws;
mod lines;
mod ordered;
mod reading;
mod writing;

pub use laws::binary_laws;
pub use ordered::is_ordered;
pub use reading::read;
pub use writing::write;
