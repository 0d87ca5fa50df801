//! ASCII texts of models, after AIGER 1.9 (Biere, Heljanko, Wieringa, 2011). The main calls are `read` and `write`.
//!
//! | Call | What it gives |
//! |---|---|
//! | `read` | the model of a text, or its first fault with the place |
//! | `write` | the text of a model |
//! | `ascii_laws` | a text stands for one model, or has one fault |
#![tactic(auto)]

mod laws;
mod reading;
mod writing;

pub use laws::ascii_laws;
pub use reading::read;
pub use writing::write;
