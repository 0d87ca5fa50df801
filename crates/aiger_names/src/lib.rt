//! Models and their names: the symbols and the comment at the end of a model's text, after AIGER 1.9 (Biere, Heljanko,
//! Wieringa, 2011).
//!
//! | Call | What it gives |
//! |---|---|
//! | `Model` | a checked circuit with its outputs, bad state literals and names, which fit it |
//! | `read_names` | symbols and comment from a place of a text on, or their first fault |
//! | `read_last_names` | the same of the last bytes of a text |
//! | `write_names` | the text of symbols and comment |
//! | `push_next` | a latch's next literal and reset, written at the end of a text |
//! | `push_properties`, `push_names` | the sections of literals, and the names, written at the end of a text |
#![tactic(auto)]

mod lines;
mod models;
mod reading;
mod writing;

pub use aiger_grammar::{Counts, Names, Symbol};
pub use models::Model;
pub use reading::{read_last_names, read_names};
pub use writing::{push_names, push_next, push_properties, write_names};
