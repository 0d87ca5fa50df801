//! Numbers, fields and lines of texts: how they are spelled and read, and how a number is written.
#![tactic(auto)]

mod laws;
mod lines;
mod numbers;
mod pieces;

pub use laws::text_laws;
pub use lines::{cut_line, next_line};
pub use numbers::{push_number, read_number};
pub use pieces::{cut_first, next_field};
