//! A text on a shelf, read line by line, with one line in memory.
//!
//! | Call | What it does |
//! |---|---|
//! | `Lines::new` | stands before the first line |
//! | `Lines::next` | reads the next line, or finds the end of the text |
//! | `Lines::line` | the line that was read last |
//! | `Lines::is_last` | whether the text's end ended that line |
#![tactic(auto)]

mod ends;
mod lines;
mod pieces;

pub use ends::LinesEnd;
pub use lines::Lines;
