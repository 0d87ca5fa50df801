//! Sheets: one list of entries, and for each property of a circuit, in their order, what is known of it; judged and written.
//!
//! | Call | What it does |
//! |---|---|
//! | `check_answer` | judges the text that a shelf holds, as a sheet, as an answer or as a text about rounds |
//! | `read_whole`, `shelf_with`, `is_sheet` | read a text whole, hold one on a shelf in memory, and tell whether it opens a sheet |
//! | `check_sheet` | judges a text that is held and opens a sheet, and answers the lines of a good one |
//! | `write` | writes the sheet of checked entries and of blocks over them |
//! | `good_sheets_are_true` | a law: what a good sheet says of each property is so |
//! | `written_sheets_are_good` | a law: what `write` writes is good, where what it says is so |
#![tactic(auto)]

mod blocks;
mod blocks_read;
mod checking;
mod counts;
mod ends;
mod found;
mod heads;
mod laws;
mod state;
mod steps;
mod texts;
mod worked_rows;
mod writing;

pub use blocks::Block;
pub use checking::check_answer;
pub use counts::Counts;
pub use ends::{BlockFault, JudgeEnd, Judged};
pub use laws::{good_sheets_are_true, written_sheets_are_good};
pub use texts::{GoodSheet, check_sheet, is_sheet, read_whole, shelf_with};
pub use writing::write;
