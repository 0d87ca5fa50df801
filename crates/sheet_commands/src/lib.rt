//! What commands make of sheets: the sheet of a board, and the lasso of a block.
//!
//! | Call | What it does |
//! |---|---|
//! | `each_property` | lists the numbers of all properties of a circuit |
//! | `board_sheet` | writes the sheet of a board: what it has of each property of the circuit, over its entries |
//! | `first_lasso` | copies a fair lasso, cut where its stimulus first stands for one |
//! | `block_lasso` | judges the sheet that a shelf holds, and answers the lasso of a block |
//! | `verdicts_agree` | a law: no property has a lasso by one good text and none by another |
#![tactic(auto)]

mod blocks;
mod boards;
mod cutting;
mod laws;
mod properties;

pub use blocks::{BlockLasso, block_lasso};
pub use boards::{BoardSheet, board_sheet, first_lasso};
pub use laws::verdicts_agree;
pub use properties::each_property;
