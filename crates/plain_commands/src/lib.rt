//! How a run of the program ends, and the commands that need no search over a list of entries. They write nothing: what is to
//! be written is handed on with its status.
//!
//! | Call | Does |
//! |---|---|
//! | `with_text` | a status with the text that it tells |
//! | `model_of` | reads MODEL, in the form that its first bytes tell |
//! | `find_shortest` | `shortest`: a lasso with the fewest positions |
//! | `count_rounds` | `rounds`: whether some initial run has so many rounds |
//! | `remake` | `convert` and `trim`: a text that is made of an answer, as `Conversion` and `Trimming` make it |
//! | `export_item` | `export`: an item of an answer, for other checkers |
//! | `generate` | `gen`: a generated model |
//! | `safety`, `write_slice` | `safety` and `slice`: a model that is made of MODEL |
//! | `Status::number` | the number with which the program ends |
//!
//! What `specs/Check.antt` says of an accepted text the other commands' contracts cite; the call of `check` stands above, in
//! `fair_top`.
#![tactic(auto)]

mod commands;
mod models;
mod reports;
mod status;
mod texts;

pub use commands::{
    Conversion, MakesText, Trimming, count_rounds, export_item, find_shortest, generate, remake,
    safety, write_slice,
};
pub use models::model_of;
pub use status::{Done, Status};
pub use texts::{Ending, with_text};
