//! Literals in four bytes, over variables that are numbered as they come, and what is told of both.
//!
//! | Call | What it does |
//! |---|---|
//! | `Packed::of` | the literal of a sign over the variable with a number |
//! | `Packed::number`, `Packed::is_positive` | its number, and its sign |
//! | `Packed::negation`, `Packed::is` | the opposite literal; whether two are the same |
//! | `Packed::code` | its four bytes as a number |
//! | `Names::new` | no variable |
//! | `Names::meet` | the number of a variable, the next one where it is new |
//! | `Names::get` | the number of a variable that was met |
//! | `Names::name`, `Names::as_slice` | the variable with a number; all of them |
//! | `Table::new`, `insert`, `remove`, `get` | a value under each variable that was told one |
//! | `Dense::new`, `reach`, `tell`, `forget`, `get` | the same by the numbers of variables, in a list; room is made ahead |
//! | `Values::new`, `reach`, `tell`, `forget`, `get`, `is` | the truth values of variables, by their numbers, in a byte each |
//! | `Lists::new`, `add`, `remove`, `get` | for each literal the clauses that watch it |
#![tactic(auto)]

mod dense;
mod lists;
mod names;
mod packed;
mod table;
mod values;

pub use dense::Dense;
pub use lists::Lists;
pub use names::Names;
pub use packed::Packed;
pub use table::Table;
pub use values::Values;

/// A variable.
pub type Var = u64;
