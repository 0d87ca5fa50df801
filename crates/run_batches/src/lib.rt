//! Runs of a part of a circuit by drawn inputs, 64 at once, one in each bit of a word. No contract says what comes: what is
//! taken of a run is judged where it is used.
//!
//! | Call | Gives |
//! |---|---|
//! | `part_of`, `whole` | the part of a circuit whose variables are marked (`Part`); the whole circuit |
//! | `fair_literals` | the literals of a property and of fairness, for a `Task` |
//! | `run_batch` | a batch of runs (`Batch`) for a `Task`, up to the first loop (`RunLoop`); it takes from a `Supply` |
//! | `Draws::new`, `Draws::next`, `mixed` | numbers drawn from a seed |
//! | `RUNS`, `bit_of`, `word_at` | how many runs a word has; the bit of a run; the word at a place |
//!
//! A batch (`batches`) is evaluated word by word (`words`, `evaluating`), on inputs of several densities (`draws`,
//! `densities`), until a run comes back to a state (`state_table`) with each literal true on the way.
#![tactic(auto)]

mod batches;
mod densities;
mod draws;
mod evaluating;
mod parts;
mod state_table;
mod tasks;
mod words;

pub use batches::{Batch, RunLoop, Supply, run_batch};
pub use draws::{Draws, mixed};
pub use parts::{Part, PlacedInput, PlacedLatch, part_of, whole};
pub use tasks::{Task, fair_literals};
pub use words::{RUNS, bit_of, word_at};
