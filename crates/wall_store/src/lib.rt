//! The board: a list of checked entries that workers share, and an outcome or none for each property that it serves.
//!
//! | Call | Does |
//! |---|---|
//! | `Board::new` | a board with the entries that were given; only here memory is taken |
//! | `look` | tells a worker how long the list is |
//! | `post` | puts an entry of a worker at the end, unless it is settled, full or stale |
//! | `finish` | keeps an outcome of a property, unless there is one |
//! | `next_open` | a property that has no outcome yet |
//! | `circuit`, `limit`, `workers`, `served`, `entries`, `outcome` | lend what stands on the board |
//! | `holds` | nothing: the law of what a board is at any time |
//! | `entries_are_good`, `seen_uses_stand` | nothing: the laws that a worker or a judge of the list needs |
//! | `outcomes_stay` | nothing: the law that an outcome stays true while the list grows |
//! | `sound_lists_grow` | nothing: the law by which a list that is given is seen to be sound |
//!
//! Workers, properties and entries are counted from 0.
#![tactic(auto)]

mod board;
mod laws;
mod making;
mod outcomes;
mod scanning;

pub use board::Board;
pub use laws::{outcomes_stay, sound_lists_grow};
pub use outcomes::{Finished, Outcome, Posted, Served};
