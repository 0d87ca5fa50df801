//! A ledger: a board behind a lock whose turns are served in the order of tickets, and the passes by which threads use
//! it. A pass has its own copy of the list, so reading takes no turn.
//!
//! | Call | Does |
//! |---|---|
//! | `Ledger::new` | a ledger, with a pass for each worker |
//! | `look` | takes a turn: the pass then has the whole list |
//! | `post` | takes a turn: puts an entry at the end of the list, unless it is settled, full or stale |
//! | `finish` | takes a turn: keeps an outcome of a property, unless there is one |
//! | `next_open` | takes a turn: a property that has no outcome yet |
//! | `meet` | two passes share the list of the one that has seen more; takes no turn |
//! | `close` | takes all passes and gives the board |
//! | `Ledger::circuit` | lends the circuit |
//! | `Pass::view`, `number`, `turns`, `stamp`, `mark` | lend what a pass knows |
//! | `Pass::holds`, `own_turns` | nothing: the laws of the list of a pass, and of the turns in which it found its entries |
//! | `threads_share_ledger`, `threads_hand_on_passes` | nothing: what threads may do with ledgers and passes |
//!
//! `look`, `post`, `finish` and `next_open` may wait for their turn; no other call does. A pass takes at most
//! 4,294,967,295 turns. Passes, properties and entries are counted from 0.
#![tactic(auto)]

mod faces;
mod ledger;
mod lock;
mod making;
mod marks;
mod meeting;
mod pass;

pub use ledger::{Ledger, Pass, threads_hand_on_passes, threads_share_ledger};
pub use marks::Shown;
