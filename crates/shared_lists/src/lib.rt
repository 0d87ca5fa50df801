//! The list that workers share, as one of them has it in a turn, whatever it is kept in.
//!
//! | Type | Is |
//! |---|---|
//! | `SharedList` | what such a list is: what the worker has seen of it, and the calls, of which each is one turn at most |
//! | `LentBoard` | a board as the shared list of one of its workers, for one turn |
//! | `Held` | a ledger as the shared list of the worker that has one of its passes |
//!
//! The definitions stand in `specs/`.
#![tactic(auto)]

mod held;
mod lending;
mod shared_list;

pub use held::Held;
pub use lending::LentBoard;
pub use shared_list::SharedList;
