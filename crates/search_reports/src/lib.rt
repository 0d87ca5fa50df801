//! What workers may spend who search over one list, and what they leave: types alone, so that what tells of a report need not
//! stand on the search. `fair_workers` hands them on, and says what they mean.
//!
//! | Type | Is |
//! |---|---|
//! | `Limits` | how many workers there are, and what they may spend |
//! | `Report` | the board that they leave, what each of them has spent, and how many positions lasso workers have done |
//! | `Ended` | why they ended without an answer |
#![tactic(auto)]

mod limits;

pub use limits::{Ended, Limits, Report};
