//! Entries that get their proofs from a solver and are judged, for tests and measurements: so a list of entries that are
//! known at run time alone is a good list by contract.
//!
//! | Call | Gives |
//! |---|---|
//! | `proved` | an entry with proofs, checked behind a view |
//! | `extended` | the view with such an entry behind it |
//! | `claim_of`, `certified` | its claim for a skeleton, certified |
//! | `entry_again`, `judge` | a checked entry as it could be read from a certificate, and whether it is taken |
#![tactic(auto)]

mod claiming;
mod copies;
mod ends;
mod judging;
mod solving;

pub use claiming::{certified, claim_of};
pub use copies::entry_again;
pub use ends::ProvingEnd;
pub use judging::{extended, judge, proved};
