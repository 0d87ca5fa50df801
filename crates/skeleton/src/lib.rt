//! Skeletons of a property that entries allow, found by a solver, or a refutation that shows that there is none; after
//! FAIR (Bradley, Somenzi, Hassan, Zhang, 2011). The main type is `Query`.
//!
//! | Call | Gives |
//! |---|---|
//! | `Query::new` | a query for skeletons of a property, which has seen no entry |
//! | `Query::next` | a skeleton that all entries of a view allow, or a refutation that uses some of them |
//! | `Query::with_first` | such a skeleton that begins in a given state, or a cube of states in which none begins |
//! | `Query::with_values` | such a skeleton, looked for with values (`ValueAt`) of latches at its places, or none |
//! | `never_stays` | nothing: the law that a cube of states in which none begins stays one as the view grows |
//!
//! A state has a value for each latch, in the order of the file. Cubes are over latch numbers: variable v is the latch
//! with the number v, counted from 0. The definitions stand in `specs/`.
#![tactic(auto)]

mod asking;
mod finding;
mod known;
mod laws;
mod lessening;
mod needed;
mod query;
mod reading;
mod states;

pub use finding::{First, Found, ValueAt};
pub use laws::never_stays;
pub use query::Query;
