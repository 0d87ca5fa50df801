//! Entries with which a search begins: those of a certificate or a sheet that is accepted.
//!
//! | Call | What it does |
//! |---|---|
//! | `load_entries` | reads and judges a text as its check does, and answers the entries of its certificate, of whatever property, or of its sheet |
//! | `given_list` | makes of entries, each proved behind those before it, the list that a search takes |
//! | `load_list` | both, where an answer is named; else an empty list |
#![tactic(auto)]

mod beginning;
mod listing;
mod loading;
mod sheets;
mod taking;

pub use beginning::load_list;
pub use listing::given_list;
pub use loading::load_entries;
