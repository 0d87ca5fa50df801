//! The lines of a certificate's text but those of its proofs, read and written. A line has no line feed here; the
//! definitions of how each is spelled stand in `specs/`.
//!
//! | Call | What it does |
//! |---|---|
//! | `word_line_of` | reads a line that begins with a word: `version 2`, `reach C U`, `wall C U`, `proof P`, `refute U P` or `end` |
//! | `uses_of` | reads a line of uses |
//! | `clause_of` | reads a line of a clause |
//! | `push_word_line`, `push_uses`, `push_clause` | write such a line at the end of a text |
//! | `WrittenUse::as_use` | the use of an entry, where its number has 32 bits |
//! | `lines_are_read_as_spelled`, `lines_spell_one_thing` | the laws |
//!
//! Numbers are decimal, without a leading zero, and below 2^63; single spaces separate the fields. A number that is
//! written differently, another count of fields or any other byte means that the line is in no form. How many uses,
//! clauses and proof lines follow is the caller's to compare.
#![tactic(auto)]

mod clauses;
mod fields;
mod laws;
mod uses;
mod words;

pub use clauses::{clause_of, push_clause};
pub use laws::{lines_are_read_as_spelled, lines_spell_one_thing};
pub use uses::{WrittenUse, push_uses, uses_of};
pub use words::{Opening, Refutation, Version, WordLine, push_word_line, word_line_of};
