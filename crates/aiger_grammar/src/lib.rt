//! The grammar of model texts: which bytes stand for which model, after AIGER 1.9 (Biere, Heljanko, Wieringa, 2011).
//! The definitions stand in `specs/`; here are the names that a model may have, and the numbers of its sections.
//!
//! | Item | What it is |
//! |---|---|
//! | `Names`, `Symbol`, `Counts` | symbols and comment; a name of an element; how many elements each list has |
//! | `INPUT` .. `FAIRNESS` | the letters of symbols |
//! | `Heading`, `Properties` | the numbers of a header; the sections of literals |
//! | `Test` | what a number has to be where it stands |
//! | `names_laws`, `spelling_laws`, `delta_laws` | the laws of the grammar, as contracts |
//! | `worked_deltas` | numbers with their groups, worked out by hand |
#![tactic(auto)]

mod laws;
mod names;
mod sections;

pub use laws::{delta_laws, names_laws, spelling_laws, worked_deltas};
pub use names::{BAD, CONSTRAINT, Counts, FAIRNESS, INPUT, JUSTICE, LATCH, Names, OUTPUT, Symbol};
pub use sections::{Heading, Properties, Test};
