//! Used entries, lent by whoever holds them.

use cnf::Clause;
use fair_semantics::{Kind, Use};
use items::Items;

/// A list of clauses over latch numbers: variable v is the latch with the number v, counted from 0 in the order of the
/// file.
pub type ClauseSet = Items<Clause>;

/// An entry that is used: its number in the list of entries, counted from 0, its kind, its clauses and its own uses.
#[derive(Clone, Copy)]
pub struct Used<'a> {
    pub number: u32,
    pub kind: Kind,
    pub set: &'a ClauseSet,
    pub uses: &'a [Use],
}
