//! Closed sets, and what is marked of them.

use cnf::Clause;
use fair_semantics::Use;
use items::Items;

/// The clauses, over latch numbers, and the uses, over numbers of a view, of an entry that separates a start from a goal.
#[derive(Drop)]
pub struct ClosedSet {
    pub clauses: Items<Clause>,
    pub uses: Items<Use>,
}

/// Marks for a closed set: of each use whether it is kept, and whether with its side; of each clause whether it is kept.
#[derive(Drop)]
pub(crate) struct Marks {
    pub(crate) uses: Vec<bool>,
    pub(crate) sides: Vec<bool>,
    pub(crate) clauses: Vec<bool>,
}
