//! What is claimed. The main type is `Claim`.

use cnf_unroll::ClauseSet;
use fair_semantics::{Kind, Skeleton, Use};
use items::Items;

/// An entry that a worker claims in one of its turns: its kind, its clauses over latch numbers, its uses of the entries
/// of a view, and the skeleton that it excludes.
#[derive(Drop)]
pub struct Claim {
    pub kind: Kind,
    pub clauses: ClauseSet,
    pub uses: Items<Use>,
    pub author: u32,
    pub turn: u32,
    pub skeleton: Skeleton,
}
