//! Situations and skeletons.

use aig_semantics::Position;
use items::Items;

/// A position and its successor, the latches' next values.
#[derive(Debug, Drop)]
pub struct Situation {
    pub position: Position,
    pub successor: Items<bool>,
}

/// What a fair lasso would have on its loop: a situation for each literal of the property and of fairness, in this
/// order, and one where there is no literal.
#[derive(Debug, Drop)]
pub struct Skeleton {
    pub situations: Items<Situation>,
}
