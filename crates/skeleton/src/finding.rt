//! What a query answers.

use cnf::Cube;
use entry::Refutation;
use fair_semantics::Skeleton;

/// What there is of a property under the entries of a view.
#[derive(Drop)]
pub enum Found {
    /// A skeleton that all of them allow.
    Skeleton(Skeleton),
    /// Which of them allow none, and the proof.
    Refuted(Refutation),
}

/// What there is of a property under the entries of a view from a state on.
#[derive(Drop)]
pub enum First {
    /// A skeleton that all of them allow, and whose first state is that one.
    Skeleton(Skeleton),
    /// A cube over latch numbers that holds the state. In no state of it an allowed skeleton begins.
    Never(Cube),
}

/// A value of a latch at a place of a skeleton: in the state of a situation, or in its successor.
#[derive(Clone, Copy)]
pub struct ValueAt {
    pub situation: u64,
    pub after: bool,
    pub latch: usize,
    pub value: bool,
}
