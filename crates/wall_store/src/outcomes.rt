//! What a board keeps of a property, and what it answers.

use aig_semantics::Lasso;
use entry::Refutation;

/// What was found of a property: a fair lasso, or a refutation of all its skeletons over the entries of the list.
#[derive(Drop)]
pub enum Outcome {
    Lasso(Lasso),
    Holds(Refutation),
}

/// A property that a board serves, by its number, and its outcome, if there is one.
#[derive(Drop)]
pub struct Served {
    pub property: u32,
    pub outcome: Option<Outcome>,
}

/// What became of a post.
#[derive(Debug, Clone, Copy, PartialEq, Eq)]
pub enum Posted {
    /// The entry stands in the list, with this number.
    Appended(u32),
    /// The entry with this number, the first that does so, excludes the skeleton of the posted one.
    Stale(u32),
    /// The list is as long as it may become.
    Full,
    /// Each served property has an outcome.
    Closed,
}

/// What became of an outcome that was handed in: it was kept, or the property had one.
#[derive(Debug, Clone, Copy, PartialEq, Eq)]
pub enum Finished {
    Won,
    Closed,
}
