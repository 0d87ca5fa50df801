//! Where a checked entry is from. The main type is `Origin`.

use fair_semantics::Skeleton;

/// Where an entry is from: it was handed in with the question, or a worker found it.
#[derive(Drop)]
pub enum Origin {
    Given,
    Worker(Work),
}

/// Which worker found an entry, in which of its turns, and the skeleton that the entry was made to exclude.
#[derive(Drop)]
pub struct Work {
    pub author: u32,
    pub turn: u32,
    pub skeleton: Skeleton,
}
