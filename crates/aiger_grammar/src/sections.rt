//! What the sections of a model's text show, and what a number has to be where it stands.

use items::Items;

/// The numbers of a header: the greatest variable, and how many elements each section has.
#[derive(Clone, Copy)]
pub struct Heading {
    pub max: u64,
    pub inputs: u64,
    pub latches: u64,
    pub outputs: u64,
    pub gates: u64,
    pub bad: u64,
    pub constraints: u64,
    pub justice: u64,
    pub fairness: u64,
}

/// The sections of literals, in the order of the file. `justice` has a list for each property.
#[derive(Drop)]
pub struct Properties {
    pub outputs: Items<u64>,
    pub bad: Items<u64>,
    pub constraints: Items<u64>,
    pub justice: Items<Items<u64>>,
    pub fairness: Items<u64>,
}

/// What a number has to be where it stands.
#[derive(Clone, Copy)]
pub enum Test {
    /// The even literal of a variable from 1 to this one.
    Variable(u64),
    /// A literal of a variable up to this one.
    Literal(u64),
    /// The reset of the latch with this literal: 0, 1 or that literal.
    Reset(u64),
    /// How many literals a property has, where there are so many fairness literals.
    Size(u64),
}
