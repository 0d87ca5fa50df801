//! What an entry of a certificate is made of, beside its clauses. A clause of an entry is over latch numbers: variable
//! v is the latch with the number v, counted from 0 in the order of the file.

/// What an entry claims of its set of states.
#[derive(Clone, Copy, Debug, PartialEq, Eq)]
pub enum Kind {
    /// The set holds every state of every initial run.
    Reach,
    /// Every loop lies on one side of the set, inside or outside.
    Wall,
}

/// The side of a wall that a use names.
#[derive(Clone, Copy, Debug, PartialEq, Eq)]
pub enum Side {
    /// Neither side is named.
    Any,
    /// The states in the wall's set.
    In,
    /// The states outside it.
    Out,
}

/// A use of an earlier entry: its number, counted from 0, and the side that is named of it. Only a wall has a side
/// named.
#[derive(Clone, Copy, Debug, PartialEq, Eq)]
pub struct Use {
    pub entry: u32,
    pub side: Side,
}
