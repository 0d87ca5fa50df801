//! How many blocks of each kind a sheet has. The main type is `Counts`.

/// So many blocks with a stimulus, with a refutation, and with neither.
#[derive(Clone, Copy, PartialEq, Eq)]
pub struct Counts {
    pub lassos: u32,
    pub holds: u32,
    pub unknown: u32,
}
