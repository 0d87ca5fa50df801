//! Positions, stimuli and lassos. A list of latch values has one value for each latch, a list of input values one for
//! each input, in the order of the file.

use items::Items;

/// A moment of a run: the values of the latches and of the inputs.
#[derive(Debug, Drop)]
pub struct Position {
    pub latches: Items<bool>,
    pub inputs: Items<bool>,
}

/// The values that the latches begin with, and a list of input values for each position.
#[derive(Debug, Drop)]
pub struct Stimulus {
    pub latches: Items<bool>,
    pub inputs: Items<Items<bool>>,
}

/// The run of the stimulus of `start` and `inputs`, whose last position steps back to the position with the number
/// `from`, counted from 0.
#[derive(Debug, Drop)]
pub struct Lasso {
    pub start: Items<bool>,
    pub inputs: Items<Items<bool>>,
    pub from: u64,
}
