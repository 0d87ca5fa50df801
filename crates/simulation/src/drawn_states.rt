//! The states of drawn runs. The main type is `DrawnStates`.

/// States of runs, 64 at once: the places of some latches in the circuit's list, counted from 0; and behind one another, for
/// each position of the runs, a word whose bits tell which of the 64 runs have a state there, and for each of the latches a
/// word with a bit for each run.
#[derive(Drop)]
pub struct DrawnStates {
    pub latches: Vec<usize>,
    pub words: Vec<u64>,
}
