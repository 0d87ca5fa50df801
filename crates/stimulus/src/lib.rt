//! Stimuli: the text of one is read and written, and one is replayed on a circuit to the fair lasso that it stands for.
#![tactic(auto)]

mod beginning;
mod ends;
mod places;
mod reading;
mod replaying;
mod walks;
mod writing;

pub use aig_semantics::Stimulus;
pub use ends::{ReplayEnd, ReplayFault};
pub use reading::{is_skipped, read, values_of};
pub use replaying::replay;
pub use writing::write;
