//! Simulation of a circuit by drawn inputs, before a search begins: fair lassos that a run shows, and runs whose states
//! are reached.
//!
//! | Call | Gives |
//! |---|---|
//! | `simulate` | a fair lasso of a property where a drawn run shows one; else some drawn runs |
//! | `repeated_lasso` | a fair lasso of a property, by repeating the inputs of a loop of its cone |
//!
//! Runs of the cone of the property are drawn 64 at once (`run_batches`). Where a run comes back to a state with each
//! literal true on the way, the inputs of this loop are repeated until the state of the whole circuit is back (`repeating`,
//! `moving`). No contract says what `choosing` takes from some batches: `judging` judges whether it is a fair lasso, or an
//! initial run.
#![tactic(auto)]

mod choosing;
mod drawn_states;
mod judging;
mod moving;
mod repeating;
mod repeating_found;
mod simulating;

pub use drawn_states::DrawnStates;
pub use repeating_found::repeated_lasso;
pub use simulating::{Simulated, simulate};
