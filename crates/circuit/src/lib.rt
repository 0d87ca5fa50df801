//! Checked circuits and what is computed of them: the valuation of a position, its successor, which states are
//! initial, whether a lasso is fair, and how many rounds of a property a run has. The meaning of circuits stands in
//! `aig_semantics`, that of rounds in `fair_semantics`.
#![tactic(auto)]

mod checking;
mod circuits;
mod counts;
mod evaluating;
mod faults;
mod lassos;
mod marks;
mod ordering;
mod parts;

pub use aig_semantics::{Gate, Lasso, Latch, Position, Reset, Stimulus};
pub use checking::{Kept, check_circuit, keep_circuit};
pub use circuits::Circuit;
pub use counts::{are_positions, rounds};
pub use evaluating::{eval_into, literal_value, next_into, one_valuation};
pub use faults::{ModelEnd, ModelFault};
pub use lassos::{is_fair_lasso, is_initial};
pub use parts::Parts;
