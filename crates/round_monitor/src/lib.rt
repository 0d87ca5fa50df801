//! A circuit that counts the rounds of a justice property, that is how often a run meets its fairness anew, for
//! k-liveness after Claessen, Sörensson, A Liveness Checking Algorithm that Counts (FMCAD 2012). `rounds` of `circuit` counts
//! those of a given run. The call is `monitor`: the circuit with latches that count the rounds of a property, as a model.
#![tactic(auto)]

mod gates;
mod latches;
mod monitoring;
mod sizes;
pub mod worked_rows;

pub use monitoring::monitor;
