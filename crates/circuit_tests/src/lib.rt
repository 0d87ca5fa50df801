//! Tests of small circuits, with values worked out by hand: their check, values and lassos, their clauses, their
//! simulation with unknown values, stimuli that are replayed on them, lassos joined of parts, lassos by simulation, and
//! rounds of drawn runs. They need public calls alone, and stand here so that the gate proves the crates of these calls
//! once.
#![tactic(auto)]

#[cfg(test)]
mod circuits;
#[cfg(test)]
mod drawn_runs;
#[cfg(test)]
mod fitting;
#[cfg(test)]
mod joins;
#[cfg(test)]
mod models;
#[cfg(test)]
mod promised;
#[cfg(test)]
mod repeated;
#[cfg(test)]
mod round_counts;
#[cfg(test)]
mod simulated;
#[cfg(test)]
mod stimuli;
#[cfg(test)]
mod unrolled;
