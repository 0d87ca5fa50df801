//! Tests of clauses and cubes, worked out by hand: lists of them, literals in four bytes, lists of values in one block of
//! memory, lines that a checker of proofs judges, trails, what conflicts teach, frames of lemmas, signatures of clauses, and
//! cubes that lose literals. They need public calls alone, and stand here so that the gate proves the crates of these calls
//! once.
#![tactic(auto)]

#[cfg(test)]
mod conflicts;
#[cfg(test)]
mod frames;
#[cfg(test)]
mod lending;
#[cfg(test)]
mod lines;
#[cfg(test)]
mod lists;
#[cfg(test)]
mod literals;
#[cfg(test)]
mod packing;
#[cfg(test)]
mod promised;
#[cfg(test)]
mod shortening;
#[cfg(test)]
mod trails;
