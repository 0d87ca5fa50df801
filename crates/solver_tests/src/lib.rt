//! Wide tests of the solver: many small questions, each answer held against a search through all values, and each
//! proof given to the checker.
#![tactic(auto)]

#[cfg(test)]
mod called;
#[cfg(test)]
mod drawing;
#[cfg(test)]
mod judging;
#[cfg(test)]
mod promised;
#[cfg(test)]
mod questions;
#[cfg(test)]
mod sequences;
#[cfg(test)]
mod session;
#[cfg(test)]
mod shortening;
#[cfg(test)]
mod tests;
#[cfg(test)]
mod worked;
