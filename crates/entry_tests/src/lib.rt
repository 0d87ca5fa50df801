//! Tests of entries and refutations of small circuits, whose proofs were worked out by hand, and of queries for skeletons
//! that entries allow.
#![tactic(auto)]

#[cfg(test)]
mod asking;
#[cfg(test)]
mod checked;
#[cfg(test)]
mod claims;
#[cfg(test)]
mod parts;
#[cfg(test)]
mod promised;
#[cfg(test)]
mod queries;
#[cfg(test)]
mod rounds;
#[cfg(test)]
mod sheets;
#[cfg(test)]
mod tests;
#[cfg(test)]
mod views;
#[cfg(test)]
mod written;
