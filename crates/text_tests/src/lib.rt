//! Tests of texts that are read and written, worked out by hand: files, memory and output, lists, numerals, lines, models
//! with their names in both forms, and generated ones. They need public calls alone, and stand
//! here so that the gate proves the crates of these calls once.
#![tactic(auto)]

#[cfg(test)]
mod ascii;
#[cfg(test)]
mod binary;
#[cfg(test)]
mod fakes;
#[cfg(test)]
mod generated;
#[cfg(test)]
mod item_lists;
#[cfg(test)]
mod lines;
#[cfg(test)]
mod names;
#[cfg(test)]
mod numerals;
#[cfg(test)]
mod outside;
#[cfg(test)]
mod promised;
#[cfg(test)]
mod told;
