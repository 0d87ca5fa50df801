//! Tests of the whole program over texts in memory.
#![tactic(auto)]

#[cfg(test)]
mod bounding;
#[cfg(test)]
mod certificates;
#[cfg(test)]
mod converting;
#[cfg(test)]
mod counting;
#[cfg(test)]
mod demonstrated;
#[cfg(test)]
mod dumps;
#[cfg(test)]
mod exporting;
#[cfg(test)]
mod failing;
#[cfg(test)]
mod generated;
#[cfg(test)]
mod promised;
#[cfg(test)]
mod resuming;
#[cfg(test)]
mod runs;
#[cfg(test)]
mod sheets;
#[cfg(test)]
mod slicing;
#[cfg(test)]
mod solving;
#[cfg(test)]
mod tests;
#[cfg(test)]
mod translating;
#[cfg(test)]
mod trimming;
#[cfg(test)]
mod waving;
