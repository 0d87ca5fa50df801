//! Tests of workers that take turns, and of workers on threads, on small models and on drawn ones.
#![tactic(auto)]

#[cfg(test)]
mod drawing;
#[cfg(test)]
mod judging;
#[cfg(test)]
mod lassos;
#[cfg(test)]
mod meeting;
#[cfg(test)]
mod running;
#[cfg(test)]
mod searching;
#[cfg(test)]
mod several;
#[cfg(test)]
mod sliced;
#[cfg(test)]
mod tests;
#[cfg(test)]
mod translated;
