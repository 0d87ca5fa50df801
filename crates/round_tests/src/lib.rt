//! Tests of what is decided of rounds: rows worked out by hand, and drawn circuits with drawn properties (`properties`, `drawn`)
//! against a search of all states (`counting`); and, against such searches too, of the shortest lassos of these circuits
//! (`lassos`) and of the lengths of their lassos (`lengths`); and rows of lassos of cones as lassos of the whole circuit
//! (`cones`); and what is told beside these searches (`agreeing`).
#![tactic(auto)]

#[cfg(test)]
mod agreeing;
#[cfg(test)]
mod cones;
#[cfg(test)]
mod counting;
#[cfg(test)]
mod drawn;
#[cfg(test)]
mod lassos;
#[cfg(test)]
mod lengths;
#[cfg(test)]
mod promised;
#[cfg(test)]
mod properties;
#[cfg(test)]
mod tests;
