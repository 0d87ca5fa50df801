//! A property of a circuit with its monitor.

use circuit::Circuit;

/// Property `j` of a circuit, and its monitor `t` for `k` rounds.
#[derive(Drop)]
pub(crate) struct Watched<'a> {
    pub(crate) c: &'a Circuit,
    pub(crate) j: u32,
    pub(crate) k: u32,
    pub(crate) t: &'a Circuit,
}
