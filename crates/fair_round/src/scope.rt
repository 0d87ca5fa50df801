//! What a round is over. The main type is `Scope`.

use circuit::Circuit;
use entry::Checked;
use std::sync::Arc;

/// What a round is over: the circuit, the number of the property, and the entries that the worker has seen.
#[derive(Drop)]
pub(crate) struct Scope<'a> {
    pub(crate) circuit: &'a Circuit,
    pub(crate) property: u32,
    pub(crate) view: &'a [Arc<Checked>],
}
