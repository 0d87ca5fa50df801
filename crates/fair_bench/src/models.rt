//! Models that are read. The main calls are `read_model` and `circuit_in`.

use crate::failure::Failure;
use crate::outside::read_file;
use aig_semantics::MAX_MODEL_BYTES;
use aiger_names::Model;
use circuit::{Circuit, ModelEnd};
use std::alloc::Global;
use std::sync::Arc;

/// The model of a text in either form, by its first two bytes.
pub(crate) fn read_model(alloc: Global, bytes: &[u8]) -> Result<Model, ModelEnd> {
    if bytes.starts_with(b"ai") {
        return aiger_binary::read(alloc, bytes);
    }
    aiger_ascii::read(alloc, bytes)
}

/// The circuit of the model in a file.
pub(crate) fn circuit_in(rt: &HostRuntime, name: &str) -> Result<Arc<Circuit>, Failure> {
    let bytes = read_file(rt, name, MAX_MODEL_BYTES)?;
    circuit_of(rt.alloc(), &bytes)
}

fn circuit_of(alloc: Global, bytes: &[u8]) -> Result<Arc<Circuit>, Failure> {
    let model = read_model(alloc, bytes)?;
    Ok(Arc::new(alloc, model.into_circuit())?)
}
