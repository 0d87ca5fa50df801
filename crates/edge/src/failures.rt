//! The one failure of reading and writing.

use thiserror::Error;

/// A read or a write failed. The object that failed has counted it.
#[derive(Debug, Clone, Copy, Error)]
#[error("a read or a write failed")]
pub struct Failed;
