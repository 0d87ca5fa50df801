//! Limits of answers.

/// The greatest number of entries of a certificate.
pub const MAX_ENTRIES: u64 = 65_536;
