//! Limits of texts about rounds.

/// The greatest number of rounds that a text may be about; the least is 1.
pub const MAX_ROUNDS: u64 = 64;
