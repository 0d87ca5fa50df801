//! The limits of this program on circuits and their texts, for definitions and code alike.

/// The greatest variable that a circuit may have.
pub const MAX_VARIABLE: u64 = 16_777_216;

/// The greatest number of literals of one justice property and of all fairness literals together.
pub const MAX_PROPERTY_LITERALS: u64 = 256;

/// The greatest number in a model, and the greatest number of elements of each of its lists.
pub const MAX_NUMBER: u64 = 4_294_967_295;

/// The greatest length of a model's text, in bytes.
pub const MAX_MODEL_BYTES: u64 = 1_073_741_824;
