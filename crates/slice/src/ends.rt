//! Why a property has no slice.
use std::alloc::{AllocError, AllocFailed};
use thiserror::Error;

/// Why there is no slice.
#[derive(Clone, Copy, Debug, PartialEq, Eq, Error)]
#[error("there is no slice of the property")]
pub enum SliceEnd {
    /// The circuit has no property of this number, counted from 0.
    NoProperty(u32),
    /// Want of memory.
    Memory,
}

impl From<AllocError> for SliceEnd {
    ghost use Rattle.std.specs.Prelude.{◌≡◌};
    ghost use Rattle.slice.specs.declared.ends.SliceEnd.TheVariants.{Memory};

    ghost from_gives = { λ _ end. end ≡ Memory };

    fn from(_error: AllocError) -> SliceEnd {
        SliceEnd::Memory
    }
}

impl<T: Drop> From<AllocFailed<T>> for SliceEnd {
    ghost use Rattle.std.specs.Prelude.{◌≡◌};
    ghost use Rattle.slice.specs.declared.ends.SliceEnd.TheVariants.{Memory};

    ghost from_gives = { λ _ end. end ≡ Memory };

    fn from(_error: AllocFailed<T>) -> SliceEnd {
        SliceEnd::Memory
    }
}
