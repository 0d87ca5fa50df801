//! Why a property is not translated.
use std::alloc::{AllocError, AllocFailed};
use thiserror::Error;

/// Why there is no translation.
#[derive(Clone, Copy, Debug, PartialEq, Eq, Error)]
#[error("the property is not translated")]
pub enum TranslateEnd {
    /// The circuit has no property of this number, counted from 0.
    NoProperty(u32),
    /// The translation's greatest variable would be this one, which is above `MAX_VARIABLE`.
    TooLarge(u64),
    /// Want of memory.
    Memory,
}

impl From<AllocError> for TranslateEnd {
    ghost use Rattle.std.specs.Prelude.{◌≡◌};
    ghost use Rattle.live_to_safe.specs.declared.ends.TranslateEnd.TheVariants.{Memory};

    ghost from_gives = { λ _ end. end ≡ Memory };

    fn from(_error: AllocError) -> TranslateEnd {
        TranslateEnd::Memory
    }
}

impl<T: Drop> From<AllocFailed<T>> for TranslateEnd {
    ghost use Rattle.std.specs.Prelude.{◌≡◌};
    ghost use Rattle.live_to_safe.specs.declared.ends.TranslateEnd.TheVariants.{Memory};

    ghost from_gives = { λ _ end. end ≡ Memory };

    fn from(_error: AllocFailed<T>) -> TranslateEnd {
        TranslateEnd::Memory
    }
}
