//! The first place of each state that a run met, in an ordered map. The main calls are `packed` and `keep_place`.
ghost use Rattle.std.specs.Prelude.{◌≡◌, ◌≢◌, ℕ, List, ◌++◌, Some, unwrap_or, IfOk, OnOk};
ghost use Rattle.stimulus.specs.Places.{packed, place_at};

use std::alloc::{AllocError, Global};
use std::collections::BTreeMap;

/// The first place of each state, which is packed.
pub(crate) type Places = BTreeMap<Vec<u8>, u64>;

/// A state with eight latches a byte.
pub(crate) fn packed(alloc: Global, state: &[bool]) -> Result<Vec<u8>, AllocError>
    ensures { IfOk result (λ key. key.items ≡ packed state.now) }
{
    let mut key = Vec::with_capacity(alloc, state.len() / 8 + 1)?;
    let mut byte: u8 = 0;
    let mut count: u8 = 0;
    for value in state {
        let more = byte * 2 + if *value { 1 } else { 0 };
        if count == 7 {
            key.push(more)?;
            byte = 0;
            count = 0;
        } else {
            byte = more;
            count += 1;
        }
    }
    key.push(byte)?;
    Ok(key)
}

/// Keeps the place of a state, unless an earlier one is kept.
pub(crate) fn keep_place(places: &mut Places, key: Vec<u8>, place: u64) -> Result<(), AllocError>
    ensures there { OnOk result (place_at places.new key.items ≡ Some (unwrap_or (place_at places.old key.items) place)) }
    ensures others { OnOk result ((other : List ℕ) → other ≢ key.items → place_at places.new other ≡ place_at places.old other) }
{
    if !places.contains_key(key.as_slice()) {
        places.insert(key, place)?;
    }
    Ok(())
}
