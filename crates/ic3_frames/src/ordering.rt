//! In what order literals are dropped from a cube. No contract rests on it. The main call is `by_activity`.

use crate::frames::Frames;
use cnf::{Cube, Lit};
use std::alloc::{AllocError, Global};

/// The literals of a cube. Those whose negations stand in few lemmas come first, and of two that stand in as many the one
/// that is first in the cube.
pub fn by_activity(alloc: Global, cube: &Cube, frames: &Frames) -> Result<Vec<Lit>, AllocError> {
    let mut order = Vec::new(alloc);
    order.extend_from_slice(cube.as_slice())?;
    order.sort_by_key(|literal| frames.activity(literal.negation()))?;
    Ok(order)
}
