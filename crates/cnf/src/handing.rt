//! What may be handed to another thread. The main call is `threads_hand_on_cubes`.

use crate::{Cube, Proof};

fn send<T: Send>() {}

/// Nothing: it has a proof only where cubes and proofs may be handed to another thread.
pub fn threads_hand_on_cubes() {
    send::<Cube>();
    send::<Proof>();
}
