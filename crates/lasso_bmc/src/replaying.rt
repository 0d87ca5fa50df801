//! The lasso of a stimulus that is known to have one. The main call is `replayed`.

ghost use Rattle.std.specs.Prelude.{◌≡◌, ℕ, length, take, IfOk};
ghost use Rattle.aig_semantics.specs.Stimuli.{HasLasso, StandsFor};

use circuit::{Circuit, Lasso, Stimulus};
use std::alloc::{AllocError, Global};
use stimulus::{ReplayEnd, replay};

/// The lasso that a stimulus stands for, which has one.
pub(crate) fn replayed(
    alloc: Global,
    c: &Circuit,
    j: u32,
    s: &Stimulus,
) -> Result<Lasso, AllocError>
    requires { (k : ℕ) × ((from : ℕ) × HasLasso c.now j s.now k from) }
    ensures found { IfOk result (λ lasso. StandsFor c.now j s.now (length lasso.inputs) lasso.from) }
    ensures start { IfOk result (λ lasso. lasso.start ≡ s.now.latches) }
    ensures inputs { IfOk result (λ lasso. lasso.inputs ≡ take (length lasso.inputs) s.now.inputs) }
{
    match replay(alloc, c, j, s) {
        Ok(lasso) => Ok(lasso),
        Err(ReplayEnd::Memory) => Err(AllocError),
        Err(ReplayEnd::Fault(_)) => unreachable!(),
    }
}
