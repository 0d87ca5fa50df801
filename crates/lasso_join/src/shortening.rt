//! The lasso that a stimulus stands for, where it is known to have one. The main call is `shortest_prefix`.
ghost use Rattle.std.specs.Prelude.{◌≡◌, ℕ, length, take, IfOk};
ghost use Rattle.aig_semantics.specs.Stimuli.{HasLasso, StandsFor, IsFairLassoOf};
ghost use Rattle.lasso_join.specs.Prefixes.{stimulus_of};

use circuit::{Circuit, Lasso};
use std::alloc::{AllocError, Global};
use stimulus::{ReplayEnd, Stimulus, replay};

/// The lasso that the stimulus of a fair lasso of property `j` stands for: of its first positions as few as are a fair
/// lasso of `j`, and of the places that they can go back to the least. The stimulus of this lasso stands for it with
/// all of its positions. The error is want of memory.
pub fn shortest_prefix(
    alloc: Global,
    c: &Circuit,
    j: u32,
    lasso: Lasso,
) -> Result<Lasso, AllocError>
    requires { IsFairLassoOf c.now j lasso }
    ensures shortest { IfOk result (λ short. StandsFor c.now j (stimulus_of lasso) (length short.inputs) short.from) }
    ensures start { IfOk result (λ short. short.start ≡ lasso.start) }
    ensures inputs { IfOk result (λ short. short.inputs ≡ take (length short.inputs) lasso.inputs) }
    ensures whole { IfOk result (λ short. StandsFor c.now j (stimulus_of short) (length short.inputs) short.from) }
    ensures fair { IfOk result (λ short. IsFairLassoOf c.now j short) }
{
    let Lasso {
        start,
        inputs,
        from: _,
    } = lasso;
    let stimulus = Stimulus {
        latches: start,
        inputs,
    };
    Ok(replayed(alloc, c, j, &stimulus)?)
}

// The replay of a stimulus that has a lasso.
fn replayed(alloc: Global, c: &Circuit, j: u32, s: &Stimulus) -> Result<Lasso, AllocError>
    requires { (k : ℕ) × ((from : ℕ) × HasLasso c.now j s.now k from) }
    ensures found { IfOk result (λ lasso. StandsFor c.now j s.now (length lasso.inputs) lasso.from) }
    ensures start { IfOk result (λ lasso. lasso.start ≡ s.now.latches) }
    ensures inputs { IfOk result (λ lasso. lasso.inputs ≡ take (length lasso.inputs) s.now.inputs) }
{
    match replay(alloc, c, j, s) {
        Ok(lasso) => Ok(lasso),
        Err(ReplayEnd::Memory) => Err(AllocError),
        Err(ReplayEnd::Fault(_)) => unreachable!(),
    }
}
