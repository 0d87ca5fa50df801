//! The inputs and latches of the translation.

ghost use Rattle.std.specs.Prelude.{◌≡◌, ◌≤◌, ◌++◌, ◌∷◌, [], IfOk, OnOk};
ghost use Rattle.aig_semantics.specs.declared.limits.TheConstants.{MAX_VARIABLE};
ghost use Rattle.live_to_safe.specs.Numbers.{greatest, save};
ghost use Rattle.live_to_safe.specs.Watching.{zero_latch, copy_latch, seen_latch, new_latches, numbered};

use crate::sizes::{Sizes, copy, latch_gate, literal_gate, negative, positive, saving, seen};
use aig_semantics::{Latch, Reset};
use items::Items;
use std::alloc::{AllocError, Global};

/// The inputs, and behind them the one that says when to save.
pub(crate) fn inputs_of(alloc: Global, inputs: &[u64], z: Sizes) -> Result<Items<u64>, AllocError>
    requires { greatest z ≤ MAX_VARIABLE }
    ensures { IfOk result (λ all. all ≡ inputs.now ++ save z ∷ []) }
{
    let mut all = Items::from_slice(alloc, inputs)?;
    all.push(z.variables + 1)?;
    Ok(all)
}

fn zero_latch(var: u64, next: u64) -> Latch
    ensures { result ≡ zero_latch var next }
{
    Latch {
        var,
        next,
        reset: Reset::Zero,
    }
}

fn push_copies(z: Sizes, all: &mut Items<Latch>) -> Result<(), AllocError>
    requires { greatest z ≤ MAX_VARIABLE }
    ensures { OnOk result (all.new ≡ all.old ++ numbered (copy_latch z) 0 z.latches) }
{
    for i in 0..z.latches {
        all.push(zero_latch(copy(z, i), negative(latch_gate(z, i) + 2)))?;
    }
    Ok(())
}

fn push_seen(z: Sizes, all: &mut Items<Latch>) -> Result<(), AllocError>
    requires { greatest z ≤ MAX_VARIABLE }
    ensures { OnOk result (all.new ≡ all.old ++ numbered (seen_latch z) 0 z.literals) }
{
    for m in 0..z.literals {
        all.push(zero_latch(seen(z, m), positive(literal_gate(z, m) + 1)))?;
    }
    Ok(())
}

/// The latches, and behind them those that watch them.
pub(crate) fn latches_of(
    alloc: Global,
    latches: &[Latch],
    z: Sizes,
) -> Result<Items<Latch>, AllocError>
    requires { greatest z ≤ MAX_VARIABLE }
    ensures { IfOk result (λ all. all ≡ latches.now ++ new_latches z) }
{
    let mut all = Items::from_slice(alloc, latches)?;
    all.push(zero_latch(z.variables + 2, negative(saving(z) + 1)))?;
    push_copies(z, &mut all)?;
    push_seen(z, &mut all)?;
    Ok(all)
}
