//! The latches of the monitor.

ghost use Rattle.std.specs.Prelude.{◌≡◌, ◌≤◌, ◌++◌, IfOk, OnOk};
ghost use Rattle.aig_semantics.specs.declared.limits.TheConstants.{MAX_VARIABLE};
ghost use Rattle.live_to_safe.specs.Watching.{numbered, zero_latch};
ghost use Rattle.round_monitor.specs.Numbers.{greatest};
ghost use Rattle.round_monitor.specs.Watching.{seen_latch, counter_latch, new_latches};

use crate::sizes::{Sizes, counter, counter_gate, negative, positive, seen, seen_gate};
use aig_semantics::{Latch, Reset};
use items::Items;
use std::alloc::{AllocError, Global};

fn zero_latch(var: u64, next: u64) -> Latch
    ensures { result ≡ zero_latch var next }
{
    Latch {
        var,
        next,
        reset: Reset::Zero,
    }
}

fn push_seen(z: Sizes, all: &mut Items<Latch>) -> Result<(), AllocError>
    requires { greatest z ≤ MAX_VARIABLE }
    ensures { OnOk result (all.new ≡ all.old ++ numbered (seen_latch z) 0 z.literals) }
{
    for m in 0..z.literals {
        all.push(zero_latch(seen(z, m), positive(seen_gate(z, m))))?;
    }
    Ok(())
}

fn push_counters(z: Sizes, all: &mut Items<Latch>) -> Result<(), AllocError>
    requires { greatest z ≤ MAX_VARIABLE }
    ensures { OnOk result (all.new ≡ all.old ++ numbered (counter_latch z) 0 z.counters) }
{
    for i in 0..z.counters {
        all.push(zero_latch(counter(z, i), negative(counter_gate(z, i))))?;
    }
    Ok(())
}

/// The latches, and behind them those that watch them.
pub(crate) fn latches_of(
    alloc: Global,
    latches: &[Latch],
    z: Sizes,
) -> Result<Items<Latch>, AllocError>
    requires { greatest z ≤ MAX_VARIABLE }
    ensures { IfOk result (λ all. all ≡ latches.now ++ new_latches z) }
{
    let mut all = Items::from_slice(alloc, latches)?;
    push_seen(z, &mut all)?;
    push_counters(z, &mut all)?;
    Ok(all)
}
