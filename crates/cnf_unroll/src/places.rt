//! Places: the numbers that the latches have at a moment. The main type is `Place`.

ghost use Rattle.std.specs.Prelude.{◌≡◌, ◌+◌, ◌^◌, ◌<◌, map, All, IfOk, slice_index_or};
ghost use Rattle.proof_semantics.specs.Clauses.{values_of};
ghost use Rattle.cnf_unroll.specs.Numbers.{state_place, successor_place};

use circuit::{Circuit, Latch};
use items::Items;
use std::alloc::{AllocError, Global};
use std::marker::Model;

/// The numbers of the latches in the order of the file, each by its variable. It takes neither memory nor time for the
/// latches. Contracts see the list of the numbers.
#[derive(Drop)]
pub(crate) struct Place<'a> {
    latches: &'a [Latch],
    // The number that variable 0 would have.
    start: u64,
}

impl<'a> Model for Place<'a> {
    ghost use Rattle.std.specs.Prelude.{ℕ, List};

    ghost Value = { List ℕ };

    ghost use Rattle.cnf_unroll.specs.Placing.{numbers_of, IsNumberedLow};

    ghost view = { numbers_of };

    ghost invariant = { IsNumberedLow };
}

impl<'a> Place<'a> {
    // The number of the latch with this number; 0 where there is none.
    pub(crate) fn number(&self, latch: u64) -> u64
        ensures { result ≡ slice_index_or self.now latch 0 }
    {
        match self.latches.get(latch as usize) {
            Some(found) => self.start + found.var,
            None => 0,
        }
    }

    // The values that a model gives to the numbers, in their order.
    pub(crate) fn values(&self, alloc: Global, model: &[bool]) -> Result<Items<bool>, AllocError>
        ensures { IfOk result (λ values. values ≡ map (values_of model.now) self.now) }
    {
        values_from(alloc, model, self.latches, self.start)
    }
}

/// The value of a number; one past the end is false.
pub(crate) fn value_of(model: &[bool], number: u64) -> bool
    ensures { result ≡ values_of model.now number }
{
    model.get(number as usize).copied().unwrap_or(false)
}

fn values_from(
    alloc: Global,
    model: &[bool],
    latches: &[Latch],
    start: u64,
) -> Result<Items<bool>, AllocError>
    requires start { start < 2 ^ 63 }
    requires latches { All (λ latch. latch.var < 2 ^ 32) latches.now }
    ensures { IfOk result (λ values. values ≡ map (values_of model.now) (map (λ latch. start + latch.var) latches.now)) }
{
    let mut values = Items::new(alloc);
    for latch in latches {
        values.push(value_of(model, start + latch.var))?;
    }
    Ok(values)
}

// The state's place of the block with this base.
pub(crate) fn state_place(c: &Circuit, base: u64) -> Place<'_>
    requires { base < 2 ^ 62 }
    ensures { result ≡ state_place c.now base }
{
    let _limits = c.max();
    Place {
        latches: c.latches(),
        start: base + 1,
    }
}

// The successor's place of the block with this base.
pub(crate) fn successor_place(c: &Circuit, base: u64) -> Place<'_>
    requires { base < 2 ^ 62 }
    ensures { result ≡ successor_place c.now base }
{
    Place {
        latches: c.latches(),
        start: base + c.max() + 2,
    }
}
