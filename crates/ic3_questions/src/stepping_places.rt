//! The numbers of a circuit's variables in the first block.
ghost use Rattle.std.specs.Prelude.{◌≡◌, ◌+◌, map, IfOk};
ghost use Rattle.cnf_unroll.specs.Numbers.{number, state_place, successor_place};

use circuit::Circuit;
use items::Items;
use std::alloc::{AllocError, Global};

/// The number of a variable, where that of variable 0 is `start`. Numbers from 2^64 on are want of memory.
fn number_behind(start: u64, variable: u64) -> Result<u64, AllocError>
    ensures { IfOk result (λ number. number ≡ start + variable) }
{
    start.checked_add(variable).ok_or(AllocError)
}

fn place_behind(alloc: Global, c: &Circuit, start: u64) -> Result<Items<u64>, AllocError>
    ensures { IfOk result (λ place. place ≡ map (λ latch. start + latch.var) c.now.latches) }
{
    let mut place = Items::new(alloc);
    for latch in c.latches() {
        place.push(number_behind(start, latch.var)?)?;
    }
    Ok(place)
}

/// The latches' numbers at the state.
pub fn state_place(alloc: Global, c: &Circuit) -> Result<Items<u64>, AllocError>
    ensures { IfOk result (λ place. place ≡ state_place c.now 0) }
{
    place_behind(alloc, c, 1)
}

/// The latches' numbers at the successor.
pub fn successor_place(alloc: Global, c: &Circuit) -> Result<Items<u64>, AllocError>
    ensures { IfOk result (λ place. place ≡ successor_place c.now 0) }
{
    place_behind(alloc, c, number_behind(c.max(), 2)?)
}

/// The inputs' numbers.
pub fn input_place(alloc: Global, c: &Circuit) -> Result<Items<u64>, AllocError>
    ensures { IfOk result (λ place. place ≡ map (λ i. number 0 i) c.now.inputs) }
{
    let mut place = Items::new(alloc);
    for input in c.inputs() {
        place.push(number_behind(1, *input)?)?;
    }
    Ok(place)
}
