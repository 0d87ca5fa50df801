//! The position and the successor that an assignment gives to a block. The main call is `decode`.

ghost use Rattle.std.specs.Prelude.{◌≡◌, ◌^◌, ◌<◌, map, All, IfOk};
ghost use Rattle.proof_semantics.specs.Clauses.{values_of};
ghost use Rattle.cnf_unroll.specs.Numbers.{number};
ghost use Rattle.cnf_unroll.specs.Situations.{situation_in, situation_of_block};

use crate::places::{state_place, successor_place, value_of};
use circuit::{Circuit, Position};
use fair_semantics::Situation;
use items::Items;
use std::alloc::{AllocError, Global};

fn input_values(
    alloc: Global,
    model: &[bool],
    base: u64,
    inputs: &[u64],
) -> Result<Items<bool>, AllocError>
    requires base { base < 2 ^ 62 }
    requires inputs { All (λ v. v < 2 ^ 32) inputs.now }
    ensures { IfOk result (λ values. values ≡ map (λ i. values_of model.now (number base i)) inputs.now) }
{
    let mut values = Items::new(alloc);
    for input in inputs {
        values.push(value_of(model, base + 1 + *input))?;
    }
    Ok(values)
}

fn decode_at(alloc: Global, c: &Circuit, model: &[bool], base: u64) -> Result<Situation, AllocError>
    requires { base < 2 ^ 62 }
    ensures { IfOk result (λ situation. situation ≡ situation_in c.now base (values_of model.now)) }
{
    let _limits = c.max();
    let latches = state_place(c, base).values(alloc, model)?;
    let inputs = input_values(alloc, model, base, c.inputs())?;
    let successor = successor_place(c, base).values(alloc, model)?;
    Ok(Situation {
        position: Position { latches, inputs },
        successor,
    })
}

/// The position and the successor whose values `model` gives to the numbers of a block, counted from 0. The value of
/// number n stands at place n; a number past the end is false. The error is want of memory.
pub fn decode(
    alloc: Global,
    c: &Circuit,
    model: &[bool],
    block: u64,
) -> Result<Situation, AllocError>
    requires { block < 2 ^ 32 }
    ensures { IfOk result (λ situation. situation ≡ situation_of_block c.now block (values_of model.now)) }
{
    decode_at(alloc, c, model, block * (2 * c.max() + 2))
}
