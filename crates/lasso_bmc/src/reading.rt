//! The stimulus that a solver's values tell. The main call is `stimulus_in`.

ghost use Rattle.std.specs.Prelude.{◌≡◌, ◌+◌, ◌<◌, ◌^◌, map, length, All, IfOk};
ghost use Rattle.aig_semantics.specs.Circuits.{fair_literals};
ghost use Rattle.cdcl.specs.Asking.{assigned};
ghost use Rattle.cnf_unroll.specs.Numbers.{number};
ghost use Rattle.lasso_clauses.specs.Laws.{inputs_in, stimulus_in};

use cdcl::Solver;
use circuit::{Circuit, Latch, Stimulus};
use items::Items;
use lasso_clauses::moment_base;
use std::alloc::{AllocError, Global};

// The values of the latches' numbers in the block with this base.
fn latch_values(
    alloc: Global,
    latches: &[Latch],
    solver: &Solver,
    base: u64,
) -> Result<Items<bool>, AllocError>
    requires base { base < 2 ^ 62 }
    requires vars { All (λ latch. latch.var < 2 ^ 32) latches.now }
    ensures { IfOk result (λ bits. bits ≡ map (assigned solver.now.values) (map (λ latch. number base latch.var) latches.now)) }
{
    let mut bits = Items::new(alloc);
    for latch in latches {
        bits.push(solver.value(base + 1 + latch.var))?;
    }
    Ok(bits)
}

// The same of inputs.
fn input_values(
    alloc: Global,
    inputs: &[u64],
    solver: &Solver,
    base: u64,
) -> Result<Items<bool>, AllocError>
    requires base { base < 2 ^ 62 }
    requires vars { All (λ v. v < 2 ^ 32) inputs.now }
    ensures { IfOk result (λ bits. bits ≡ map (λ i. assigned solver.now.values (number base i)) inputs.now) }
{
    let mut bits = Items::new(alloc);
    for input in inputs {
        bits.push(solver.value(base + 1 + *input))?;
    }
    Ok(bits)
}

// The values of the inputs at the first `k` positions.
fn input_lists(
    alloc: Global,
    c: &Circuit,
    j: u32,
    k: u32,
    solver: &Solver,
) -> Result<Items<Items<bool>>, AllocError>
    requires { j < length c.now.justice }
    ensures { IfOk result (λ inputs. inputs ≡ inputs_in c.now (length (fair_literals c.now j)) (assigned solver.now.values) k) }
{
    let _limits = c.max();
    let mut inputs = Items::new(alloc);
    for place in 0..k {
        let base = moment_base(c, j, place);
        inputs.push(input_values(alloc, c.inputs(), solver, base)?)?;
    }
    Ok(inputs)
}

/// The values of the latches at the first of `k` positions, and of the inputs at each.
pub(crate) fn stimulus_in(
    alloc: Global,
    c: &Circuit,
    j: u32,
    k: u32,
    solver: &Solver,
) -> Result<Stimulus, AllocError>
    requires { j < length c.now.justice }
    ensures { IfOk result (λ s. s ≡ stimulus_in c.now j k (assigned solver.now.values)) }
{
    let _limits = c.max();
    let inputs = input_lists(alloc, c, j, k, solver)?;
    let latches = latch_values(alloc, c.latches(), solver, moment_base(c, j, 0))?;
    Ok(Stimulus { latches, inputs })
}
