//! The skeleton that a solver's values give to the blocks of skeleton clauses. The main call is `skeleton_in`.
ghost use Rattle.std.specs.Prelude.{◌≡◌, ◌+◌, ◌<◌, ◌^◌, map, length, All, IfOk};
ghost use Rattle.cdcl.specs.Asking.{assigned};
ghost use Rattle.cnf_unroll.specs.Numbers.{number};
ghost use Rattle.cnf_unroll.specs.Situations.{situation_in, situations_in};
ghost use Rattle.skeleton.specs.Reading.{situation_count};

use cdcl::Solver;
use circuit::{Circuit, Latch, Position};
use fair_semantics::{Situation, Skeleton};
use items::Items;
use std::alloc::{AllocError, Global};

// The values of the latches' numbers, where variable 0 would have the number `start`.
fn latch_values(
    alloc: Global,
    latches: &[Latch],
    solver: &Solver,
    start: u64,
) -> Result<Items<bool>, AllocError>
    requires start { start < 2 ^ 63 }
    requires vars { All (λ latch. latch.var < 2 ^ 32) latches.now }
    ensures { IfOk result (λ bits. bits ≡ map (assigned solver.now.values) (map (λ latch. start + latch.var) latches.now)) }
{
    let mut bits = Items::new(alloc);
    for latch in latches {
        bits.push(solver.value(start + latch.var))?;
    }
    Ok(bits)
}

fn input_values(
    alloc: Global,
    inputs: &[u64],
    solver: &Solver,
    base: u64,
) -> Result<Items<bool>, AllocError>
    requires base { base < 2 ^ 62 }
    requires vars { All (λ v. v < 2 ^ 32) inputs.now }
    ensures { IfOk result (λ bits. bits ≡ map (λ i. assigned solver.now.values (number base i)) inputs.now) }
{
    let mut bits = Items::new(alloc);
    for input in inputs {
        bits.push(solver.value(base + 1 + *input))?;
    }
    Ok(bits)
}

// The situation of the block with this base.
fn situation_in(
    alloc: Global,
    c: &Circuit,
    solver: &Solver,
    base: u64,
) -> Result<Situation, AllocError>
    requires { base < 2 ^ 62 }
    ensures { IfOk result (λ s. s ≡ situation_in c.now base (assigned solver.now.values)) }
{
    let next = base + c.max() + 2;
    let latches = latch_values(alloc, c.latches(), solver, base + 1)?;
    let inputs = input_values(alloc, c.inputs(), solver, base)?;
    let successor = latch_values(alloc, c.latches(), solver, next)?;
    Ok(Situation {
        position: Position { latches, inputs },
        successor,
    })
}

fn situations_in(
    alloc: Global,
    c: &Circuit,
    solver: &Solver,
    count: u64,
) -> Result<Items<Situation>, AllocError>
    requires { count < 2 ^ 32 }
    ensures { IfOk result (λ situations. situations ≡ situations_in c.now 0 count (assigned solver.now.values)) }
{
    let size = 2 * c.max() + 2;
    let mut base = 0;
    let mut situations = Items::new(alloc);
    for _block in 0..count {
        situations.push(situation_in(alloc, c, solver, base)?)?;
        base += size;
    }
    Ok(situations)
}

/// How many situations a skeleton of property `j` has.
pub(crate) fn situation_count(c: &Circuit, j: u32) -> u64
    requires { j < length c.now.justice }
    ensures count { result ≡ situation_count c.now j }
    ensures small { result < 2 ^ 32 }
{
    let _limits = c.max();
    let count = c.property(j as usize).len() + c.fairness().len();
    count.max(1) as u64
}

/// The skeleton of property `j` whose situations the solver's values give to the blocks, from the first on.
pub(crate) fn skeleton_in(
    alloc: Global,
    c: &Circuit,
    j: u32,
    solver: &Solver,
) -> Result<Skeleton, AllocError>
    requires { j < length c.now.justice }
    ensures { IfOk result (λ s. s.situations ≡ situations_in c.now 0 (situation_count c.now j) (assigned solver.now.values)) }
{
    let count = situation_count(c, j);
    let situations = situations_in(alloc, c, solver, count)?;
    Ok(Skeleton { situations })
}
