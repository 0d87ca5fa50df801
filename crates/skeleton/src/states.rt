//! States as assumptions, and cores of them as cubes over latch numbers.
ghost use Rattle.std.specs.Prelude.{◌≡◌, ◌<◌, ◌^◌, map, length, All, IfOk};
ghost use Rattle.cnf_unroll.specs.Numbers.{number, state_place};
ghost use Rattle.skeleton.specs.Reading.{state_literals, core_cube};

use circuit::{Circuit, Latch};
use cnf::{Cube, Lit, has_literal};
use items::Items;
use std::alloc::{AllocError, Global};

// The latches have the values of the state, where variable 0 would have the number 1.
fn latch_literals(
    alloc: Global,
    latches: &[Latch],
    state: &[bool],
) -> Result<Items<Lit>, AllocError>
    requires values { length state.now ≡ length latches.now }
    requires vars { All (λ latch. latch.var < 2 ^ 32) latches.now }
    ensures { IfOk result (λ literals. literals
        ≡ state_literals (map (λ latch. number 0 latch.var) latches.now) state.now) }
{
    let mut literals = Items::new(alloc);
    for (i, latch) in latches.iter().enumerate() {
        literals.push(Lit {
            var: 1 + latch.var,
            positive: state[i],
        })?;
    }
    Ok(literals)
}

/// The latches of the first block have the values of the state.
pub(crate) fn state_literals(
    alloc: Global,
    c: &Circuit,
    state: &[bool],
) -> Result<Items<Lit>, AllocError>
    requires { length state.now ≡ length c.now.latches }
    ensures { IfOk result (λ literals. literals ≡ state_literals (state_place c.now 0) state.now) }
{
    let _limits = c.max();
    latch_literals(alloc, c.latches(), state)
}

/// The assumptions that the core holds, each over its place among them.
pub(crate) fn core_cube(
    alloc: Global,
    assumptions: &[Lit],
    core: &[Lit],
) -> Result<Cube, AllocError>
    ensures { IfOk result (λ cube. cube ≡ core_cube core.now 0 assumptions.now) }
{
    let mut cube = Cube::new(alloc);
    for (number, literal) in assumptions.iter().enumerate() {
        if has_literal(core, *literal) {
            cube.push(Lit {
                var: number as u64,
                positive: literal.positive,
            })?;
        }
    }
    Ok(cube)
}
