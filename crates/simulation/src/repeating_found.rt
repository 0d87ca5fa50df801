//! Loops of the cone that others found, repeated and judged. The main call is `repeated_lasso`.
ghost use Rattle.std.specs.Prelude.{length, IfOk, IfSome};
ghost use Rattle.aig_semantics.specs.Stimuli.{IsFairLassoOf, StandsFor};
ghost use Rattle.lasso_join.specs.Prefixes.{stimulus_of};

use crate::judging::judged_lasso;
use crate::repeating::{Bounds, whole_stimulus};
use circuit::{Circuit, Lasso, Stimulus};
use edge::Meter;
use std::alloc::{AllocError, Global};

/// Bounds for the repetitions of a loop that a search found.
const MOST: Bounds = Bounds {
    positions: 1_000_000,
    values: 1_000_000_000,
    work: 300_000_000,
};

/// A fair lasso of property `j`, counted from 0, whose inputs are the first `from` of a stimulus, and then the others once
/// or more often, until the state of the whole circuit is back; it has no position more than its stimulus needs. None
/// where this is no fair lasso, as where a literal is at no position true or a constraint false at one; and where the state
/// is not back within the bounds: a million positions, a billion values of variables and some hundred million of inputs in
/// all of them, a loop with at most eight million values of variables, and some three hundred million values that are
/// computed to see when the state is back. That a lasso which comes is that of these inputs no clause says.
///
/// Nothing is counted on the meter. The error is want of memory, or a bell of the meter that is rung, which is looked at
/// before each repetition, and not while the lasso is judged.
pub fn repeated_lasso(
    alloc: Global,
    c: &Circuit,
    j: u32,
    stimulus: &Stimulus,
    from: usize,
    meter: &Meter,
) -> Result<Option<Lasso>, AllocError>
    ensures fair { IfOk result (λ found. IfSome found (IsFairLassoOf c.now j)) }
    ensures whole { IfOk result (λ found. IfSome found
        (λ lasso. StandsFor c.now j (stimulus_of lasso) (length lasso.inputs) lasso.from)) }
{
    let chosen = whole_stimulus(alloc, c, stimulus, from, MOST, meter)?;
    judged_lasso(alloc, c, j, chosen)
}
