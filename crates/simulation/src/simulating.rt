//! The public call: simulation chooses, and what it chose is judged. The main call is `simulate`.
ghost use Rattle.std.specs.Prelude.{◌≡◌, List, Bool, length, All, IfOk, IfSome};
ghost use Rattle.aig_semantics.specs.Stimuli.{IsFairLassoOf, StandsFor};
ghost use Rattle.lasso_join.specs.Fitting.{IsStemTo};
ghost use Rattle.lasso_join.specs.Prefixes.{stimulus_of};

use crate::choosing::{Chosen, choose};
use crate::drawn_states::DrawnStates;
use crate::judging::{judged_lasso, judged_runs};
use circuit::{Circuit, Lasso, Position, Stimulus};
use edge::Meter;
use items::Items;
use std::alloc::{AllocError, Global};

/// What simulation found: a fair lasso; or none, and initial runs. Beside it the states of all runs, of which nothing is
/// promised.
#[derive(Drop)]
pub struct Simulated {
    pub lasso: Option<Lasso>,
    pub runs: Vec<Items<Position>>,
    pub states: DrawnStates,
}

/// Runs the circuit on drawn inputs, and looks for a fair lasso of property `j`, counted from 0; of a number without a
/// property there is none. What comes depends on the circuit, `j` and `seed` alone.
///
/// There are four batches of 64 runs with 300 positions each; where the cone of the property has n latches, at most five,
/// one batch with 2^(n + 2) positions. No more than some 40 million words are evaluated for them, so there are fewer where
/// the cone is large. A lasso has no position more than its stimulus needs, and with it come no runs. Where there is none,
/// there are at most four runs: of each batch the one that came latest to a new state, up to this state, with at most some
/// 10 million values of variables in all; a run may be without positions. Clauses say that a lasso is fair and needs all its
/// positions, and that runs are initial ones; whether a lasso comes, and how many runs, no clause says.
///
/// Nothing is counted on the meter. The error is want of memory, or a bell of the meter that is rung, which is looked at
/// before each position of a batch.
pub fn simulate(
    alloc: Global,
    c: &Circuit,
    j: u32,
    seed: u32,
    meter: &Meter,
) -> Result<Simulated, AllocError>
    ensures fair { IfOk result (λ found. IfSome found.lasso (IsFairLassoOf c.now j)) }
    ensures whole { IfOk result (λ found. IfSome found.lasso
        (λ lasso. StandsFor c.now j (stimulus_of lasso) (length lasso.inputs) lasso.from)) }
    ensures runs { IfOk result (λ found. All (λ run. (t : List Bool) × IsStemTo c.now t run) found.runs.items) }
{
    let Chosen {
        lasso,
        runs,
        states,
    } = choose(alloc, c, j, seed, meter)?;
    let found = judged(alloc, c, j, lasso, &runs);
    drop(runs);
    match found {
        Ok((lasso, runs)) => Ok(Simulated {
            lasso,
            runs,
            states,
        }),
        Err(refused) => {
            drop(states);
            Err(refused)
        }
    }
}

// The lasso that a stimulus stands for, if it does, and the runs.
fn judged(
    alloc: Global,
    c: &Circuit,
    j: u32,
    lasso: Option<Stimulus>,
    runs: &[Stimulus],
) -> Result<(Option<Lasso>, Vec<Items<Position>>), AllocError>
    ensures fair { IfOk result (λ found. IfSome found.0 (IsFairLassoOf c.now j)) }
    ensures whole { IfOk result (λ found. IfSome found.0
        (λ lasso. StandsFor c.now j (stimulus_of lasso) (length lasso.inputs) lasso.from)) }
    ensures runs { IfOk result (λ found. All (λ run. (t : List Bool) × IsStemTo c.now t run) found.1.items) }
{
    let lasso = judged_lasso(alloc, c, j, lasso)?;
    match judged_runs(alloc, c, runs) {
        Ok(runs) => Ok((lasso, runs)),
        Err(refused) => {
            drop(lasso);
            Err(refused)
        }
    }
}
