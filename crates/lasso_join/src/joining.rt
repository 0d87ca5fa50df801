//! A stem, a skeleton and the pieces between its positions, joined into a lasso. The main call is `join`.
ghost use Rattle.std.specs.Prelude.{◌≡◌, ℕ, ◌<◌, ◌++◌, [], length, map, slice_index_or, IfOk, OnOk};
ghost use Rattle.aig_semantics.specs.Stimuli.{simulated, IsFairLassoOf};
ghost use Rattle.fair_semantics.specs.Skeletons.{IsSkeleton};
ghost use Rattle.lasso_join.specs.Fitting.{Fit, loop_of};

use circuit::{Circuit, Lasso, Position};
use fair_semantics::{Situation, Skeleton};
use items::Items;
use std::alloc::{AllocError, Global};

/// The lasso that goes along the stem, and then round: each position of the skeleton and the piece behind it. It is a
/// fair lasso of each property that the skeleton is one of. The error is want of memory.
pub fn join(
    alloc: Global,
    c: &Circuit,
    stem: &[Position],
    skeleton: &Skeleton,
    pieces: &[Items<Position>],
) -> Result<Lasso, AllocError>
    requires skeleton { (j : ℕ) × IsSkeleton c.now j skeleton.now }
    requires fit { Fit c.now stem.now skeleton.now pieces.now }
    ensures fair { IfOk result (λ lasso. (j : ℕ) → IsSkeleton c.now j skeleton.now → IsFairLassoOf c.now j lasso) }
    ensures run { IfOk result (λ lasso. simulated c.now lasso.start lasso.inputs
        ≡ stem.now ++ loop_of skeleton.now.situations pieces.now) }
    ensures from { IfOk result (λ lasso. lasso.from ≡ length stem.now) }
{
    let situations = skeleton.situations.as_slice();
    Ok(Lasso {
        start: start_of(alloc, stem, situations)?,
        inputs: inputs_of(alloc, stem, situations, pieces)?,
        from: stem.len() as u64,
    })
}

// The latches of the first position.
fn start_of(
    alloc: Global,
    stem: &[Position],
    situations: &[Situation],
) -> Result<Items<bool>, AllocError>
    requires { 0 < length situations.now }
    ensures { IfOk result (λ start. start
        ≡ slice_index_or (map (λ p. p.latches) stem.now ++ map (λ s. s.position.latches) situations.now) 0 []) }
{
    if stem.is_empty() {
        return situations[0].position.latches.try_copy(alloc);
    }
    stem[0].latches.try_copy(alloc)
}

// The inputs of the stem, and of each position with the piece behind it.
fn inputs_of(
    alloc: Global,
    stem: &[Position],
    situations: &[Situation],
    pieces: &[Items<Position>],
) -> Result<Items<Items<bool>>, AllocError>
    requires { length pieces.now ≡ length situations.now }
    ensures { IfOk result (λ inputs. inputs
        ≡ map (λ p. p.inputs) stem.now ++ map (λ p. p.inputs) (loop_of situations.now pieces.now)) }
{
    let mut inputs = Items::new(alloc);
    push_inputs(alloc, stem, &mut inputs)?;
    for (k, situation) in situations.iter().enumerate() {
        inputs.push(situation.position.inputs.try_copy(alloc)?)?;
        push_inputs(alloc, pieces[k].as_slice(), &mut inputs)?;
    }
    Ok(inputs)
}

// Puts the inputs of these positions at the end.
fn push_inputs(
    alloc: Global,
    positions: &[Position],
    inputs: &mut Items<Items<bool>>,
) -> Result<(), AllocError>
    ensures { OnOk result (inputs.new ≡ inputs.old ++ map (λ p. p.inputs) positions.now) }
{
    for position in positions {
        inputs.push(position.inputs.try_copy(alloc)?)?;
    }
    Ok(())
}
