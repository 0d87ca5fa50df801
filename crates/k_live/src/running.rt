//! The run of a circuit that positions of its monitor are. The main call is `own_run`.

ghost use Rattle.std.specs.Prelude.{◌≡◌, ◌≤◌, length, map, take, All, IfOk};
ghost use Rattle.aig_semantics.specs.Runs.{position_of};
ghost use Rattle.round_monitor.specs.Counting.{own_position};

use circuit::{Circuit, Position};
use items::Items;
use std::alloc::{AllocError, Global};

fn own_position(alloc: Global, count: usize, p: &Position) -> Result<Position, AllocError>
    requires { count ≤ length p.now.latches }
    ensures { IfOk result (λ own. own ≡ position_of (take count p.now.latches) p.now.inputs) }
{
    Ok(Position {
        latches: Items::from_slice(alloc, &p.latches.as_slice()[..count])?,
        inputs: Items::from_slice(alloc, p.inputs.as_slice())?,
    })
}

/// The positions without the latches that watch.
pub(crate) fn own_run(
    alloc: Global,
    c: &Circuit,
    positions: &[Position],
) -> Result<Items<Position>, AllocError>
    requires { All (λ p. length c.now.latches ≤ length p.latches) positions.now }
    ensures { IfOk result (λ run. run ≡ map (own_position c.now) positions.now) }
{
    let count = c.latches().len();
    let mut run = Items::new(alloc);
    for p in positions {
        run.push(own_position(alloc, count, p)?)?;
    }
    Ok(run)
}
