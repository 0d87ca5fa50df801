//! How often a run meets the fairness of a property anew: its rounds, counted. The main call is `rounds`: each round ends
//! as early as it can, and so there are as many as there can be.

ghost use Rattle.std.specs.Prelude.{◌≡◌, ◌↔◌, ◌+◌, ◌<◌, length, All, IfOk, IsTrue};
ghost use Rattle.aig_semantics.specs.Runs.{IsPosition, valuation_at};
ghost use Rattle.circuit.specs.Rounds.{IsMostRounds};
ghost use Rattle.circuit.specs.RoundsAlong.{ends_with, seen_next, rounds_along};

use crate::circuits::Circuit;
use crate::evaluating::{clear, eval_into};
use crate::lassos::{all_true, literals_of, note_seen};
use aig_semantics::Position;
use std::alloc::{AllocError, Global};

/// How many rounds of property `j`, counted from 0, a run has: the greatest number of segments of consecutive positions,
/// none over another and none empty, in each of which each literal of the property and of fairness is true somewhere. Any
/// positions of the circuit are taken, a run or not. One pass; memory for a value a variable and a value a literal.
pub fn rounds(alloc: Global, c: &Circuit, j: u32, run: &[Position]) -> Result<u64, AllocError>
    requires property { j < length c.now.justice }
    requires positions { All (IsPosition c.now) run.now }
    ensures { IfOk result (IsMostRounds c.now j run.now) }
{
    let literals = literals_of(alloc, c, j as usize)?;
    let mut seen = vec![in alloc; false; literals.len()]?;
    let mut values = vec![in alloc; false; c.max() as usize + 1]?;
    Ok(rounds_along(c, &literals, run, &mut seen, &mut values))
}

fn is_position(c: &Circuit, position: &Position) -> bool
    ensures { IsTrue result ↔ IsPosition c.now position.now }
{
    position.latches.len() == c.latches().len() && position.inputs.len() == c.inputs().len()
}

/// Whether each of these has a value for each latch and each input of the circuit, as `rounds` asks.
pub fn are_positions(c: &Circuit, run: &[Position]) -> bool
    ensures { IsTrue result ↔ All (IsPosition c.now) run.now }
{
    for position in run {
        if !is_position(c, position) {
            return false;
        }
    }
    true
}

fn rounds_along(
    c: &Circuit,
    literals: &[u64],
    run: &[Position],
    seen: &mut [bool],
    values: &mut [bool],
) -> u64
    requires positions { All (IsPosition c.now) run.now }
    requires seen { length seen.old ≡ length literals.now }
    requires values { length values.old ≡ c.now.max + 1 }
    ensures { result ≡ rounds_along c.now literals.now seen.old run.now }
{
    let mut count: u64 = 0;
    for position in run {
        if ends_round(c, literals, position, seen, values) {
            count += 1;
        }
    }
    count
}

// Notes what is seen at the position; whether a round ends there, behind which nothing is seen yet.
fn ends_round(
    c: &Circuit,
    literals: &[u64],
    position: &Position,
    seen: &mut [bool],
    values: &mut [bool],
) -> bool
    requires position { IsPosition c.now position.now }
    requires seen { length seen.old ≡ length literals.now }
    requires values { length values.old ≡ c.now.max + 1 }
    ensures answer { result ≡ ends_with (valuation_at c.now position.now) literals.now seen.old }
    ensures seen { seen.new ≡ seen_next (valuation_at c.now position.now) literals.now seen.old }
    ensures values { length values.new ≡ c.now.max + 1 }
{
    eval_into(
        c,
        position.latches.as_slice(),
        position.inputs.as_slice(),
        values,
    );
    note_seen(values, literals, seen);
    if !all_true(seen) {
        return false;
    }
    clear(seen);
    true
}
