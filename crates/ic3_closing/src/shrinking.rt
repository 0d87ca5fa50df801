//! Closed sets of some of the clauses and uses of another. The main call is `shrink`.
ghost use Rattle.std.specs.Prelude.{◌≡◌, length, IfOk, IfErr};
ghost use Rattle.edge.specs.Ends.{CountsConflicts, IsEnd};
ghost use Rattle.entry.specs.CheckedEntries.{viewed};
ghost use Rattle.entry.specs.Laws.{IsGoodList};
ghost use Rattle.ic3_semantics.specs.Searching.{IsGoal, Separates, closed_entry};
ghost use Rattle.ic3_closing.specs.Keeping.{IsPartOf};

use crate::keeping::kept;
use crate::needing::needed;
use crate::sets::ClosedSet;
use crate::standing::stands;
use circuit::Circuit;
use cnf_unroll::obligations_tell;
use edge::{Meter, SolveEnd};
use entry::Checked;
use ic3_semantics::{Goal, Start};
use std::alloc::Global;
use std::sync::Arc;

/// An entry that separates the start from the goal, with some of the clauses and uses of one that does, in their order, a
/// use possibly without its side. `Spent` comes only where the meter's count of conflicts is at its limit; the other error
/// is want of memory.
pub fn shrink(
    alloc: Global,
    c: &Circuit,
    view: &[Arc<Checked>],
    start: &Start,
    goal: &Goal<'_>,
    whole: ClosedSet,
    meter: &mut Meter,
) -> Result<ClosedSet, SolveEnd>
    requires view { IsGoodList c.now (viewed view.now) }
    requires goal { IsGoal c.now goal.now }
    requires separates { Separates (record {
      circuit = c.now;
      view = viewed view.now;
      start = start.now;
    }) goal.now (closed_entry start.now whole.clauses whole.uses) }
    ensures separates { IfOk result (λ part. Separates (record {
      circuit = c.now;
      view = viewed view.now;
      start = start.now;
    }) goal.now (closed_entry start.now part.clauses part.uses)) }
    ensures part { IfOk result (IsPartOf whole.clauses whole.uses) }
    ensures end { IfErr result (IsEnd meter.new) }
    ensures counted { CountsConflicts meter.old meter.new }
{
    obligations_tell(c);
    let marks = needed(alloc, c, view, goal, &whole, meter)?;
    let part = kept(alloc, &whole, &marks)?;
    if stands(alloc, c, view, start, goal, &part, meter)? {
        Ok(part)
    } else {
        Ok(whole)
    }
}
