//! Whether clauses are a reach entry that excludes a goal. The main call is `separates`.
ghost use Rattle.std.specs.Prelude.{◌≡◌, ◌<◌, [], true, length, IsTrue, All, IfOk, IfErr};
ghost use Rattle.edge.specs.Ends.{CountsConflicts, IsEnd};
ghost use Rattle.cnf_unroll.specs.Laws.{AreOver};
ghost use Rattle.entry.specs.CheckedEntries.{viewed};
ghost use Rattle.entry.specs.Laws.{IsGoodList};
ghost use Rattle.entry.specs.Proved.{holds_initial};
ghost use Rattle.ic3_semantics.specs.declared.questions.Start.TheVariants.{Initial};
ghost use Rattle.ic3_semantics.specs.Searching.{IsGoal, Separates, closed_entry};

use crate::sets::ClosedSet;
use crate::standing::stands;
use circuit::Circuit;
use cnf::Clause;
use cnf_unroll::obligations_tell;
use edge::{Meter, SolveEnd};
use entry::{Checked, holds_initial};
use ic3_semantics::{Goal, Start};
use std::alloc::Global;
use std::sync::Arc;

// Whether the literals of a clause are of latches.
fn is_over(c: &Circuit, clause: &Clause) -> bool
    ensures { IsTrue result → All (λ l. l.var < length c.now.latches) clause.now }
{
    clause
        .as_slice()
        .iter()
        .all(|l| l.var < c.latches().len() as u64)
}

fn are_over(c: &Circuit, clauses: &[Clause]) -> bool
    ensures { IsTrue result → AreOver (length c.now.latches) clauses.now }
{
    clauses.iter().all(|clause| is_over(c, clause))
}

fn have_base(c: &Circuit, clauses: &[Clause]) -> bool
    ensures { IsTrue result → All (holds_initial c.now) clauses.now }
{
    clauses.iter().all(|clause| holds_initial(c, clause))
}

// Whether a set has no use, and each of its clauses has a base.
fn is_reach_set(c: &Circuit, set: &ClosedSet) -> bool
    ensures none { IsTrue result → set.now.uses ≡ [] }
    ensures over { IsTrue result → AreOver (length c.now.latches) set.now.clauses }
    ensures base { IsTrue result → All (holds_initial c.now) set.now.clauses }
{
    let clauses = set.clauses.as_slice();
    set.uses.is_empty() && are_over(c, clauses) && have_base(c, clauses)
}

/// Whether the clauses, without a use, are seen to separate the initial states from the goal. `Spent` comes only where the
/// meter's count of conflicts is at its limit; the other error is want of memory.
pub fn separates(
    alloc: Global,
    c: &Circuit,
    view: &[Arc<Checked>],
    goal: &Goal<'_>,
    set: &ClosedSet,
    meter: &mut Meter,
) -> Result<bool, SolveEnd>
    requires view { IsGoodList c.now (viewed view.now) }
    requires goal { IsGoal c.now goal.now }
    ensures separates { IfOk result (λ b. b ≡ true → Separates (record {
      circuit = c.now;
      view = viewed view.now;
      start = Initial;
    }) goal.now (closed_entry Initial set.now.clauses set.now.uses)) }
    ensures end { IfErr result (IsEnd meter.new) }
    ensures counted { CountsConflicts meter.old meter.new }
{
    obligations_tell(c);
    if !is_reach_set(c, set) {
        return Ok(false);
    }
    stands(alloc, c, view, &Start::Initial, goal, set, meter)
}
