//! A learned clause without the literals that follow from its others. The main call is `minimise`.
ghost use Rattle.std.specs.Prelude.{◌≡◌, ◌<◌, ◌≤◌, ℕ, OnOk, true, length, reverse};
ghost use Rattle.cdcl_trail.specs.Propagation.{IsReasonedTrail};
ghost use Rattle.cdcl_trail.specs.AssignmentOf.{place_in};
ghost use Rattle.cdcl_trail.specs.Places.{told};
ghost use Rattle.cdcl_trail.specs.Trails.{literals_of, once};
ghost use Rattle.cdcl_learn.specs.Walking.{IsAtPoint, marked};

use crate::implied::Implied;
use crate::learning::Resolvent;
use crate::numbered::clause_at;
use cdcl_trail::{Places, Trail};
use cnf::Clause;
use std::alloc::{AllocError, Global};

/// Resolves the clause with the reasons of those literals of lower levels that are implied, from the
/// last one back. So what comes of a reason is implied too, and is resolved in its turn.
pub(crate) fn minimise(
    alloc: Global,
    clauses: &[Clause],
    trail: &Trail,
    table: &Places<'_>,
    start: usize,
    resolvent: &mut Resolvent,
) -> Result<(), AllocError>
    requires table { (v : ℕ) → told table.now v ≡ place_in (literals_of trail.now.steps) v }
    requires start { start ≤ length trail.now.steps }
    requires reasons { IsReasonedTrail clauses.now trail.now.steps }
    requires once { once (literals_of trail.now.steps) ≡ true }
    requires long { length resolvent.old.marks.marks ≡ length trail.now.steps }
    requires point { IsAtPoint clauses.now trail.now.steps start (marked resolvent.old.marks.marks (literals_of trail.now.steps)) (reverse resolvent.old.hints.items) }
    ensures long { length resolvent.new.marks.marks ≡ length trail.now.steps }
    ensures point { OnOk result (IsAtPoint clauses.now trail.now.steps start (marked resolvent.new.marks.marks (literals_of trail.now.steps)) (reverse resolvent.new.hints.items)) }
{
    let mut implied = Implied::new(alloc, clauses, trail, table, start, resolvent)?;
    let mut bound = start;
    'back: loop {
        let Some(place) = implied.next(bound) else {
            return Ok(());
        };
        bound = place;
        minimise_at(clauses, trail, table, place, &mut implied, resolvent)?;
    }
}

// Resolves the clause with the reason of the literal at a place, where that one is implied.
fn minimise_at(
    clauses: &[Clause],
    trail: &Trail,
    table: &Places<'_>,
    place: usize,
    implied: &mut Implied,
    resolvent: &mut Resolvent,
) -> Result<(), AllocError>
    requires table { (v : ℕ) → told table.now v ≡ place_in (literals_of trail.now.steps) v }
    requires place { place < length trail.now.steps }
    requires reasons { IsReasonedTrail clauses.now trail.now.steps }
    requires once { once (literals_of trail.now.steps) ≡ true }
    requires long { length resolvent.old.marks.marks ≡ length trail.now.steps }
    ensures long { length resolvent.new.marks.marks ≡ length trail.now.steps }
    ensures point { OnOk result ((start : ℕ) → place < start
        → IsAtPoint clauses.now trail.now.steps start (marked resolvent.old.marks.marks (literals_of trail.now.steps)) (reverse resolvent.old.hints.items)
        → IsAtPoint clauses.now trail.now.steps start (marked resolvent.new.marks.marks (literals_of trail.now.steps)) (reverse resolvent.new.hints.items)) }
{
    let reasons = trail.reasons();
    if !resolvent.marks.has(place) {
        return Ok(());
    }
    let Some(number) = reasons[place] else {
        return Ok(());
    };
    if !implied.has(clauses, trail, table, &resolvent.marks, place)? {
        return Ok(());
    }
    let reason = clause_at(clauses, number);
    resolvent.marks.mark_all(table, reason);
    resolvent.marks.unmark(place);
    resolvent.hints.push(number)?;
    implied.ask(trail, table, &resolvent.marks, reason)?;
    Ok(())
}
