//! Whether a part of a closed set is closed too, and misses the goal. The main call is `stands`.
ghost use Rattle.std.specs.Prelude.{◌≡◌, ◌==◌, ◌||◌, ◌<◌, ◌++◌, ◌∷◌, [], not, true, false, length, IfOk, IfErr, OnOk};
ghost use Rattle.std.specs.List.{All, list_any, list_all};
ghost use Rattle.edge.specs.Ends.{CountsConflicts, IsEnd};
ghost use Rattle.fair_semantics.specs.Entries.{entry_at, used_entries};
ghost use Rattle.cdcl.specs.Solving.{HasNoModel};
ghost use Rattle.cnf_unroll.specs.Lending.{lent, lent_all};
ghost use Rattle.cnf_unroll.specs.Obligations.{broken_literals};
ghost use Rattle.cnf_unroll.specs.Laws.{AreOver};
ghost use Rattle.entry.specs.CheckedEntries.{viewed};
ghost use Rattle.entry.specs.Faults.{is_signed, are_known};
ghost use Rattle.entry.specs.Laws.{IsGoodList};
ghost use Rattle.ic3_semantics.specs.Searching.{IsGoal};
ghost use Rattle.ic3_closing.specs.Standing.{shared_by, NoneBreaks, Stands};

use crate::asking::is_refused;
use crate::goals::misses;
use crate::sets::ClosedSet;
use cdcl::Solver;
use circuit::Circuit;
use cnf::Clause;
use cnf_unroll::{Used, broken, shared};
use edge::{Meter, SolveEnd};
use entry::Checked;
use fair_semantics::{Side, Use};
use ic3_semantics::{Goal, Start};
use items::Items;
use std::alloc::{AllocError, Global};
use std::sync::Arc;

// ---- the uses

/// Whether a side is named.
pub(crate) fn is_signed(side: Side) -> bool
    ensures { result ≡ is_signed side }
{
    match side {
        Side::Any => false,
        Side::In => true,
        Side::Out => true,
    }
}

fn has_use(uses: &[Use], n: u32) -> bool
    ensures { result ≡ list_any (λ v. v.entry == n) uses.now }
{
    uses.iter().any(|v| v.entry == n)
}

fn is_known(uses: &[Use], named: Use) -> bool
    ensures { result ≡ (not (is_signed named.side) || list_any (λ v. v.entry == named.entry) uses.now) }
{
    !is_signed(named.side) || has_use(uses, named.entry)
}

fn are_known(uses: &[Use], named: &[Use]) -> bool
    ensures { result ≡ are_known uses.now named.now }
{
    for u in named {
        if !is_known(uses, *u) {
            return false;
        }
    }
    true
}

// Whether the walls of which the entry names sides are used.
fn names_known(view: &[Arc<Checked>], uses: &[Use], number: u32) -> bool
    requires { number < length view.now }
    ensures { result ≡ are_known uses.now (entry_at (viewed view.now) number).uses }
{
    are_known(uses, view[number as usize].listed().uses.as_slice())
}

// Whether the walls of which used entries name sides are used.
fn are_named(view: &[Arc<Checked>], uses: &[Use]) -> bool
    requires { All (λ u. u.entry < length view.now) uses.now }
    ensures { result ≡ list_all (λ u. are_known uses.now (entry_at (viewed view.now) u.entry).uses) uses.now }
{
    for u in uses {
        if !names_known(view, uses, u.entry) {
            return false;
        }
    }
    true
}

// ---- the obligations

// The entry that a use names, as clauses take it.
fn lend_one(view: &[Arc<Checked>], number: u32) -> Used<'_>
    requires { number < length view.now }
    ensures { lent result ≡ record { number = number; entry = entry_at (viewed view.now) number } }
{
    let listed = view[number as usize].listed();
    Used {
        number,
        kind: listed.kind,
        set: &listed.set,
        uses: listed.uses.as_slice(),
    }
}

/// The entries that these uses name, as clauses take them.
pub(crate) fn lend<'a>(
    alloc: Global,
    view: &'a [Arc<Checked>],
    uses: &[Use],
) -> Result<Items<Used<'a>>, AllocError>
    requires { All (λ u. u.entry < length view.now) uses.now }
    ensures { IfOk result (λ us. lent_all us ≡ used_entries (viewed view.now) uses.now) }
{
    let mut found = Items::new(alloc);
    for u in uses {
        found.push(lend_one(view, u.entry))?;
    }
    Ok(found)
}

// A solver of what the obligations of an entry with these clauses and uses share.
fn solver_of(
    alloc: Global,
    c: &Circuit,
    view: &[Arc<Checked>],
    part: &ClosedSet,
) -> Result<Solver, AllocError>
    requires { All (λ u. u.entry < length view.now) part.now.uses }
    ensures { IfOk result (λ solver.
        solver.added ≡ shared_by c.now (viewed view.now) part.now.clauses part.now.uses) }
{
    let uses = part.uses.as_slice();
    let used = lend(alloc, view, uses)?;
    let begun = shared(alloc, c, used.as_slice(), uses, &part.clauses)?;
    Solver::with_clauses(alloc, begun.clauses.into_vec())
}

// Whether no step breaks the clause.
fn is_unbroken(
    alloc: Global,
    c: &Circuit,
    solver: &mut Solver,
    clause: &Clause,
    meter: &mut Meter,
) -> Result<bool, SolveEnd>
    ensures unbroken { IfOk result (λ b.
        b ≡ true → HasNoModel solver.old.added (broken_literals c.now clause.now)) }
    ensures added { solver.new.added ≡ solver.old.added }
    ensures end { IfErr result (IsEnd meter.new) }
    ensures counted { CountsConflicts meter.old meter.new }
{
    let literals = broken(alloc, c, clause)?;
    is_refused(alloc, solver, literals.as_slice(), meter)
}

// Whether the solver, of what the obligations of an entry with these clauses and uses share, shows each clause unbroken.
fn are_unbroken(
    alloc: Global,
    c: &Circuit,
    _view: &[Arc<Checked>],
    part: &ClosedSet,
    solver: &mut Solver,
    meter: &mut Meter,
) -> Result<bool, SolveEnd>
    requires { solver.old.added ≡ shared_by c.now (viewed _view.now) part.now.clauses part.now.uses }
    ensures unbroken { IfOk result (λ b. b ≡ true
        → NoneBreaks c.now (viewed _view.now) part.now.clauses part.now.uses (length part.now.clauses)) }
    ensures end { IfErr result (IsEnd meter.new) }
    ensures counted { CountsConflicts meter.old meter.new }
{
    for clause in part.clauses.as_slice() {
        if !is_unbroken(alloc, c, solver, clause, meter)? {
            return Ok(false);
        }
    }
    Ok(true)
}

// Whether no step that the uses allow leads from the set to a state that breaks one of its clauses.
fn stays(
    alloc: Global,
    c: &Circuit,
    view: &[Arc<Checked>],
    part: &ClosedSet,
    meter: &mut Meter,
) -> Result<bool, SolveEnd>
    requires { All (λ u. u.entry < length view.now) part.now.uses }
    ensures unbroken { IfOk result (λ b. b ≡ true
        → NoneBreaks c.now (viewed view.now) part.now.clauses part.now.uses (length part.now.clauses)) }
    ensures end { IfErr result (IsEnd meter.new) }
    ensures counted { CountsConflicts meter.old meter.new }
{
    let mut solver = solver_of(alloc, c, view, part)?;
    let unbroken = are_unbroken(alloc, c, view, part, &mut solver, meter);
    drop(solver);
    unbroken
}

/// Whether the part stands by itself: the walls of which used entries name sides are used, no allowed step leaves its
/// set, and no state of the goal meets its clauses.
pub(crate) fn stands(
    alloc: Global,
    c: &Circuit,
    view: &[Arc<Checked>],
    start: &Start,
    goal: &Goal<'_>,
    part: &ClosedSet,
    meter: &mut Meter,
) -> Result<bool, SolveEnd>
    requires view { IsGoodList c.now (viewed view.now) }
    requires goal { IsGoal c.now goal.now }
    requires over { AreOver (length c.now.latches) part.now.clauses }
    requires present { All (λ u. u.entry < length view.now) part.now.uses }
    ensures stands { IfOk result (λ b. b ≡ true → Stands (record {
      circuit = c.now;
      view = viewed view.now;
      start = start.now;
    }) goal.now part.now.clauses part.now.uses) }
    ensures end { IfErr result (IsEnd meter.new) }
    ensures counted { CountsConflicts meter.old meter.new }
{
    if !are_named(view, part.uses.as_slice()) {
        return Ok(false);
    }
    if !misses(alloc, c, view, start, goal, part.clauses.as_slice(), meter)? {
        return Ok(false);
    }
    stays(alloc, c, view, part, meter)
}
