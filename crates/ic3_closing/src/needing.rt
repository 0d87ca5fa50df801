//! What of a closed set is needed: what excludes the goal, and what the obligations of the clauses rest on that are
//! needed, by the solver's cores. The main call is `needed`; no contract rests on what it answers.
ghost use Rattle.std.specs.Prelude.{◌<◌, length, IfErr};
ghost use Rattle.std.specs.List.{All};
ghost use Rattle.edge.specs.Ends.{CountsConflicts, IsEnd};

use crate::guarded::{Guarded, mark, mark_core, solver_behind_guards};
use crate::keeping::is_marked;
use crate::sets::{ClosedSet, Marks};
use crate::standing::is_signed;
use circuit::Circuit;
use cnf::{Clause, Cube, Lit, holds};
use cnf_unroll::broken;
use edge::{Meter, SolveEnd};
use entry::Checked;
use fair_semantics::Use;
use ic3_semantics::Goal;
use std::alloc::{AllocError, Global};
use std::sync::Arc;

fn avoided<'a>(goal: &Goal<'a>) -> &'a [Cube] {
    match goal {
        Goal::State(_) => &[],
        Goal::Literal { avoid, .. } => avoid,
    }
}

// The shortest clause that the state breaks.
fn shortest_broken(clauses: &[Clause], state: &[bool]) -> Option<usize> {
    let mut found: Option<(usize, usize)> = None;
    for (k, clause) in clauses.iter().enumerate() {
        let shorter = match found {
            Some((_, len)) => clause.len() < len,
            None => true,
        };
        if shorter && !holds(clause, state) {
            found = Some((k, clause.len()));
        }
    }
    let (k, _) = found?;
    Some(k)
}

// Marks what excludes the goal. The parts of the uses and of their sides stand before those of the clauses.
fn mark_goal(
    alloc: Global,
    g: &mut Guarded,
    goal: &Goal<'_>,
    whole: &ClosedSet,
    marks: &mut Vec<bool>,
    meter: &mut Meter,
) -> Result<(), SolveEnd>
    ensures end { IfErr result (IsEnd meter.new) }
    ensures counted { CountsConflicts meter.old meter.new }
{
    match goal {
        Goal::State(to) => {
            if let Some(k) = shortest_broken(whole.clauses.as_slice(), to) {
                let from = whole.uses.len().saturating_mul(2);
                mark(marks.as_mut_slice(), from.saturating_add(k));
            }
            Ok(())
        }
        Goal::Literal { literal, .. } => {
            let asked = Lit {
                var: 1 + *literal / 2,
                positive: *literal % 2 != 1,
            };
            mark_core(alloc, g, &[asked], true, marks, meter)
        }
    }
}

// The first clause that is marked and was not asked for.
fn open_clause(marks: &[bool], from: usize, asked: &[bool]) -> Option<usize> {
    for (k, done) in asked.iter().enumerate() {
        if !*done && is_marked(marks, from.saturating_add(k)) {
            return Some(k);
        }
    }
    None
}

// Marks what the obligation of a clause rests on.
fn mark_obligation(
    alloc: Global,
    c: &Circuit,
    g: &mut Guarded,
    clauses: &[Clause],
    k: usize,
    marks: &mut Vec<bool>,
    meter: &mut Meter,
) -> Result<(), SolveEnd>
    ensures end { IfErr result (IsEnd meter.new) }
    ensures counted { CountsConflicts meter.old meter.new }
{
    let Some(clause) = clauses.get(k) else {
        return Ok(());
    };
    let literals = broken(alloc, c, clause)?;
    mark_core(alloc, g, literals.as_slice(), false, marks, meter)
}

// Marks what the obligation of the next clause rests on that is marked and was not asked for. Says whether there was one.
fn mark_next(
    alloc: Global,
    c: &Circuit,
    g: &mut Guarded,
    whole: &ClosedSet,
    asked: &mut [bool],
    marks: &mut Vec<bool>,
    meter: &mut Meter,
) -> Result<bool, SolveEnd>
    ensures end { IfErr result (IsEnd meter.new) }
    ensures counted { CountsConflicts meter.old meter.new }
{
    let from = whole.uses.len().saturating_mul(2);
    let Some(k) = open_clause(marks.as_slice(), from, asked) else {
        return Ok(false);
    };
    mark(asked, k);
    mark_obligation(alloc, c, g, whole.clauses.as_slice(), k, marks, meter)?;
    Ok(true)
}

// Marks what the obligations of the marked clauses rest on that were not asked for, and of those that are marked by this.
fn mark_open(
    alloc: Global,
    c: &Circuit,
    g: &mut Guarded,
    whole: &ClosedSet,
    asked: &mut Vec<bool>,
    marks: &mut Vec<bool>,
    meter: &mut Meter,
) -> Result<(), SolveEnd>
    ensures end { IfErr result (IsEnd meter.new) }
    ensures counted { CountsConflicts meter.old meter.new }
{
    for _turn in 0..whole.clauses.len() {
        if !mark_next(alloc, c, g, whole, asked.as_mut_slice(), marks, meter)? {
            return Ok(());
        }
    }
    Ok(())
}

// The same of all that are marked.
fn mark_obligations(
    alloc: Global,
    c: &Circuit,
    g: &mut Guarded,
    whole: &ClosedSet,
    marks: &mut Vec<bool>,
    meter: &mut Meter,
) -> Result<(), SolveEnd>
    ensures end { IfErr result (IsEnd meter.new) }
    ensures counted { CountsConflicts meter.old meter.new }
{
    let mut asked = vec![in alloc; false; whole.clauses.len()]?;
    mark_open(alloc, c, g, whole, &mut asked, marks, meter)
}

// Marks the uses of the walls of which an entry names sides.
fn mark_named(uses: &[Use], named: &[Use], marks: &mut [bool]) {
    for wall in named {
        if is_signed(wall.side) {
            for (i, u) in uses.iter().enumerate() {
                if u.entry == wall.entry {
                    mark(marks, i);
                }
            }
        }
    }
}

// Marks the use of each marked side, and the uses of the walls of which marked uses name sides.
fn mark_uses(view: &[Arc<Checked>], uses: &[Use], marks: &mut [bool]) {
    for back in 0..uses.len() {
        let i = uses.len() - 1 - back;
        if is_marked(marks, i) || is_marked(marks, uses.len().saturating_add(i)) {
            mark(marks, i);
            if let Some(entry) = view.get(uses[i].entry as usize) {
                mark_named(uses, entry.listed().uses.as_slice(), marks);
            }
        }
    }
}

// So many marks from a place on.
fn some_marks(
    alloc: Global,
    marks: &[bool],
    from: usize,
    count: usize,
) -> Result<Vec<bool>, AllocError> {
    let mut some = Vec::new(alloc);
    for mark in marks.iter().skip(from).take(count) {
        some.push(*mark)?;
    }
    Ok(some)
}

fn split_marks(alloc: Global, whole: &ClosedSet, marks: &[bool]) -> Result<Marks, AllocError> {
    let count = whole.uses.len();
    Ok(Marks {
        uses: some_marks(alloc, marks, 0, count)?,
        sides: some_marks(alloc, marks, count, count)?,
        clauses: some_marks(alloc, marks, count.saturating_mul(2), whole.clauses.len())?,
    })
}

// Marks what is needed.
fn mark_needed(
    alloc: Global,
    c: &Circuit,
    view: &[Arc<Checked>],
    goal: &Goal<'_>,
    whole: &ClosedSet,
    g: &mut Guarded,
    marks: &mut Vec<bool>,
    meter: &mut Meter,
) -> Result<(), SolveEnd>
    ensures end { IfErr result (IsEnd meter.new) }
    ensures counted { CountsConflicts meter.old meter.new }
{
    mark_goal(alloc, g, goal, whole, marks, meter)?;
    mark_obligations(alloc, c, g, whole, marks, meter)?;
    mark_uses(view, whole.uses.as_slice(), marks.as_mut_slice());
    Ok(())
}

// The marks of all parts, by a solver of them.
fn marks_by(
    alloc: Global,
    c: &Circuit,
    view: &[Arc<Checked>],
    goal: &Goal<'_>,
    whole: &ClosedSet,
    g: &mut Guarded,
    meter: &mut Meter,
) -> Result<Vec<bool>, SolveEnd>
    ensures end { IfErr result (IsEnd meter.new) }
    ensures counted { CountsConflicts meter.old meter.new }
{
    let parts = whole.uses.len().saturating_mul(2);
    let mut marks = vec![in alloc; false; parts.saturating_add(whole.clauses.len())]?;
    mark_needed(alloc, c, view, goal, whole, g, &mut marks, meter)?;
    Ok(marks)
}

// The marks of all parts.
fn part_marks(
    alloc: Global,
    c: &Circuit,
    view: &[Arc<Checked>],
    goal: &Goal<'_>,
    whole: &ClosedSet,
    meter: &mut Meter,
) -> Result<Vec<bool>, SolveEnd>
    requires { All (λ u. u.entry < length view.now) whole.now.uses }
    ensures end { IfErr result (IsEnd meter.new) }
    ensures counted { CountsConflicts meter.old meter.new }
{
    let mut g = solver_behind_guards(alloc, c, view, whole, avoided(goal))?;
    let marks = marks_by(alloc, c, view, goal, whole, &mut g, meter);
    drop(g);
    marks
}

/// Marks what is needed of a closed set.
pub(crate) fn needed(
    alloc: Global,
    c: &Circuit,
    view: &[Arc<Checked>],
    goal: &Goal<'_>,
    whole: &ClosedSet,
    meter: &mut Meter,
) -> Result<Marks, SolveEnd>
    requires { All (λ u. u.entry < length view.now) whole.now.uses }
    ensures end { IfErr result (IsEnd meter.new) }
    ensures counted { CountsConflicts meter.old meter.new }
{
    let marks = part_marks(alloc, c, view, goal, whole, meter)?;
    Ok(split_marks(alloc, whole, marks.as_slice())?)
}
