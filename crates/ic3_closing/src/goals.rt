//! Whether clauses exclude a goal. The main call is `misses`.
ghost use Rattle.std.specs.Prelude.{◌≡◌, true, length, map, IfOk, IfErr};
ghost use Rattle.proof_semantics.specs.Clauses.{negation};
ghost use Rattle.edge.specs.Ends.{CountsConflicts, IsEnd};
ghost use Rattle.fair_semantics.specs.States.{meets_clauses};
ghost use Rattle.cnf_unroll.specs.Numbers.{literal_in_block};
ghost use Rattle.cnf_unroll.specs.Obligations.{shared_clauses};
ghost use Rattle.cnf_unroll.specs.Laws.{AreOver};
ghost use Rattle.entry.specs.CheckedEntries.{viewed};
ghost use Rattle.entry.specs.Laws.{IsGoodList};
ghost use Rattle.ic3_semantics.specs.Arenas.{restricting};
ghost use Rattle.ic3_semantics.specs.Searching.{IsGoal, Misses};
ghost use Rattle.ic3_questions.specs.SteppingClauses.{own_uses};
ghost use Rattle.ic3_closing.specs.Goals.{goal_set, MissesLiteral};

use crate::asking::is_refused;
use cdcl::Solver;
use circuit::{Circuit, one_valuation};
use cnf::{Clause, Cube, Lit, holds};
use cnf_unroll::{ClauseSet, shared};
use edge::{Meter, SolveEnd};
use entry::Checked;
use ic3_questions::{is_read, literal_in_block, own_uses, used};
use ic3_semantics::{Goal, Start};
use items::Items;
use std::alloc::{AllocError, Global};
use std::sync::Arc;

// The clause that a state meets where it is not in the cube.
fn denial(alloc: Global, cube: &[Lit]) -> Result<Clause, AllocError>
    ensures { IfOk result (λ clause. clause ≡ map negation cube.now) }
{
    let mut clause = Clause::new(alloc);
    for literal in cube {
        clause.push(literal.negation())?;
    }
    Ok(clause)
}

/// The clauses that a state meets where it meets these and is in no cube.
pub(crate) fn goal_set(
    alloc: Global,
    clauses: &[Clause],
    avoid: &[Cube],
) -> Result<ClauseSet, AllocError>
    ensures { IfOk result (λ set. set ≡ goal_set clauses.now avoid.now) }
{
    let mut set = Items::new(alloc);
    for clause in clauses {
        set.push(clause.clone()?)?;
    }
    for cube in avoid {
        set.push(denial(alloc, cube.as_slice())?)?;
    }
    Ok(set)
}

// What the steps in the arena from states that meet these clauses, and are in no avoided cube, have to meet.
fn steps_from(
    alloc: Global,
    c: &Circuit,
    view: &[Arc<Checked>],
    start: &Start,
    clauses: &[Clause],
    avoid: &[Cube],
) -> Result<Vec<Clause>, AllocError>
    ensures { IfOk result (λ steps. steps.items ≡ shared_clauses c.now (restricting start.now (viewed view.now))
        (own_uses (viewed view.now) start.now) (goal_set clauses.now avoid.now)) }
{
    let set = goal_set(alloc, clauses, avoid)?;
    let used = used(alloc, view, start)?;
    let own = own_uses(alloc, view, start)?;
    let begun = shared(alloc, c, used.as_slice(), own.as_slice(), &set)?;
    Ok(begun.clauses.into_vec())
}

// A solver of the steps in the arena from states that meet these clauses, and are in no avoided cube.
fn solver_from(
    alloc: Global,
    c: &Circuit,
    view: &[Arc<Checked>],
    start: &Start,
    clauses: &[Clause],
    avoid: &[Cube],
) -> Result<Solver, AllocError>
    ensures { IfOk result (λ solver. solver.added ≡ shared_clauses c.now (restricting start.now (viewed view.now))
        (own_uses (viewed view.now) start.now) (goal_set clauses.now avoid.now)) }
{
    let steps = steps_from(alloc, c, view, start, clauses, avoid)?;
    Solver::with_clauses(alloc, steps)
}

// Whether no state that meets the clauses is that of a position at which the literal is met as goal. Of a variable that
// is defined nowhere nothing is asked.
fn misses_literal(
    alloc: Global,
    c: &Circuit,
    view: &[Arc<Checked>],
    start: &Start,
    literal: u64,
    avoid: &[Cube],
    clauses: &[Clause],
    meter: &mut Meter,
) -> Result<bool, SolveEnd>
    requires view { IsGoodList c.now (viewed view.now) }
    requires avoid { AreOver (length c.now.latches) avoid.now }
    requires over { AreOver (length c.now.latches) clauses.now }
    ensures misses { IfOk result (λ b. b ≡ true → MissesLiteral (record {
      circuit = c.now;
      view = viewed view.now;
      start = start.now;
    }) literal avoid.now (meets_clauses clauses.now)) }
    ensures end { IfErr result (IsEnd meter.new) }
    ensures counted { CountsConflicts meter.old meter.new }
{
    if !is_read(c, literal / 2) {
        return Ok(false);
    }
    let _limits = c.max();
    one_valuation(c);
    let mut solver = solver_from(alloc, c, view, start, clauses, avoid)?;
    let refused = is_refused(alloc, &mut solver, &[literal_in_block(literal)], meter);
    drop(solver);
    refused
}

fn meets(clauses: &[Clause], state: &[bool]) -> bool
    ensures { result ≡ meets_clauses clauses.now state.now }
{
    clauses.iter().all(|clause| holds(clause, state))
}

/// Whether the clauses are seen to exclude the goal.
pub(crate) fn misses(
    alloc: Global,
    c: &Circuit,
    view: &[Arc<Checked>],
    start: &Start,
    goal: &Goal<'_>,
    clauses: &[Clause],
    meter: &mut Meter,
) -> Result<bool, SolveEnd>
    requires view { IsGoodList c.now (viewed view.now) }
    requires goal { IsGoal c.now goal.now }
    requires over { AreOver (length c.now.latches) clauses.now }
    ensures misses { IfOk result (λ b. b ≡ true → Misses (record {
      circuit = c.now;
      view = viewed view.now;
      start = start.now;
    }) goal.now (meets_clauses clauses.now)) }
    ensures end { IfErr result (IsEnd meter.new) }
    ensures counted { CountsConflicts meter.old meter.new }
{
    match goal {
        Goal::State(to) => Ok(!meets(clauses, to)),
        Goal::Literal { literal, avoid } => {
            misses_literal(alloc, c, view, start, *literal, avoid, clauses, meter)
        }
    }
}
