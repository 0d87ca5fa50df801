//! The walk back from a conflict, or from a false literal, to the assumed literals that it follows
//! from. The main calls are `trace` and `trace_literal`.
ghost use Rattle.std.specs.Prelude.{◌≡◌, ◌≤◌, ◌<◌, ◌⊎◌, ℕ, IfOk, None, true, false, length, map, slice_get, take};
ghost use Rattle.proof_semantics.specs.Clauses.{negation, has_literal};
ghost use Rattle.proof_semantics.specs.Propagation.{hints_fault};
ghost use Rattle.proof_semantics.specs.declared.literals.Lit.{Lit};
ghost use Rattle.cdcl_trail.specs.AssignmentOf.{place_in};
ghost use Rattle.cdcl_trail.specs.Places.{told};
ghost use Rattle.cdcl_trail.specs.Propagation.{is_false, is_falsified, IsConflict, IsReasonedTrail};
ghost use Rattle.cdcl_trail.specs.Trails.{once};
ghost use Rattle.std.specs.Option.{unwrap_or, option_flatten};
ghost use Rattle.cnf.specs.Clauses.{clause_numbered};
ghost use Rattle.cdcl_learn.specs.Learning.{is_assumed};
ghost use Rattle.cdcl_learn.specs.Walking.{is_at, steps_with, with_last};

use crate::learning::{Learned, in_order};
use crate::marking::Marks;
use crate::numbered::clause_at;
use cdcl_trail::{Places, Trail};
use cnf::{Clause, Db, Lit, Var};
use std::alloc::{AllocError, Global};

/// A clause of negations of assumed literals that a conflict comes from, with its hints; that it has
/// no others no clause says. The conditions: the conflict is the number of a false clause, and each
/// literal was assumed or is forced by a clause of the list. The error is want of memory. After
/// MiniSat (Eén, Sörensson, 2003).
pub fn trace(alloc: Global, db: &Db, trail: &Trail, conflict: u64) -> Result<Learned, AllocError>
    requires conflict { IsConflict db.now.clauses trail.now.steps conflict }
    requires reasons { IsReasonedTrail db.now.clauses trail.now.steps }
    ensures assumed { IfOk result (λ traced. (a : Lit) → has_literal traced.clause a ≡ true → is_assumed trail.now.steps (negation a) ≡ true) }
    ensures hints { IfOk result (λ traced. hints_fault (clause_numbered db.now.clauses) (map negation traced.clause) traced.hints ≡ None) }
{
    let table = trail.places();
    trace_back(
        alloc,
        db.as_slice(),
        &table,
        trail.literals(),
        trail.reasons(),
        None,
        conflict,
    )
}

/// The clause of the negation of a literal that is false, and of negations of assumed literals, with
/// its hints: why the literal cannot be assumed too. The conditions: its negation was not assumed,
/// and each literal was assumed or is forced by a clause of the list. The error is want of memory.
pub fn trace_literal(
    alloc: Global,
    db: &Db,
    trail: &Trail,
    literal: Lit,
) -> Result<Learned, AllocError>
    requires falsified { is_false trail.now.steps literal ≡ true }
    requires forced { is_assumed trail.now.steps (negation literal) ≡ false }
    requires reasons { IsReasonedTrail db.now.clauses trail.now.steps }
    ensures assumed { IfOk result (λ traced. (a : Lit) → has_literal traced.clause a ≡ true → (is_assumed trail.now.steps (negation a) ≡ true) ⊎ (negation a ≡ literal)) }
    ensures hints { IfOk result (λ traced. hints_fault (clause_numbered db.now.clauses) (map negation traced.clause) traced.hints ≡ None) }
{
    let table = trail.places();
    let place = place_of(&table, literal.var);
    let number = reason_at(trail.reasons(), place);
    trace_back(
        alloc,
        db.as_slice(),
        &table,
        front_literals(trail.literals(), place),
        front_reasons(trail.reasons(), place),
        Some(literal),
        number,
    )
}

// The literals before a place.
fn front_literals(literals: &[Lit], place: usize) -> &[Lit]
    requires { place ≤ length literals.now }
    ensures { result.now ≡ take place literals.now }
{
    &literals[..place]
}

// The reasons before a place.
fn front_reasons(reasons: &[Option<u64>], place: usize) -> &[Option<u64>]
    requires { place ≤ length reasons.now }
    ensures { result.now ≡ take place reasons.now }
{
    &reasons[..place]
}

// The place that is told of a variable.
fn place_of(table: &Places<'_>, var: Var) -> usize
    ensures { result ≡ unwrap_or (told table.now var) 0 }
{
    table.get(var).unwrap_or(0)
}

// The reason at a place.
fn reason_at(reasons: &[Option<u64>], place: usize) -> u64
    ensures { result ≡ unwrap_or (option_flatten (slice_get reasons.now place)) 0 }
{
    match reasons.get(place) {
        Some(Some(number)) => *number,
        _ => 0,
    }
}

// The walk over literals and their reasons: resolves the conflict with each reason, from the last
// literal back to the first. Of each literal that is false, the negation is marked. The last, if
// there is one, is assumed behind the others. The table tells where variables stand among them, and
// maybe of others, which stand further behind.
fn trace_back(
    alloc: Global,
    clauses: &[Clause],
    table: &Places<'_>,
    literals: &[Lit],
    reasons: &[Option<u64>],
    last: Option<Lit>,
    conflict: u64,
) -> Result<Learned, AllocError>
    requires beside { length reasons.now ≡ length literals.now }
    requires table { (v q : ℕ) → q < length (with_last literals.now last) → is_at (told table.now v) q ≡ is_at (place_in (with_last literals.now last) v) q }
    requires once { once (with_last literals.now last) ≡ true }
    requires conflict { IsConflict clauses.now (steps_with literals.now reasons.now last) conflict }
    requires reasons { IsReasonedTrail clauses.now (steps_with literals.now reasons.now last) }
    ensures assumed { IfOk result (λ traced. (a : Lit) → has_literal traced.clause a ≡ true → is_assumed (steps_with literals.now reasons.now last) (negation a) ≡ true) }
    ensures hints { IfOk result (λ traced. hints_fault (clause_numbered clauses.now) (map negation traced.clause) traced.hints ≡ None) }
{
    let length = count_with(literals, last);
    let mut marks = Marks::new(alloc, length, length)?;
    marks.mark_all(table, clause_at(clauses, conflict));
    let mut hints: Vec<u64> = Vec::new(alloc);
    hints.push(conflict)?;
    let mut place = literals.len();
    'places: while place > 0 {
        place -= 1;
        if !marks.has(place) {
            continue;
        }
        let Some(number) = reasons[place] else {
            continue;
        };
        marks.mark_all(table, clause_at(clauses, number));
        marks.unmark(place);
        hints.push(number)?;
    }
    let clause = marks.clause_with(alloc, literals, last)?;
    Ok(in_order(clause, hints))
}

// How many literals there are, with the last.
fn count_with(literals: &[Lit], last: Option<Lit>) -> usize
    ensures { result ≡ length (with_last literals.now last) }
{
    match last {
        None => literals.len(),
        Some(_) => literals.len() + 1,
    }
}
