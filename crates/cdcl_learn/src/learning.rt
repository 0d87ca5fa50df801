//! The walk back from a conflict to the first unique implication point. The main call is `learn`.
ghost use Rattle.std.specs.Prelude.{◌≡◌, ◌<◌, ℕ, IfOk, IsTrue, None, true, false, length, map, is_none, reverse};
ghost use Rattle.std.specs.List.{list_any};
ghost use Rattle.proof_semantics.specs.Clauses.{negation, is_subsumed};
ghost use Rattle.proof_semantics.specs.Propagation.{hints_fault};
ghost use Rattle.cdcl_trail.specs.AssignmentOf.{place_in};
ghost use Rattle.cdcl_trail.specs.Places.{told};
ghost use Rattle.cdcl_trail.specs.Trails.{level, literals_of, lower_steps, reasons_in};
ghost use Rattle.cdcl_trail.specs.Propagation.{is_complete, is_falsified, is_unit, IsConflict, IsReasonedTrail};
ghost use Rattle.cnf.specs.Clauses.{clause_numbered};
ghost use Rattle.cdcl_learn.specs.Walking.{IsAtPoint, IsLastAssumed, IsLearned, marked};

use crate::marking::Marks;
use crate::minimising::minimise;
use crate::numbered::clause_at;
use cdcl_trail::{Places, Trail};
use cnf::{Clause, Db};
use items::Items;
use std::alloc::{AllocError, Global};

/// A learned clause, and the numbers of the clauses that it follows from by unit propagation, in
/// the order in which propagation takes them.
#[derive(Drop)]
pub struct Learned {
    /// The clause.
    pub clause: Clause,
    /// The hints of its proof line.
    pub hints: Items<u64>,
}

/// What a conflict teaches: the clause of the first unique implication point, without those of its
/// literals that follow from the others (no clause says that it is this one). It is false under the
/// trail, and leaves one literal under the lower levels; no clause of the list is a part of it. The
/// conditions: the conflict is the number of a false clause, the level is above 0, each literal was
/// assumed or is forced by a clause of the list, and under the lower levels no clause is unit or
/// false. The error is want of memory. After GRASP (Marques-Silva, Sakallah, 1999), and Sörensson and
/// Biere (2009).
pub fn learn(alloc: Global, db: &Db, trail: &Trail, conflict: u64) -> Result<Learned, AllocError>
    requires conflict { IsConflict db.now.clauses trail.now.steps conflict }
    requires level { 0 < level trail.now.steps }
    requires reasons { IsReasonedTrail db.now.clauses trail.now.steps }
    requires complete { IsTrue (is_complete db.now.clauses (lower_steps trail.now.steps)) }
    ensures falsified { IfOk result (λ learned. IsTrue (is_falsified trail.now.steps learned.clause)) }
    ensures last_level { IfOk result (λ learned. IsTrue (is_unit (lower_steps trail.now.steps) learned.clause)) }
    ensures hints { IfOk result (λ learned. hints_fault (clause_numbered db.now.clauses) (map negation learned.clause) learned.hints ≡ None) }
    ensures new { IfOk result (λ learned. is_subsumed db.now.clauses learned.clause ≡ false) }
{
    walk(alloc, db.as_slice(), trail, conflict)
}

// A clause on the way, by the marks of its literals, and the numbers of the clauses that explain it,
// the last one first.
#[derive(Drop)]
pub(crate) struct Resolvent {
    pub(crate) marks: Marks,
    pub(crate) hints: Vec<u64>,
}

// The walk back to the first unique implication point; and then without the literals of lower levels
// that follow from others.
fn walk(
    alloc: Global,
    clauses: &[Clause],
    trail: &Trail,
    conflict: u64,
) -> Result<Learned, AllocError>
    requires conflict { IsConflict clauses.now trail.now.steps conflict }
    requires level { 0 < level trail.now.steps }
    requires reasons { IsReasonedTrail clauses.now trail.now.steps }
    requires complete { IsTrue (is_complete clauses.now (lower_steps trail.now.steps)) }
    ensures { IfOk result (λ learned. IsLearned clauses.now trail.now.steps learned.clause learned.hints) }
{
    let literals = trail.literals();
    let table = trail.places();
    let start = last_assumed(trail.reasons());
    let mut resolvent = to_point(alloc, clauses, trail, &table, start, conflict)?;
    minimise(alloc, clauses, trail, &table, start, &mut resolvent)?;
    let clause = resolvent.marks.clause_of(alloc, literals)?;
    Ok(in_order(clause, resolvent.hints))
}

// Resolves the conflict with the reasons of its literals, from the last one back, until one literal
// of the last level is left.
fn to_point(
    alloc: Global,
    clauses: &[Clause],
    trail: &Trail,
    table: &Places<'_>,
    start: usize,
    conflict: u64,
) -> Result<Resolvent, AllocError>
    requires table { (v : ℕ) → told table.now v ≡ place_in (literals_of trail.now.steps) v }
    requires last { IsLastAssumed (reasons_in trail.now.steps) start }
    requires conflict { IsConflict clauses.now trail.now.steps conflict }
    requires reasons { IsReasonedTrail clauses.now trail.now.steps }
    requires complete { IsTrue (is_complete clauses.now (lower_steps trail.now.steps)) }
    ensures point { IfOk result (λ resolvent. IsAtPoint clauses.now trail.now.steps start (marked resolvent.marks.marks (literals_of trail.now.steps)) (reverse resolvent.hints.items)) }
    ensures long { IfOk result (λ resolvent. length resolvent.marks.marks ≡ length trail.now.steps) }
{
    let literals = trail.literals();
    let reasons = trail.reasons();
    let mut marks = Marks::new(alloc, literals.len(), start)?;
    marks.mark_all(table, clause_at(clauses, conflict));
    let mut hints: Vec<u64> = Vec::new(alloc);
    hints.push(conflict)?;
    let mut place = literals.len();
    'back: while place > start {
        place -= 1;
        if !marks.has(place) {
            continue;
        }
        if marks.count() == 1 {
            return Ok(Resolvent { marks, hints });
        }
        let Some(number) = reasons[place] else {
            return Ok(Resolvent { marks, hints });
        };
        marks.mark_all(table, clause_at(clauses, number));
        marks.unmark(place);
        hints.push(number)?;
    }
    Ok(Resolvent { marks, hints })
}

// The clause, with the hints from the last to the first.
pub(crate) fn in_order(clause: Clause, hints: Vec<u64>) -> Learned
    ensures clause { result.clause ≡ clause }
    ensures hints { result.hints ≡ reverse hints.items }
{
    let mut hints = hints;
    hints.reverse();
    Learned {
        clause,
        hints: Items::from_vec(hints),
    }
}

// The place of the last literal that was assumed.
fn last_assumed(reasons: &[Option<u64>]) -> usize
    requires { list_any (λ reason. is_none reason) reasons.now ≡ true }
    ensures { IsLastAssumed reasons.now result }
{
    let mut place = reasons.len();
    'places: while place > 0 {
        place -= 1;
        if reasons[place].is_none() {
            return place;
        }
    }
    place
}
