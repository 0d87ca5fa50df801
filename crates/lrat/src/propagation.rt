//! Unit propagation along the hints of a line. The main call is `hints_fault`, which leaves what
//! it assumed in the marks.
ghost use Rattle.std.specs.Prelude.{◌≡◌, List, [], ◌∷◌, ◌++◌, Option, IfOk};
ghost use Rattle.proof_semantics.specs.Proofs.{clause_at, ids_of};
ghost use Rattle.proof_semantics.specs.Propagation.{hints_fault, with_clause, with_unit, conflict_fault, open_literals, only_literal};
ghost use Rattle.proof_semantics.specs.declared.literals.Lit.{Lit};
ghost use Rattle.proof_semantics.specs.declared.faults.LratFault.{LratFault};
ghost use Rattle.lrat.specs.Propagating.{left_of, fault_or};

use crate::marks::Marks;
use crate::store::Store;
use proof_semantics::{Lit, LratFault};
use std::alloc::AllocError;

/// The literals of a clause that are not false, several times the same one counted once.
#[derive(Clone, Copy)]
pub(crate) enum Left {
    Nothing,
    One(Lit),
    Several,
}

/// The first fault of the hints, where the literals of the marks are assumed.
pub(crate) fn hints_fault(
    store: &Store,
    marks: &mut Marks,
    hints: &[Lit],
) -> Result<Option<LratFault>, AllocError>
    ensures { IfOk result (λ fault. fault ≡ hints_fault (clause_at store.now.held) marks.old (ids_of hints.now)) }
{
    let Some((last, firsts)) = hints.split_last() else {
        return Ok(Some(LratFault::NoConflict));
    };
    for hint in firsts {
        let fault = follow(store, marks, hint.var)?;
        if fault.is_some() {
            return Ok(fault);
        }
    }
    Ok(conflict_fault(store, marks, last.var))
}

// Follows a hint that is not the last: assumes the one literal that its clause leaves.
fn follow(store: &Store, marks: &mut Marks, id: u64) -> Result<Option<LratFault>, AllocError>
    ensures { IfOk result (λ fault. (rest : List Lit → Option LratFault) → with_clause (clause_at store.now.held id) id (λ clause. with_unit (only_literal (open_literals marks.old clause)) id (λ a. rest (marks.old ++ a ∷ []))) ≡ fault_or fault (rest marks.new)) }
{
    let Some(clause) = store.find(id) else {
        return Ok(Some(LratFault::NoClause(id)));
    };
    match count_open(marks, clause) {
        Left::One(literal) => {
            marks.assume(literal)?;
            Ok(None)
        }
        _ => Ok(Some(LratFault::NotUnit(id))),
    }
}

// The fault of the last hint, whose clause must be false.
fn conflict_fault(store: &Store, marks: &Marks, id: u64) -> Option<LratFault>
    ensures { result ≡ with_clause (clause_at store.now.held id) id (λ clause. conflict_fault (open_literals marks.now clause)) }
{
    let Some(clause) = store.find(id) else {
        return Some(LratFault::NoClause(id));
    };
    match count_open(marks, clause) {
        Left::Nothing => None,
        _ => Some(LratFault::NoConflict),
    }
}

// The literals of a clause that are not false.
fn count_open(marks: &Marks, clause: &[Lit]) -> Left
    ensures { result ≡ left_of None (open_literals marks.now clause.now) }
{
    let mut only: Option<Lit> = None;
    for literal in clause {
        if marks.is_false(*literal) {
            continue;
        }
        match only {
            None => only = Some(*literal),
            Some(first) => {
                if !first.is(*literal) {
                    return Left::Several;
                }
            }
        }
    }
    match only {
        None => Left::Nothing,
        Some(literal) => Left::One(literal),
    }
}
