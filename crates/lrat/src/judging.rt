//! What a line of numbers does to the store. The main calls are `add_judged` and `delete_judged`;
//! a line that is refused leaves the store and the marks as they were.
ghost use Rattle.std.specs.Prelude.{◌≡◌, [], ◌++◌, map, not, OnErr, OnOk, IfOk};
ghost use Rattle.std.specs.List.{list_any};
ghost use Rattle.proof_semantics.specs.Clauses.{negation};
ghost use Rattle.proof_semantics.specs.Propagation.{hints_fault};
ghost use Rattle.proof_semantics.specs.Proofs.{judge_addition, judge_deletion, ids_of, clause_at};
ghost use Rattle.lrat.specs.Judging.{Judges};

use crate::faults::LratEnd;
use crate::marks::Marks;
use crate::propagation::hints_fault;
use crate::store::Store;
use proof_semantics::{Lit, LratFault};
use std::alloc::AllocError;

/// Adds the clause of these literals under this id, if the hints show that it is implied.
pub(crate) fn add_judged(
    store: &mut Store,
    marks: &mut Marks,
    id: u64,
    literals: &[Lit],
    hints: &[Lit],
) -> Result<(), LratEnd>
    requires { marks.old ≡ [] }
    ensures judged { Judges result (judge_addition store.old id literals.now hints.now) store.new }
    ensures err { OnErr result (store.new ≡ store.old) }
    ensures marks { marks.new ≡ [] }
{
    if id <= store.last() {
        return Err(LratEnd::Fault(LratFault::IdOrder));
    }
    if has_negative(hints) {
        return Err(LratEnd::Fault(LratFault::RatRefused));
    }
    let found = refutation_fault(store, marks, literals, hints);
    marks.clear();
    if let Some(fault) = found? {
        return Err(LratEnd::Fault(fault));
    }
    store.add(id, literals)?;
    Ok(())
}

/// Deletes the clauses of these ids, if each is held.
pub(crate) fn delete_judged(store: &mut Store, ids: &[Lit]) -> Result<(), LratEnd>
    ensures judged { Judges result (judge_deletion store.old (ids_of ids.now)) store.new }
    ensures err { OnErr result (store.new ≡ store.old) }
{
    if let Some(id) = store.first_missing(ids) {
        return Err(LratEnd::Fault(LratFault::NoClause(id)));
    }
    store.delete(ids);
    Ok(())
}

// The first fault of the hints, where the negations of the literals are assumed. What is assumed
// stays in the marks.
fn refutation_fault(
    store: &Store,
    marks: &mut Marks,
    literals: &[Lit],
    hints: &[Lit],
) -> Result<Option<LratFault>, AllocError>
    requires { marks.old ≡ [] }
    ensures { IfOk result (λ fault. fault ≡ hints_fault (clause_at store.now.held) (map negation literals.now) (ids_of hints.now)) }
{
    assume_negations(marks, literals)?;
    hints_fault(store, marks, hints)
}

// Assumes the negation of each literal, behind what is assumed.
fn assume_negations(marks: &mut Marks, literals: &[Lit]) -> Result<(), AllocError>
    ensures { OnOk result (marks.new ≡ marks.old ++ map negation literals.now) }
{
    for literal in literals {
        marks.assume(literal.negation())?;
    }
    Ok(())
}

// Whether one of the numbers is negative.
fn has_negative(numbers: &[Lit]) -> bool
    ensures { result ≡ list_any (λ a. not a.positive) numbers.now }
{
    numbers.iter().any(|number| !number.positive)
}
