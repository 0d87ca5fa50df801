//! Unit propagation by watched literals. The main calls are `settle_singles` and `settle_steps`,
//! which leave the forced literals in the assignment. A clause that is true on level 0 leaves the
//! list in which it is met.
ghost use Rattle.std.specs.Prelude.{◌≡◌, ◌≤◌, ◌<◌, ◌+◌, IfOk, IfSome, None, Some, IsTrue, true, length, slice_get};
ghost use Rattle.packed_literals.specs.Lists.{list_for};
ghost use Rattle.cdcl_trail.specs.Guards.{IsSingle, AreGuarded, AreSure, AreDone, KeepsGuards};
ghost use Rattle.cdcl_trail.specs.Propagation.{is_false, is_true, is_fixed, IsConflict, Propagates};
ghost use Rattle.cdcl_trail.specs.Storing.{held, IsStored, IsRewatched, Covers};
ghost use Rattle.cdcl_trail.specs.Trails.{literals_of, once};
ghost use Rattle.cdcl_trail.specs.Visiting.{IsVisited, VisitSays, IsWatchedBeside, SkipSays, IsSettled, SingleSays};

use crate::assignment::Assignment;
use crate::looking::{Finding, is_false, is_fixed, is_true, look};
use crate::pairs::{Pair, beside};
use crate::watching::Watching;
use packed_literals::Packed;
use std::alloc::AllocError;

/// What a look at a clause came to: it stands in the list as before, it was taken from the list, or
/// it is false.
#[derive(Clone, Copy)]
pub(crate) enum Visited {
    Stands,
    Left,
    Conflict(u64),
}

/// Puts the literals of clauses without two different literals on the trail, from the count on,
/// until the number of a false one is found. The error is want of memory.
pub(crate) fn settle_singles(
    assignment: &mut Assignment,
    watching: &Watching,
    count: &mut usize,
) -> Result<Option<u64>, AllocError>
    requires { IsStored watching.now }
    ensures steps { Propagates (held watching.now) assignment.old.steps assignment.new.steps }
    ensures sure { AreSure count.old assignment.old.steps watching.now.singles.items (held watching.now) → AreSure count.new assignment.new.steps watching.now.singles.items (held watching.now) }
    ensures counted { count.old ≤ length watching.now.singles.items → count.new ≤ length watching.now.singles.items }
    ensures none { IfOk result (λ found. found ≡ None → length watching.now.singles.items ≤ count.new) }
    ensures conflict { IfOk result (λ found. IfSome found (IsConflict (held watching.now) assignment.new.steps)) }
{
    'singles: loop {
        let Some(number) = single_at(watching, *count) else {
            return Ok(None);
        };
        let Some(clause) = watching.clause(number) else {
            *count += 1;
            continue;
        };
        if !settle_single(assignment, clause, number as u64 + 1)? {
            return Ok(Some(number as u64 + 1));
        }
        *count += 1;
    }
}

/// Looks at the clauses that watch a literal which the steps from the count on made false, and puts
/// the literals that they force on the trail, until the number of a false one is found. The error
/// is want of memory.
pub(crate) fn settle_steps(
    assignment: &mut Assignment,
    watching: &mut Watching,
    count: &mut usize,
) -> Result<Option<u64>, AllocError>
    requires stored { IsStored watching.old }
    requires covers { Covers (is_fixed assignment.old.steps) watching.old }
    requires within { count.old ≤ length assignment.old.steps }
    requires guarded { AreGuarded count.old assignment.old.steps watching.old.pairs.items }
    ensures rewatched { IsRewatched watching.old watching.new }
    ensures covers { Covers (is_fixed assignment.new.steps) watching.new }
    ensures steps { Propagates (held watching.old) assignment.old.steps assignment.new.steps }
    ensures keeps { KeepsGuards assignment.old.steps watching.old.pairs.items watching.new.pairs.items }
    ensures within { count.new ≤ length assignment.new.steps }
    ensures guarded { AreGuarded count.new assignment.new.steps watching.new.pairs.items }
    ensures none { IfOk result (λ found. found ≡ None → count.new ≡ length assignment.new.steps) }
    ensures conflict { IfOk result (λ found. IfSome found (IsConflict (held watching.old) assignment.new.steps)) }
{
    'steps: loop {
        let Some(literal) = literal_at(assignment, *count) else {
            return Ok(None);
        };
        let falsified = literal.negation();
        if let Some(conflict) = visit_all(assignment, watching, falsified)? {
            return Ok(Some(conflict));
        }
        *count += 1;
    }
}

// Looks at each clause that watches a literal that is false.
fn visit_all(
    assignment: &mut Assignment,
    watching: &mut Watching,
    falsified: Packed,
) -> Result<Option<u64>, AllocError>
    requires stored { IsStored watching.old }
    requires covers { Covers (is_fixed assignment.old.steps) watching.old }
    requires falsified { is_false assignment.old.steps falsified ≡ true }
    ensures rewatched { IsRewatched watching.old watching.new }
    ensures covers { Covers (is_fixed assignment.new.steps) watching.new }
    ensures steps { Propagates (held watching.old) assignment.old.steps assignment.new.steps }
    ensures keeps { KeepsGuards assignment.old.steps watching.old.pairs.items watching.new.pairs.items }
    ensures none { IfOk result (λ found. found ≡ None → AreDone assignment.new.steps falsified watching.new.pairs.items) }
    ensures conflict { IfOk result (λ found. IfSome found (IsConflict (held watching.old) assignment.new.steps)) }
{
    let mut place: usize = 0;
    'entries: loop {
        let Some(number) = watching.lists.get(falsified, place) else {
            return Ok(None);
        };
        match visit(assignment, watching, falsified, place, number)? {
            Visited::Stands => place += 1,
            Visited::Left => {}
            Visited::Conflict(conflict) => return Ok(Some(conflict)),
        }
    }
}

// Looks at the clause at a place of the list of a literal that is false.
fn visit(
    assignment: &mut Assignment,
    watching: &mut Watching,
    falsified: Packed,
    place: usize,
    number: usize,
) -> Result<Visited, AllocError>
    requires stored { IsStored watching.old }
    requires covers { Covers (is_fixed assignment.old.steps) watching.old }
    requires falsified { is_false assignment.old.steps falsified ≡ true }
    requires entry { slice_get (list_for watching.old.lists falsified) place ≡ Some number }
    ensures visited { IsVisited watching.old assignment.old.steps watching.new assignment.new.steps falsified place }
    ensures says { IfOk result (VisitSays watching.old watching.new assignment.new.steps falsified number) }
{
    let Some(other) = watched_beside(watching, number, falsified) else {
        return Ok(Visited::Stands);
    };
    if is_true(assignment, other) {
        return Ok(skip(assignment, watching, falsified, other, place));
    }
    let Some(clause) = watching.clause(number) else {
        return Ok(Visited::Stands);
    };
    match look(assignment, clause, falsified, other) {
        Finding::Conflict => Ok(Visited::Conflict(number as u64 + 1)),
        Finding::Forces => {
            assignment.put(other, Some(number as u64 + 1))?;
            Ok(Visited::Stands)
        }
        Finding::Moves(first) => {
            let pair = Pair {
                first,
                second: other,
            };
            watching.rewatch(number, pair, falsified, place)?;
            Ok(Visited::Left)
        }
    }
}

// The literal beside the given one at which a clause is watched. `None` where the given one is not.
fn watched_beside(watching: &Watching, number: usize, literal: Packed) -> Option<Packed>
    ensures { IsWatchedBeside watching.now number literal result }
{
    match watching.pair(number) {
        None => None,
        Some(pair) => beside(pair, literal),
    }
}

// Skips a clause of whose watched literals the other one is true. Where that one is fixed, the clause
// leaves the list.
fn skip(
    assignment: &Assignment,
    watching: &mut Watching,
    falsified: Packed,
    other: Packed,
    place: usize,
) -> Visited
    requires holds { is_true assignment.now.steps other ≡ true }
    requires entry { place < length (list_for watching.old.lists falsified) }
    ensures { SkipSays watching.old watching.new assignment.now.steps falsified other place result }
{
    if is_fixed(assignment, other) {
        watching.lists.remove(falsified, place);
        return Visited::Left;
    }
    Visited::Stands
}

// Puts the literal of a clause without two different literals on the trail, and tells whether it is
// true. The error is want of memory, and changes nothing.
fn settle_single(
    assignment: &mut Assignment,
    clause: &[Packed],
    number: u64,
) -> Result<bool, AllocError>
    requires single { IsSingle clause.now }
    ensures steps { IsSettled clause.now number assignment.old.steps assignment.new.steps }
    ensures settled { IfOk result (SingleSays clause.now assignment.new.steps) }
{
    let Some(literal) = clause.first() else {
        return Ok(false);
    };
    if is_false(assignment, *literal) {
        return Ok(false);
    }
    if assignment.value(literal.number()).is_some() {
        return Ok(true);
    }
    assignment.put(*literal, Some(number))?;
    Ok(true)
}

// The clause at a place of the list of those without two different literals.
fn single_at(watching: &Watching, place: usize) -> Option<usize>
    ensures { result ≡ slice_get watching.now.singles.items place }
{
    watching.singles.as_slice().get(place).copied()
}

// The literal of the step at a place.
fn literal_at(assignment: &Assignment, place: usize) -> Option<Packed>
    ensures value { result ≡ slice_get (literals_of assignment.now.steps) place }
    ensures once { IsTrue (once (literals_of assignment.now.steps)) }
    ensures small { IfSome result (λ _. place < usize.MAX) }
{
    assignment.literals().get(place).copied()
}
