//! Which two literals of a clause are watched at first. The main call is `latest_pair`.
ghost use Rattle.std.specs.Prelude.{◌≡◌, ◌≤◌, IfNone, IfSome, IsSome, true, false, take};
ghost use Rattle.std.specs.List.{list_all};
ghost use Rattle.proof_semantics.specs.Clauses.{lit_eq, has_literal};
ghost use Rattle.cdcl_trail.specs.Guards.{IsPairOf, IsSingle};
ghost use Rattle.cdcl_trail.specs.Propagation.{is_false};
ghost use Rattle.cdcl_trail.specs.Looking.{IsLate, IsLater, IsOpenTo};

use crate::assignment::Assignment;
use crate::looking::is_false;
use crate::pairs::Pair;
use packed_literals::Packed;

/// The two different literals of a clause that became false last, where those that are not false
/// come before all others. `None` where no two differ.
pub(crate) fn latest_pair(assignment: &Assignment, clause: &[Packed]) -> Option<Pair>
    ensures some { IfSome result (IsPairOf clause.now) }
    ensures none { IfNone result (IsSingle clause.now) }
{
    let Some(start) = clause.first() else {
        return None;
    };
    let Some(other) = latest_but(assignment, clause, *start) else {
        return None;
    };
    latest_of(assignment, clause, *start, other)
}

// The literals where the first of a clause, or a later one in its place, and another one are
// watched.
fn latest_of(
    assignment: &Assignment,
    clause: &[Packed],
    start: Packed,
    other: Packed,
) -> Option<Pair>
    requires start { has_literal clause.now start ≡ true }
    requires other { has_literal clause.now other ≡ true }
    requires apart { lit_eq start other ≡ false }
    ensures pair { IfSome result (IsPairOf clause.now) }
    ensures some { IsSome result }
{
    if false_from(assignment, start) >= false_from(assignment, other) {
        return Some(Pair {
            first: start,
            second: other,
        });
    }
    match latest_but(assignment, clause, other) {
        Some(second) => Some(Pair {
            first: other,
            second,
        }),
        None => Some(Pair {
            first: start,
            second: other,
        }),
    }
}

// The literal but `other` that became false last. `None` where every literal is that one.
fn latest_but(assignment: &Assignment, clause: &[Packed], other: Packed) -> Option<Packed>
    ensures none { IfNone result (list_all (lit_eq other) clause.now ≡ true) }
    ensures some { IfSome result (IsLate clause.now other) }
{
    let mut best: Option<Packed> = None;
    for literal in clause {
        best = later(assignment, best, *literal, other);
    }
    best
}

// The one of two literals that became false last, or is not false, where the new one is not the
// excepted one.
fn later(
    assignment: &Assignment,
    best: Option<Packed>,
    literal: Packed,
    except: Packed,
) -> Option<Packed>
    ensures { IsLater best literal except result }
{
    if except.is(literal) {
        return best;
    }
    let Some(kept) = best else {
        return Some(literal);
    };
    if false_from(assignment, kept) >= false_from(assignment, literal) {
        return best;
    }
    Some(literal)
}

/// A place such that the steps before it do not make a literal false: that of the literal where it
/// is false, and a place past the end where it is not. Takes no memory.
pub(crate) fn false_from(assignment: &Assignment, literal: Packed) -> usize
    ensures { is_false (take result assignment.now.steps) literal ≡ false }
{
    if is_false(assignment, literal) {
        return assignment.place(literal.number());
    }
    usize::MAX
}

/// A place such that the steps before it make no literal of a pair false. Takes no memory.
pub(crate) fn pair_false_from(assignment: &Assignment, pair: &Option<Pair>) -> usize
    ensures { IfSome pair.now (IsOpenTo result assignment.now.steps) }
{
    match *pair {
        None => usize::MAX,
        Some(pair) => {
            let first = false_from(assignment, pair.first);
            let second = false_from(assignment, pair.second);
            lesser(first, second)
        }
    }
}

/// The lesser of two places.
pub(crate) fn lesser(first: usize, second: usize) -> usize
    ensures first { result ≤ first }
    ensures second { result ≤ second }
{
    if first < second { first } else { second }
}
