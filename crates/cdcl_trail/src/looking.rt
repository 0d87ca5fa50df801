//! What has to be done with a clause of which a watched literal became false. The main call is
//! `look`.
ghost use Rattle.std.specs.Prelude.{◌≡◌, true, false, ◌||◌};
ghost use Rattle.proof_semantics.specs.Clauses.{lit_eq};
ghost use Rattle.cdcl_trail.specs.Guards.{IsPairOf};
ghost use Rattle.cdcl_trail.specs.Propagation.{is_false, is_true, is_fixed};
ghost use Rattle.cdcl_trail.specs.Looking.{LookSays, ReplacementSays};

use crate::assignment::Assignment;
use packed_literals::Packed;

/// A clause of more literals is read from its end.
const LONG: usize = 32;

/// A further literal can be watched in place of the false one; the other watched one is forced; or
/// the clause is false.
#[derive(Clone, Copy)]
pub(crate) enum Finding {
    Moves(Packed),
    Forces,
    Conflict,
}

/// What has to be done with a clause of whose watched literals one is false, and `other` is not true.
pub(crate) fn look(
    assignment: &Assignment,
    clause: &[Packed],
    falsified: Packed,
    other: Packed,
) -> Finding
    requires pair { IsPairOf clause.now (record { first = falsified; second = other }) }
    requires falsified { is_false assignment.now.steps falsified ≡ true }
    requires unmet { is_true assignment.now.steps other ≡ false }
    ensures { LookSays assignment.now.steps clause.now other result }
{
    match further(assignment, clause, falsified, other) {
        Some(found) => Finding::Moves(found),
        None => match assignment.value(other.number()) {
            None => Finding::Forces,
            Some(_) => Finding::Conflict,
        },
    }
}

// A literal but `other` that is not false: the first one, or in a long clause the last one. A clause of
// two literals has none, and is not read.
fn further(
    assignment: &Assignment,
    clause: &[Packed],
    falsified: Packed,
    other: Packed,
) -> Option<Packed>
    requires pair { IsPairOf clause.now (record { first = falsified; second = other }) }
    requires falsified { is_false assignment.now.steps falsified ≡ true }
    ensures { ReplacementSays assignment.now.steps clause.now other result }
{
    if clause.len() == 2 {
        return None;
    }
    if clause.len() > LONG {
        return last_replacement(assignment, clause, other);
    }
    first_replacement(assignment, clause, other)
}

// The first literal but `other` that is not false.
fn first_replacement(assignment: &Assignment, clause: &[Packed], other: Packed) -> Option<Packed>
    ensures { ReplacementSays assignment.now.steps clause.now other result }
{
    for literal in clause {
        if other.is(*literal) {
            continue;
        }
        if is_false(assignment, *literal) {
            continue;
        }
        return Some(*literal);
    }
    None
}

// The last such literal: a learned clause has those in front that became false first.
fn last_replacement(assignment: &Assignment, clause: &[Packed], other: Packed) -> Option<Packed>
    ensures { ReplacementSays assignment.now.steps clause.now other result }
{
    let mut place = clause.len();
    'places: while place > 0 {
        place -= 1;
        let literal = clause[place];
        if !is_passed(assignment, literal, other) {
            return Some(literal);
        }
    }
    None
}

// Whether a literal is the other one, or false.
fn is_passed(assignment: &Assignment, literal: Packed, other: Packed) -> bool
    ensures { result ≡ (lit_eq other literal || is_false assignment.now.steps literal) }
{
    other.is(literal) || is_false(assignment, literal)
}

/// Whether a literal is false.
pub(crate) fn is_false(assignment: &Assignment, literal: Packed) -> bool
    ensures { result ≡ is_false assignment.now.steps literal }
{
    assignment.has_value(literal.number(), !literal.is_positive())
}

/// Whether a literal is true.
pub(crate) fn is_true(assignment: &Assignment, literal: Packed) -> bool
    ensures { result ≡ is_true assignment.now.steps literal }
{
    assignment.has_value(literal.number(), literal.is_positive())
}

/// Whether a literal that is true is so on level 0, from which nothing is taken back.
pub(crate) fn is_fixed(assignment: &Assignment, literal: Packed) -> bool
    requires { is_true assignment.now.steps literal ≡ true }
    ensures { result ≡ is_fixed assignment.now.steps literal }
{
    assignment.level_of(literal.number()) == 0
}
