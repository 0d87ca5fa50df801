//! Tests of the literals of a question.
ghost use Rattle.std.specs.Prelude.{◌≡◌, ◌^◌, ◌&&◌, ◌↔◌, IfNone, IfSome, IsTrue, nat_lt, false, true};
ghost use Rattle.std.specs.List.{list_all};
ghost use Rattle.proof_semantics.specs.Clauses.{has_literal, has_opposites, negation};
ghost use Rattle.proof_semantics.specs.Lines.{AreSized};
ghost use Rattle.cdcl.specs.Ascending.{ascends_below};

use cnf::{Lit, has_literal};

/// The numbers of variables are below this one.
const END: u64 = 1 << 63;

/// Whether some literal of the list is the negation of another. Takes no memory.
pub fn has_opposites(literals: &[Lit]) -> bool
    ensures { result ≡ has_opposites literals.now }
{
    opposite(literals).is_some()
}

/// A literal whose negation is one of the list too. Takes no memory.
pub(crate) fn opposite(literals: &[Lit]) -> Option<Lit>
    ensures one { IfSome result (λ a. has_literal literals.now a ≡ true) }
    ensures other { IfSome result (λ a. has_literal literals.now (negation a) ≡ true) }
    ensures none { IfNone result (has_opposites literals.now ≡ false) }
{
    if ascends_below(end_of_negative(literals), literals) {
        return None;
    }
    for literal in literals {
        if has_literal(literals, literal.negation()) {
            return Some(*literal);
        }
    }
    None
}

// Whether the variables below the bound ascend, and the literals from it on are positive. Then none
// is the negation of another. Cubes over latches in their order mostly do, and guards beside them.
fn ascends_below(bound: u64, literals: &[Lit]) -> bool
    ensures { result ≡ ascends_below bound 0 literals.now }
{
    let mut last = 0;
    for literal in literals {
        if literal.var < bound {
            if literal.var <= last {
                return false;
            }
            last = literal.var;
        } else if !literal.positive {
            return false;
        }
    }
    true
}

// A bound above the variables of all negative literals.
fn end_of_negative(literals: &[Lit]) -> u64 {
    let mut bound = 0;
    for literal in literals {
        if !literal.positive {
            bound = bound.max(literal.var.saturating_add(1));
        }
    }
    bound
}

/// Whether the variable of each literal is from 1 to 2^63 - 1. Takes no memory.
pub fn are_sized(literals: &[Lit]) -> bool
    ensures { IsTrue result ↔ AreSized literals.now }
{
    all_sized(literals)
}

// The same, by the numbers.
fn all_sized(literals: &[Lit]) -> bool
    ensures { result ≡ list_all (λ a. nat_lt 0 a.var && nat_lt a.var (2 ^ 63)) literals.now }
{
    literals
        .iter()
        .all(|literal| 0 < literal.var && literal.var < END)
}
