//! Lists of literals.
ghost use Rattle.std.specs.Prelude.{◌≡◌};
ghost use Rattle.proof_semantics.specs.Clauses.{has_literal};

use proof_semantics::Lit;

/// Whether the literal is one of the list. Takes no memory.
pub fn has_literal(literals: &[Lit], literal: Lit) -> bool
    ensures { result ≡ has_literal literals.now literal }
{
    literals.iter().any(|other| literal.is(*other))
}
