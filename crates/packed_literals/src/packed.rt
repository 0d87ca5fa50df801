//! Literals in four bytes. The main type is `Packed`.
ghost use Rattle.std.specs.Prelude.{◌≡◌, ◌<◌, ◌^◌};
ghost use Rattle.proof_semantics.specs.Clauses.{lit_eq, negation};
ghost use Rattle.packed_literals.specs.Packing.{literal, code_of};

use std::marker::Model;

/// A literal in four bytes: the number of its variable, and its sign. Contracts see the literal of
/// this sign over the number.
#[derive(Clone, Copy)]
pub struct Packed {
    code: u32,
}

impl Model for Packed {
    ghost use Rattle.proof_semantics.specs.declared.literals.Lit.{Lit};
    ghost use Rattle.packed_literals.specs.Packing.{literal_of, code_of, code_of-literal_of};

    ghost Value = { Lit };

    ghost view = { λ p. literal_of p.code };

    ghost inverse = { λ a. record { code = code_of a } };

    ghost inverse_ok = { λ p _ i. record { code = code_of-literal_of p.code i } };
}

impl Packed {
    /// The literal of a sign over the variable with a number. The condition is that the number is
    /// below 2^31.
    #[tactic(auto, using(crate::proofs::PackingLaws::even_is, crate::proofs::PackingLaws::odd_is))]
    pub fn of(number: u32, positive: bool) -> Packed
        requires { number < 2 ^ 31 }
        ensures { result ≡ literal number positive }
    {
        if positive {
            Packed { code: 2 * number }
        } else {
            Packed {
                code: 2 * number + 1,
            }
        }
    }

    /// The number of its variable.
    pub fn number(self) -> u32
        ensures number { result ≡ self.var }
        ensures small { result < 2 ^ 31 }
    {
        self.code / 2
    }

    /// Whether it is the variable itself, and not its negation.
    pub fn is_positive(self) -> bool
        ensures { result ≡ self.positive }
    {
        self.code % 2 == 0
    }

    /// The literal that is true exactly where this one is false.
    #[tactic(auto, using(crate::proofs::PackingLaws::negated_even, crate::proofs::PackingLaws::negated_odd))]
    pub fn negation(self) -> Packed
        ensures { result ≡ negation self }
    {
        if self.code % 2 == 0 {
            Packed {
                code: self.code + 1,
            }
        } else {
            Packed {
                code: self.code - 1,
            }
        }
    }

    /// Whether the two are the same literal.
    #[tactic(auto, using(crate::proofs::PackingLaws::same_code))]
    pub fn is(self, other: Packed) -> bool
        ensures { result ≡ lit_eq self other }
    {
        self.code == other.code
    }

    /// Its four bytes as a number: twice the number of its variable, and one more for the negation.
    pub fn code(self) -> u32
        ensures { result ≡ code_of self }
    {
        self.code
    }
}
