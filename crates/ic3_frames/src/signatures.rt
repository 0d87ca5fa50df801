//! Signatures of clauses, by which most lemmas are seen to have a literal that another has not. The main type is
//! `WithSignature`.
ghost use Rattle.std.specs.Prelude.{◌≡◌, ◌↔◌, List, true, IsTrue};
ghost use Rattle.std.specs.Int.Bits.{bit_or};
ghost use Rattle.std.specs.Cmp.Lexicographic.{pointwise};
ghost use Rattle.std.specs.Hash as fed;
ghost use Rattle.proof_semantics.specs.Clauses.{lit_eq, is_part};
ghost use Rattle.proof_semantics.specs.declared.literals.Lit.{Lit};
ghost use Rattle.cnf.specs.Comparing.{literals_per, literals_equiv, literal_writes, literals_alike};
ghost use Rattle.ic3_frames.specs.Signatures.{bit_of, signature_of};

use cnf::{Clause, Lit, subset};
use std::hash::{Hash, Hasher};
use std::marker::Model;

/// A lemma and its signature. Contracts see its literals.
#[derive(Drop)]
pub(crate) struct WithSignature {
    signature: u64,
    clause: Clause,
}

impl Model for WithSignature {
    ghost use Rattle.std.specs.Prelude.{◌≡◌, List};
    ghost use Rattle.proof_semantics.specs.declared.literals.Lit.{Lit};
    ghost use Rattle.ic3_frames.specs.Signatures.{signature_of};

    ghost Value = { List Lit };

    ghost view = { λ m. m.clause };

    ghost invariant = { λ m. m.signature ≡ signature_of m.clause };
}

impl WithSignature {
    /// The lemma with its signature. Takes no memory.
    pub(crate) fn new(clause: Clause) -> WithSignature
        ensures { result ≡ clause }
    {
        WithSignature {
            signature: signature_of(clause.as_slice()),
            clause,
        }
    }

    /// The lemma.
    pub(crate) fn clause(&self) -> &Clause
        ensures { result.now ≡ self.now }
    {
        &self.clause
    }

    /// Whether each of its literals is one of the other lemma's.
    pub(crate) fn is_part_of(&self, other: &WithSignature) -> bool
        ensures { result ≡ is_part self.now other.now }
    {
        self.signature | other.signature == other.signature && subset(&self.clause, &other.clause)
    }
}

/// Lemmas are equal where they have the same literals in the same order.
impl PartialEq for WithSignature {
    ghost eq = { pointwise lit_eq };

    ghost laws = { literals_per };

    fn eq(&self, other: &WithSignature) -> bool
        ensures eq { result ≡ pointwise lit_eq self.now other.now }
    {
        self.clause == other.clause
    }
}

impl Eq for WithSignature {
    ghost laws = { literals_equiv };
}

impl Hash for WithSignature {
    ghost hash_input = { fed.slice literal_writes };

    ghost respects_eq = { literals_alike };

    fn hash<H: Hasher>(&self, state: &mut H) {
        self.clause.hash(state);
    }
}

/// A number with one of 64 bits for each literal: the bits of a part of the literals are among its own. (Eén, Biere,
/// *Effective preprocessing in SAT through variable and clause elimination*, 2005.) Takes no memory.
pub fn signature_of(literals: &[Lit]) -> u64
    ensures signature { result ≡ signature_of literals.now }
    ensures parts { (part : List Lit) → is_part part literals.now ≡ true → bit_or (signature_of part) result ≡ result }
{
    let mut signature = 0;
    for literal in literals {
        signature |= bit_of(*literal);
    }
    signature
}

// The bit of a literal.
fn bit_of(literal: Lit) -> u64
    ensures { result ≡ bit_of literal }
{
    let number = 2 * (literal.var % 32) + u64::from(literal.positive);
    1 << number
}
