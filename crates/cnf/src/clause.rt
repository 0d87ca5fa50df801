//! Clauses: lists of literals of which one must be true. The main type is `Clause`.
ghost use Rattle.std.specs.Prelude.{◌≡◌, ◌≤◌, ◌↔◌, [], ◌∷◌, ◌++◌, IsTrue, IfOk, IsOk, OnOk, OnErr, length};
ghost use Rattle.std.specs.Cmp.Lexicographic.{pointwise};
ghost use Rattle.std.specs.Hash as fed;
ghost use Rattle.proof_semantics.specs.Clauses.{lit_eq, has_literal};
ghost use Rattle.cnf.specs.Comparing.{literals_per, literals_equiv, literal_writes, literals_alike};

use crate::literals::has_literal;
use proof_semantics::Lit;
use smallvec::SmallVec;
use std::alloc::{AllocError, Global};
use std::hash::{Hash, Hasher};
use std::marker::Model;

/// A clause. Contracts see it as the list of its literals, in which one may stand several times.
/// Up to four literals take no memory beside the value.
#[derive(Debug, Drop)]
pub struct Clause {
    literals: SmallVec<Lit, 4>,
}

impl Model for Clause {
    ghost use Rattle.std.specs.Prelude.{List};
    ghost use Rattle.proof_semantics.specs.declared.literals.Lit.{Lit};

    ghost Value = { List Lit };

    ghost view = { λ c. c.literals.items };
}

impl Clause {
    /// The empty clause, which no assignment makes true. Takes no memory.
    pub fn new(alloc: Global) -> Clause
        ensures { result ≡ [] }
    {
        Clause {
            literals: SmallVec::new(alloc),
        }
    }

    /// The clause of these literals. The error is want of memory, which up to four literals do not take.
    pub fn from_slice(alloc: Global, literals: &[Lit]) -> Result<Clause, AllocError>
        ensures literals { IfOk result (λ clause. clause ≡ literals.now) }
        ensures small { length literals.now ≤ 4 → IsOk result }
    {
        Ok(Clause {
            literals: SmallVec::from_slice(alloc, literals)?,
        })
    }

    /// The literals, in their order.
    pub fn as_slice(&self) -> &[Lit]
        ensures { result.now ≡ self.now }
    {
        self.literals.as_slice()
    }

    /// How many literals stand in the clause, each as often as it does.
    pub fn len(&self) -> usize
        ensures { result ≡ length self.now }
    {
        self.literals.as_slice().len()
    }

    /// Whether there is no literal.
    pub fn is_empty(&self) -> bool
        ensures { IsTrue result ↔ (self.now ≡ []) }
    {
        self.literals.as_slice().is_empty()
    }

    /// Puts a literal at the end. The error is want of memory, and changes nothing.
    pub fn push(&mut self, literal: Lit) -> Result<(), AllocError>
        ensures ok { OnOk result (self.new ≡ self.old ++ literal ∷ []) }
        ensures err { OnErr result (self.new ≡ self.old) }
    {
        self.literals.push(literal)?;
        Ok(())
    }

    /// Whether the literal is one of the clause's.
    pub fn contains(&self, literal: Lit) -> bool
        ensures { result ≡ has_literal self.now literal }
    {
        has_literal(self.as_slice(), literal)
    }

    // What the literals would be kept by, if they were many.
    pub(crate) fn allocator(&self) -> Global {
        *self.literals.allocator()
    }
}

impl Clone for Clause {
    ghost is_clone = { λ clause copy. copy ≡ clause };

    fn clone(&self) -> Result<Clause, AllocError>
        ensures { IfOk result (λ copy. copy ≡ self.now) }
    {
        Clause::from_slice(self.allocator(), self.as_slice())
    }
}

/// Clauses are equal where they have the same literals in the same order.
impl PartialEq for Clause {
    ghost eq = { pointwise lit_eq };

    ghost laws = { literals_per };

    fn eq(&self, other: &Clause) -> bool
        ensures eq { result ≡ pointwise lit_eq self.now other.now }
        ensures same { IsTrue result ↔ (self.now ≡ other.now) }
    {
        self.as_slice() == other.as_slice()
    }
}

impl Eq for Clause {
    ghost laws = { literals_equiv };
}

impl Hash for Clause {
    ghost hash_input = { fed.slice literal_writes };

    ghost respects_eq = { literals_alike };

    fn hash<H: Hasher>(&self, state: &mut H) {
        self.as_slice().hash(state);
    }
}
