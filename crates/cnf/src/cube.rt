//! Cubes: lists of literals that are true together. The main type is `Cube`.
ghost use Rattle.std.specs.Prelude.{◌≡◌, ◌≤◌, ◌↔◌, [], ◌∷◌, ◌++◌, IsTrue, IfOk, IsOk, OnOk, OnErr, length, map};
ghost use Rattle.proof_semantics.specs.Clauses.{negation, has_literal};

use crate::clause::Clause;
use proof_semantics::Lit;
use std::alloc::{AllocError, Global};
use std::marker::Model;

/// A cube. Contracts see it as the list of its literals, in which one may stand several times.
/// Up to four literals take no memory beside the value.
#[derive(Debug, Drop)]
pub struct Cube {
    literals: Clause,
}

impl Model for Cube {
    ghost use Rattle.std.specs.Prelude.{List};
    ghost use Rattle.proof_semantics.specs.declared.literals.Lit.{Lit};

    ghost Value = { List Lit };

    ghost view = { λ c. c.literals };
}

impl Cube {
    /// The empty cube, which every assignment makes true. Takes no memory.
    pub fn new(alloc: Global) -> Cube
        ensures { result ≡ [] }
    {
        Cube {
            literals: Clause::new(alloc),
        }
    }

    /// The cube of these literals. The error is want of memory, which up to four literals do not take.
    pub fn from_slice(alloc: Global, literals: &[Lit]) -> Result<Cube, AllocError>
        ensures literals { IfOk result (λ cube. cube ≡ literals.now) }
        ensures small { length literals.now ≤ 4 → IsOk result }
    {
        Ok(Cube {
            literals: Clause::from_slice(alloc, literals)?,
        })
    }

    /// The literals, in their order.
    pub fn as_slice(&self) -> &[Lit]
        ensures { result.now ≡ self.now }
    {
        self.literals.as_slice()
    }

    /// How many literals stand in the cube, each as often as it does.
    pub fn len(&self) -> usize
        ensures { result ≡ length self.now }
    {
        self.literals.len()
    }

    /// Whether there is no literal.
    pub fn is_empty(&self) -> bool
        ensures { IsTrue result ↔ (self.now ≡ []) }
    {
        self.literals.is_empty()
    }

    /// Puts a literal at the end. The error is want of memory, and changes nothing.
    pub fn push(&mut self, literal: Lit) -> Result<(), AllocError>
        ensures ok { OnOk result (self.new ≡ self.old ++ literal ∷ []) }
        ensures err { OnErr result (self.new ≡ self.old) }
    {
        self.literals.push(literal)
    }

    /// Whether the literal is one of the cube's.
    pub fn contains(&self, literal: Lit) -> bool
        ensures { result ≡ has_literal self.now literal }
    {
        self.literals.contains(literal)
    }

    /// The clause of the negated literals, which is true exactly where the cube is false.
    pub fn negation(&self) -> Result<Clause, AllocError>
        ensures { IfOk result (λ clause. clause ≡ map negation self.now) }
    {
        let mut clause = Clause::new(self.literals.allocator());
        for literal in self.as_slice() {
            clause.push(literal.negation())?;
        }
        Ok(clause)
    }
}

impl Clone for Cube {
    ghost is_clone = { λ cube copy. copy ≡ cube };

    fn clone(&self) -> Result<Cube, AllocError>
        ensures { IfOk result (λ copy. copy ≡ self.now) }
    {
        Cube::from_slice(self.literals.allocator(), self.as_slice())
    }
}
