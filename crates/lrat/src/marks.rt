//! Which literals are assumed. The main type is `Marks`; `clear` undoes what was marked, and
//! touches nothing else.
ghost use Rattle.std.specs.Prelude.{◌≡◌, ℕ, Bool, ◌+◌, ◌*◌, not, ◌&&◌, ◌||◌, ◌==◌, [], ◌∷◌, ◌++◌, OnOk, OnErr};
ghost use Rattle.proof_semantics.specs.Clauses.{lit_eq};
ghost use Rattle.proof_semantics.specs.Propagation.{is_false};
ghost use Rattle.proof_semantics.specs.declared.literals.Lit.{Lit};
ghost use Rattle.lrat.specs.Marking.{is_marked, is_set};

use proof_semantics::Lit;
use std::alloc::{AllocError, Global};
use std::collections::BTreeSet;
use std::marker::Model;

/// A set of variables: a table of the small ones, and an ordered set of the others.
#[derive(Drop)]
pub(crate) struct Variables {
    table: Vec<bool>,
    beyond: BTreeSet<u64>,
}

impl Variables {
    /// No variables, and no table yet. Takes no memory.
    fn new(alloc: Global) -> Variables
        ensures { (var : ℕ) → is_marked result var ≡ Bool.false }
    {
        Variables {
            table: Vec::new(alloc),
            beyond: BTreeSet::new(alloc),
        }
    }

    /// Makes the table one of the variables below `small`, where it is shorter, while none is in the
    /// set. The error is want of memory.
    fn widen(&mut self, small: usize) -> Result<(), AllocError>
        requires { (var : ℕ) → is_marked self.old var ≡ Bool.false }
        ensures { (var : ℕ) → is_marked self.new var ≡ Bool.false }
    {
        if self.table.len() < small {
            self.table.resize(small, false)?;
        }
        Ok(())
    }

    /// Whether the variable is one of them.
    fn has(&self, var: u64) -> bool
        ensures { result ≡ is_marked self.now var }
    {
        match self.table.as_slice().get(var as usize) {
            Some(marked) => *marked,
            None => self.beyond.contains(&var),
        }
    }

    /// Makes the variable one of them. The error is want of memory, and changes nothing.
    fn put(&mut self, var: u64) -> Result<(), AllocError>
        ensures ok { OnOk result ((v : ℕ) → is_marked self.new v ≡ (v == var || is_marked self.old v)) }
        ensures err { OnErr result ((v : ℕ) → is_marked self.new v ≡ is_marked self.old v) }
    {
        let place = var as usize;
        if place < self.table.len() {
            self.table[place] = true;
        } else {
            self.beyond.insert(var)?;
        }
        Ok(())
    }

    /// Makes the variable none of them.
    fn take(&mut self, var: u64)
        ensures { (v : ℕ) → is_marked self.new v ≡ (not (v == var) && is_marked self.old v) }
    {
        let place = var as usize;
        if place < self.table.len() {
            self.table[place] = false;
        } else {
            self.beyond.remove(&var);
        }
    }
}

/// A set of literals.
#[derive(Drop)]
pub(crate) struct Literals {
    positive: Variables,
    negative: Variables,
}

impl Literals {
    /// No literals. Takes no memory.
    fn new(alloc: Global) -> Literals
        ensures { (a : Lit) → is_set result a ≡ Bool.false }
    {
        Literals {
            positive: Variables::new(alloc),
            negative: Variables::new(alloc),
        }
    }

    /// Makes the tables ones of the variables below `small`, where they are shorter, while no literal
    /// is in the set. The error is want of memory.
    fn widen(&mut self, small: usize) -> Result<(), AllocError>
        requires { (a : Lit) → is_set self.old a ≡ Bool.false }
        ensures { (a : Lit) → is_set self.new a ≡ Bool.false }
    {
        self.positive.widen(small)?;
        self.negative.widen(small)
    }

    /// Whether the literal is one of them.
    fn has(&self, literal: Lit) -> bool
        ensures { result ≡ is_set self.now literal }
    {
        let variables = if literal.positive {
            &self.positive
        } else {
            &self.negative
        };
        variables.has(literal.var)
    }

    /// Makes the literal one of them. The error is want of memory, and changes nothing.
    fn put(&mut self, literal: Lit) -> Result<(), AllocError>
        ensures ok { OnOk result ((a : Lit) → is_set self.new a ≡ (lit_eq a literal || is_set self.old a)) }
        ensures err { OnErr result ((a : Lit) → is_set self.new a ≡ is_set self.old a) }
    {
        if literal.positive {
            self.positive.put(literal.var)
        } else {
            self.negative.put(literal.var)
        }
    }

    /// Makes the literal none of them.
    fn take(&mut self, literal: Lit)
        ensures { (a : Lit) → is_set self.new a ≡ (not (lit_eq a literal) && is_set self.old a) }
    {
        if literal.positive {
            self.positive.take(literal.var);
        } else {
            self.negative.take(literal.var);
        }
    }
}

/// The literals that are assumed, in the order in which they came. Contracts see the list.
#[derive(Drop)]
pub(crate) struct Marks {
    assumed: Vec<Lit>,
    marked: Literals,
}

impl Model for Marks {
    ghost use Rattle.std.specs.Prelude.{List};
    ghost use Rattle.proof_semantics.specs.declared.literals.Lit.{Lit};

    ghost Value = { List Lit };

    ghost use Rattle.lrat.specs.MarksOf.{MarksAgree};

    ghost view = { λ m. m.assumed.items };

    ghost invariant = { MarksAgree };
}

impl Marks {
    /// Nothing is assumed. Takes no memory.
    pub(crate) fn new(alloc: Global) -> Marks
        ensures { result ≡ [] }
    {
        Marks {
            assumed: Vec::new(alloc),
            marked: Literals::new(alloc),
        }
    }

    /// From now on marks literals of the variables below `small` in tables. The error is want of
    /// memory.
    pub(crate) fn widen(&mut self, small: usize) -> Result<(), AllocError>
        requires { self.old ≡ [] }
        ensures { self.new ≡ [] }
    {
        self.marked.widen(small)
    }

    /// Whether the negation of the literal is assumed.
    pub(crate) fn is_false(&self, literal: Lit) -> bool
        ensures { result ≡ is_false self.now literal }
    {
        self.marked.has(literal.negation())
    }

    /// Assumes the literal. The error is want of memory, and changes nothing.
    pub(crate) fn assume(&mut self, literal: Lit) -> Result<(), AllocError>
        ensures ok { OnOk result (self.new ≡ self.old ++ literal ∷ []) }
        ensures err { OnErr result (self.new ≡ self.old) }
    {
        self.assumed.reserve(1)?;
        self.marked.put(literal)?;
        self.assumed.push_reserved(literal);
        Ok(())
    }

    /// Assumes nothing any more.
    pub(crate) fn clear(&mut self)
        ensures { self.new ≡ [] }
    {
        while let Some(literal) = self.assumed.pop() {
            self.marked.take(literal);
        }
    }
}
