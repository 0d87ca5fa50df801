//! Lists of plain values in one block of memory.
//!
//! | Call | What it does |
//! |---|---|
//! | `Arena::new` | an arena with nothing in it |
//! | `Arena::push` | keeps a copy of some values, and answers a reference to them |
//! | `Arena::get` | lends the values that a reference stands for |
#![tactic(auto)]

ghost use Rattle.std.specs.Prelude.{◌≡◌, [], ◌++◌, IfOk, OnOk, OnErr};
ghost use Rattle.clause_arena.specs.Lending.{IsRefOf, lent, StaysLent};

use std::alloc::{AllocError, Global};
use std::marker::Model;

/// Lists of values, one behind the other. Contracts see all values that were pushed, in their
/// order.
#[derive(Debug, Drop)]
pub struct Arena<T> {
    values: Vec<T>,
}

impl<T> Model for Arena<T> {
    ghost use Rattle.std.specs.Prelude.{List};

    ghost Value = { List T };

    ghost view = { λ a. a.values.items };
}

/// A list in an arena: the place of its first value, and the place behind its last.
#[derive(Clone, Copy, Debug)]
pub struct Ref {
    start: u32,
    end: u32,
}

/// An arena never has more values than this, so that each place is one of four bytes.
const MOST: usize = u32::MAX as usize;

impl<T: Copy> Arena<T> {
    /// Nothing. Takes no memory.
    pub fn new(alloc: Global) -> Arena<T>
        ensures { result ≡ [] }
    {
        Arena {
            values: Vec::new(alloc),
        }
    }

    /// Keeps a copy of the values, and answers a reference to them. The error is want of memory, or
    /// more than 2^32 - 1 values in all; it changes nothing. What was pushed before stays the same.
    pub fn push(&mut self, values: &[T]) -> Result<Ref, AllocError>
        ensures ok { OnOk result (self.new ≡ self.old ++ values.now) }
        ensures place { IfOk result (λ place. IsRefOf self.new place) }
        ensures lent { IfOk result (λ place. lent self.new place ≡ values.now) }
        ensures stays { StaysLent self.old self.new }
        ensures err { OnErr result (self.new ≡ self.old) }
    {
        let start = self.values.as_slice().len();
        let end = start.saturating_add(values.len());
        if end > MOST {
            return Err(AllocError);
        }
        self.values.extend_from_slice(values)?;
        Ok(Ref {
            start: start as u32,
            end: end as u32,
        })
    }

    /// The values that a reference stands for. The condition is that its two places are in order and within the
    /// arena, as those of each reference are that this arena gave. Takes no memory.
    pub fn get(&self, place: Ref) -> &[T]
        requires { IsRefOf self.now place }
        ensures { result.now ≡ lent self.now place }
    {
        &self.values.as_slice()[place.start as usize..place.end as usize]
    }
}
