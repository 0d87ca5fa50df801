//! Lists of clauses, numbered from 1. The main type is `Db`.
ghost use Rattle.std.specs.Prelude.{◌≡◌, ◌+◌, ◌-◌, ◌<◌, ◌≤◌, ◌↔◌, [], ◌∷◌, ◌++◌, IsTrue, IfOk, OnOk, OnErr, IsOk, IfSome, IfNone, ◌⊎◌, length, slice_get, option_copied, vec_capacity};
ghost use Rattle.cnf.specs.Clauses.{HasRoomFor, clause_numbered};

use crate::clause::Clause;
use std::alloc::{AllocError, Global};
use std::marker::Model;

/// A list of clauses. Contracts see the clauses, the first of which has the number 1, and for how
/// many clauses there is room.
#[derive(Debug, Drop)]
pub struct Db {
    clauses: Vec<Clause>,
}

impl Model for Db {
    ghost use Rattle.std.specs.Prelude.{vec_capacity};
    ghost use Rattle.cnf.specs.Clauses.{Clauses};

    ghost Value = { Clauses };

    ghost view = { λ d. record { clauses = d.clauses.items; room = vec_capacity d.clauses } };
}

impl Db {
    /// No clauses. Takes no memory.
    pub fn new(alloc: Global) -> Db
        ensures { result.clauses ≡ [] }
    {
        Db {
            clauses: Vec::new(alloc),
        }
    }

    /// The clauses in their order, with the room that the `Vec` has. Takes no memory.
    pub fn from_vec(clauses: Vec<Clause>) -> Db
        ensures clauses { result.clauses ≡ clauses.items }
        ensures room { result.room ≡ vec_capacity clauses }
    {
        Db { clauses }
    }

    /// The clauses as a `Vec`, in their order. Takes no memory.
    pub fn into_vec(self) -> Vec<Clause>
        ensures { result.items ≡ self.clauses }
    {
        let Db { clauses } = self;
        clauses
    }

    /// The clauses, in their order.
    pub fn as_slice(&self) -> &[Clause]
        ensures { result.now ≡ self.now.clauses }
    {
        self.clauses.as_slice()
    }

    /// How many clauses there are.
    pub fn len(&self) -> usize
        ensures { result ≡ length self.now.clauses }
    {
        self.clauses.as_slice().len()
    }

    /// Whether there is no clause.
    pub fn is_empty(&self) -> bool
        ensures { IsTrue result ↔ (self.now.clauses ≡ []) }
    {
        self.clauses.as_slice().is_empty()
    }

    /// The clause with a number. `None` where no clause has it.
    pub fn get(&self, number: u64) -> Option<&Clause>
        ensures { option_copied result ≡ clause_numbered self.now.clauses number }
    {
        let place = number.checked_sub(1)?;
        self.clauses.as_slice().get(place as usize)
    }

    /// Puts a clause at the end, and answers its number. There is room for as many clauses in all as before, or for more.
    /// The error is want of memory, and changes nothing.
    pub fn push(&mut self, clause: Clause) -> Result<u64, AllocError>
        ensures ok { OnOk result (self.new.clauses ≡ self.old.clauses ++ clause ∷ []) }
        ensures number { IfOk result (λ number. number ≡ length self.new.clauses) }
        ensures room { self.old.room ≤ self.new.room }
        ensures err { OnErr result (self.new ≡ self.old) }
        ensures with_room { HasRoomFor self.old 1 → IsOk result }
    {
        self.reserve(1)?;
        Ok(self.push_reserved(clause))
    }

    /// Makes room for that many more clauses, and takes none away. The error is want of memory, and changes nothing.
    pub fn reserve(&mut self, more: usize) -> Result<(), AllocError>
        ensures clauses { self.new.clauses ≡ self.old.clauses }
        ensures ok { OnOk result (HasRoomFor self.new more) }
        ensures room { self.old.room ≤ self.new.room }
        ensures err { OnErr result (self.new ≡ self.old) }
        ensures with_room { HasRoomFor self.old more → IsOk result }
    {
        self.clauses.reserve(more)
    }

    /// Puts a clause at the end, where there is room, and answers its number. Takes no memory.
    pub fn push_reserved(&mut self, clause: Clause) -> u64
        requires { HasRoomFor self.old 1 }
        ensures clauses { self.new.clauses ≡ self.old.clauses ++ clause ∷ [] }
        ensures number { result ≡ length self.new.clauses }
        ensures room { self.new.room ≡ self.old.room }
    {
        self.clauses.push_reserved(clause);
        self.clauses.as_slice().len() as u64
    }
}
