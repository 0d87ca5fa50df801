//! The clauses of a proof, found by their ids. The main type is `Store`.
ghost use Rattle.std.specs.Prelude.{◌≡◌, ℕ, ◌+◌, ◌<◌, ◌≤◌, ◌||◌, [], ◌∷◌, ◌++◌, take, OnOk, OnErr, IfOk, IfSome, length, option_copied};
ghost use Rattle.proof_semantics.specs.Proofs.{start, clause_at, first_missing, with_addition, with_deletion, ids_of, is_empty};
ghost use Rattle.lrat.specs.ArenaOf.{literal_count};

use crate::arena::{Arena, cut, find, give_all, put, reserve};
use cnf::Clause;
use proof_semantics::Lit;
use std::alloc::{AllocError, Global};
use std::marker::Model;

/// Every clause that was given or added, in the order of its id. Contracts see where the proof
/// stands. What is deleted is kept, with the round in which it was deleted: it is not held in that
/// round, and each restart begins another one.
#[derive(Drop)]
pub(crate) struct Store {
    arena: Arena,
    given: usize,
    /// How many given clauses stand in front of the first empty one.
    filled: usize,
    round: u64,
    finished: bool,
}

impl Model for Store {
    ghost use Rattle.proof_semantics.specs.Proofs.{ProofState};

    ghost Value = { ProofState };

    ghost use Rattle.lrat.specs.StoreOf.{state_of, IsOrderly};

    ghost view = { state_of };

    ghost invariant = { IsOrderly };
}

impl Store {
    /// No clauses. Takes no memory.
    pub(crate) fn new(alloc: Global) -> Store
        ensures { result ≡ start [] }
    {
        Store {
            arena: Arena {
                literals: Vec::new(alloc),
                places: Vec::new(alloc),
            },
            given: 0,
            filled: 0,
            round: 1,
            finished: false,
        }
    }

    /// Goes back to the first given clauses, so many, and gives more behind them, with ids from 1
    /// on. The error is want of memory, and changes nothing.
    pub(crate) fn restart(&mut self, kept: usize, more: &[Clause]) -> Result<(), AllocError>
        requires { kept ≤ length self.old.given }
        ensures ok { OnOk result (self.new ≡ start (take kept self.old.given ++ more.now)) }
        ensures err { OnErr result (self.new ≡ self.old) }
    {
        let count = count_literals(more).ok_or(AllocError)?;
        let round = self.round.checked_add(1).ok_or(AllocError)?;
        reserve(&mut self.arena, more.len(), count)?;
        cut(&mut self.arena, kept);
        self.filled = give_all(&mut self.arena, self.filled.min(kept), more);
        self.given = self.arena.places.len();
        self.round = round;
        self.finished = self.filled < self.given;
        Ok(())
    }

    /// How many clauses were given.
    pub(crate) fn given(&self) -> usize
        ensures { result ≡ length self.now.given }
    {
        self.given
    }

    /// How many literals all clauses have.
    pub(crate) fn count(&self) -> usize {
        self.arena.literals.len()
    }

    /// The greatest id that a clause was given or added under, or 0.
    pub(crate) fn last(&self) -> u64
        ensures { result ≡ self.now.last }
    {
        match self.arena.places.as_slice().last() {
            Some(place) => place.id,
            None => 0,
        }
    }

    /// Whether an empty clause was given or added.
    pub(crate) fn is_finished(&self) -> bool
        ensures { result ≡ self.now.finished }
    {
        self.finished
    }

    /// The literals of the clause that is held under an id.
    pub(crate) fn find(&self, id: u64) -> Option<&[Lit]>
        ensures { option_copied result ≡ clause_at self.now.held id }
    {
        let number = find(self.arena.places.as_slice(), id)?;
        let place = self.arena.places[number];
        if place.deleted == self.round {
            return None;
        }
        Some(&self.arena.literals[place.start..place.end])
    }

    /// The first of the ids under which no clause is held.
    pub(crate) fn first_missing(&self, ids: &[Lit]) -> Option<u64>
        ensures { result ≡ first_missing self.now.held (ids_of ids.now) }
    {
        for id in ids {
            if self.find(id.var).is_none() {
                return Some(id.var);
            }
        }
        None
    }

    /// Adds a clause. The error is want of memory, and changes nothing.
    pub(crate) fn add(&mut self, id: u64, clause: &[Lit]) -> Result<(), AllocError>
        requires { self.old.last < id }
        ensures ok { OnOk result (self.new ≡ with_addition self.old id clause.now) }
        ensures err { OnErr result (self.new ≡ self.old) }
    {
        reserve(&mut self.arena, 1, clause.len())?;
        put(&mut self.arena, id, clause);
        self.finished = is_finished_by(self.finished, clause);
        Ok(())
    }

    /// Deletes the clauses of these ids.
    pub(crate) fn delete(&mut self, ids: &[Lit])
        ensures { self.new ≡ with_deletion self.old (ids_of ids.now) }
    {
        for id in ids {
            self.delete_one(id.var);
        }
    }

    // Deletes the clause of one id.
    fn delete_one(&mut self, id: u64)
        ensures { self.new ≡ with_deletion self.old (id ∷ []) }
    {
        if let Some(number) = find(self.arena.places.as_slice(), id) {
            self.arena.places[number].deleted = self.round;
        }
    }
}

// How many literals the clauses have. `None` where that is more than a number holds.
fn count_literals(clauses: &[Clause]) -> Option<usize>
    ensures { IfSome result (λ count. count ≡ literal_count clauses.now) }
{
    let mut count: usize = 0;
    for clause in clauses {
        count = count.checked_add(clause.len())?;
    }
    Some(count)
}

// Whether an empty clause was there before, or this one is empty.
fn is_finished_by(finished: bool, clause: &[Lit]) -> bool
    ensures { result ≡ (finished || is_empty clause.now) }
{
    finished || clause.is_empty()
}
