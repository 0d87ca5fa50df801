//! Which variable is decided next, and with which value. After MiniSat (Eén, Sörensson, 2003): the
//! most active variable, with the value that it had last. The main type is `Order`. No contract of a
//! search rests on what it keeps: what it gives is tested where it is used.
ghost use Rattle.std.specs.Prelude.{◌≡◌, []};

use crate::first_values::FirstValues;
use crate::heap::{Entry, Heap, SHIFT};
use crate::ranked::Ranked;
use cdcl_trail::Trail;
use cnf::{Clause, Db, Lit, Var};
use packed_literals::Table;
use std::alloc::{AllocError, Global};

/// The weight of the first conflict.
const FIRST_WEIGHT: u64 = 1 << 8;

/// From this weight on weights and activities are made smaller.
const GREAT_WEIGHT: u64 = 1 << 40;

/// A variable that may be decided.
#[derive(Clone, Copy)]
pub struct Candidate {
    /// Its literal that was true last, or the one to begin with where none was.
    pub literal: Lit,
    /// The place of a clause that has the variable.
    pub clause: usize,
}

// How active a variable is, and the last conflict that it was met in, or 0.
#[derive(Clone, Copy)]
struct Rank {
    activity: u64,
    conflict: u64,
}

/// The activities of variables, and the values that they had last. Each conflict adds its weight to
/// the activities of the variables that it comes from, and weighs a twentieth more than the one
/// before it. The variables are numbered as they come. Those that may be decided stand in a list in
/// the order in which they are decided, or, where a conflict was met in them since it was put in
/// order, or they are new, in a binary heap; of two that are as active the smaller variable comes
/// first, which in a circuit's clauses is what the other one is computed from.
#[derive(Drop)]
pub struct Order {
    alloc: Global,
    numbers: Table<usize>,
    candidates: Vec<Candidate>,
    ranks: Vec<Rank>,
    heap: Heap,
    ranked: Ranked,
    first_values: FirstValues,
    met: usize,
    weight: u64,
    conflict: u64,
}

impl Order {
    /// No variable; each one that comes is decided with its value of these at first. Takes no memory.
    pub fn new(alloc: Global, first_values: FirstValues) -> Order
        ensures { result.candidates.items ≡ [] }
    {
        Order {
            alloc,
            numbers: Table::new(alloc),
            candidates: Vec::new(alloc),
            ranks: Vec::new(alloc),
            heap: Heap::new(alloc),
            ranked: Ranked::new(alloc),
            first_values,
            met: 0,
            weight: FIRST_WEIGHT,
            conflict: 1,
        }
    }

    /// Meets the variables of the clauses that are new, and lets them be decided. Where the list is put
    /// in order anew, those that have a value go: no search takes it back.
    pub fn begin(&mut self, db: &Db, trail: &Trail) -> Result<(), AllocError> {
        let clauses = db.as_slice();
        for place in self.met..clauses.len() {
            if let Some(clause) = clauses.get(place) {
                self.meet(clause.as_slice(), place)?;
            }
        }
        self.met = clauses.len();
        let count = self.candidates.len();
        self.ranked
            .put_in_order(self.alloc, &mut self.heap, trail, count)
    }

    // Meets the variables of the clause at a place.
    fn meet(&mut self, clause: &[Lit], place: usize) -> Result<(), AllocError> {
        for literal in clause {
            if self.numbers.get(literal.var).is_none() {
                self.meet_one(literal.var, place)?;
            }
        }
        Ok(())
    }

    // Meets a variable that the clause at a place has.
    fn meet_one(&mut self, var: Var, clause: usize) -> Result<(), AllocError> {
        let number = self.candidates.len();
        self.candidates.reserve(1)?;
        self.ranks.reserve(1)?;
        self.numbers.insert(var, number)?;
        let positive = self.first_values.of(var);
        self.candidates.push_reserved(Candidate {
            literal: Lit { var, positive },
            clause,
        });
        self.ranks.push_reserved(Rank {
            activity: 0,
            conflict: 0,
        });
        self.insert(var, number)
    }

    /// The most active variable without a value; one of the heap leaves it. Takes no memory.
    pub fn take(&mut self, trail: &Trail) -> Option<Candidate> {
        self.heap.drop_valued(trail);
        let number = match self.heap.first() {
            Some(top) if self.is_before_ranked(&top, trail) => self.heap.take()?.number,
            _ => self.ranked.first_open(trail)?.number,
        };
        self.candidates.as_slice().get(number).copied()
    }

    // Whether a variable of the heap is decided before those of the list.
    fn is_before_ranked(&mut self, top: &Entry, trail: &Trail) -> bool {
        if self.ranked.front().is_none_or(|other| top.precedes(&other)) {
            return true;
        }
        match self.ranked.first_open(trail) {
            Some(other) => top.precedes(&other),
            None => true,
        }
    }

    /// Keeps the values of literals that are taken back, and lets their variables be decided.
    pub fn keep(&mut self, literals: &[Lit]) -> Result<(), AllocError> {
        for literal in literals {
            let Some(number) = self.numbers.get(literal.var) else {
                continue;
            };
            if let Some(candidate) = self.candidates.get_mut(number) {
                candidate.literal = *literal;
            }
            if !self.ranked.keep(number) && !self.heap.has(number) {
                self.insert(literal.var, number)?;
            }
        }
        Ok(())
    }

    // Puts a variable into the heap, if it is not there.
    fn insert(&mut self, var: Var, number: usize) -> Result<(), AllocError> {
        let Some(rank) = self.ranks.as_slice().get(number).copied() else {
            return Ok(());
        };
        self.heap.insert(Entry {
            activity: rank.activity,
            var,
            number,
        })
    }

    /// Makes the variables more active that a learned clause comes from: those of the clauses that
    /// its hints name.
    pub fn bump(&mut self, db: &Db, hints: &[u64]) {
        for number in hints {
            if let Some(clause) = db.get(*number) {
                self.bump_clause(clause);
            }
        }
        self.conflict = self.conflict.saturating_add(1);
        self.weight = self.weight.saturating_add(self.weight / 20);
        if self.weight >= GREAT_WEIGHT {
            self.shrink();
        }
    }

    // Makes the weight and all activities smaller.
    fn shrink(&mut self) {
        self.weight >>= SHIFT;
        for rank in self.ranks.iter_mut() {
            rank.activity >>= SHIFT;
        }
        self.heap.shrink();
        self.ranked.shrink();
    }

    // Makes the variables of a clause more active that were not yet met in this conflict.
    fn bump_clause(&mut self, clause: &Clause) {
        for literal in clause.as_slice() {
            if let Some(number) = self.numbers.get(literal.var) {
                self.bump_one(literal.var, number);
            }
        }
    }

    // Makes a variable more active that was not yet met in this conflict. Each has a value, so one
    // that is taken out of the list comes into the heap when its value is taken back.
    fn bump_one(&mut self, var: Var, number: usize) {
        let Some(rank) = self.ranks.get_mut(number) else {
            return;
        };
        if rank.conflict == self.conflict {
            return;
        }
        rank.conflict = self.conflict;
        rank.activity = rank.activity.saturating_add(self.weight);
        let activity = rank.activity;
        if !self.ranked.take_out(number) {
            self.heap.raise(Entry {
                activity,
                var,
                number,
            });
        }
    }
}
