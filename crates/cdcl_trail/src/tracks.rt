//! A trail over numbers of variables. The main type is `Tracks`.
ghost use Rattle.std.specs.Prelude.{◌≡◌, ◌≤◌, ◌<◌, ◌+◌, ◌-◌, ◌↔◌, ℕ, [], ◌∷◌, ◌++◌, IsTrue, IsSome, IfOk, IfSome, OnOk, OnErr, None, length, slice_get};
ghost use Rattle.packed_literals.specs.DenseOf.{told};
ghost use Rattle.cdcl_trail.specs.Trails.{assumed, literals_of, reasons_in, value_of, reason_of, level, level_of, up_to_level, once};
ghost use Rattle.cdcl_trail.specs.AssignmentOf.{place_in};
ghost use Rattle.cdcl_trail.specs.Propagation.{is_complete, IsConflict, Propagates};
ghost use Rattle.cdcl_trail.specs.Renaming.{ArePaired};
ghost use Rattle.cdcl_trail.specs.Watched.{AreWatchedWell, KeepWatch, IsWatchable, IsWatchedAt};
ghost use Rattle.cdcl_trail.specs.TracksOf.{AreLowered};
ghost use Rattle.std.specs.Option.{unwrap_or};

use crate::assignment::Assignment;
use crate::choosing::{latest_pair, lesser, pair_false_from};
use crate::propagation::{settle_singles, settle_steps};
use crate::watching::Watching;
use packed_literals::{Dense, Packed};
use std::alloc::{AllocError, Global};
use std::marker::Model;

/// How far propagation has come: over how many steps, and over how many of the clauses without two
/// different literals.
#[derive(Clone, Copy)]
pub struct Reached {
    pub steps: usize,
    pub singles: usize,
}

/// An assignment as a solver makes it, and the clauses that it took over. Contracts see the steps,
/// each with its literal and, where it was not assumed, the number of the clause that forced it;
/// the clauses; and the literals at which each is watched. Levels count from 0, on which nothing is
/// assumed.
#[derive(Drop)]
pub struct Tracks {
    assignment: Assignment,
    watching: Watching,
    reached: Reached,
    saved: Vec<Reached>,
}

impl Model for Tracks {
    ghost use Rattle.cdcl_trail.specs.Watched.{TrailState};

    ghost Value = { TrailState };

    ghost use Rattle.cdcl_trail.specs.TracksOf.{state_of, IsSound};

    ghost view = { state_of };

    ghost invariant = { IsSound };
}

impl Tracks {
    /// No literal, on level 0, and no clause. Takes no memory.
    pub fn new(alloc: Global) -> Tracks
        ensures steps { result.steps ≡ [] }
        ensures taken { result.taken ≡ [] }
    {
        Tracks {
            assignment: Assignment::new(alloc),
            watching: Watching::new(alloc),
            reached: Reached {
                steps: 0,
                singles: 0,
            },
            saved: Vec::new(alloc),
        }
    }

    /// Assumes a literal, which opens a level. The condition is that its variable has no value. The
    /// error is want of memory, and changes nothing.
    pub fn assume(&mut self, literal: Packed) -> Result<(), AllocError>
        requires { value_of self.old.steps literal.var ≡ None }
        ensures ok { OnOk result (self.new.steps ≡ self.old.steps ++ assumed literal ∷ []) }
        ensures level { OnOk result (level self.new.steps ≡ level self.old.steps + 1) }
        ensures watch { KeepWatch self.old self.new }
        ensures err { OnErr result (self.new ≡ self.old) }
    {
        self.saved.reserve(1)?;
        self.assignment.put(literal, None)?;
        self.saved.push_reserved(self.reached);
        Ok(())
    }

    /// Goes back to a level: leaves the literals of it and of those below it. The condition is that
    /// it is not above the present one. Takes no memory.
    pub fn back_to(&mut self, target: u64)
        requires { target ≤ level self.old.steps }
        ensures steps { self.new.steps ≡ up_to_level target self.old.steps }
        ensures level { level self.new.steps ≡ target }
        ensures watch { KeepWatch self.old self.new }
    {
        self.assignment.back_to(target);
        self.reached = reached_at(self.saved.as_slice(), target as usize, self.reached);
        self.saved.truncate(target as usize);
    }

    /// How many clauses were taken over. Takes no memory.
    pub fn count_taken(&self) -> usize
        ensures { result ≡ length self.now.taken }
    {
        self.watching.places.as_slice().len()
    }

    /// Takes over a clause. The error is want of memory, and changes no clause.
    pub fn take_one(&mut self, clause: &[Packed]) -> Result<(), AllocError>
        ensures steps { self.new.steps ≡ self.old.steps }
        ensures ok { OnOk result (self.new.taken ≡ self.old.taken ++ clause.now ∷ []) }
        ensures err { OnErr result (self.new.taken ≡ self.old.taken) }
    {
        // propagation goes back to where a watched literal is false already
        let pair = latest_pair(&self.assignment, clause);
        let bound = pair_false_from(&self.assignment, &pair);
        self.watching.keep(clause, pair)?;
        self.reached = lowered(self.reached, bound);
        lower(&mut self.saved, bound);
        Ok(())
    }

    /// Puts the literals that the clauses force on the trail, until no clause is unit or false, and
    /// answers `None`; or until a clause is false, and answers its number. The error is want of
    /// memory: some literals may have come, each of them forced.
    pub fn settle(&mut self) -> Result<Option<u64>, AllocError>
        ensures complete { IfOk result (λ conflict. (conflict ≡ None) ↔ IsTrue (is_complete self.new.taken self.new.steps)) }
        ensures conflict { IfOk result (λ conflict. IfSome conflict (λ number. IsConflict self.new.taken self.new.steps number)) }
        ensures reasons { Propagates self.new.taken self.old.steps self.new.steps }
        ensures taken { self.new.taken ≡ self.old.taken }
        ensures watched { IfOk result (λ conflict. conflict ≡ None → AreWatchedWell self.new) }
    {
        if let Some(conflict) = settle_singles(
            &mut self.assignment,
            &self.watching,
            &mut self.reached.singles,
        )? {
            return Ok(Some(conflict));
        }
        settle_steps(
            &mut self.assignment,
            &mut self.watching,
            &mut self.reached.steps,
        )
    }

    /// The two watched literals of a clause, which are two different literals of it. The condition is
    /// that the clause with this number was taken over and has two different literals. Takes no
    /// memory.
    pub fn watched(&self, number: u64) -> (Packed, Packed)
        requires { IsWatchable self.now number }
        ensures { IsWatchedAt self.now number result.0 result.1 }
    {
        match self.watching.pair(place_of(number)) {
            Some(pair) => (pair.first, pair.second),
            None => (Packed::of(0, true), Packed::of(0, true)),
        }
    }

    /// The value of the variable with a number. `None` where it has none. Takes no memory.
    pub fn value(&self, number: u32) -> Option<bool>
        ensures { result ≡ value_of self.now.steps number }
    {
        self.assignment.value(number)
    }

    /// The level: how many literals are assumed. Takes no memory.
    pub fn level(&self) -> u64
        ensures { result ≡ level self.now.steps }
    {
        self.assignment.level()
    }

    /// The literals, in the order in which they came. No variable comes twice. Takes no memory.
    pub fn literals(&self) -> &[Packed]
        ensures value { result.now ≡ literals_of self.now.steps }
        ensures once { IsTrue (once result.now) }
    {
        self.assignment.literals()
    }

    /// The reasons of the literals, beside them: the number of the clause that forced each, and
    /// `None` where it was assumed. Takes no memory.
    pub fn reasons(&self) -> &[Option<u64>]
        ensures { result.now ≡ reasons_in self.now.steps }
    {
        self.assignment.reasons()
    }

    /// The place of each variable among the literals. Takes no memory.
    pub fn places(&self) -> &Dense<u32>
        ensures { (var : ℕ) → told result.now var ≡ place_in (literals_of self.now.steps) var }
    {
        self.assignment.places()
    }

    /// Does nothing. Its contract says what holds of each trail.
    pub fn laws(&self)
        ensures paired { ArePaired self.now }
        ensures once { IsTrue (once (literals_of self.now.steps)) }
    {
        let _literals = self.assignment.literals();
    }

    /// The level on which the variable with a number got its value. The condition is that it has one. Takes no
    /// memory.
    pub fn level_of(&self, number: u32) -> u64
        requires { IsSome (value_of self.now.steps number) }
        ensures { result ≡ level_of self.now.steps number }
    {
        self.assignment.level_of(number)
    }

    /// The number of the clause that forced the variable with a number. `None` for an assumed one, and for one
    /// without a value. Takes no memory.
    pub fn reason(&self, number: u32) -> Option<u64>
        ensures { result ≡ reason_of self.now.steps number }
    {
        self.assignment.reason(number)
    }
}

// The place of the clause with a number.
fn place_of(number: u64) -> usize
    ensures { result ≡ number - 1 }
{
    number.saturating_sub(1) as usize
}

// Brings each place down to the bound, where it is above.
fn lower(saved: &mut Vec<Reached>, bound: usize)
    ensures { AreLowered saved.old.items bound saved.new.items }
{
    let mut place = 0;
    'levels: loop {
        let Some(old) = reached_in(saved.as_slice(), place) else {
            return;
        };
        saved[place] = lowered(old, bound);
        place += 1;
    }
}

// What is saved at a place.
fn reached_in(saved: &[Reached], place: usize) -> Option<Reached>
    ensures value { result ≡ slice_get saved.now place }
    ensures small { IfSome result (λ _. place < usize.MAX) }
{
    saved.get(place).copied()
}

// The same, with its place of steps not above the bound.
fn lowered(reached: Reached, bound: usize) -> Reached
    ensures fewer { result.steps ≤ reached.steps }
    ensures under { result.steps ≤ bound }
    ensures same { result.singles ≡ reached.singles }
{
    Reached {
        steps: lesser(reached.steps, bound),
        singles: reached.singles,
    }
}

// How far propagation had come when a level was left for the next, and how far it has come where it
// was not.
fn reached_at(saved: &[Reached], target: usize, present: Reached) -> Reached
    ensures { result ≡ unwrap_or (slice_get saved.now target) present }
{
    saved.get(target).copied().unwrap_or(present)
}
