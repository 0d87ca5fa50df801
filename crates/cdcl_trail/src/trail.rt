//! The trail of a solver. The main type is `Trail`.
ghost use Rattle.std.specs.Prelude.{◌≡◌, ◌≤◌, ◌<◌, ◌+◌, ◌↔◌, ◌^◌, ℕ, [], ◌∷◌, ◌++◌, IsTrue, IsSome, IfOk, IfSome, OnOk, OnErr, None, length, take, slice_get, option_copied, vec_capacity};
ghost use Rattle.cdcl_trail.specs.Trails.{assumed, literals_of, reasons_in, value_of, reason_of, level, level_of, up_to_level, once};
ghost use Rattle.cdcl_trail.specs.AssignmentOf.{place_in};
ghost use Rattle.cdcl_trail.specs.Propagation.{is_complete, IsConflict, Propagates};
ghost use Rattle.cdcl_trail.specs.Watched.{Extends, AreWatchedWell, KeepWatch, IsWatchable, IsWatchedAt};
ghost use Rattle.packed_literals.specs.Naming.{named};
ghost use Rattle.cdcl_trail.specs.Places.{told};
ghost use Rattle.cdcl_trail.specs.Renaming.{Meets, AreBelow, named_clause};

use crate::places::Places;
use crate::tracks::Tracks;
use cnf::{Clause, Db, Lit, Var};
use packed_literals::{Names, Packed};
use std::alloc::{AllocError, Global};
use std::marker::Model;

/// An assignment as a solver makes it, and the clauses that it took over. Contracts see the steps,
/// each with its literal and, where it was not assumed, the number of the clause that forced it;
/// the clauses; and the literals at which each is watched. Levels count from 0, on which nothing is
/// assumed. Inside, variables are numbered as they come, and all but what `literals` lends is
/// over these numbers.
#[derive(Drop)]
pub struct Trail {
    names: Names,
    tracks: Tracks,
    shown: Vec<Lit>,
    numbered: Vec<Packed>,
}

impl Model for Trail {
    ghost use Rattle.cdcl_trail.specs.Watched.{TrailState};

    ghost Value = { TrailState };

    ghost use Rattle.cdcl_trail.specs.TrailOf.{state_of, IsNamed};

    ghost view = { state_of };

    ghost invariant = { IsNamed };
}

impl Trail {
    /// No literal, on level 0, and no clause. Takes no memory.
    pub fn new(alloc: Global) -> Trail
        ensures steps { result.steps ≡ [] }
        ensures taken { result.taken ≡ [] }
    {
        Trail {
            names: Names::new(alloc),
            tracks: Tracks::new(alloc),
            shown: Vec::new(alloc),
            numbered: Vec::new(alloc),
        }
    }

    /// Assumes a literal, which opens a level. The condition is that its variable has no value. The
    /// error is want of memory, or 2^31 variables that were met; it changes nothing.
    pub fn assume(&mut self, literal: Lit) -> Result<(), AllocError>
        requires { value_of self.old.steps literal.var ≡ None }
        ensures ok { OnOk result (self.new.steps ≡ self.old.steps ++ assumed literal ∷ []) }
        ensures level { OnOk result (level self.new.steps ≡ level self.old.steps + 1) }
        ensures watch { KeepWatch self.old self.new }
        ensures err { OnErr result (self.new ≡ self.old) }
    {
        self.tracks.laws();
        self.shown.reserve(1)?;
        let number = self.names.meet(literal.var)?;
        self.tracks.assume(Packed::of(number, literal.positive))?;
        self.shown.push_reserved(literal);
        Ok(())
    }

    /// Goes back to a level: leaves the literals of it and of those below it. The condition is that
    /// it is not above the present one. Takes no memory.
    pub fn back_to(&mut self, target: u64)
        requires { target ≤ level self.old.steps }
        ensures steps { self.new.steps ≡ up_to_level target self.old.steps }
        ensures level { level self.new.steps ≡ target }
        ensures watch { KeepWatch self.old self.new }
    {
        self.tracks.back_to(target);
        self.shown.truncate(self.tracks.literals().len());
    }

    /// Takes over the clauses behind those that were taken over, and puts the literals that the clauses
    /// force on the trail, until no clause is unit or false, and answers `None`; or
    /// until a clause is false, and answers its number. The condition is that the list begins with
    /// the clauses that were taken over. The error is want of memory, or more variables, clauses or
    /// literals than four bytes can number: those that were taken over stay, some more may have
    /// come, and some literals, each of them forced.
    pub fn propagate(&mut self, db: &Db) -> Result<Option<u64>, AllocError>
        requires { Extends self.old.taken db.now.clauses }
        ensures complete { IfOk result (λ conflict. (conflict ≡ None) ↔ IsTrue (is_complete db.now.clauses self.new.steps)) }
        ensures conflict { IfOk result (λ conflict. IfSome conflict (λ number. IsConflict db.now.clauses self.new.steps number)) }
        ensures reasons { Propagates db.now.clauses self.old.steps self.new.steps }
        ensures level { level self.new.steps ≡ level self.old.steps }
        ensures taken { OnOk result (self.new.taken ≡ db.now.clauses) }
        ensures grows { Extends self.old.taken self.new.taken }
        ensures extends { Extends self.new.taken db.now.clauses }
        ensures watched { IfOk result (λ conflict. conflict ≡ None → AreWatchedWell self.new) }
    {
        self.take_all(db.as_slice())?;
        self.settle()
    }

    // Takes over the clauses that come behind those that were taken over.
    fn take_all(&mut self, clauses: &[Clause]) -> Result<(), AllocError>
        requires { Extends self.old.taken clauses.now }
        ensures steps { self.new.steps ≡ self.old.steps }
        ensures taken { OnOk result (self.new.taken ≡ clauses.now) }
        ensures grows { Extends self.old.taken self.new.taken }
        ensures extends { Extends self.new.taken clauses.now }
    {
        let mut place = self.count_taken();
        'takes: loop {
            let Some(clause) = literals_at(clauses, place) else {
                return Ok(());
            };
            self.take_one(clause)?;
            place += 1;
        }
    }

    // How many clauses were taken over.
    fn count_taken(&self) -> usize
        ensures { result ≡ length self.now.taken }
    {
        self.tracks.count_taken()
    }

    // Takes over a clause. The error changes no clause.
    fn take_one(&mut self, clause: &[Lit]) -> Result<(), AllocError>
        ensures steps { self.new.steps ≡ self.old.steps }
        ensures ok { OnOk result (self.new.taken ≡ self.old.taken ++ clause.now ∷ []) }
        ensures err { OnErr result (self.new.taken ≡ self.old.taken) }
    {
        number_all(&mut self.names, &mut self.numbered, clause)?;
        self.tracks.take_one(self.numbered.as_slice())?;
        Ok(())
    }

    // Puts the literals that the clauses force on the trail, and shows them.
    fn settle(&mut self) -> Result<Option<u64>, AllocError>
        ensures complete { IfOk result (λ conflict. (conflict ≡ None) ↔ IsTrue (is_complete self.new.taken self.new.steps)) }
        ensures conflict { IfOk result (λ conflict. IfSome conflict (λ number. IsConflict self.new.taken self.new.steps number)) }
        ensures reasons { Propagates self.new.taken self.old.steps self.new.steps }
        ensures taken { self.new.taken ≡ self.old.taken }
        ensures watched { IfOk result (λ conflict. conflict ≡ None → AreWatchedWell self.new) }
    {
        // there are never more literals than variables
        let most = self.names.as_slice().len();
        let known = self.shown.as_slice().len();
        self.shown.reserve(most.saturating_sub(known))?;
        let found = self.tracks.settle();
        self.tracks.laws();
        show(&self.names, &mut self.shown, self.tracks.literals());
        found
    }

    /// The two watched literals of a clause, which are two different literals of it. The condition is
    /// that the clause with this number was taken over and has two different literals. Takes no
    /// memory.
    pub fn watched(&self, number: u64) -> (Lit, Lit)
        requires { IsWatchable self.now number }
        ensures { IsWatchedAt self.now number result.0 result.1 }
    {
        self.tracks.laws();
        let (first, second) = self.tracks.watched(number);
        (name(&self.names, first), name(&self.names, second))
    }

    /// The value of a variable. `None` where it has none. Takes no memory.
    pub fn value(&self, var: Var) -> Option<bool>
        ensures { result ≡ value_of self.now.steps var }
    {
        match self.names.get(var) {
            None => None,
            Some(number) => self.tracks.value(number),
        }
    }

    /// The level: how many literals are assumed. Takes no memory.
    pub fn level(&self) -> u64
        ensures { result ≡ level self.now.steps }
    {
        self.tracks.level()
    }

    /// The literals, in the order in which they came. No variable comes twice. Takes no memory.
    pub fn literals(&self) -> &[Lit]
        ensures value { result.now ≡ literals_of self.now.steps }
        ensures once { IsTrue (once result.now) }
    {
        self.tracks.laws();
        self.shown.as_slice()
    }

    /// The reasons of the literals, beside them: the number of the clause that forced each, and
    /// `None` where it was assumed. Takes no memory.
    pub fn reasons(&self) -> &[Option<u64>]
        ensures { result.now ≡ reasons_in self.now.steps }
    {
        self.tracks.reasons()
    }

    /// The place of each variable among the literals. Takes no memory.
    pub fn places(&self) -> Places<'_>
        ensures { (var : ℕ) → told result var ≡ place_in (literals_of self.now.steps) var }
    {
        Places::new(&self.names, self.tracks.places())
    }

    /// The level on which a variable got its value. The condition is that it has one. Takes no
    /// memory.
    pub fn level_of(&self, var: Var) -> u64
        requires { IsSome (value_of self.now.steps var) }
        ensures { result ≡ level_of self.now.steps var }
    {
        match self.names.get(var) {
            None => 0,
            Some(number) => self.tracks.level_of(number),
        }
    }

    /// The number of the clause that forced a variable. `None` for an assumed one, and for one
    /// without a value. Takes no memory.
    pub fn reason(&self, var: Var) -> Option<u64>
        ensures { result ≡ reason_of self.now.steps var }
    {
        match self.names.get(var) {
            None => None,
            Some(number) => self.tracks.reason(number),
        }
    }
}

// The literals of the clause at a place.
fn literals_at(clauses: &[Clause], place: usize) -> Option<&[Lit]>
    ensures value { option_copied result ≡ slice_get clauses.now place }
    ensures small { IfSome result (λ _. place < usize.MAX) }
{
    match clauses.get(place) {
        None => None,
        Some(clause) => Some(clause.as_slice()),
    }
}

// The literal over the variable of a number.
fn name(names: &Names, literal: Packed) -> Lit
    requires { literal.var < length names.now }
    ensures { result ≡ named names.now literal }
{
    Lit {
        var: names.name(literal.number()),
        positive: literal.is_positive(),
    }
}

// Meets the variables of a clause, and leaves its literals over their numbers. The error is as of
// `Names::meet`.
fn number_all(
    names: &mut Names,
    numbered: &mut Vec<Packed>,
    clause: &[Lit],
) -> Result<(), AllocError>
    ensures meets { Meets names.old names.new }
    ensures below { OnOk result (AreBelow (length names.new) numbered.new.items) }
    ensures same { OnOk result (named_clause names.new numbered.new.items ≡ clause.now) }
{
    numbered.clear();
    for literal in clause {
        let number = names.meet(literal.var)?;
        numbered.push(Packed::of(number, literal.positive))?;
    }
    Ok(())
}

// Shows the literals that came, under their variables.
fn show(names: &Names, shown: &mut Vec<Lit>, literals: &[Packed])
    requires below { AreBelow (length names.now) literals.now }
    requires front { take (length shown.old.items) (named_clause names.now literals.now) ≡ shown.old.items }
    requires within { length shown.old.items ≤ length literals.now }
    requires room { length literals.now ≤ vec_capacity shown.old }
    ensures { shown.new.items ≡ named_clause names.now literals.now }
{
    let mut place = shown.as_slice().len();
    'places: loop {
        let Some(literal) = literal_at(literals, place) else {
            return;
        };
        shown.push_reserved(name(names, literal));
        place += 1;
    }
}

// The literal at a place.
fn literal_at(literals: &[Packed], place: usize) -> Option<Packed>
    ensures value { result ≡ slice_get literals.now place }
    ensures small { IfSome result (λ _. place < usize.MAX) }
{
    literals.get(place).copied()
}
