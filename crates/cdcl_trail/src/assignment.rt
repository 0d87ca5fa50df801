//! The literals that are true, in the order in which they came. The main type is `Assignment`.
ghost use Rattle.std.specs.Prelude.{◌≡◌, ◌≤◌, ◌<◌, ℕ, [], ◌∷◌, ◌++◌, IsTrue, IsSome, OnOk, OnErr, Option, Some, None, length, take, if◌then◌else◌, ◌==◌, slice_get};
ghost use Rattle.std.specs.Option.{unwrap_or};
ghost use Rattle.packed_literals.specs.DenseOf.{told, HasRoom};
ghost use Rattle.packed_literals.specs.ValuesOf.{value_told, HasValueRoom};
ghost use Rattle.cdcl_trail.specs.Trails.{Step, step, opened_by, assumed, literals_of, reasons_in, step_of, value_of, reason_of, level, level_of, up_to_level, once};
ghost use Rattle.cdcl_trail.specs.AssignmentOf.{reason_at, place_in};
ghost use Rattle.cdcl_trail.specs.Propagation.{is_value};

use packed_literals::{Dense, Packed, Values};
use std::alloc::{AllocError, Global};
use std::marker::Model;

/// The last place that a literal may have: it is kept in four bytes.
const LAST: usize = u32::MAX as usize;

/// The literals that are true, with their reasons and levels. Contracts see the steps.
#[derive(Drop)]
pub struct Assignment {
    literals: Vec<Packed>,
    reasons: Vec<Option<u64>>,
    levels: Vec<usize>,
    places: Dense<u32>,
    values: Values,
    level: usize,
}

impl Model for Assignment {
    ghost use Rattle.cdcl_trail.specs.Trails.{Steps};

    ghost Value = { Steps };

    ghost use Rattle.cdcl_trail.specs.AssignmentOf.{state_of, IsTabulated};

    ghost view = { state_of };

    ghost invariant = { IsTabulated };
}

impl Assignment {
    /// No literal, on level 0. Takes no memory.
    pub fn new(alloc: Global) -> Assignment
        ensures { result.steps ≡ [] }
    {
        Assignment {
            literals: Vec::new(alloc),
            reasons: Vec::new(alloc),
            levels: Vec::new(alloc),
            places: Dense::new(alloc),
            values: Values::new(alloc),
            level: 0,
        }
    }

    /// Goes back to a level: leaves the literals of it and of those below it. The condition is that
    /// it is not above the present one. Takes no memory.
    pub fn back_to(&mut self, target: u64)
        requires { target ≤ level self.old.steps }
        ensures steps { self.new.steps ≡ up_to_level target self.old.steps }
        ensures level { level self.new.steps ≡ target }
    {
        'steps: while self.level() > target {
            self.pop();
        }
    }

    /// The value of the variable with a number. `None` where it has none. Takes no memory.
    pub fn value(&self, number: u32) -> Option<bool>
        ensures { result ≡ value_of self.now.steps number }
    {
        self.values.get(number)
    }

    /// Whether the variable with a number has this value. Takes no memory.
    pub fn has_value(&self, number: u32, value: bool) -> bool
        ensures { result ≡ is_value (value_of self.now.steps number) value }
    {
        self.values.is(number, value)
    }

    /// The level: how many literals are assumed. Takes no memory.
    pub fn level(&self) -> u64
        ensures { result ≡ level self.now.steps }
    {
        self.level as u64
    }

    /// The literals, in the order in which they came. No variable comes twice. Takes no memory.
    pub fn literals(&self) -> &[Packed]
        ensures value { result.now ≡ literals_of self.now.steps }
        ensures once { IsTrue (once result.now) }
    {
        self.literals.as_slice()
    }

    /// The reasons of the literals, beside them: the number of the clause that forced each, and
    /// `None` where it was assumed. Takes no memory.
    pub fn reasons(&self) -> &[Option<u64>]
        ensures { result.now ≡ reasons_in self.now.steps }
    {
        self.reasons.as_slice()
    }

    /// The level on which the variable with a number got its value. The condition is that it has one. Takes no
    /// memory.
    pub fn level_of(&self, number: u32) -> u64
        requires { IsSome (value_of self.now.steps number) }
        ensures { result ≡ level_of self.now.steps number }
    {
        match self.places.get(number) {
            Some(place) => level_at(self.levels.as_slice(), place as usize),
            None => 0,
        }
    }

    /// The number of the clause that forced the variable with a number. `None` for an assumed one, and for one
    /// without a value. Takes no memory.
    pub fn reason(&self, number: u32) -> Option<u64>
        ensures { result ≡ reason_of self.now.steps number }
    {
        reason_at(self.reasons.as_slice(), self.places.get(number))
    }

    /// The place of each variable among the literals. Takes no memory.
    pub fn places(&self) -> &Dense<u32>
        ensures { (var : ℕ) → told result.now var ≡ place_in (literals_of self.now.steps) var }
    {
        &self.places
    }

    /// The place of the variable with a number among the literals, and the end where it has no value. Takes no
    /// memory.
    pub fn place(&self, number: u32) -> usize
        ensures { value_of (take result self.now.steps) number ≡ None }
    {
        match self.places.get(number) {
            Some(place) => place as usize,
            None => self.literals.as_slice().len(),
        }
    }

    // Puts a literal at the end, with its reason. The error is want of memory, and changes nothing. No
    // place past 2^32 - 1 comes, since each literal has another number of four bytes.
    pub(crate) fn put(&mut self, literal: Packed, reason: Option<u64>) -> Result<(), AllocError>
        requires { value_of self.old.steps literal.var ≡ None }
        ensures ok { OnOk result (self.new.steps ≡ self.old.steps ++ step literal reason ∷ []) }
        ensures err { OnErr result (self.new ≡ self.old) }
    {
        self.literals.reserve(1)?;
        self.reasons.reserve(1)?;
        self.levels.reserve(1)?;
        let place = self.literals.as_slice().len();
        if place > LAST {
            return Err(AllocError);
        }
        reach(&mut self.places, &mut self.values, literal.number())?;
        tell(&mut self.places, &mut self.values, literal, place as u32);
        self.level += opened_by(reason);
        self.literals.push_reserved(literal);
        self.reasons.push_reserved(reason);
        self.levels.push_reserved(self.level);
        Ok(())
    }

    // Takes the last literal away.
    fn pop(&mut self)
        requires { 0 < length self.old.steps }
        ensures { (last : Step) × (self.old.steps ≡ self.new.steps ++ last ∷ []) }
    {
        if let (Some(literal), Some(reason)) = (self.literals.pop(), self.reasons.pop()) {
            untell(&mut self.places, &mut self.values, literal);
            self.levels.truncate(self.literals.as_slice().len());
            self.level -= opened_by(reason);
        }
    }
}

// Makes room for the place and the value of the variable with a number. The error is want of
// memory.
fn reach(places: &mut Dense<u32>, values: &mut Values, number: u32) -> Result<(), AllocError>
    ensures same_places { (v : ℕ) → told places.new v ≡ told places.old v }
    ensures same_values { (v : ℕ) → value_told values.new v ≡ value_told values.old v }
    ensures places { OnOk result (HasRoom places.new number) }
    ensures values { OnOk result (HasValueRoom values.new number) }
{
    places.reach(number)?;
    values.reach(number)
}

// Tells the place and the value of a variable. The condition is that there is room for both.
fn tell(places: &mut Dense<u32>, values: &mut Values, literal: Packed, place: u32)
    requires place_room { HasRoom places.old literal.var }
    requires value_room { HasValueRoom values.old literal.var }
    ensures places { (v : ℕ) → told places.new v ≡ (if literal.var == v then Some place else told places.old v) }
    ensures values { (v : ℕ) → value_told values.new v ≡ (if literal.var == v then Some literal.positive else value_told values.old v) }
{
    let number = literal.number();
    places.tell(number, place);
    values.tell(number, literal.is_positive());
}

// Takes the place and the value of a variable away.
fn untell(places: &mut Dense<u32>, values: &mut Values, literal: Packed)
    ensures places { (v : ℕ) → told places.new v ≡ (if literal.var == v then None else told places.old v) }
    ensures values { (v : ℕ) → value_told values.new v ≡ (if literal.var == v then None else value_told values.old v) }
{
    let number = literal.number();
    places.forget(number);
    values.forget(number);
}

// The reason at a place.
fn reason_at(reasons: &[Option<u64>], place: Option<u32>) -> Option<u64>
    ensures { result ≡ reason_at reasons.now place }
{
    *reasons.get(place? as usize)?
}

// The level at a place.
fn level_at(levels: &[usize], place: usize) -> u64
    ensures { result ≡ unwrap_or (slice_get levels.now place) 0 }
{
    levels.get(place).copied().unwrap_or(0) as u64
}

// How many levels a literal opens: one where it has no reason.
fn opened_by(reason: Option<u64>) -> usize
    ensures { result ≡ opened_by reason }
{
    match reason {
        None => 1,
        Some(_) => 0,
    }
}
