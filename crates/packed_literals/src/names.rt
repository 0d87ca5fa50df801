//! Variables, numbered as they come. The main type is `Names`.
ghost use Rattle.std.specs.Prelude.{◌≡◌, ◌≤◌, ◌<◌, ◌^◌, [], ◌∷◌, ◌++◌, IfOk, IfSome, OnOk, OnErr, Some, None, length};
ghost use Rattle.packed_literals.specs.Naming.{place_among, with_name, name_of, AreApart};

use crate::Var;
use crate::table::Table;
use std::alloc::{AllocError, Global};
use std::marker::Model;

/// There are never more names than this: both literals of each have a code below 2^32.
const MOST: usize = 1 << 31;

/// The variables that were met, each with its number. Contracts see them in the order in which they
/// came: the number of each is its place.
#[derive(Drop)]
pub struct Names {
    numbers: Table<u32>,
    names: Vec<Var>,
}

impl Model for Names {
    ghost use Rattle.std.specs.Prelude.{ℕ, List};

    ghost Value = { List ℕ };

    ghost view = { λ t. t.names.items };

    ghost use Rattle.packed_literals.specs.NamesOf.{IsInterned};

    ghost invariant = { IsInterned };
}

impl Names {
    /// No variable. Takes no memory.
    pub fn new(alloc: Global) -> Names
        ensures { result ≡ [] }
    {
        Names {
            numbers: Table::new(alloc),
            names: Vec::new(alloc),
        }
    }

    /// The number of a variable. `None` where it was not met. Takes no memory.
    #[tactic(auto, using(crate::proofs::NamingLaws::place_below))]
    pub fn get(&self, var: Var) -> Option<u32>
        ensures number { result ≡ place_among self.now var }
        ensures small { IfSome result (λ number. number < 2 ^ 31) }
    {
        self.numbers.get(var)
    }

    /// The number of a variable, which is the next one where it was not met before. The error is
    /// want of memory, or 2^31 variables that were met; it changes nothing.
    #[tactic(auto, using(crate::proofs::NamingLaws::with_known, crate::proofs::NamingLaws::with_new, crate::proofs::NamingLaws::place_of_new))]
    pub fn meet(&mut self, var: Var) -> Result<u32, AllocError>
        ensures number { IfOk result (λ number. place_among self.new var ≡ Some number) }
        ensures small { IfOk result (λ number. number < 2 ^ 31) }
        ensures ok { OnOk result (self.new ≡ with_name self.old var) }
        ensures err { OnErr result (self.new ≡ self.old) }
    {
        match self.get(var) {
            Some(number) => Ok(number),
            None => self.add(var),
        }
    }

    // Gives a new variable the next number. The error is as of `meet`.
    fn add(&mut self, var: Var) -> Result<u32, AllocError>
        requires { place_among self.old var ≡ None }
        ensures number { IfOk result (λ number. number ≡ length self.old) }
        ensures small { IfOk result (λ number. number < 2 ^ 31) }
        ensures ok { OnOk result (self.new ≡ self.old ++ var ∷ []) }
        ensures err { OnErr result (self.new ≡ self.old) }
    {
        let length = self.names.as_slice().len();
        if length >= MOST {
            return Err(AllocError);
        }
        self.names.reserve(1)?;
        self.numbers.insert(var, length as u32)?;
        self.names.push_reserved(var);
        Ok(length as u32)
    }

    /// The variable with a number. The condition is that there is one. Takes no memory.
    pub fn name(&self, number: u32) -> Var
        requires { number < length self.now }
        ensures value { result ≡ name_of self.now number }
        ensures back { place_among self.now result ≡ Some number }
    {
        self.names.as_slice()[number as usize]
    }

    /// The variables, in the order in which they came. None comes twice. Takes no memory.
    pub fn as_slice(&self) -> &[Var]
        ensures names { result.now ≡ self.now }
        ensures apart { AreApart self.now }
        ensures few { length self.now ≤ 2 ^ 31 }
    {
        self.names.as_slice()
    }
}
