//! What is told of variables: numbers, or values. The main type is `Table`.
ghost use Rattle.std.specs.Prelude.{◌≡◌, ℕ, OnOk, OnErr, Option, None, Some, if◌then◌else◌, ◌==◌};
ghost use Rattle.packed_literals.specs.Tables.{near_of, told};

use crate::Var;
use std::alloc::{AllocError, Global};
use std::collections::BTreeMap;

/// What is told of variables below this one stands in a list.
const NEAR: u64 = 1 << 20;

/// What is told of variables: of small variables in a list, by their variables, and of others in a
/// map.
#[derive(Drop)]
pub struct Table<T> {
    near: Vec<Option<T>>,
    far: BTreeMap<u64, T>,
}

impl<T: Copy> Table<T> {
    /// Nothing is told of a variable. Takes no memory.
    pub fn new(alloc: Global) -> Table<T>
        ensures { (var : ℕ) → told result var ≡ None }
    {
        Table {
            near: Vec::new(alloc),
            far: BTreeMap::new(alloc),
        }
    }

    /// What is told of a variable. `None` where nothing is. Takes no memory.
    pub fn get(&self, var: Var) -> Option<T>
        ensures { result ≡ told self.now var }
    {
        if var < NEAR {
            read(self.near.as_slice(), var as usize)
        } else {
            self.far.get(&var).copied()
        }
    }

    /// Tells something of a variable. The error is want of memory, and leaves all as it was.
    pub fn insert(&mut self, var: Var, thing: T) -> Result<(), AllocError>
        ensures updates { OnOk result ((v : ℕ) → told self.new v ≡ (if var == v then Some thing else told self.old v)) }
        ensures err { OnErr result ((v : ℕ) → told self.new v ≡ told self.old v) }
    {
        if var < NEAR {
            return write(&mut self.near, var as usize, thing);
        }
        self.far.insert(var, thing)?;
        Ok(())
    }

    /// Takes what is told of a variable away. Takes no memory.
    pub fn remove(&mut self, var: Var)
        ensures { (v : ℕ) → told self.new v ≡ (if var == v then None else told self.old v) }
    {
        if var < NEAR {
            clear(&mut self.near, var as usize);
        } else {
            self.far.remove(&var);
        }
    }
}

// What is told at a place.
fn read<T: Copy>(near: &[Option<T>], place: usize) -> Option<T>
    ensures { result ≡ near_of near.now place }
{
    near.get(place).copied().unwrap_or(None)
}

// Tells something at a place, with nothing before it where the list is too short.
fn write<T: Copy>(near: &mut Vec<Option<T>>, place: usize, thing: T) -> Result<(), AllocError>
    ensures ok { OnOk result ((n : ℕ) → near_of near.new.items n ≡ (if place == n then Some thing else near_of near.old.items n)) }
    ensures err { OnErr result (near.new.items ≡ near.old.items) }
{
    let length = place.saturating_add(1);
    if near.len() < length {
        near.resize(length, None)?;
    }
    near[place] = Some(thing);
    Ok(())
}

// Takes what is told at a place away.
fn clear<T: Copy>(near: &mut Vec<Option<T>>, place: usize)
    ensures { (n : ℕ) → near_of near.new.items n ≡ (if place == n then None else near_of near.old.items n) }
{
    if place < near.len() {
        near[place] = None;
    }
}
