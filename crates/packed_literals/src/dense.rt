//! What is told of variables, by their numbers. The main type is `Dense`.
ghost use Rattle.std.specs.Prelude.{◌≡◌, ◌<◌, ℕ, OnOk, None, Some, length, if◌then◌else◌, ◌==◌};
ghost use Rattle.packed_literals.specs.DenseOf.{thing_at, told, HasRoom};

use std::alloc::{AllocError, Global};

/// What is told of variables, by their numbers, which have no gaps, in a list.
#[derive(Drop)]
pub struct Dense<T> {
    things: Vec<Option<T>>,
}

impl<T: Copy> Dense<T> {
    /// Nothing is told of a number. Takes no memory.
    pub fn new(alloc: Global) -> Dense<T>
        ensures { (n : ℕ) → told result n ≡ None }
    {
        Dense {
            things: Vec::new(alloc),
        }
    }

    /// What is told of a number. `None` where nothing is. Takes no memory.
    pub fn get(&self, number: u32) -> Option<T>
        ensures { result ≡ told self.now number }
    {
        let place = number as usize;
        self.things.as_slice().get(place).copied().unwrap_or(None)
    }

    /// Makes room for what is told of a number. The error is want of memory.
    pub fn reach(&mut self, number: u32) -> Result<(), AllocError>
        ensures same { (n : ℕ) → told self.new n ≡ told self.old n }
        ensures room { OnOk result (HasRoom self.new number) }
    {
        let place = number as usize;
        if place < self.things.len() {
            return Ok(());
        }
        lengthen(&mut self.things, place)
    }

    /// Tells something of a number. The condition is that there is room for it. Takes no memory.
    pub fn tell(&mut self, number: u32, thing: T)
        requires { HasRoom self.old number }
        ensures { (n : ℕ) → told self.new n ≡ (if number == n then Some thing else told self.old n) }
    {
        write(&mut self.things, number as usize, thing);
    }

    /// Takes what is told of a number away. Takes no memory.
    pub fn forget(&mut self, number: u32)
        ensures { (n : ℕ) → told self.new n ≡ (if number == n then None else told self.old n) }
    {
        clear(&mut self.things, number as usize);
    }
}

// Puts nothing behind, until there is a place.
fn lengthen<T: Copy>(things: &mut Vec<Option<T>>, place: usize) -> Result<(), AllocError>
    ensures same { (n : ℕ) → thing_at things.new.items n ≡ thing_at things.old.items n }
    ensures room { OnOk result (place < length things.new.items) }
{
    let length = place.saturating_add(1);
    if things.len() < length {
        things.resize(length, None)?;
    }
    Ok(())
}

// Tells something at a place.
fn write<T: Copy>(things: &mut Vec<Option<T>>, place: usize, thing: T)
    requires { place < length things.old.items }
    ensures { (n : ℕ) → thing_at things.new.items n ≡ (if place == n then Some thing else thing_at things.old.items n) }
{
    things[place] = Some(thing);
}

// Takes what is told at a place away.
fn clear<T: Copy>(things: &mut Vec<Option<T>>, place: usize)
    ensures { (n : ℕ) → thing_at things.new.items n ≡ (if place == n then None else thing_at things.old.items n) }
{
    if place < things.len() {
        things[place] = None;
    }
}
