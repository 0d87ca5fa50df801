//! The values of variables that are numbered as they come. The main type is `Values`.
ghost use Rattle.std.specs.Prelude.{◌≡◌, ◌<◌, ℕ, OnOk, None, Some, length, if◌then◌else◌, ◌==◌};
ghost use Rattle.packed_literals.specs.ValuesOf.{is_value, value_in, value_at, value_told, HasValueRoom};

use std::alloc::{AllocError, Global};

/// A byte that stands for a value, or for none.
#[derive(Clone, Copy)]
pub enum Byte {
    Nothing,
    False,
    True,
}

/// The values of variables, in a list by their numbers.
#[derive(Drop)]
pub struct Values {
    bytes: Vec<Byte>,
}

impl Values {
    /// No variable has a value. Takes no memory.
    pub fn new(alloc: Global) -> Values
        ensures { (n : ℕ) → value_told result n ≡ None }
    {
        Values {
            bytes: Vec::new(alloc),
        }
    }

    /// The value of the variable with a number. `None` where it has none. Takes no memory.
    pub fn get(&self, number: u32) -> Option<bool>
        ensures { result ≡ value_told self.now number }
    {
        value_in(self.bytes.as_slice().get(number as usize).copied())
    }

    /// Whether the variable with a number has this value. Takes no memory.
    pub fn is(&self, number: u32, value: bool) -> bool
        ensures { result ≡ is_value (value_told self.now number) value }
    {
        stands_for(self.bytes.as_slice().get(number as usize).copied(), value)
    }

    /// Makes room for the value of the variable with a number. The error is want of memory.
    pub fn reach(&mut self, number: u32) -> Result<(), AllocError>
        ensures same { (n : ℕ) → value_told self.new n ≡ value_told self.old n }
        ensures room { OnOk result (HasValueRoom self.new number) }
    {
        let place = number as usize;
        if place < self.bytes.len() {
            return Ok(());
        }
        lengthen(&mut self.bytes, place)
    }

    /// Gives a variable a value. The condition is that there is room for it. Takes no memory.
    pub fn tell(&mut self, number: u32, value: bool)
        requires { HasValueRoom self.old number }
        ensures { (n : ℕ) → value_told self.new n ≡ (if number == n then Some value else value_told self.old n) }
    {
        write(&mut self.bytes, number as usize, value);
    }

    /// Takes the value of a variable away. Takes no memory.
    pub fn forget(&mut self, number: u32)
        ensures { (n : ℕ) → value_told self.new n ≡ (if number == n then None else value_told self.old n) }
    {
        clear(&mut self.bytes, number as usize);
    }
}

// The value that a byte stands for.
fn value_in(byte: Option<Byte>) -> Option<bool>
    ensures { result ≡ value_in byte }
{
    match byte {
        None => None,
        Some(Byte::Nothing) => None,
        Some(Byte::False) => Some(false),
        Some(Byte::True) => Some(true),
    }
}

// Whether a byte stands for a value.
fn stands_for(byte: Option<Byte>, value: bool) -> bool
    ensures { result ≡ is_value (value_in byte) value }
{
    match byte {
        None => false,
        Some(Byte::Nothing) => false,
        Some(Byte::False) => !value,
        Some(Byte::True) => value,
    }
}

// The byte of a value.
fn byte_of(value: bool) -> Byte
    ensures { value_in (Some result) ≡ Some value }
{
    if value { Byte::True } else { Byte::False }
}

// Puts no value behind, until there is a place.
fn lengthen(bytes: &mut Vec<Byte>, place: usize) -> Result<(), AllocError>
    ensures same { (n : ℕ) → value_at bytes.new.items n ≡ value_at bytes.old.items n }
    ensures room { OnOk result (place < length bytes.new.items) }
{
    let length = place.saturating_add(1);
    if bytes.len() < length {
        bytes.resize(length, Byte::Nothing)?;
    }
    Ok(())
}

// Puts a value at a place.
fn write(bytes: &mut Vec<Byte>, place: usize, value: bool)
    requires { place < length bytes.old.items }
    ensures { (n : ℕ) → value_at bytes.new.items n ≡ (if place == n then Some value else value_at bytes.old.items n) }
{
    bytes[place] = byte_of(value);
}

// Takes the value at a place away.
fn clear(bytes: &mut Vec<Byte>, place: usize)
    ensures { (n : ℕ) → value_at bytes.new.items n ≡ (if place == n then None else value_at bytes.old.items n) }
{
    if place < bytes.len() {
        bytes[place] = Byte::Nothing;
    }
}
