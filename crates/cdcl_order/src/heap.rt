//! A binary heap of variables by their activities. The main type is `Heap`. No contract of a search
//! rests on it.
ghost use Rattle.std.specs.Prelude.{◌≡◌, [], length};

use cdcl_trail::Trail;
use cnf::Var;
use std::alloc::{AllocError, Global};

/// The place of a variable that is not in the heap.
const NOWHERE: usize = usize::MAX;

/// By how many bits weights and activities are made smaller at once.
pub(crate) const SHIFT: u32 = 32;

/// More steps than a heap is deep.
const DEEP: u32 = 64;

/// A variable in the heap, by its number, with what it is compared by.
#[derive(Clone, Copy)]
pub(crate) struct Entry {
    pub(crate) activity: u64,
    pub(crate) var: Var,
    pub(crate) number: usize,
}

impl Entry {
    /// Whether the variable is decided before another: it is more active, or as active and smaller.
    pub(crate) fn precedes(&self, other: &Entry) -> bool {
        if self.activity == other.activity {
            return self.var < other.var;
        }
        self.activity > other.activity
    }
}

/// Variables, of which the one that is decided first stands at the top; and the place of each, by
/// its number.
#[derive(Drop)]
pub(crate) struct Heap {
    entries: Vec<Entry>,
    places: Vec<usize>,
}

impl Heap {
    /// No variable. Takes no memory.
    pub(crate) fn new(alloc: Global) -> Heap
        ensures { result.entries.items ≡ [] }
    {
        Heap {
            entries: Vec::new(alloc),
            places: Vec::new(alloc),
        }
    }

    /// How many variables it has. Takes no memory.
    pub(crate) fn len(&self) -> usize
        ensures { result ≡ length self.now.entries.items }
    {
        self.entries.as_slice().len()
    }

    /// The variable that is decided first. Takes no memory.
    pub(crate) fn first(&self) -> Option<Entry> {
        self.at(0)
    }

    /// Takes the variable that is decided first. Takes no memory.
    pub(crate) fn take(&mut self) -> Option<Entry> {
        let first = self.at(0)?;
        let last = self.entries.pop()?;
        self.set_place(first.number, NOWHERE);
        if !self.entries.is_empty() {
            self.sink(last);
        }
        Some(first)
    }

    /// Takes out variables until the first one has no value. Takes no memory.
    pub(crate) fn drop_valued(&mut self, trail: &Trail) {
        for _turn in 0..self.len() {
            let Some(top) = self.first() else {
                break;
            };
            if trail.value(top.var).is_none() {
                break;
            }
            self.take();
        }
    }

    /// Whether it has the variable with a number. Takes no memory.
    pub(crate) fn has(&self, number: usize) -> bool {
        self.place(number) < NOWHERE
    }

    /// Puts a variable into the heap, if it is not there.
    pub(crate) fn insert(&mut self, entry: Entry) -> Result<(), AllocError> {
        if self.has(entry.number) {
            return Ok(());
        }
        let count = entry.number.saturating_add(1);
        if self.places.len() < count {
            self.places.resize(count, NOWHERE)?;
        }
        let place = self.entries.len();
        self.entries.push(entry)?;
        self.rise(place, entry);
        Ok(())
    }

    /// Makes a variable more active, if it is there. Takes no memory.
    pub(crate) fn raise(&mut self, entry: Entry) {
        let place = self.place(entry.number);
        if place < self.entries.len() {
            self.rise(place, entry);
        }
    }

    /// Makes each activity smaller by `SHIFT` bits. Takes no memory.
    pub(crate) fn shrink(&mut self) {
        for entry in self.entries.iter_mut() {
            entry.activity >>= SHIFT;
        }
    }

    // Puts a variable at a place of the heap, or above it where it belongs.
    fn rise(&mut self, start: usize, entry: Entry) {
        let mut place = start;
        for _step in 0..DEEP {
            if place == 0 {
                break;
            }
            let above = (place - 1) / 2;
            let Some(upper) = self.at(above) else {
                break;
            };
            if !entry.precedes(&upper) {
                break;
            }
            self.put(place, upper);
            place = above;
        }
        self.put(place, entry);
    }

    // Puts a variable at the top of the heap, or below it where it belongs.
    fn sink(&mut self, entry: Entry) {
        let mut place = 0;
        for _step in 0..DEEP {
            let Some((below, lower)) = self.first_below(place) else {
                break;
            };
            if !lower.precedes(&entry) {
                break;
            }
            self.put(place, lower);
            place = below;
        }
        self.put(place, entry);
    }

    // The one of the two variables below a place of the heap that is decided first, with its place.
    fn first_below(&self, place: usize) -> Option<(usize, Entry)> {
        let left = place.saturating_mul(2).saturating_add(1);
        let right = left.saturating_add(1);
        let one = self.at(left)?;
        match self.at(right) {
            Some(other) if other.precedes(&one) => Some((right, other)),
            _ => Some((left, one)),
        }
    }

    // The variable at a place of the heap.
    fn at(&self, place: usize) -> Option<Entry> {
        self.entries.as_slice().get(place).copied()
    }

    // The place of the variable with a number.
    fn place(&self, number: usize) -> usize {
        self.places
            .as_slice()
            .get(number)
            .copied()
            .unwrap_or(NOWHERE)
    }

    // Writes the variable at a place of the heap.
    fn put(&mut self, place: usize, entry: Entry) {
        if let Some(kept) = self.entries.get_mut(place) {
            *kept = entry;
        }
        self.set_place(entry.number, place);
    }

    // Writes the place of the variable with a number.
    fn set_place(&mut self, number: usize, place: usize) {
        if let Some(kept) = self.places.get_mut(number) {
            *kept = place;
        }
    }
}
