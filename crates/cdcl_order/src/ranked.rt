//! The variables in the order in which they are decided, as it was when they were put in order. The
//! main type is `Ranked`. No contract of a search rests on it.
ghost use Rattle.std.specs.Prelude.{◌≡◌, []};

use crate::heap::{Entry, Heap, SHIFT};
use cdcl_trail::Trail;
use std::alloc::{AllocError, Global};

/// The place of a variable that is not in the list, and the number of one that was taken out.
const NOWHERE: usize = usize::MAX;

/// The list is put in order anew where a heap has more than a sixteenth of as many variables.
const PART: usize = 16;

/// Variables, the one that is decided first at the front; beside each whether it waits to be decided;
/// and the place of each, by its number. Each that does not wait, or stands before the place `next`,
/// has a value, or was taken out.
#[derive(Drop)]
pub(crate) struct Ranked {
    list: Vec<Entry>,
    waits: Vec<bool>,
    places: Vec<usize>,
    next: usize,
}

impl Ranked {
    /// No variable. Takes no memory.
    pub(crate) fn new(alloc: Global) -> Ranked
        ensures { result.list.items ≡ [] }
    {
        Ranked {
            list: Vec::new(alloc),
            waits: Vec::new(alloc),
            places: Vec::new(alloc),
            next: 0,
        }
    }

    /// The variable that comes first, or one that has a value, or was taken out, and stood before it.
    /// Takes no memory.
    pub(crate) fn front(&self) -> Option<Entry> {
        self.list.as_slice().get(self.next).copied()
    }

    /// The first variable without a value. Takes no memory.
    pub(crate) fn first_open(&mut self, trail: &Trail) -> Option<Entry> {
        for place in self.next..self.list.len() {
            if self.waits(place) {
                let one = self.list.as_slice().get(place).copied()?;
                if trail.value(one.var).is_none() {
                    self.next = place;
                    return Some(one);
                }
                self.set_waiting(place, false);
            }
        }
        self.next = self.list.len();
        None
    }

    // Whether the variable at a place waits.
    fn waits(&self, place: usize) -> bool {
        self.waits.as_slice().get(place).copied().unwrap_or(false)
    }

    // Writes whether the variable at a place waits.
    fn set_waiting(&mut self, place: usize, waits: bool) {
        if let Some(kept) = self.waits.get_mut(place) {
            *kept = waits;
        }
    }

    /// Lets a variable wait again, where it is in the list, and tells whether it is. Takes no memory.
    pub(crate) fn keep(&mut self, number: usize) -> bool {
        let Some(place) = self.places.as_slice().get(number).copied() else {
            return false;
        };
        let Some(kept) = self.waits.get_mut(place) else {
            return false;
        };
        *kept = true;
        if place < self.next {
            self.next = place;
        }
        true
    }

    /// Takes a variable out of the list, and tells whether it was there. Takes no memory.
    pub(crate) fn take_out(&mut self, number: usize) -> bool {
        let Some(kept) = self.places.get_mut(number) else {
            return false;
        };
        let place = *kept;
        *kept = NOWHERE;
        match self.list.get_mut(place) {
            None => false,
            Some(one) => {
                one.number = NOWHERE;
                self.set_waiting(place, false);
                true
            }
        }
    }

    /// Makes each activity smaller by `SHIFT` bits. Takes no memory.
    pub(crate) fn shrink(&mut self) {
        for one in self.list.iter_mut() {
            one.activity >>= SHIFT;
        }
    }

    /// Takes over all variables of a heap that has many, and leaves those out that have a value. Their
    /// numbers are below the count. Takes its room first, so that want of memory loses no variable.
    pub(crate) fn put_in_order(
        &mut self,
        alloc: Global,
        heap: &mut Heap,
        trail: &Trail,
        count: usize,
    ) -> Result<(), AllocError> {
        if heap.len() <= self.list.len() / PART {
            return Ok(());
        }
        if self.places.len() < count {
            self.places.resize(count, NOWHERE)?;
        }
        let most = self.list.len().saturating_add(heap.len());
        let mut list = Vec::new(alloc);
        list.reserve(most)?;
        if self.waits.len() < most {
            self.waits.resize(most, false)?;
        }
        merge(&mut list, self.list.as_slice(), heap, trail)?;
        self.list = list;
        self.next = 0;
        self.find_places();
        Ok(())
    }

    // Writes the places of all, and that each waits.
    fn find_places(&mut self) {
        for waits in self.waits.iter_mut() {
            *waits = true;
        }
        for kept in self.places.iter_mut() {
            *kept = NOWHERE;
        }
        for (place, one) in self.list.iter().enumerate() {
            if let Some(kept) = self.places.get_mut(one.number) {
                *kept = place;
            }
        }
    }
}

// Pushes the variables of a list and of a heap in their order, but those that have a value, or were
// taken out.
fn merge(
    all: &mut Vec<Entry>,
    list: &[Entry],
    heap: &mut Heap,
    trail: &Trail,
) -> Result<(), AllocError> {
    for one in list {
        push_before(all, heap, Some(one), trail)?;
        push_open(all, *one, trail)?;
    }
    push_before(all, heap, None, trail)
}

// Pushes the variables of a heap that come before this one; all of them where there is none.
fn push_before(
    all: &mut Vec<Entry>,
    heap: &mut Heap,
    one: Option<&Entry>,
    trail: &Trail,
) -> Result<(), AllocError> {
    for _turn in 0..heap.len() {
        let Some(top) = heap.first() else {
            break;
        };
        if one.is_some_and(|other| other.precedes(&top)) {
            break;
        }
        push_open(all, top, trail)?;
        heap.take();
    }
    Ok(())
}

// Pushes a variable, but one that has a value, or was taken out.
fn push_open(all: &mut Vec<Entry>, one: Entry, trail: &Trail) -> Result<(), AllocError> {
    if one.number < NOWHERE && trail.value(one.var).is_none() {
        all.push(one)?;
    }
    Ok(())
}
