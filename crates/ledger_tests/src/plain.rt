//! A board as its rules say it, of the test's own, with no lock before it. The main type is `Plain`.

use crate::knowing::{Tag, Tags};
use crate::passing::{Event, Told};
use wall_store::{Finished, Posted};

/// What stands for a refutation: which entry it uses, and the first byte of its proof.
pub type By = (u32, u8);

/// The list by the tags of its entries, how long it may become, and the outcomes of the properties 0 and 1.
#[derive(Clone, Copy)]
pub struct Plain {
    list: Tags,
    limit: usize,
    two: bool,
    outcomes: [Option<By>; 2],
}

impl Plain {
    /// A board with two properties or one, and room for so many entries behind those that are given.
    pub fn new(given: Tags, two: bool, more: u32) -> Plain {
        Plain {
            list: given,
            limit: given.len().saturating_add(more as usize),
            two,
            outcomes: [None; 2],
        }
    }

    /// Its list.
    pub fn list(&self) -> Tags {
        self.list
    }

    /// How many entries its list may have.
    pub fn limit(&self) -> usize {
        self.limit
    }

    /// The outcomes of the properties 0 and 1.
    pub fn outcomes(&self) -> [Option<By>; 2] {
        self.outcomes
    }

    // The property is served and has no outcome.
    fn is_open(&self, property: u32) -> bool {
        match property {
            0 => self.outcomes[0].is_none(),
            1 => self.two && self.outcomes[1].is_none(),
            _ => false,
        }
    }

    // The least open property from this one on; where there is none, the least of all.
    fn open(&self, from: u32) -> Option<u32> {
        for property in from..2 {
            if self.is_open(property) {
                return Some(property);
            }
        }
        (0..2).find(|&property| self.is_open(property))
    }

    // Closed where no property is open; else full; else stale; else appended.
    fn post(&mut self, author: u32, turn: u32, latch: u32) -> Posted {
        if self.open(0).is_none() {
            return Posted::Closed;
        }
        if self.list.len() >= self.limit {
            return Posted::Full;
        }
        if let Some(number) = self.list.first_against(latch) {
            return Posted::Stale(number);
        }
        let number = u32::try_from(self.list.len()).unwrap_or(u32::MAX);
        self.list.push(Tag::Found(author, turn, u64::from(latch)));
        Posted::Appended(number)
    }

    // The first outcome stays.
    fn finish(&mut self, property: u32, entry: u32, other: bool) -> Finished {
        let open = self.is_open(property);
        if open && property < 2 {
            let byte = if other { b'2' } else { b'1' };
            self.outcomes[property as usize] = Some((entry, byte));
            Finished::Won
        } else {
            Finished::Closed
        }
    }

    /// What the pass with this number is told in that turn of its own. Where passes meet, nothing happens here.
    pub fn take_turn(&mut self, at: u32, turn: u32, event: Event) -> Told {
        match event {
            Event::Look => Told::Seen(self.list.len()),
            Event::Post(latch) => Told::Posted(self.post(at, turn, latch)),
            Event::Finish(property, entry, other) => {
                Told::Finished(self.finish(property, entry, other))
            }
            Event::Open(from) => Told::Opened(self.open(from)),
            Event::Meet(_) => Told::Met,
        }
    }
}
