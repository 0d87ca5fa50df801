//! What passes are to know, as a test keeps it: of each pass a copy of its list, its stamp, turns and marks.

use crate::passing::{Event, Told};
use entry::{Checked, Origin};
use std::sync::Arc;
use wall_ledger::{Pass, Shown};
use wall_store::{Finished, Posted};

/// No list of these tests is longer.
pub const MOST: usize = 8;

/// No ledger of these tests has more passes.
pub const PASSES: usize = 6;

/// By what entries are told apart: one is given, or it has an author, a turn, and the latch that it speaks of.
#[derive(Clone, Copy, PartialEq, Eq)]
pub enum Tag {
    Given,
    Found(u32, u32, u64),
}

/// A list, by the tags of its entries.
#[derive(Clone, Copy, PartialEq, Eq)]
pub struct Tags {
    tags: [Tag; MOST],
    count: usize,
}

impl Tags {
    /// Those of no entry.
    pub fn none() -> Tags {
        Tags {
            tags: [Tag::Given; MOST],
            count: 0,
        }
    }

    /// The tags of these entries.
    pub fn of(entries: &[Arc<Checked>]) -> Tags {
        let mut tags = Tags::none();
        for e in entries {
            tags.push(tag_of(&**e));
        }
        tags
    }

    /// How many entries it has.
    pub fn len(&self) -> usize {
        self.count
    }

    /// The tag of the entry with this number.
    pub fn at(&self, number: usize) -> Option<Tag> {
        if number < self.count && number < MOST {
            Some(self.tags[number])
        } else {
            None
        }
    }

    /// Whether the other list begins with this one.
    pub fn begins(&self, other: &Tags) -> bool {
        for number in 0..MOST {
            if number < self.count && self.at(number) != other.at(number) {
                return false;
            }
        }
        self.count <= other.count
    }

    // The entry with this number says that this latch is 0.
    fn speaks_of(&self, number: usize, latch: u32) -> bool {
        if number >= self.count || number >= MOST {
            return false;
        }
        match self.tags[number] {
            Tag::Found(_, _, k) => k == u64::from(latch),
            Tag::Given => false,
        }
    }

    /// The first entry that excludes the skeleton in which the first latch and this one are 1.
    pub fn first_against(&self, latch: u32) -> Option<u32> {
        for number in 0..MOST as u32 {
            if self.speaks_of(number as usize, latch) || self.speaks_of(number as usize, 0) {
                return Some(number);
            }
        }
        None
    }

    /// One entry more. A tag is kept where the list had less than `MOST`.
    pub fn push(&mut self, tag: Tag) {
        if self.count < MOST {
            self.tags[self.count] = tag;
        }
        self.count = self.count.saturating_add(1);
    }
}

fn latch_of(e: &Checked) -> Option<u64> {
    Some(e.listed().set.as_slice().first()?.as_slice().first()?.var)
}

fn tag_of(e: &Checked) -> Tag {
    match e.origin() {
        Origin::Given => Tag::Given,
        Origin::Worker(work) => Tag::Found(
            work.author,
            work.turn,
            latch_of(e).unwrap_or(MOST as u64),
        ),
    }
}

/// What a pass knows.
#[derive(Clone, Copy, PartialEq, Eq)]
pub struct Known {
    pub list: Tags,
    pub stamp: u64,
    pub turns: u32,
    pub marks: [Shown; 2],
}

impl Known {
    /// What the pass shows of property 0 or 1.
    pub fn mark(&self, property: u32) -> Shown {
        if property == 0 {
            self.marks[0]
        } else {
            self.marks[1]
        }
    }
}

/// What this pass knows.
pub fn known_of(pass: &Pass) -> Known {
    Known {
        list: Tags::of(pass.view()),
        stamp: pass.stamp(),
        turns: pass.turns(),
        marks: [pass.mark(0), pass.mark(1)],
    }
}

/// What the passes are to know, how many turns were taken, and whether property 1 is served too.
#[derive(Clone, Copy)]
pub struct Wanted {
    passes: [Known; PASSES],
    turns: u64,
    two: bool,
}

impl Wanted {
    /// New passes, which have seen the given list.
    pub fn new(given: Tags, two: bool) -> Wanted {
        let first = Known {
            list: given,
            stamp: 0,
            turns: 0,
            marks: [Shown::Blank; 2],
        };
        Wanted {
            passes: [first; PASSES],
            turns: 0,
            two,
        }
    }

    /// What the pass with this number is to know.
    pub fn of(&self, at: usize) -> Option<Known> {
        if at < PASSES {
            Some(self.passes[at])
        } else {
            None
        }
    }

    /// Whether the pass may do this: it posts nothing that its list excludes, and a refutation is of a property that is
    /// served and uses an entry of its list that says that the first latch is 0.
    pub fn may(&self, at: usize, event: Event) -> bool {
        let Some(known) = self.of(at) else {
            return false;
        };
        match event {
            Event::Look | Event::Open(_) => true,
            Event::Post(latch) => known.list.first_against(latch).is_none(),
            Event::Finish(property, entry, _) => {
                property <= u32::from(self.two) && known.list.speaks_of(entry as usize, 0)
            }
            Event::Meet(other) => other != at,
        }
    }

    /// The pass did this and was told that; the list is then this one.
    pub fn note(&mut self, at: usize, event: Event, told: Told, list: Tags) {
        match told {
            Told::Nothing => {}
            Told::Met => {
                if let Event::Meet(other) = event {
                    self.meet(at, other);
                }
            }
            _ => self.note_turn(at, event, told, list),
        }
    }

    // The one with the lesser stamp takes the list of the other.
    fn meet(&mut self, one: usize, other: usize) {
        let (Some(a), Some(b)) = (self.of(one), self.of(other)) else {
            return;
        };
        let more = if a.stamp <= b.stamp { b } else { a };
        self.show(one, more.list, more.stamp);
        self.show(other, more.list, more.stamp);
    }

    fn show(&mut self, at: usize, list: Tags, stamp: u64) {
        if at < PASSES {
            self.passes[at].list = list;
            self.passes[at].stamp = stamp;
        }
    }

    fn note_turn(&mut self, at: usize, event: Event, told: Told, list: Tags) {
        self.turns = self.turns.saturating_add(1);
        if is_shown(told) {
            self.show(at, list, self.turns);
        }
        if at < PASSES {
            let known = self.passes[at];
            self.passes[at] = Known {
                list: known.list,
                stamp: known.stamp,
                turns: known.turns.saturating_add(1),
                marks: [
                    mark_after(known.marks[0], 0, event, told),
                    if self.two {
                        mark_after(known.marks[1], 1, event, told)
                    } else {
                        Shown::Blank
                    },
                ],
            };
        }
    }
}

// A look and a post show the list.
fn is_shown(told: Told) -> bool {
    match told {
        Told::Seen(_) | Told::Posted(_) => true,
        Told::Finished(_) | Told::Opened(_) | Told::Met | Told::Nothing => false,
    }
}

// What the pass then shows of the property: what it won stays.
fn mark_after(was: Shown, property: u32, event: Event, told: Told) -> Shown {
    if was == Shown::Won {
        return was;
    }
    if told == Told::Finished(Finished::Won) && is_handed_in(event, property) {
        return Shown::Won;
    }
    if is_closed(property, event, told) {
        return Shown::Closed;
    }
    was
}

// An outcome of this property was handed in.
fn is_handed_in(event: Event, property: u32) -> bool {
    match event {
        Event::Finish(j, _, _) => j == property,
        _ => false,
    }
}

// The pass was told that the property has an outcome.
fn is_closed(property: u32, event: Event, told: Told) -> bool {
    match told {
        Told::Posted(Posted::Closed) | Told::Opened(None) => true,
        Told::Finished(Finished::Closed) => is_handed_in(event, property),
        Told::Opened(Some(found)) => is_passed(property, event, found),
        _ => false,
    }
}

// A search for an open property that ended at `found` came to this one before.
fn is_passed(property: u32, event: Event, found: u32) -> bool {
    match event {
        Event::Open(from) => place(property, from) < place(found, from),
        _ => false,
    }
}

// Where the property stands in a search that begins at `from` and goes on with the least.
fn place(property: u32, from: u32) -> u64 {
    let round: u64 = if property < from { 4_294_967_296 } else { 0 };
    round.saturating_add(u64::from(property))
}
