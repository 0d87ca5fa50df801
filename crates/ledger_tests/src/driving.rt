//! Events that are drawn, on a ledger and on a plain board alike. The main call is `drive`.

ghost use Rattle.std.specs.Prelude.{◌≡◌, IfOk};
ghost use Rattle.std.specs.Arc.{arc_value};
ghost use Rattle.ledger_tests.specs.Passes.{model};

use crate::finds::circuit;
use crate::knowing::{MOST, PASSES, Tag, Tags, Wanted, known_of};
use crate::passes::{Passes, closed, passes_of};
use crate::passing::{Event, Told};
use crate::plain::{By, Plain};
use circuit::Circuit;
use entry::EntryEnd;
use std::alloc::{AllocError, Global};
use std::sync::{Arc, Wait};
use wall_store::{Board, Finished, Outcome, Posted};

/// A xorshift generator (Marsaglia, 2003).
#[derive(Drop)]
pub struct Draws {
    state: u64,
}

impl Draws {
    /// One with this seed.
    pub fn new(seed: u64) -> Draws {
        Draws {
            state: seed.wrapping_mul(0x9E37_79B9_7F4A_7C15) | 1,
        }
    }

    /// A number below `count`, and 0 where that is 0.
    pub fn below(&mut self, count: u64) -> u64 {
        self.state ^= self.state << 13;
        self.state ^= self.state >> 7;
        self.state ^= self.state << 17;
        (self.state >> 11).checked_rem(count).unwrap_or(0)
    }

    fn small(&mut self, count: u32) -> u32 {
        u32::try_from(self.below(u64::from(count))).unwrap_or(0)
    }

    fn index(&mut self, count: u32) -> usize {
        self.small(count) as usize
    }

    /// What a pass of so many does, whose list ends with this entry.
    pub fn event(&mut self, passes: u32, last: u32) -> Event {
        match self.below(16) {
            0..=1 => Event::Look,
            2..=7 => Event::Post(self.latch()),
            8..=10 => Event::Finish(self.small(2), self.used(last), self.below(2) == 0),
            11..=12 => Event::Open(self.small(4)),
            _ => Event::Meet(self.index(passes)),
        }
    }

    // The entry that a refutation uses: mostly the last one, which alone may say that the first latch is 0.
    fn used(&mut self, last: u32) -> u32 {
        if self.below(4) == 0 {
            self.small(MOST as u32)
        } else {
            last
        }
    }

    // The first latch, which ends the growth of the list, is drawn more rarely than the others.
    fn latch(&mut self) -> u32 {
        let drawn = self.small(16);
        if drawn == 0 {
            0
        } else {
            (drawn % 5).saturating_add(1)
        }
    }
}

/// What is driven: how many passes there are, two properties or one, how many entries may come, an entry that is given
/// or none.
#[derive(Clone, Copy)]
pub struct Setting {
    pub passes: u32,
    pub two: bool,
    pub limit: u32,
    pub given: bool,
}

impl Setting {
    /// One of up to so many passes.
    pub fn drawn(draws: &mut Draws, most: u32) -> Setting {
        Setting {
            passes: draws.small(most).saturating_add(1),
            two: draws.below(3) != 0,
            limit: draws.small(MOST as u32),
            given: draws.below(2) == 0,
        }
    }
}

/// How often each answer came: seen; appended, stale, full, closed to a post; won, closed to an outcome; an open
/// property, none; met; nothing.
pub type Tally = [u32; 11];

fn kind(told: Told) -> usize {
    match told {
        Told::Seen(_) => 0,
        Told::Posted(Posted::Appended(_)) => 1,
        Told::Posted(Posted::Stale(_)) => 2,
        Told::Posted(Posted::Full) => 3,
        Told::Posted(Posted::Closed) => 4,
        Told::Finished(Finished::Won) => 5,
        Told::Finished(Finished::Closed) => 6,
        Told::Opened(Some(_)) => 7,
        Told::Opened(None) => 8,
        Told::Met => 9,
        Told::Nothing => 10,
    }
}

fn count(tally: &mut Tally, kind: usize) {
    if kind < 11 {
        tally[kind] = tally[kind].saturating_add(1);
    }
}

/// A ledger and a plain board, what the passes are to know, and how often each answer came.
#[derive(Drop)]
struct Pair {
    passes: Passes,
    plain: Plain,
    wanted: Wanted,
    tally: Tally,
}

/// The circuit, shared.
pub fn shared(alloc: Global, two: bool) -> Result<Arc<Circuit>, AllocError>
    ensures { IfOk result (λ c. arc_value c ≡ model two) }
{
    match circuit(alloc, two) {
        Ok(c) => Ok(Arc::new(alloc, c)?),
        Err(_) => Err(AllocError),
    }
}

// The list that is given: no entry, or one.
fn given_tags(given: bool) -> Tags {
    let mut tags = Tags::none();
    if given {
        tags.push(Tag::Given);
    }
    tags
}

fn pair_of(alloc: Global, setting: Setting) -> Result<Pair, EntryEnd> {
    let two = setting.two;
    let sizes = (setting.passes, setting.limit);
    let passes = passes_of(alloc, shared(alloc, two)?, two, sizes, setting.given)?;
    let given = given_tags(setting.given);
    Ok(Pair {
        passes,
        plain: Plain::new(given, two, setting.limit),
        wanted: Wanted::new(given, two),
        tally: [0; 11],
    })
}

fn all_know(all: &Passes, wanted: &Wanted) -> bool {
    for (at, pass) in all.passes.iter().enumerate() {
        if wanted.of(at) != Some(known_of(pass)) {
            return false;
        }
    }
    true
}

// What the plain board tells, where the pass may do so.
fn ask_board(pair: &mut Pair, at: usize, event: Event) -> Option<Told> {
    if !pair.wanted.may(at, event) {
        return Some(Told::Nothing);
    }
    let turn = pair.wanted.of(at)?.turns;
    let worker = u32::try_from(at).ok()?;
    Some(pair.plain.take_turn(worker, turn, event))
}

// Whether the pass is told what the plain board tells, and each pass then knows what it is to know.
fn step<R: Wait>(alloc: Global, rt: &R, pair: &mut Pair, at: usize, event: Event) -> bool {
    let Ok(told) = pair.passes.take_turn(alloc, rt, at, event) else {
        return false;
    };
    let Some(wanted) = ask_board(pair, at, event) else {
        return false;
    };
    count(&mut pair.tally, kind(told));
    pair.wanted.note(at, event, told, pair.plain.list());
    told == wanted && all_know(&pair.passes, &pair.wanted)
}

fn last_of(wanted: &Wanted, at: usize) -> u32 {
    let count = wanted.of(at).map_or(0, |known| known.list.len());
    u32::try_from(count).unwrap_or(0).saturating_sub(1)
}

/// What the board has of the property.
pub fn outcome(board: &Board, property: u32) -> Option<By> {
    match board.outcome(property)? {
        Outcome::Holds(r) => {
            let entry = r.uses.as_slice().first()?.entry;
            Some((entry, *r.proof.as_slice().first()?.as_slice().first()?))
        }
        Outcome::Lasso(_) => None,
    }
}

// The board is the plain one, with so many workers and entries that were given.
fn is_same(board: &Board, plain: &Plain, setting: Setting) -> bool {
    Tags::of(board.entries()) == plain.list()
        && [outcome(board, 0), outcome(board, 1)] == plain.outcomes()
        && board.limit() as usize == plain.limit()
        && board.workers() == setting.passes
        && board.given() == u32::from(setting.given)
}

/// How many events went right before the first that did not, whether the ledger's board is at the end as the plain one,
/// and how often each answer came.
#[derive(Clone, Copy)]
pub struct Driven {
    pub right: u32,
    pub ends: bool,
    pub tally: Tally,
}

// How many of so many drawn events go right before the first that does not.
fn steps_right<R: Wait>(
    alloc: Global,
    rt: &R,
    setting: Setting,
    draws: &mut Draws,
    pair: &mut Pair,
    events: u32,
) -> u32 {
    for k in 0..events {
        let at = draws.index(setting.passes);
        let event = draws.event(setting.passes, last_of(&pair.wanted, at));
        if !step(alloc, rt, pair, at, event) {
            return k;
        }
    }
    events
}

fn ends_same(pair: Pair, setting: Setting) -> bool {
    let Pair { passes, plain, .. } = pair;
    is_same(&closed(passes), &plain, setting)
}

/// So many events, drawn by this seed; nothing where memory was refused before them.
pub fn drive<R: Wait>(alloc: Global, rt: &R, seed: u64, events: u32) -> Option<Driven> {
    let mut draws = Draws::new(seed);
    let setting = Setting::drawn(&mut draws, PASSES as u32);
    let Ok(mut pair) = pair_of(alloc, setting) else {
        return None;
    };
    let right = steps_right(alloc, rt, setting, &mut draws, &mut pair, events);
    let tally = pair.tally;
    let ends = ends_same(pair, setting);
    Some(Driven { right, ends, tally })
}
