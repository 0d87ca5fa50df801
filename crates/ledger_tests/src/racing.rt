//! Passes on threads of their own, each with events that its thread draws: what each is told is held against what others
//! were told before. The main call is `race_listed`.

ghost use Rattle.std.specs.Prelude.{◌≡◌, ◌<◌, ◌≤◌, length};
ghost use Rattle.std.specs.Arc.{arc_value};
ghost use Rattle.wall_ledger.specs.Turns.{AreOf};
ghost use Rattle.ledger_tests.specs.Passes.{IsOf, MayRace, StaysPass, StayPasses, model, numbers};

use crate::driving::{Draws, Setting};
use crate::knowing::{Known, Tag, known_of};
use crate::passing::{Event, Told, take_turn};
use circuit::Circuit;
use std::alloc::Global;
use std::sync::atomic::{AtomicBool, AtomicU64, Ordering};
use std::sync::{Arc, Wait};
use std::thread;
use std::thread::Threads;
use wall_ledger::{Ledger, Pass, Shown};
use wall_store::{Finished, Posted};

/// No race has more passes.
pub const RACERS: usize = 8;

// How many events each thread draws.
const EVENTS: u32 = 10;

/// Of a property, how often it was won, and whether a pass was told that it has an outcome.
#[derive(Drop)]
struct Handed {
    won: AtomicU64,
    closed: AtomicBool,
}

impl Handed {
    fn new() -> Handed {
        Handed {
            won: AtomicU64::new(0),
            closed: AtomicBool::new(false),
        }
    }

    fn win(&self) {
        let _ = self.won.fetch_add(1, Ordering::SeqCst);
        self.close();
    }

    fn close(&self) {
        self.closed.store(true, Ordering::SeqCst);
    }
}

/// What the passes of a race have been told so far: how many entries were appended, how many posts were stale, which
/// properties were handed in, and how many events went wrong.
#[derive(Drop)]
pub struct Notes {
    appended: AtomicU64,
    stale: AtomicU64,
    first: Handed,
    second: Handed,
    wrong: AtomicU64,
}

/// The same at one time: entries, stale posts, how often each property was won, whether each is closed, wrong events.
#[derive(Clone, Copy)]
pub struct SoFar {
    pub appended: u64,
    pub stale: u64,
    pub won: [u64; 2],
    pub closed: [bool; 2],
    pub wrong: u64,
}

impl Notes {
    pub fn new() -> Notes {
        Notes {
            appended: AtomicU64::new(0),
            stale: AtomicU64::new(0),
            first: Handed::new(),
            second: Handed::new(),
            wrong: AtomicU64::new(0),
        }
    }

    pub fn so_far(&self) -> SoFar {
        SoFar {
            appended: self.appended.load(Ordering::SeqCst),
            stale: self.stale.load(Ordering::SeqCst),
            won: [
                self.first.won.load(Ordering::SeqCst),
                self.second.won.load(Ordering::SeqCst),
            ],
            closed: [
                self.first.closed.load(Ordering::SeqCst),
                self.second.closed.load(Ordering::SeqCst),
            ],
            wrong: self.wrong.load(Ordering::SeqCst),
        }
    }

    fn of(&self, property: u32) -> &Handed {
        if property == 0 {
            &self.first
        } else {
            &self.second
        }
    }

    fn close_all(&self) {
        self.first.close();
        self.second.close();
    }

    fn note(&self, event: Event, told: Told) {
        match told {
            Told::Posted(Posted::Appended(_)) => {
                let _ = self.appended.fetch_add(1, Ordering::SeqCst);
            }
            Told::Posted(Posted::Stale(_)) => {
                let _ = self.stale.fetch_add(1, Ordering::SeqCst);
            }
            Told::Finished(Finished::Won) => self.of(finished(event)).win(),
            Told::Finished(Finished::Closed) => self.of(finished(event)).close(),
            Told::Posted(Posted::Closed) | Told::Opened(None) => self.close_all(),
            Told::Posted(Posted::Full) | Told::Opened(Some(_)) => {}
            Told::Seen(_) | Told::Met | Told::Nothing => {}
        }
    }

    fn note_wrong(&self) {
        let _ = self.wrong.fetch_add(1, Ordering::SeqCst);
    }
}

// The property that is finished.
fn finished(event: Event) -> u32 {
    match event {
        Event::Finish(property, _, _) => property,
        _ => 0,
    }
}

// The latch of which is posted.
fn posted(event: Event) -> u32 {
    match event {
        Event::Post(latch) => latch,
        _ => 0,
    }
}

/// An event of a pass of this number: what all had been told before, what the pass knew, what it was told, and what it then
/// knows.
#[derive(Clone, Copy)]
struct Step {
    number: u32,
    setting: Setting,
    before: SoFar,
    was: Known,
    event: Event,
    told: Told,
    is: Known,
}

impl Step {
    // Whether the pass shows an outcome of the property.
    fn shows(&self, property: u32) -> bool {
        self.is.mark(property) != Shown::Blank
    }

    // Whether it shows one of each property.
    fn shows_all(&self) -> bool {
        self.shows(0) && (!self.setting.two || self.shows(1))
    }

    // Whether each property had been closed before.
    fn was_closed(&self) -> bool {
        self.before.closed[0] && (!self.setting.two || self.before.closed[1])
    }

    fn had_closed(&self, property: u32) -> bool {
        if property == 0 {
            self.before.closed[0]
        } else {
            self.before.closed[1]
        }
    }

    // The list has what the pass knew, and as many entries as were appended before the event.
    fn sees_all(&self) -> bool {
        let given = u64::from(self.setting.given);
        self.is.list.len() as u64 >= self.before.appended.saturating_add(given)
    }

    // A mark that is not blank stays.
    fn keeps_marks(&self) -> bool {
        for property in 0..2 {
            let was = self.was.mark(property);
            if was != Shown::Blank && was != self.is.mark(property) {
                return false;
            }
        }
        true
    }

    // The entry is the last one, of this pass and turn.
    fn has_appended(&self, number: u32) -> bool {
        let own = Tag::Found(self.number, self.was.turns, u64::from(posted(self.event)));
        let number = number as usize;
        self.is.list.len() == number.saturating_add(1) && self.is.list.at(number) == Some(own)
    }

    // An entry that the pass had not seen excludes the skeleton.
    fn is_stale_by(&self, number: u32) -> bool {
        number as usize >= self.was.list.len()
            && self.is.list.first_against(posted(self.event)) == Some(number)
    }

    fn is_full(&self) -> bool {
        self.is.list.len()
            == (self.setting.limit as usize).saturating_add(usize::from(self.setting.given))
    }

    fn is_posted_right(&self, answer: Posted) -> bool {
        match answer {
            Posted::Appended(number) => !self.was_closed() && self.has_appended(number),
            Posted::Stale(number) => !self.was_closed() && self.is_stale_by(number),
            Posted::Full => !self.was_closed() && self.is_full(),
            Posted::Closed => self.shows_all(),
        }
    }

    fn is_finished_right(&self, answer: Finished) -> bool {
        let property = finished(self.event);
        match answer {
            Finished::Won => !self.had_closed(property) && self.is.mark(property) == Shown::Won,
            Finished::Closed => self.shows(property),
        }
    }

    fn is_told_right(&self) -> bool {
        match self.told {
            Told::Seen(count) => count == self.is.list.len() && self.sees_all(),
            Told::Posted(answer) => self.sees_all() && self.is_posted_right(answer),
            Told::Finished(answer) => self.is_finished_right(answer),
            Told::Opened(Some(property)) => !self.had_closed(property) && !self.shows(property),
            Told::Opened(None) => self.shows_all(),
            Told::Nothing => self.is == self.was,
            Told::Met => false,
        }
    }

    // A look and a post show the list, in a later turn of the ledger.
    fn has_stamp(&self) -> bool {
        match self.told {
            Told::Seen(_) | Told::Posted(_) => self.was.stamp < self.is.stamp,
            _ => self.was.stamp == self.is.stamp && self.was.list == self.is.list,
        }
    }

    fn is_right(&self) -> bool {
        self.was.list.begins(&self.is.list)
            && self.keeps_marks()
            && self.has_stamp()
            && self.is_told_right()
    }
}

/// Over which ledger and circuit passes race, by which seed, and where they note what they were told.
#[derive(Drop)]
pub struct Race<'a, R: Wait> {
    pub rt: &'a R,
    pub alloc: Global,
    pub ledger: &'a Ledger,
    pub circuit: &'a Arc<Circuit>,
    pub setting: Setting,
    pub notes: &'a Notes,
    pub seed: u64,
}

// One event of a pass, noted where it went wrong.
fn act<R: Wait>(race: &Race<'_, R>, pass: &mut Pass, event: Event)
    requires { MayRace race.now.setting.two race.now.ledger.now (arc_value race.now.circuit.now) pass.old }
    ensures { StaysPass pass.old pass.new }
{
    let before = race.notes.so_far();
    let was = known_of(pass);
    let number = pass.number();
    let setting = race.setting;
    match take_turn(
        race.alloc,
        race.ledger,
        race.rt,
        pass,
        race.circuit,
        setting.two,
        event,
    ) {
        Ok(told) => {
            let step = Step {
                number,
                setting,
                before,
                was,
                event,
                told,
                is: known_of(pass),
            };
            note(race.notes, &step);
        }
        Err(_) => race.notes.note_wrong(),
    }
}

fn note(notes: &Notes, step: &Step) {
    notes.note(step.event, step.told);
    if !step.is_right() {
        notes.note_wrong();
    }
}

// An event for a pass that knows this.
fn drawn(draws: &mut Draws, pass: &Pass) -> Event {
    let last = u32::try_from(pass.view().len())
        .unwrap_or(0)
        .saturating_sub(1);
    draws.event(RACERS as u32, last)
}

// The events of one pass.
fn run<R: Wait>(race: &Race<'_, R>, pass: &mut Pass)
    requires { MayRace race.now.setting.two race.now.ledger.now (arc_value race.now.circuit.now) pass.old }
    ensures { StaysPass pass.old pass.new }
{
    let own = u64::from(pass.number());
    let mut draws = Draws::new(race.seed.wrapping_mul(64).wrapping_add(own));
    for _event in 0..EVENTS {
        let event = drawn(&mut draws, pass);
        act(race, pass, event);
    }
}

fn race_each<R: Threads + Wait + Sync>(race: &Race<'_, R>, passes: &mut [Pass])
    requires of { IsOf race.now.setting.two race.now.ledger.now }
    requires circuit { arc_value race.now.circuit.now ≡ model race.now.setting.two }
    requires own { AreOf race.now.ledger.now passes.old }
    ensures { StayPasses passes.old passes.new }
{
    let rt = race.rt;
    let alloc = race.alloc;
    let ledger = race.ledger;
    let circuit = race.circuit;
    let setting = race.setting;
    let notes = race.notes;
    let seed = race.seed;
    thread::for_each_mut(
        rt,
        passes,
        RACERS,
        &move |_i: usize, pass: &mut Pass|
            requires { MayRace setting.two ledger.now (arc_value circuit.now) pass.old }
            ensures { StaysPass pass.old pass.new }
        {
            let race = Race {
                rt,
                alloc,
                ledger,
                circuit,
                setting,
                notes,
                seed,
            };
            run(&race, pass);
        },
    );
}

/// Each pass on a thread of its own, until each has had its events.
pub fn race_listed<R: Threads + Wait + Sync>(race: &Race<'_, R>, passes: &mut Vec<Pass>)
    requires of { IsOf race.now.setting.two race.now.ledger.now }
    requires circuit { arc_value race.now.circuit.now ≡ model race.now.setting.two }
    requires own { AreOf race.now.ledger.now passes.old.items }
    ensures own { AreOf race.now.ledger.now passes.new.items }
    ensures numbers { numbers passes.new.items ≡ numbers passes.old.items }
{
    race_each(race, passes);
}
