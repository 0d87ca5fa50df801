//! Races of passes on threads of their own, and what they leave: the board at the end is held against what each pass then
//! knows, and what all were told.

use crate::driving::{Draws, Setting, outcome, shared};
use crate::knowing::{Known, Tags, known_of};
use crate::passes::{Passes, closed, passes_of};
use crate::racing::{Notes, RACERS, SoFar};
use std::alloc::Global;
use std::sync::Wait;
use std::test::*;
use std::thread::Threads;
use wall_ledger::Shown;
use wall_store::Board;

// What up to `RACERS` passes know at the end.
#[derive(Clone, Copy)]
struct Ends {
    known: [Option<Known>; RACERS],
}

impl Ends {
    fn of(all: &Passes) -> Ends {
        let mut known = [None; RACERS];
        for (at, pass) in all.passes.iter().enumerate() {
            if at < RACERS {
                known[at] = Some(known_of(pass));
            }
        }
        Ends { known }
    }

    // How many passes show that they won the property.
    fn winners(&self, property: u32) -> u64 {
        let mut count: u64 = 0;
        for k in 0..RACERS {
            if let Some(known) = self.known[k] {
                count = count.saturating_add(u64::from(known.mark(property) == Shown::Won));
            }
        }
        count
    }

    // The list begins with that of each pass.
    fn all_begin(&self, list: &Tags) -> bool {
        for k in 0..RACERS {
            if let Some(known) = self.known[k] {
                if !known.list.begins(list) {
                    return false;
                }
            }
        }
        true
    }
}

// The property was won once exactly where it has an outcome, and one pass shows it.
fn is_won_right(board: &Board, ends: &Ends, told: &SoFar, property: u32) -> bool {
    let won = if property == 0 {
        told.won[0]
    } else {
        told.won[1]
    };
    won == u64::from(outcome(board, property).is_some()) && ends.winners(property) == won
}

// The board has what was appended, behind what was given, and nothing that a pass knew is lost.
fn is_left(board: &Board, ends: &Ends, told: &SoFar, setting: Setting) -> bool {
    let given = u64::from(setting.given);
    told.wrong == 0
        && board.entries().len() as u64 == told.appended.saturating_add(given)
        && ends.all_begin(&Tags::of(board.entries()))
        && is_won_right(board, ends, told, 0)
        && is_won_right(board, ends, told, 1)
}

fn passes_drawn(alloc: Global, setting: Setting) -> Option<Passes> {
    let circuit = shared(alloc, setting.two).ok()?;
    let sizes = (setting.passes, setting.limit);
    passes_of(alloc, circuit, setting.two, sizes, setting.given).ok()
}

// What passes were told in a race that is drawn by the seed, where all went right.
fn race<R: Threads + Wait + Sync>(alloc: Global, rt: &R, seed: u64) -> Option<SoFar> {
    let mut draws = Draws::new(seed);
    let setting = Setting::drawn(&mut draws, RACERS as u32);
    let mut all = passes_drawn(alloc, setting)?;
    let notes = Notes::new();
    all.race(alloc, rt, setting, &notes, seed);
    let ends = Ends::of(&all);
    let told = notes.so_far();
    if is_left(&closed(all), &ends, &told, setting) {
        Some(told)
    } else {
        None
    }
}

// How often entries were appended, posts stale, and properties won.
#[derive(Clone, Copy)]
struct Sums {
    appended: u64,
    stale: u64,
    won: u64,
}

fn added(sums: Sums, told: &SoFar) -> Sums {
    let won = told.won[0].saturating_add(told.won[1]);
    Sums {
        appended: sums.appended.saturating_add(told.appended),
        stale: sums.stale.saturating_add(told.stale),
        won: sums.won.saturating_add(won),
    }
}

// The sums over so many races, and the seed of the first that went wrong.
fn races<R: Threads + Wait + Sync>(alloc: Global, rt: &R, seeds: u64) -> (Sums, Option<u64>) {
    let mut sums = Sums {
        appended: 0,
        stale: 0,
        won: 0,
    };
    for seed in 0..seeds {
        match race(alloc, rt, seed) {
            Some(told) => sums = added(sums, &told),
            None => return (sums, Some(seed)),
        }
    }
    (sums, None)
}

/// Up to eight passes on threads of their own, at the same time: each is told what is so by what all were told before, and
/// nothing is lost.
#[test]
fn raced(rt: HostRuntime) -> Result<(), Fail> {
    let (sums, wrong) = races(rt.alloc(), &rt, 1000);
    assert_eq!(rt; wrong, None);
    assert!(rt; sums.appended > 0 && sums.stale > 0 && sums.won > 0);
    Ok(())
}
