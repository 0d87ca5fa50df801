//! What passes are told and know, event by event, and the board at the end.

use crate::boards::stuck;
use crate::driving::{Tally, drive, shared};
use crate::passes::{Passes, closed, passes_of};
use crate::passing::{Event, Told};
use crate::reading::{StuckPasses, stuck_closed, stuck_passes};
use entry::{Checked, EntryEnd, Origin};
use std::alloc::Global;
use std::sync::{Arc, Wait};
use std::test::*;
use wall_ledger::{Pass, Shown};
use wall_store::{Board, Finished, Outcome, Posted};

// How many entries a pass has seen, its stamp, its turns, and its marks of the properties 0 and 1.
type Known = (usize, u64, u32, [Shown; 2]);

// A pass, what it does, what it is told, and what it then knows.
type Row = (usize, Event, Told, Known);

// How many entries the board has, the author of the last one, and of the properties 0 and 1 the first byte of the proof.
type End = (usize, Option<u32>, [Option<u8>; 2]);

// Two properties or one, how many workers, how many entries may come, an entry that is given or none.
type Start = (bool, (u32, u32), bool);

const NONE: [Shown; 2] = [Shown::Blank, Shown::Blank];

const APPENDED: Told = Told::Posted(Posted::Appended(0));

const STALE: Told = Told::Posted(Posted::Stale(0));

const FULL: Told = Told::Posted(Posted::Full);

const WON: Told = Told::Finished(Finished::Won);

const LATE: Told = Told::Finished(Finished::Closed);

// The second of two that find the same is told so; each then reads back what stands there.
const BOTH_POST: [Row; 6] = [
    (0, Event::Look, Told::Seen(0), (0, 1, 1, NONE)),
    (1, Event::Look, Told::Seen(0), (0, 2, 1, NONE)),
    (0, Event::Post(0), APPENDED, (1, 3, 2, NONE)),
    (1, Event::Post(0), STALE, (1, 4, 2, NONE)),
    (0, Event::Look, Told::Seen(1), (1, 5, 3, NONE)),
    (1, Event::Look, Told::Seen(1), (1, 6, 3, NONE)),
];

// A pass that has seen an entry by a meeting finishes with it, and the other comes too late.
const MEET: [Row; 6] = [
    (0, Event::Look, Told::Seen(0), (0, 1, 1, NONE)),
    (1, Event::Look, Told::Seen(0), (0, 2, 1, NONE)),
    (0, Event::Post(0), APPENDED, (1, 3, 2, NONE)),
    (1, Event::Meet(0), Told::Met, (1, 3, 1, NONE)),
    (
        1,
        Event::Finish(0, 0, true),
        WON,
        (1, 3, 2, [Shown::Won, Shown::Blank]),
    ),
    (
        0,
        Event::Finish(0, 0, false),
        LATE,
        (1, 3, 3, [Shown::Closed, Shown::Blank]),
    ),
];

const NO_ROOM: [Row; 2] = [
    (0, Event::Look, Told::Seen(0), (0, 1, 1, NONE)),
    (0, Event::Post(0), FULL, (0, 2, 2, NONE)),
];

// Own entries and those of others are read back by a look.
const READ_BACK: [Row; 5] = [
    (0, Event::Post(0), APPENDED, (1, 1, 1, NONE)),
    (0, Event::Look, Told::Seen(1), (1, 2, 2, NONE)),
    (2, Event::Look, Told::Seen(1), (1, 3, 1, NONE)),
    (1, Event::Post(0), STALE, (1, 4, 1, NONE)),
    (1, Event::Post(0), Told::Nothing, (1, 4, 1, NONE)),
];

// A search passes over settled properties and marks them; where all are settled a post is closed.
const MARKS: [Row; 11] = [
    (0, Event::Post(0), APPENDED, (1, 1, 1, NONE)),
    (
        0,
        Event::Finish(0, 0, false),
        WON,
        (1, 1, 2, [Shown::Won, Shown::Blank]),
    ),
    (
        1,
        Event::Open(0),
        Told::Opened(Some(1)),
        (0, 0, 1, [Shown::Closed, Shown::Blank]),
    ),
    (
        0,
        Event::Open(1),
        Told::Opened(Some(1)),
        (1, 1, 3, [Shown::Won, Shown::Blank]),
    ),
    (
        0,
        Event::Open(2),
        Told::Opened(Some(1)),
        (1, 1, 4, [Shown::Won, Shown::Blank]),
    ),
    (
        1,
        Event::Finish(1, 0, true),
        Told::Nothing,
        (0, 0, 1, [Shown::Closed, Shown::Blank]),
    ),
    (
        1,
        Event::Look,
        Told::Seen(1),
        (1, 6, 2, [Shown::Closed, Shown::Blank]),
    ),
    (
        1,
        Event::Finish(1, 0, true),
        WON,
        (1, 6, 3, [Shown::Closed, Shown::Won]),
    ),
    (
        0,
        Event::Open(0),
        Told::Opened(None),
        (1, 1, 5, [Shown::Won, Shown::Closed]),
    ),
    (
        2,
        Event::Post(0),
        Told::Posted(Posted::Closed),
        (1, 9, 1, [Shown::Closed, Shown::Closed]),
    ),
    (
        0,
        Event::Finish(0, 0, true),
        LATE,
        (1, 1, 6, [Shown::Won, Shown::Closed]),
    ),
];

// Each pass has seen the given entry, which no turn needs to show; the limit is above it.
const GIVEN: [Row; 5] = [
    (0, Event::Open(7), Told::Opened(Some(0)), (1, 0, 1, NONE)),
    (
        0,
        Event::Post(0),
        Told::Posted(Posted::Appended(1)),
        (2, 2, 2, NONE),
    ),
    (1, Event::Post(0), FULL, (2, 3, 1, NONE)),
    (
        1,
        Event::Finish(0, 0, false),
        Told::Nothing,
        (2, 3, 1, NONE),
    ),
    (
        1,
        Event::Finish(0, 1, false),
        WON,
        (2, 3, 2, [Shown::Won, Shown::Blank]),
    ),
];

const GIVEN_NO_ROOM: [Row; 1] = [(1, Event::Post(0), FULL, (1, 1, 1, NONE))];

const GIVEN_STALE: [Row; 3] = [
    (
        1,
        Event::Post(0),
        Told::Posted(Posted::Appended(1)),
        (2, 1, 1, NONE),
    ),
    (
        0,
        Event::Post(0),
        Told::Posted(Posted::Stale(1)),
        (2, 2, 1, NONE),
    ),
    (2, Event::Meet(0), Told::Met, (2, 2, 0, NONE)),
];

fn known(pass: &Pass) -> Known {
    (
        pass.view().len(),
        pass.stamp(),
        pass.turns(),
        [pass.mark(0), pass.mark(1)],
    )
}

/// Passes that take turns.
trait TakesTurns {
    fn told<R: Wait>(
        &mut self,
        alloc: Global,
        rt: &R,
        at: usize,
        event: Event,
    ) -> Result<Told, EntryEnd>;

    fn passes(&self) -> &[Pass];
}

impl TakesTurns for Passes {
    fn told<R: Wait>(
        &mut self,
        alloc: Global,
        rt: &R,
        at: usize,
        event: Event,
    ) -> Result<Told, EntryEnd> {
        self.take_turn(alloc, rt, at, event)
    }

    fn passes(&self) -> &[Pass] {
        self.passes.as_slice()
    }
}

impl TakesTurns for StuckPasses {
    fn told<R: Wait>(
        &mut self,
        alloc: Global,
        rt: &R,
        at: usize,
        event: Event,
    ) -> Result<Told, EntryEnd> {
        self.take_turn(alloc, rt, at, event)
    }

    fn passes(&self) -> &[Pass] {
        self.passes.as_slice()
    }
}

fn row_is<R: Wait, T: TakesTurns>(
    alloc: Global,
    rt: &R,
    all: &mut T,
    row: &Row,
) -> Result<bool, EntryEnd> {
    let (at, event, wanted, then) = row;
    let told = all.told(alloc, rt, *at, *event)?;
    Ok(told == *wanted && knows(all.passes(), *at, *then))
}

fn knows(passes: &[Pass], at: usize, then: Known) -> bool {
    match passes.get(at) {
        Some(pass) => known(pass) == then,
        None => false,
    }
}

fn rows_are<R: Wait, T: TakesTurns>(
    alloc: Global,
    rt: &R,
    all: &mut T,
    rows: &[Row],
) -> Result<bool, EntryEnd> {
    for row in rows {
        if !row_is(alloc, rt, all, row)? {
            return Ok(false);
        }
    }
    Ok(true)
}

fn author(entries: &[Arc<Checked>]) -> Option<u32> {
    match entries.last()?.origin() {
        Origin::Worker(work) => Some(work.author),
        Origin::Given => None,
    }
}

fn first_byte(outcome: Option<&Outcome>) -> Option<u8> {
    match outcome? {
        Outcome::Holds(r) => r.proof.as_slice().first()?.as_slice().first().copied(),
        Outcome::Lasso(_) => None,
    }
}

fn is_end(board: &Board, wanted: End) -> bool {
    let (count, last, bytes) = wanted;
    board.entries().len() == count
        && author(board.entries()) == last
        && first_byte(board.outcome(0)) == bytes[0]
        && first_byte(board.outcome(1)) == bytes[1]
}

fn ends_so(board: Board, wanted: End) -> bool {
    let is_so = is_end(&board, wanted);
    drop(board);
    is_so
}

fn passes_at(alloc: Global, start: Start) -> Result<Passes, EntryEnd> {
    let (two, numbers, given) = start;
    passes_of(alloc, shared(alloc, two)?, two, numbers, given)
}

// Whether each row of a script is right, and its end.
fn script_is<R: Wait>(
    alloc: Global,
    rt: &R,
    start: Start,
    rows: &[Row],
    wanted: End,
) -> Result<bool, EntryEnd> {
    let mut all = passes_at(alloc, start)?;
    let are_right = rows_are(alloc, rt, &mut all, rows);
    let is_so = ends_so(closed(all), wanted);
    Ok(are_right? && is_so)
}

// ---- the scripts of an empty list, and of a list with an entry that is given

fn both_post_is<R: Wait>(alloc: Global, rt: &R) -> Result<bool, EntryEnd> {
    let end = (1, Some(0), [None, None]);
    script_is(alloc, rt, (false, (2, 2), false), &BOTH_POST, end)
}

fn meet_is<R: Wait>(alloc: Global, rt: &R) -> Result<bool, EntryEnd> {
    let end = (1, Some(0), [Some(b'2'), None]);
    script_is(alloc, rt, (false, (2, 2), false), &MEET, end)
}

fn no_room_is<R: Wait>(alloc: Global, rt: &R) -> Result<bool, EntryEnd> {
    let end = (0, None, [None, None]);
    script_is(alloc, rt, (false, (2, 0), false), &NO_ROOM, end)
}

fn read_back_is<R: Wait>(alloc: Global, rt: &R) -> Result<bool, EntryEnd> {
    let end = (1, Some(0), [None, None]);
    script_is(alloc, rt, (false, (3, 2), false), &READ_BACK, end)
}

fn marks_is<R: Wait>(alloc: Global, rt: &R) -> Result<bool, EntryEnd> {
    let end = (1, Some(0), [Some(b'1'), Some(b'2')]);
    script_is(alloc, rt, (true, (3, 2), false), &MARKS, end)
}

fn given_is<R: Wait>(alloc: Global, rt: &R) -> Result<bool, EntryEnd> {
    let end = (2, Some(0), [Some(b'1'), None]);
    script_is(alloc, rt, (false, (2, 1), true), &GIVEN, end)
}

fn given_no_room_is<R: Wait>(alloc: Global, rt: &R) -> Result<bool, EntryEnd> {
    let end = (1, None, [None, None]);
    script_is(alloc, rt, (false, (2, 0), true), &GIVEN_NO_ROOM, end)
}

fn given_stale_is<R: Wait>(alloc: Global, rt: &R) -> Result<bool, EntryEnd> {
    let end = (2, Some(1), [None, None]);
    script_is(alloc, rt, (false, (3, 2), true), &GIVEN_STALE, end)
}

// The place of the first script that is not right, from 0.
fn first_wrong(are_right: &[bool]) -> Option<usize> {
    for (number, is_right) in are_right.iter().enumerate() {
        if !*is_right {
            return Some(number);
        }
    }
    None
}

fn first_wrong_script<R: Wait>(alloc: Global, rt: &R) -> Result<Option<usize>, EntryEnd> {
    Ok(first_wrong(&[
        both_post_is(alloc, rt)?,
        meet_is(alloc, rt)?,
        no_room_is(alloc, rt)?,
        read_back_is(alloc, rt)?,
        marks_is(alloc, rt)?,
        given_is(alloc, rt)?,
        given_no_room_is(alloc, rt)?,
        given_stale_is(alloc, rt)?,
    ]))
}

#[test]
fn scripts(rt: HostRuntime) -> Result<(), Fail> {
    let wrong = first_wrong_script(rt.alloc(), &rt)?;
    assert_eq!(rt; wrong, None);
    Ok(())
}

// ---- the same of the circuit whose one latch stays at 0

fn stuck_is<R: Wait>(
    alloc: Global,
    rt: &R,
    limit: u32,
    rows: &[Row],
    wanted: End,
) -> Result<bool, EntryEnd> {
    let Ok(c) = stuck(alloc) else {
        return Ok(false);
    };
    let mut all = stuck_passes(alloc, Arc::new(alloc, c)?, limit)?;
    let are_right = rows_are(alloc, rt, &mut all, rows);
    let is_so = ends_so(stuck_closed(all), wanted);
    Ok(are_right? && is_so)
}

fn first_wrong_stuck<R: Wait>(alloc: Global, rt: &R) -> Result<Option<usize>, EntryEnd> {
    let met = (1, Some(0), [Some(b'7'), None]);
    Ok(first_wrong(&[
        stuck_is(alloc, rt, 2, &BOTH_POST, (1, Some(0), [None, None]))?,
        stuck_is(alloc, rt, 2, &MEET, met)?,
        stuck_is(alloc, rt, 0, &NO_ROOM, (0, None, [None, None]))?,
    ]))
}

/// Two passes look and post the same: the second is told so, and each reads back what stands there, by looks and by a
/// meeting.
#[test]
fn ledger_reads_back(rt: HostRuntime) -> Result<(), Fail> {
    let wrong = first_wrong_stuck(rt.alloc(), &rt)?;
    assert_eq!(rt; wrong, None);
    Ok(())
}

// How often each answer came, where all events went right and the boards do not differ at the end.
fn driven_right<R: Wait>(alloc: Global, rt: &R, seed: u64, events: u32) -> Option<Tally> {
    let driven = drive(alloc, rt, seed, events)?;
    if driven.right == events && driven.ends {
        Some(driven.tally)
    } else {
        None
    }
}

// How often each answer came over so many seeds, where all went right.
fn tally_of<R: Wait>(alloc: Global, rt: &R, seeds: u64, events: u32) -> Option<Tally> {
    let mut tally: Tally = [0; 11];
    for seed in 0..seeds {
        let came = driven_right(alloc, rt, seed, events)?;
        for k in 0..11 {
            tally[k] = tally[k].saturating_add(came[k]);
        }
    }
    Some(tally)
}

// Each answer came.
fn all_came(tally: Tally) -> bool {
    for k in 0..11 {
        if tally[k] == 0 {
            return false;
        }
    }
    true
}

#[test]
fn drawn(rt: HostRuntime) -> Result<(), Fail> {
    let tally = tally_of(rt.alloc(), &rt, 24, 200);
    assert!(rt; all_came(tally.unwrap_or([0; 11])));
    Ok(())
}

// Whether all goes right where so many events are drawn by the seed and then the passes are closed.
fn is_right_after<R: Wait>(alloc: Global, rt: &R, seed: u64, count: u32) -> bool {
    driven_right(alloc, rt, seed, count).is_some()
}

// After each event the closed board is the plain one.
#[test]
fn closed_after_each(rt: HostRuntime) -> Result<(), Fail> {
    for seed in 0..6u64 {
        for count in 0..60u32 {
            assert!(rt;
                is_right_after(rt.alloc(), &rt, seed, count),
                "{count} of {seed}"
            );
        }
    }
    Ok(())
}
