//! What workers come to on small models, for several schedules and limits.

use crate::judging::{
    circuit_of, ends_within, is_decided, is_decided_on_threads, run_by, run_on_threads,
};
use crate::lassos;
use crate::meeting::Meeting;
use crate::running::Numbers;
use crate::several::{all_are_decided, all_are_decided_on_threads, all_end_within};
use circuit::Circuit;
use entry::{Checked, Origin};
use fair_workers::{Ended, Report};
use std::alloc::{AllocError, Global};
use std::sync::{Arc, Wait};
use std::test::*;
use std::thread::Threads;
use wall_store::{Board, Outcome};

// The latch changes at each step, and is asked to be 1 again and again.
const TOGGLES: &str = "aag 1 0 1 0 0 0 0 1 0\n2 3\n1\n2\n";

// The latch stays at 0, and is asked to be 1 again and again.
const STUCK: &str = "aag 1 0 1 0 0 0 0 1 0\n2 2\n1\n2\n";

// The input is asked to be 1 again and again.
const INPUT: &str = "aag 1 1 0 0 0 0 0 1 0\n2\n1\n2\n";

// A counter of two bits that starts at 0, and is asked to be 3 again and again.
const COUNTER: &str = "aag 6 0 2 0 4 0 0 1 0\n2 3\n4 11\n1\n12\n6 5 2\n8 4 3\n10 9 7\n12 4 2\n";

// A counter of four bits, the lowest first, that stays at 15; the lowest bit is asked to be 0 and to be 1 again and again.
// Of each bit that is 1 no step makes a 0 while the higher ones stay: so a wall for each bit, the highest first, and no step
// is counted.
const STOPS: &str =
    "aag 15 0 4 0 11 0 0 1 0\n2 17\n4 22\n6 28\n8 31\n2\n3\n2\n10 4 2\n12 10 6\n14 12 8\n16 15 2\n18 5 3\n20 15 10\n22 21 19\n24 11 7\n26 15 12\n28 27 25\n30 13 9\n";

// A property that no position meets.
const NEVER: &str = "aag 1 0 1 0 0 0 0 1 0\n2 3\n1\n0\n";

// How a run ended.
#[derive(Clone, Copy, PartialEq, Eq)]
enum End {
    Lasso,
    Holds,
    Spent,
    Memory,
}

// How a run ended, and how many entries there are then, with the author of the first, if there is one.
type Answer = (End, usize, Option<u32>);

const ENOUGH: u64 = 4_294_967_295;

fn first_author(entries: &[Arc<Checked>]) -> Option<u32> {
    match entries.first()?.origin() {
        Origin::Worker(work) => Some(work.author),
        Origin::Given => None,
    }
}

fn answer_with(end: End, board: &Board) -> Answer {
    let entries = board.entries();
    (end, entries.len(), first_author(entries))
}

fn end_of(board: &Board) -> End {
    match board.outcome(0) {
        Some(Outcome::Lasso(_)) => End::Lasso,
        Some(Outcome::Holds(_)) => End::Holds,
        None => End::Memory,
    }
}

fn answer_of(ended: Result<Report, Ended>) -> Answer {
    match ended {
        Ok(report) => {
            let answer = answer_with(end_of(&report.board), &report.board);
            drop(report);
            answer
        }
        Err(Ended::Spent(report)) => {
            let answer = answer_with(End::Spent, &report.board);
            drop(report);
            answer
        }
        Err(Ended::Memory) => (End::Memory, 0, None),
    }
}

// A model, workers, steps of each, entries, a schedule; and the answer. A number of the schedule that is no worker's is
// skipped. The second of two workers that find the same entry is told that its own is stale.
type Row = (&'static str, u32, u64, u32, &'static [u32], Answer);

const ROWS: [Row; 15] = [
    (STUCK, 2, ENOUGH, 9, &[0, 1, 0, 1], (End::Holds, 1, Some(0))),
    (STUCK, 2, ENOUGH, 9, &[0, 0, 1, 1], (End::Holds, 1, Some(0))),
    (STUCK, 2, ENOUGH, 9, &[1, 1], (End::Holds, 1, Some(1))),
    (STUCK, 2, ENOUGH, 9, &[7, 1, 2, 1], (End::Holds, 1, Some(1))),
    (STUCK, 1, ENOUGH, 9, &[], (End::Holds, 1, Some(0))),
    (STUCK, 1, ENOUGH, 1, &[], (End::Holds, 1, Some(0))),
    (STUCK, 3, ENOUGH, 0, &[], (End::Spent, 0, None)),
    (STUCK, 2, 0, 9, &[], (End::Spent, 0, None)),
    (TOGGLES, 1, ENOUGH, 0, &[], (End::Lasso, 0, None)),
    (TOGGLES, 3, ENOUGH, 9, &[2, 1, 0, 2], (End::Lasso, 0, None)),
    (INPUT, 1, ENOUGH, 9, &[], (End::Lasso, 0, None)),
    (NEVER, 2, ENOUGH, 9, &[1], (End::Holds, 0, None)),
    (STOPS, 1, 1, 4, &[], (End::Holds, 4, Some(0))),
    (STOPS, 1, 1, 3, &[], (End::Spent, 3, Some(0))),
    (STOPS, 1, 0, 9, &[], (End::Spent, 0, None)),
];

fn all_rows() -> &'static [Row] {
    &ROWS
}

// The answer of so many workers on a model, each with so many steps, whose list may have so many entries.
fn answer(alloc: Global, row: &Row) -> Result<Answer, AllocError> {
    let (text, workers, steps, skeletons, schedule, _) = row;
    let n = Numbers {
        workers: *workers,
        conflicts: ENOUGH,
        steps: *steps,
        skeletons: *skeletons,
        lassos: 0,
        depth: 0,
    };
    match circuit_of(alloc, text.as_bytes())? {
        Some(c) => {
            let answer = answer_of(run_by(alloc, &c, &n, schedule));
            drop(c);
            Ok(answer)
        }
        None => Ok((End::Memory, 0, None)),
    }
}

// The place of the first row that is not answered so, from 0.
fn wrong_row(alloc: Global) -> Result<Option<usize>, AllocError> {
    for (k, row) in all_rows().iter().enumerate() {
        if answer(alloc, row)? != row.5 {
            return Ok(Some(k));
        }
    }
    Ok(None)
}

#[test]
fn rows(rt: HostRuntime) -> Result<(), Fail> {
    assert_eq!(rt; wrong_row(rt.alloc())?, None);
    Ok(())
}

// What is asked of a drawn model: whether workers that take turns decide it rightly, or end rightly under limits; and the same
// with lasso workers, and of several properties.
#[derive(Clone, Copy)]
enum Asked {
    Decided,
    Within,
    DecidedWithLassos,
    WithinWithLassos,
    AllDecided,
    AllWithin,
}

fn is_so(alloc: Global, asked: Asked, number: u64) -> Result<bool, AllocError> {
    match asked {
        Asked::Decided => is_decided(alloc, number),
        Asked::Within => ends_within(alloc, number),
        Asked::DecidedWithLassos => lassos::is_decided(alloc, number),
        Asked::WithinWithLassos => lassos::ends_within(alloc, number),
        Asked::AllDecided => all_are_decided(alloc, number),
        Asked::AllWithin => all_end_within(alloc, number),
    }
}

// The number of the first of so many drawn models of which it is not so.
fn first_other(alloc: Global, asked: Asked, models: u64) -> Result<Option<u64>, AllocError> {
    for number in 0..models {
        if !is_so(alloc, asked, number)? {
            return Ok(Some(number));
        }
    }
    Ok(None)
}

#[test]
fn drawn_models_are_decided(rt: HostRuntime) -> Result<(), Fail> {
    assert_eq!(rt; first_other(rt.alloc(), Asked::Decided, 300)?, None);
    Ok(())
}

/// Limits of 0, 1, 2, .., until none is spent.
#[test]
fn drawn_models_under_limits(rt: HostRuntime) -> Result<(), Fail> {
    assert_eq!(rt; first_other(rt.alloc(), Asked::Within, 300)?, None);
    Ok(())
}

// ---- workers on threads

// How many of so many workers on threads met all others at their start, and how many were done; and how they ended.
fn met_of<R: Threads + Wait + Sync>(
    rt: &R,
    alloc: Global,
    text: &str,
    workers: u32,
) -> Result<((u64, u64), End), AllocError> {
    let n = Numbers {
        workers,
        conflicts: ENOUGH,
        steps: ENOUGH,
        skeletons: 9,
        lassos: 0,
        depth: 0,
    };
    let meeting = Meeting::of(u64::from(workers));
    let end = match circuit_of(alloc, text.as_bytes())? {
        Some(c) => {
            let answer = answer_of(run_on_threads(rt, alloc, &c, &n, &meeting));
            drop(c);
            answer.0
        }
        None => End::Memory,
    };
    Ok((meeting.met(), end))
}

/// Two workers run at the same time.
#[test]
fn two_workers_meet(rt: HostRuntime) -> Result<(), Fail> {
    assert!(rt; met_of(&rt, rt.alloc(), COUNTER, 2)? == ((2, 2), End::Lasso));
    Ok(())
}

/// More workers than there are processors run at the same time, and come to an end.
#[test]
fn many_workers_meet(rt: HostRuntime) -> Result<(), Fail> {
    assert!(rt; met_of(&rt, rt.alloc(), STUCK, 64)? == ((64, 64), End::Holds));
    Ok(())
}

// The same of workers on threads, which decide a drawn model.
fn is_so_on_threads<R: Threads + Wait + Sync>(
    rt: &R,
    alloc: Global,
    asked: Asked,
    number: u64,
) -> Result<bool, AllocError> {
    match asked {
        Asked::Decided => is_decided_on_threads(rt, alloc, number),
        Asked::DecidedWithLassos => lassos::is_decided_on_threads(rt, alloc, number),
        Asked::AllDecided => all_are_decided_on_threads(rt, alloc, number),
        Asked::Within | Asked::WithinWithLassos | Asked::AllWithin => Ok(false),
    }
}

fn first_other_on_threads<R: Threads + Wait + Sync>(
    rt: &R,
    alloc: Global,
    asked: Asked,
    models: u64,
) -> Result<Option<u64>, AllocError> {
    for number in 0..models {
        if !is_so_on_threads(rt, alloc, asked, number)? {
            return Ok(Some(number));
        }
    }
    Ok(None)
}

#[test]
fn drawn_models_are_decided_on_threads(rt: HostRuntime) -> Result<(), Fail> {
    assert_eq!(rt;
        first_other_on_threads(&rt, rt.alloc(), Asked::Decided, 60)?,
        None
    );
    Ok(())
}

// ---- lasso workers

// How a run ended, and what the first lasso worker has done, if there is one.
type Depth = (End, Option<u32>);

// A model; how many workers there are, and lasso workers; depth, conflicts and entries; a schedule; and the answer.
type LassoRow = (&'static str, u32, u32, u32, u64, u32, &'static [u32], Depth);

// Ten turns of worker 1.
const ALONE: &[u32] = &[1, 1, 1, 1, 1, 1, 1, 1, 1, 1];

const LASSO_ROWS: [LassoRow; 12] = [
    (TOGGLES, 2, 1, 9, ENOUGH, 9, ALONE, (End::Lasso, Some(0))),
    (TOGGLES, 2, 1, 9, 0, 9, ALONE, (End::Lasso, Some(1))),
    (COUNTER, 2, 1, 9, ENOUGH, 0, ALONE, (End::Lasso, Some(0))),
    (COUNTER, 2, 63, 3, ENOUGH, 0, ALONE, (End::Lasso, Some(0))),
    (INPUT, 4, 3, 9, ENOUGH, 9, &[3, 3], (End::Lasso, Some(0))),
    (STUCK, 2, 1, 3, ENOUGH, 0, &[], (End::Spent, Some(3))),
    (STUCK, 2, 1, 0, ENOUGH, 0, &[], (End::Spent, Some(0))),
    (
        STUCK,
        2,
        63,
        2,
        ENOUGH,
        0,
        &[0, 0, 0],
        (End::Spent, Some(2)),
    ),
    (STUCK, 1, 1, 5, ENOUGH, 0, &[], (End::Spent, None)),
    (STUCK, 2, 1, 4, ENOUGH, 9, ALONE, (End::Holds, Some(4))),
    (NEVER, 2, 1, 3, ENOUGH, 9, ALONE, (End::Holds, Some(3))),
    (NEVER, 3, 1, 9, ENOUGH, 9, &[0, 0, 0], (End::Holds, Some(0))),
];

fn all_lasso_rows() -> &'static [LassoRow] {
    &LASSO_ROWS
}

fn depth_in(report: &Report) -> Option<u32> {
    report.depths.as_slice().first().copied()
}

fn depth_of(ended: Result<Report, Ended>) -> Depth {
    match ended {
        Ok(report) => {
            let depth = (end_of(&report.board), depth_in(&report));
            drop(report);
            depth
        }
        Err(Ended::Spent(report)) => {
            let depth = (End::Spent, depth_in(&report));
            drop(report);
            depth
        }
        Err(Ended::Memory) => (End::Memory, None),
    }
}

fn depth(alloc: Global, row: &LassoRow) -> Result<Depth, AllocError> {
    let (text, workers, lassos, depth, conflicts, skeletons, schedule, _) = row;
    let n = Numbers {
        workers: *workers,
        conflicts: *conflicts,
        steps: ENOUGH,
        skeletons: *skeletons,
        lassos: *lassos,
        depth: *depth,
    };
    match circuit_of(alloc, text.as_bytes())? {
        Some(c) => {
            let depth = depth_of(run_by(alloc, &c, &n, schedule));
            drop(c);
            Ok(depth)
        }
        None => Ok((End::Memory, None)),
    }
}

// The place of the first row of lasso workers that is not answered so, from 0.
fn wrong_lasso_row(alloc: Global) -> Result<Option<usize>, AllocError> {
    for (k, row) in all_lasso_rows().iter().enumerate() {
        if depth(alloc, row)? != row.7 {
            return Ok(Some(k));
        }
    }
    Ok(None)
}

#[test]
fn lasso_rows(rt: HostRuntime) -> Result<(), Fail> {
    assert_eq!(rt; wrong_lasso_row(rt.alloc())?, None);
    Ok(())
}

#[test]
fn lasso_workers_beside_others(rt: HostRuntime) -> Result<(), Fail> {
    assert_eq!(rt;
        first_other(rt.alloc(), Asked::DecidedWithLassos, 100)?,
        None
    );
    Ok(())
}

#[test]
fn lasso_workers_under_limits(rt: HostRuntime) -> Result<(), Fail> {
    assert_eq!(rt;
        first_other(rt.alloc(), Asked::WithinWithLassos, 100)?,
        None
    );
    Ok(())
}

#[test]
fn lasso_workers_on_threads(rt: HostRuntime) -> Result<(), Fail> {
    assert_eq!(rt;
        first_other_on_threads(&rt, rt.alloc(), Asked::DecidedWithLassos, 40)?,
        None
    );
    Ok(())
}

// ---- several properties

/// Two to five properties, or some or none of them.
#[test]
fn several_properties_are_decided(rt: HostRuntime) -> Result<(), Fail> {
    assert_eq!(rt; first_other(rt.alloc(), Asked::AllDecided, 200)?, None);
    Ok(())
}

#[test]
fn several_properties_under_limits(rt: HostRuntime) -> Result<(), Fail> {
    assert_eq!(rt; first_other(rt.alloc(), Asked::AllWithin, 200)?, None);
    Ok(())
}

#[test]
fn several_properties_are_decided_on_threads(rt: HostRuntime) -> Result<(), Fail> {
    assert_eq!(rt;
        first_other_on_threads(&rt, rt.alloc(), Asked::AllDecided, 60)?,
        None
    );
    Ok(())
}
