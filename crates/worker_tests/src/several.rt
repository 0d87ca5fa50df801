//! Workers over several properties of drawn models, judged by a search of all states. The main calls are
//! `all_are_decided` and `all_end_within`.

use crate::drawing::{schedule, text_with};
use crate::judging::{
    End, NO_LIMIT, all_spent, all_within, circuit_of, is_board, is_right_of, next_limit,
    numbers_of, path_steps, steps_and_lasso,
};
use crate::running::{Numbers, limits, run_several, run_several_threaded, served_of};
use crate::searching::{Step, leaves_a_skeleton, literal_count};
use circuit::Circuit;
use edge::FreeGate;
use entry::Origin;
use fair_workers::{Ended, Report};
use std::alloc::{AllocError, Global};
use std::sync::{Arc, Wait};
use std::thread::Threads;
use wall_store::Board;

// A property that is served: its steps, and whether it has a fair lasso.
#[derive(Drop)]
struct Searched {
    number: u32,
    steps: Vec<Step>,
    has_lasso: bool,
}

// A drawn circuit, the properties of it that are served, and what a search of all states says of them.
#[derive(Drop)]
struct Drawn {
    circuit: Arc<Circuit>,
    bits: u64,
    properties: Vec<u32>,
    searched: Vec<Searched>,
}

// ---- drawn models

// Two to five properties.
fn properties_in(number: u64) -> u64 {
    (number % 4).saturating_add(2)
}

// Which of them are served: of every seven models all in four, else some or none.
fn bits_of(number: u64) -> u64 {
    match number % 7 {
        0 => 0b1_0101,
        1 => 0b0_1010,
        2 => (number / 7) % 32,
        _ => 0b1_1111,
    }
}

fn searched_of(alloc: Global, c: &Circuit, j: u32) -> Result<Searched, AllocError> {
    let (steps, has_lasso) = steps_and_lasso(alloc, c, j)?;
    Ok(Searched {
        number: j,
        steps,
        has_lasso,
    })
}

fn all_searched(
    alloc: Global,
    c: &Circuit,
    properties: &[u32],
) -> Result<Vec<Searched>, AllocError> {
    let mut searched = Vec::new(alloc);
    push_searched(alloc, c, properties, &mut searched)?;
    Ok(searched)
}

fn push_searched(
    alloc: Global,
    c: &Circuit,
    properties: &[u32],
    searched: &mut Vec<Searched>,
) -> Result<(), AllocError> {
    for j in properties {
        searched.push(searched_of(alloc, c, *j)?)?;
    }
    Ok(())
}

// The properties that are served, and what is found of them.
fn properties_searched(
    alloc: Global,
    c: &Circuit,
    bits: u64,
) -> Result<(Vec<u32>, Vec<Searched>), AllocError> {
    let properties = served_of(alloc, c, bits)?;
    let searched = all_searched(alloc, c, &properties)?;
    Ok((properties, searched))
}

fn drawn_of(alloc: Global, circuit: Arc<Circuit>, bits: u64) -> Result<Drawn, AllocError> {
    match properties_searched(alloc, &*circuit, bits) {
        Ok((properties, searched)) => Ok(Drawn {
            circuit,
            bits,
            properties,
            searched,
        }),
        Err(failed) => {
            drop(circuit);
            Err(failed)
        }
    }
}

// The drawn model with a number, which is always read.
fn drawn_model(alloc: Global, number: u64) -> Result<Option<Drawn>, AllocError> {
    let text = text_with(alloc, number, properties_in(number))?;
    match circuit_of(alloc, text.as_slice())? {
        Some(circuit) => Ok(Some(drawn_of(alloc, circuit, bits_of(number))?)),
        None => Ok(None),
    }
}

// ---- boards and reports

// The greatest number of situations of a skeleton of a served property.
fn most_situations(drawn: &Drawn) -> u64 {
    let mut most: u64 = 1;
    for property in &drawn.searched {
        most = most.max(literal_count(&*drawn.circuit, property.number) as u64);
    }
    most
}

// How many steps a worker takes at most.
fn most_steps(drawn: &Drawn, n: &Numbers) -> u64 {
    u64::from(n.skeletons)
        .saturating_add(drawn.properties.len() as u64)
        .saturating_mul(most_situations(drawn).saturating_add(1))
        .saturating_mul(path_steps(drawn.circuit.latches().len()))
}

// How many turns a worker takes at most.
fn most_turns(drawn: &Drawn, n: &Numbers) -> u64 {
    let properties = drawn.properties.len() as u64;
    u64::from(n.skeletons)
        .saturating_add(1)
        .saturating_add(properties)
        .saturating_mul(3)
        .saturating_add(properties.saturating_sub(1).min(1))
}

fn all_found_within(board: &Board, most: u64) -> bool {
    for entry in board.entries() {
        match entry.origin() {
            Origin::Worker(work) if u64::from(work.turn) < most => {}
            _ => return false,
        }
    }
    true
}

fn has_right_counts(drawn: &Drawn, n: &Numbers, report: &Report) -> bool {
    is_board(&report.board, n, &drawn.properties)
        && report.workers.len() == n.workers as usize
        && report.depths.as_slice().is_empty()
        && all_within(report.workers.as_slice(), n, most_steps(drawn, n))
        && all_found_within(&report.board, most_turns(drawn, n))
}

// Whether each outcome of the board is right.
fn all_are_right(alloc: Global, drawn: &Drawn, board: &Board) -> Result<bool, AllocError> {
    for property in &drawn.searched {
        let j = property.number;
        if board.outcome(j).is_some()
            && !is_right_of(alloc, &*drawn.circuit, board, j, property.has_lasso)?
        {
            return Ok(false);
        }
    }
    Ok(true)
}

// How many properties have no outcome.
fn open_count(drawn: &Drawn, board: &Board) -> usize {
    let mut count: usize = 0;
    for property in &drawn.searched {
        if board.outcome(property.number).is_none() {
            count = count.saturating_add(1);
        }
    }
    count
}

fn leaves_one(
    alloc: Global,
    drawn: &Drawn,
    board: &Board,
    property: &Searched,
) -> Result<bool, AllocError> {
    leaves_a_skeleton(
        alloc,
        &*drawn.circuit,
        property.number,
        board.entries(),
        property.steps.as_slice(),
    )
}

// Whether the list is full, and leaves a skeleton of each open property.
fn is_full(alloc: Global, drawn: &Drawn, n: &Numbers, board: &Board) -> Result<bool, AllocError> {
    if board.entries().len() != n.skeletons as usize {
        return Ok(false);
    }
    for property in &drawn.searched {
        if board.outcome(property.number).is_none() && !leaves_one(alloc, drawn, board, property)? {
            return Ok(false);
        }
    }
    Ok(true)
}

fn end_of_answer(
    alloc: Global,
    drawn: &Drawn,
    n: &Numbers,
    report: &Report,
) -> Result<End, AllocError> {
    if !has_right_counts(drawn, n, report) || open_count(drawn, &report.board) > 0 {
        return Ok(End::Wrong);
    }
    let is_right = all_are_right(alloc, drawn, &report.board)?;
    Ok(if is_right { End::Verdict } else { End::Wrong })
}

fn end_of_report(
    alloc: Global,
    drawn: &Drawn,
    n: &Numbers,
    report: &Report,
) -> Result<End, AllocError> {
    if !has_right_counts(drawn, n, report) || open_count(drawn, &report.board) == 0 {
        return Ok(End::Wrong);
    }
    if !all_are_right(alloc, drawn, &report.board)? {
        return Ok(End::Wrong);
    }
    if all_spent(n, report) || is_full(alloc, drawn, n, &report.board)? {
        return Ok(End::Report);
    }
    Ok(End::Wrong)
}

fn judged(
    alloc: Global,
    drawn: &Drawn,
    n: &Numbers,
    ended: Result<Report, Ended>,
) -> Result<End, AllocError> {
    match ended {
        Ok(report) => {
            let end = end_of_answer(alloc, drawn, n, &report);
            drop(report);
            end
        }
        Err(Ended::Spent(report)) => {
            let end = end_of_report(alloc, drawn, n, &report);
            drop(report);
            end
        }
        Err(Ended::Memory) => Ok(End::Wrong),
    }
}

// ---- runs

// The run of the properties that are served.
fn run_served(alloc: Global, drawn: &Drawn, n: &Numbers, turns: &[u32]) -> Result<Report, Ended> {
    let served = served_of(alloc, &*drawn.circuit, drawn.bits)?;
    run_several(alloc, &drawn.circuit, &served, limits(n), turns)
}

fn run_served_threaded<R: Threads + Wait + Sync>(
    rt: &R,
    alloc: Global,
    drawn: &Drawn,
    n: &Numbers,
) -> Result<Report, Ended> {
    let served = served_of(alloc, &*drawn.circuit, drawn.bits)?;
    run_several_threaded(rt, alloc, &drawn.circuit, &served, limits(n), &FreeGate)
}

// How workers end with these limits and the schedule with a number.
fn end_of(alloc: Global, drawn: &Drawn, n: &Numbers, number: u64) -> Result<End, AllocError> {
    let turns = schedule(alloc, number, n.workers)?;
    let ended = run_served(alloc, drawn, n, &turns);
    judged(alloc, drawn, n, ended)
}

fn without_limits(workers: u32) -> Numbers {
    Numbers {
        workers,
        conflicts: NO_LIMIT,
        steps: NO_LIMIT,
        skeletons: 65_536,
        lassos: 0,
        depth: 0,
    }
}

// Whether 1 to 4 workers without limits decide all that is served, each number of them by two schedules.
fn is_decided_by_all(alloc: Global, drawn: &Drawn, number: u64) -> Result<bool, AllocError> {
    for k in 0..8_u32 {
        let n = without_limits((k / 2).saturating_add(1));
        let turns = number.saturating_mul(8).saturating_add(u64::from(k));
        if end_of(alloc, drawn, &n, turns)? != End::Verdict {
            return Ok(false);
        }
    }
    Ok(true)
}

/// Whether the properties of the drawn model with a number are decided rightly by 1 to 4 workers, by drawn schedules.
pub(crate) fn all_are_decided(alloc: Global, number: u64) -> Result<bool, AllocError> {
    match drawn_model(alloc, number)? {
        Some(drawn) => {
            let is_so = is_decided_by_all(alloc, &drawn, number);
            drop(drawn);
            is_so
        }
        None => Ok(false),
    }
}

fn end_on<R: Threads + Wait + Sync>(
    rt: &R,
    alloc: Global,
    drawn: &Drawn,
    workers: u32,
) -> Result<End, AllocError> {
    let n = without_limits(workers);
    let ended = run_served_threaded(rt, alloc, drawn, &n);
    judged(alloc, drawn, &n, ended)
}

fn is_decided_on<R: Threads + Wait + Sync>(
    rt: &R,
    alloc: Global,
    drawn: &Drawn,
) -> Result<bool, AllocError> {
    for workers in [1, 2, 4] {
        if end_on(rt, alloc, drawn, workers)? != End::Verdict {
            return Ok(false);
        }
    }
    Ok(true)
}

/// Whether they are decided rightly by 1, 2 and 4 workers on threads.
pub(crate) fn all_are_decided_on_threads<R: Threads + Wait + Sync>(
    rt: &R,
    alloc: Global,
    number: u64,
) -> Result<bool, AllocError> {
    match drawn_model(alloc, number)? {
        Some(drawn) => {
            let is_so = is_decided_on(rt, alloc, &drawn);
            drop(drawn);
            is_so
        }
        None => Ok(false),
    }
}

// ---- limits

fn end_with_limit(
    alloc: Global,
    drawn: &Drawn,
    number: u64,
    kind: u32,
    limit: u32,
    turn: u64,
) -> Result<End, AllocError> {
    let workers = (number % 4) as u32 + 1;
    let n = numbers_of(kind, workers, limit);
    end_of(
        alloc,
        drawn,
        &n,
        number.saturating_mul(28).saturating_add(turn),
    )
}

// Whether runs end rightly with each limit of a kind in turn, up to one that is not spent.
fn ends_by_kind(alloc: Global, drawn: &Drawn, number: u64, kind: u32) -> Result<bool, AllocError> {
    let mut limit = 0;
    for turn in 0..28 {
        let end = end_with_limit(alloc, drawn, number, kind, limit, turn)?;
        if end != End::Report {
            return Ok(end == End::Verdict);
        }
        limit = next_limit(limit);
    }
    Ok(false)
}

fn ends_by_all(alloc: Global, drawn: &Drawn, number: u64) -> Result<bool, AllocError> {
    for kind in 0..4 {
        if !ends_by_kind(alloc, drawn, number, kind)? {
            return Ok(false);
        }
    }
    Ok(true)
}

/// Whether 1 to 4 workers end rightly on the properties of the drawn model with a number, by drawn schedules, with limits
/// of entries, of conflicts and of steps, and of all three: 0, 1, 2, .. until none is spent.
pub(crate) fn all_end_within(alloc: Global, number: u64) -> Result<bool, AllocError> {
    match drawn_model(alloc, number)? {
        Some(drawn) => {
            let is_so = ends_by_all(alloc, &drawn, number);
            drop(drawn);
            is_so
        }
        None => Ok(false),
    }
}
