//! Lasso workers beside others, on drawn models, judged by a search of all states. The main calls are `is_decided`,
//! `is_decided_on_threads` and `ends_within`.

use crate::judging::{
    End, NO_LIMIT, SearchedCircuit, circuit_drawn, end_of, is_decided_on, next_limit, searched,
};
use crate::running::Numbers;
use circuit::Circuit;
use std::alloc::{AllocError, Global};
use std::sync::{Arc, Wait};
use std::thread::Threads;

// 2 to 4 workers, all but one of them lasso workers, or one.
fn numbers(k: u32, depth: u32) -> Numbers {
    let workers = (k / 2 % 3).saturating_add(2);
    Numbers {
        workers,
        conflicts: NO_LIMIT,
        steps: NO_LIMIT,
        skeletons: 65_536,
        lassos: if k % 2 == 0 { 1 } else { 63 },
        depth,
    }
}

fn is_decided_by_all(
    alloc: Global,
    drawn: &SearchedCircuit,
    number: u64,
) -> Result<bool, AllocError> {
    for k in 0..6 {
        let turns = number.saturating_mul(6).saturating_add(u64::from(k));
        if end_of(alloc, drawn, &numbers(k, 100), turns)? != End::Verdict {
            return Ok(false);
        }
    }
    Ok(true)
}

fn is_circuit_decided(
    alloc: Global,
    circuit: Arc<Circuit>,
    number: u64,
) -> Result<bool, AllocError> {
    let drawn = searched(alloc, circuit)?;
    let is_so = is_decided_by_all(alloc, &drawn, number);
    drop(drawn);
    is_so
}

/// Whether the drawn model with a number is decided rightly by 2 to 4 workers, one of them a lasso worker, or all but one.
pub(crate) fn is_decided(alloc: Global, number: u64) -> Result<bool, AllocError> {
    match circuit_drawn(alloc, number)? {
        Some(circuit) => is_circuit_decided(alloc, circuit, number),
        None => Ok(false),
    }
}

// ---- on threads

fn is_decided_on_each<R: Threads + Wait + Sync>(
    rt: &R,
    alloc: Global,
    drawn: &SearchedCircuit,
) -> Result<bool, AllocError> {
    for k in [0, 1, 5] {
        if !is_decided_on(rt, alloc, drawn, &numbers(k, 100))? {
            return Ok(false);
        }
    }
    Ok(true)
}

fn is_circuit_decided_on<R: Threads + Wait + Sync>(
    rt: &R,
    alloc: Global,
    circuit: Arc<Circuit>,
) -> Result<bool, AllocError> {
    let drawn = searched(alloc, circuit)?;
    let is_so = is_decided_on_each(rt, alloc, &drawn);
    drop(drawn);
    is_so
}

/// The same on threads.
pub(crate) fn is_decided_on_threads<R: Threads + Wait + Sync>(
    rt: &R,
    alloc: Global,
    number: u64,
) -> Result<bool, AllocError> {
    match circuit_drawn(alloc, number)? {
        Some(circuit) => is_circuit_decided_on(rt, alloc, circuit),
        None => Ok(false),
    }
}

// ---- limits

// So many conflicts, steps and positions, each but for one kind: without it, or with few entries in its place.
fn limited(kind: u32, number: u64, limit: u32) -> Numbers {
    let few = u64::from(limit);
    Numbers {
        workers: (number % 3) as u32 + 2,
        conflicts: if kind == 0 { NO_LIMIT } else { few },
        steps: if kind == 1 { NO_LIMIT } else { few },
        skeletons: if kind == 2 { 65_536 } else { limit },
        lassos: (number / 3 % 3) as u32 + 1,
        depth: limit,
    }
}

// Whether runs end rightly with each limit in turn, up to one that is not spent.
fn ends_by_kind(
    alloc: Global,
    drawn: &SearchedCircuit,
    number: u64,
    kind: u32,
) -> Result<bool, AllocError> {
    let mut limit = 0;
    for turn in 0..28 {
        let turns = number.saturating_mul(28).saturating_add(turn);
        let end = end_of(alloc, drawn, &limited(kind, number, limit), turns)?;
        if end != End::Report {
            return Ok(end == End::Verdict);
        }
        limit = next_limit(limit);
    }
    Ok(false)
}

fn ends_by_all(alloc: Global, drawn: &SearchedCircuit, number: u64) -> Result<bool, AllocError> {
    for kind in 0..3 {
        if !ends_by_kind(alloc, drawn, number, kind)? {
            return Ok(false);
        }
    }
    Ok(true)
}

fn circuit_ends_within(
    alloc: Global,
    circuit: Arc<Circuit>,
    number: u64,
) -> Result<bool, AllocError> {
    let drawn = searched(alloc, circuit)?;
    let is_so = ends_by_all(alloc, &drawn, number);
    drop(drawn);
    is_so
}

/// Whether 2 to 4 workers, some of them lasso workers, end rightly on the drawn model with a number with limits of 0, 1, 2,
/// .. on conflicts, steps, entries and depth.
pub(crate) fn ends_within(alloc: Global, number: u64) -> Result<bool, AllocError> {
    match circuit_drawn(alloc, number)? {
        Some(circuit) => circuit_ends_within(alloc, circuit, number),
        None => Ok(false),
    }
}
