//! Runs of workers on drawn models, judged by a search of all states. The main calls are `is_decided` and
//! `ends_within`.

use crate::drawing::{model_text, schedule};
use crate::running::{Numbers, limits, run, run_threaded};
use crate::searching::{Step, has_fair_lasso, leaves_a_skeleton, literal_count, steps_of};
use certificate::{Accepted, check_answer};
use circuit::{Circuit, Lasso, ModelEnd, Stimulus};
use edge::{FreeGate, Gate, MemShelf, Spending};
use entry::{Checked, Origin};
use fair_workers::{Ended, Report};
use items::Items;
use std::alloc::{AllocError, Global};
use std::sync::{Arc, Wait};
use std::thread::Threads;
use wall_store::{Board, Outcome};

pub(crate) const NO_LIMIT: u64 = 4_294_967_295;

/// How a run ended, all of which was seen to be right; or that something was not.
#[derive(Clone, Copy, PartialEq, Eq)]
pub(crate) enum End {
    Verdict,
    Report,
    Wrong,
}

/// A drawn circuit with its steps, and whether it has a fair lasso.
#[derive(Drop)]
pub(crate) struct SearchedCircuit {
    circuit: Arc<Circuit>,
    steps: Vec<Step>,
    has_lasso: bool,
}

// ---- the text of an outcome

fn inputs_of(alloc: Global, lasso: &Lasso) -> Result<Items<Items<bool>>, AllocError> {
    let mut inputs = Items::new(alloc);
    push_inputs(alloc, lasso, &mut inputs)?;
    Ok(inputs)
}

fn push_inputs(
    alloc: Global,
    lasso: &Lasso,
    inputs: &mut Items<Items<bool>>,
) -> Result<(), AllocError> {
    for values in lasso.inputs.as_slice() {
        inputs.push(values.try_copy(alloc)?)?;
    }
    Ok(())
}

fn stimulus_of(alloc: Global, lasso: &Lasso) -> Result<Stimulus, AllocError> {
    let latches = lasso.start.try_copy(alloc)?;
    let inputs = inputs_of(alloc, lasso)?;
    Ok(Stimulus { latches, inputs })
}

fn lasso_text(alloc: Global, j: u32, lasso: &Lasso) -> Result<Vec<u8>, AllocError> {
    let made = stimulus_of(alloc, lasso)?;
    let text = stimulus::write(alloc, j, &made);
    drop(made);
    text
}

fn answer_text(
    alloc: Global,
    board: &Board,
    j: u32,
    outcome: &Outcome,
) -> Result<Vec<u8>, AllocError> {
    match outcome {
        Outcome::Lasso(lasso) => lasso_text(alloc, j, lasso),
        Outcome::Holds(refutation) => certificate::write(alloc, j, board.entries(), refutation),
    }
}

// A shelf that holds this text as `a`.
fn shelf_of(alloc: Global, text: Vec<u8>) -> Result<MemShelf, AllocError> {
    let name = String::from_str(alloc, "a")?;
    let mut texts = Vec::new(alloc);
    texts.push((name, text))?;
    Ok(MemShelf::new(texts, 100, Vec::new(alloc)))
}

// One call; no clause of it is wanted here.
fn judged_text(alloc: Global, c: &Circuit, shelf: &mut MemShelf) -> Option<Accepted> {
    check_answer(alloc, c, shelf, "a").ok()
}

// What `check_answer` answers on a text, if it accepts it.
fn accepted(alloc: Global, c: &Circuit, text: Vec<u8>) -> Result<Option<Accepted>, AllocError> {
    let mut shelf = shelf_of(alloc, text)?;
    let answer = judged_text(alloc, c, &mut shelf);
    drop(shelf);
    Ok(answer)
}

// Whether an answer of property `j` that was accepted says what the search of all states says.
fn says(answer: Option<Accepted>, j: u32, has_lasso: bool) -> bool {
    match answer {
        Some(Accepted::Lasso { property, .. }) => property == j && has_lasso,
        Some(Accepted::Holds { property, .. }) => property == j && !has_lasso,
        None => false,
    }
}

fn is_right_outcome(
    alloc: Global,
    searched: &SearchedCircuit,
    board: &Board,
    outcome: &Outcome,
) -> Result<bool, AllocError> {
    let text = answer_text(alloc, board, 0, outcome)?;
    let answer = accepted(alloc, &*searched.circuit, text)?;
    Ok(says(answer, 0, searched.has_lasso))
}

/// Whether property `j` has an outcome that is right: its text is accepted, and says what the search of all states says.
pub(crate) fn is_right_of(
    alloc: Global,
    c: &Circuit,
    board: &Board,
    j: u32,
    has_lasso: bool,
) -> Result<bool, AllocError> {
    let text = match board.outcome(j) {
        Some(outcome) => answer_text(alloc, board, j, outcome)?,
        None => return Ok(false),
    };
    let answer = accepted(alloc, c, text)?;
    Ok(says(answer, j, has_lasso))
}

// ---- boards and reports

fn is_by_one(entry: &Checked, workers: u32) -> bool {
    match entry.origin() {
        Origin::Worker(work) => work.author < workers,
        Origin::Given => false,
    }
}

fn is_by_workers(board: &Board, workers: u32) -> bool {
    for entry in board.entries() {
        if !is_by_one(&**entry, workers) {
            return false;
        }
    }
    true
}

// The turn in which the worker found the entry, if it did.
fn turn_of(entry: &Checked, worker: u32) -> Option<u32> {
    match entry.origin() {
        Origin::Worker(work) if work.author == worker => Some(work.turn),
        _ => None,
    }
}

// Whether the worker found its entries of the list in ascending turns.
fn is_in_turn(entries: &[Arc<Checked>], worker: u32) -> bool {
    let mut least = 0;
    for entry in entries {
        if let Some(turn) = turn_of(&**entry, worker) {
            if turn < least {
                return false;
            }
            least = turn.saturating_add(1);
        }
    }
    true
}

fn all_in_turn(board: &Board, workers: u32) -> bool {
    for worker in 0..workers {
        if !is_in_turn(board.entries(), worker) {
            return false;
        }
    }
    true
}

fn serves(board: &Board, properties: &[u32]) -> bool {
    let served = board.served();
    for (k, one) in served.iter().enumerate() {
        if properties.get(k).copied() != Some(one.property) {
            return false;
        }
    }
    served.len() == properties.len()
}

/// Whether a board is one of these workers and properties, whose list is within its limit.
pub(crate) fn is_board(board: &Board, n: &Numbers, properties: &[u32]) -> bool {
    board.workers() == n.workers
        && board.limit() == n.skeletons
        && board.given() == 0
        && serves(board, properties)
        && board.entries().len() <= n.skeletons as usize
        && is_by_workers(board, n.workers)
        && all_in_turn(board, n.workers)
}

fn limit_of(number: u64) -> Option<u64> {
    if number < NO_LIMIT {
        Some(number)
    } else {
        None
    }
}

fn has_limits(spent: &Spending, n: &Numbers) -> bool {
    spent.conflict_limit() == limit_of(n.conflicts) && spent.step_limit() == limit_of(n.steps)
}

fn is_spent(spent: &Spending) -> bool {
    spent.conflict_limit() == Some(spent.conflicts()) || spent.step_limit() == Some(spent.steps())
}

/// How many steps one search for a path takes at most.
pub(crate) fn path_steps(latches: usize) -> u64 {
    let mut states: u64 = 1;
    for _latch in 0..latches {
        states = states.saturating_mul(2);
    }
    states
        .saturating_add(2)
        .saturating_mul(states.saturating_add(2))
}

// How many steps a worker takes at most.
fn most_steps(c: &Circuit, skeletons: u32) -> u64 {
    let situations = (literal_count(c, 0) as u64).max(1);
    u64::from(skeletons)
        .saturating_add(1)
        .saturating_mul(situations.saturating_add(1))
        .saturating_mul(path_steps(c.latches().len()))
}

fn is_within(count: u64, limit: Option<u64>) -> bool {
    match limit {
        Some(most) => count <= most,
        None => true,
    }
}

fn is_spending(spent: &Spending, n: &Numbers, most: u64) -> bool {
    has_limits(spent, n)
        && is_within(spent.conflicts(), spent.conflict_limit())
        && is_within(spent.steps(), spent.step_limit())
        && spent.steps() <= most
}

/// Whether each count is within its limit, and no worker took more steps than these.
pub(crate) fn all_within(spendings: &[Spending], n: &Numbers, most: u64) -> bool {
    for spent in spendings {
        if !is_spending(spent, n, most) {
            return false;
        }
    }
    true
}

// Whether a worker has spent what it may: its conflicts or its steps; one of the last ones, which are lasso workers, its
// conflicts or its depth.
fn is_over(n: &Numbers, depths: &[u32], rounds: usize, k: usize, spent: &Spending) -> bool {
    if k < rounds {
        return is_spent(spent);
    }
    let done = depths.get(k.saturating_sub(rounds)).copied();
    spent.conflict_limit() == Some(spent.conflicts()) || done == Some(n.depth)
}

/// Whether each worker has spent what it may.
pub(crate) fn all_spent(n: &Numbers, report: &Report) -> bool {
    let depths = report.depths.as_slice();
    let rounds = report.workers.len().saturating_sub(depths.len());
    for (k, spent) in report.workers.as_slice().iter().enumerate() {
        if !is_over(n, depths, rounds, k, spent) {
            return false;
        }
    }
    true
}

// Whether a lasso that was found has more positions than these.
fn is_shorter(done: u32, outcome: Option<&Outcome>) -> bool {
    match outcome {
        Some(Outcome::Lasso(lasso)) => (done as usize) < lasso.inputs.len(),
        _ => true,
    }
}

/// Whether the last workers, as many as the numbers say but never all, have done no more positions than they were to ask
/// for, and fewer than a lasso of property 0 has that was found.
pub(crate) fn has_right_depths(n: &Numbers, report: &Report) -> bool {
    let depths = report.depths.as_slice();
    for done in depths {
        if *done > n.depth || !is_shorter(*done, report.board.outcome(0)) {
            return false;
        }
    }
    depths.len() == n.lassos.min(n.workers.saturating_sub(1)) as usize && report.depth == n.depth
}

// Whether the board and the counts of a report are right, with an outcome or without one.
fn has_right_counts(c: &Circuit, n: &Numbers, report: &Report) -> bool {
    is_board(&report.board, n, &[0])
        && report.workers.len() == n.workers as usize
        && has_right_depths(n, report)
        && all_within(report.workers.as_slice(), n, most_steps(c, n.skeletons))
}

// Whether the list is full, and a skeleton is left.
fn is_stuck(
    alloc: Global,
    searched: &SearchedCircuit,
    n: &Numbers,
    board: &Board,
) -> Result<bool, AllocError> {
    if board.entries().len() != n.skeletons as usize {
        return Ok(false);
    }
    leaves_a_skeleton(
        alloc,
        &*searched.circuit,
        0,
        board.entries(),
        searched.steps.as_slice(),
    )
}

// Whether a report without an outcome is right: its counts, and what it says was spent.
fn is_right_report(
    alloc: Global,
    searched: &SearchedCircuit,
    n: &Numbers,
    report: &Report,
) -> Result<bool, AllocError> {
    if report.board.outcome(0).is_some() || !has_right_counts(&*searched.circuit, n, report) {
        return Ok(false);
    }
    if all_spent(n, report) {
        return Ok(true);
    }
    is_stuck(alloc, searched, n, &report.board)
}

// ---- runs

fn end_of_outcome(
    alloc: Global,
    searched: &SearchedCircuit,
    board: &Board,
    outcome: &Outcome,
) -> Result<End, AllocError> {
    let is_right = is_right_outcome(alloc, searched, board, outcome)?;
    Ok(if is_right { End::Verdict } else { End::Wrong })
}

fn end_of_answer(
    alloc: Global,
    searched: &SearchedCircuit,
    n: &Numbers,
    report: &Report,
) -> Result<End, AllocError> {
    if !has_right_counts(&*searched.circuit, n, report) {
        return Ok(End::Wrong);
    }
    match report.board.outcome(0) {
        Some(outcome) => end_of_outcome(alloc, searched, &report.board, outcome),
        None => Ok(End::Wrong),
    }
}

fn end_of_report(
    alloc: Global,
    searched: &SearchedCircuit,
    n: &Numbers,
    report: &Report,
) -> Result<End, AllocError> {
    let is_right = is_right_report(alloc, searched, n, report)?;
    Ok(if is_right { End::Report } else { End::Wrong })
}

/// Workers that search for an outcome of property 0, where there is one, with no entry given.
pub(crate) fn run_by(
    alloc: Global,
    c: &Arc<Circuit>,
    n: &Numbers,
    turns: &[u32],
) -> Result<Report, Ended> {
    if c.property_count() == 0 {
        return Err(Ended::Memory);
    }
    run(alloc, c, limits(n), turns)
}

fn judged(
    alloc: Global,
    searched: &SearchedCircuit,
    n: &Numbers,
    ended: Result<Report, Ended>,
) -> Result<End, AllocError> {
    match ended {
        Ok(report) => {
            let end = end_of_answer(alloc, searched, n, &report);
            drop(report);
            end
        }
        Err(Ended::Spent(report)) => {
            let end = end_of_report(alloc, searched, n, &report);
            drop(report);
            end
        }
        Err(Ended::Memory) => Ok(End::Wrong),
    }
}

/// How workers end with these limits and the schedule with a number.
pub(crate) fn end_of(
    alloc: Global,
    searched: &SearchedCircuit,
    n: &Numbers,
    number: u64,
) -> Result<End, AllocError> {
    let turns = schedule(alloc, number, n.workers)?;
    let ended = run_by(alloc, &searched.circuit, n, &turns);
    judged(alloc, searched, n, ended)
}

// The call on a text; no clause of its contract is wanted here.
fn circuit_in(alloc: Global, text: &[u8]) -> Result<Circuit, ModelEnd> {
    let model = aiger_ascii::read(alloc, text)?;
    Ok(model.into_circuit())
}

/// The circuit of an ASCII text.
pub(crate) fn circuit_of(alloc: Global, text: &[u8]) -> Result<Option<Arc<Circuit>>, AllocError> {
    match circuit_in(alloc, text) {
        Ok(circuit) => Ok(Some(Arc::new(alloc, circuit)?)),
        Err(_) => Ok(None),
    }
}

/// The circuit of the drawn model with a number, which is always read.
pub(crate) fn circuit_drawn(
    alloc: Global,
    number: u64,
) -> Result<Option<Arc<Circuit>>, AllocError> {
    let text = model_text(alloc, number)?;
    circuit_of(alloc, text.as_slice())
}

/// The circuit with what a search of all states says of it.
pub(crate) fn searched(
    alloc: Global,
    circuit: Arc<Circuit>,
) -> Result<SearchedCircuit, AllocError> {
    match steps_and_lasso(alloc, &*circuit, 0) {
        Ok((steps, has_lasso)) => Ok(SearchedCircuit {
            circuit,
            steps,
            has_lasso,
        }),
        Err(failed) => {
            drop(circuit);
            Err(failed)
        }
    }
}

/// The steps of a circuit, with the marks of property `j`, and whether that has a fair lasso.
pub(crate) fn steps_and_lasso(
    alloc: Global,
    c: &Circuit,
    j: u32,
) -> Result<(Vec<Step>, bool), AllocError> {
    let steps = steps_of(alloc, c, j)?;
    match has_fair_lasso(alloc, c, j, &steps) {
        Ok(has_lasso) => Ok((steps, has_lasso)),
        Err(failed) => {
            drop(steps);
            Err(failed)
        }
    }
}

fn is_decided_by(
    alloc: Global,
    searched: &SearchedCircuit,
    number: u64,
    k: u32,
) -> Result<bool, AllocError> {
    let n = unlimited((k / 2).saturating_add(1));
    let drawn = number.saturating_mul(8).saturating_add(u64::from(k));
    Ok(end_of(alloc, searched, &n, drawn)? == End::Verdict)
}

// Whether 1 to 4 workers without limits decide the circuit, each number of them by two schedules.
fn is_decided_by_all(
    alloc: Global,
    searched: &SearchedCircuit,
    number: u64,
) -> Result<bool, AllocError> {
    for k in 0..8 {
        if !is_decided_by(alloc, searched, number, k)? {
            return Ok(false);
        }
    }
    Ok(true)
}

fn is_circuit_decided(
    alloc: Global,
    circuit: Arc<Circuit>,
    number: u64,
) -> Result<bool, AllocError> {
    let searched = searched(alloc, circuit)?;
    let is_so = is_decided_by_all(alloc, &searched, number);
    drop(searched);
    is_so
}

/// Whether the drawn model with a number is decided rightly by 1 to 4 workers, by drawn schedules.
pub(crate) fn is_decided(alloc: Global, number: u64) -> Result<bool, AllocError> {
    match circuit_drawn(alloc, number)? {
        Some(circuit) => is_circuit_decided(alloc, circuit, number),
        None => Ok(false),
    }
}

// ---- workers on threads

/// How workers on threads end on a circuit with these limits, at this gate.
pub(crate) fn run_on_threads<R: Threads + Wait + Sync, G: Gate>(
    rt: &R,
    alloc: Global,
    c: &Arc<Circuit>,
    n: &Numbers,
    gate: &G,
) -> Result<Report, Ended> {
    if c.property_count() == 0 {
        return Err(Ended::Memory);
    }
    run_threaded(rt, alloc, c, limits(n), gate)
}

/// Whether workers on threads with these numbers decide the circuit rightly.
pub(crate) fn is_decided_on<R: Threads + Wait + Sync>(
    rt: &R,
    alloc: Global,
    searched: &SearchedCircuit,
    n: &Numbers,
) -> Result<bool, AllocError> {
    let ended = run_on_threads(rt, alloc, &searched.circuit, n, &FreeGate);
    Ok(judged(alloc, searched, n, ended)? == End::Verdict)
}

fn unlimited(workers: u32) -> Numbers {
    Numbers {
        workers,
        conflicts: NO_LIMIT,
        steps: NO_LIMIT,
        skeletons: 65_536,
        lassos: 0,
        depth: 0,
    }
}

fn is_decided_on_each<R: Threads + Wait + Sync>(
    rt: &R,
    alloc: Global,
    searched: &SearchedCircuit,
) -> Result<bool, AllocError> {
    for workers in [1, 2, 4] {
        if !is_decided_on(rt, alloc, searched, &unlimited(workers))? {
            return Ok(false);
        }
    }
    Ok(true)
}

fn is_circuit_decided_on<R: Threads + Wait + Sync>(
    rt: &R,
    alloc: Global,
    circuit: Arc<Circuit>,
) -> Result<bool, AllocError> {
    let searched = searched(alloc, circuit)?;
    let is_so = is_decided_on_each(rt, alloc, &searched);
    drop(searched);
    is_so
}

/// Whether the drawn model with a number is decided rightly by 1, 2 and 4 workers on threads.
pub(crate) fn is_decided_on_threads<R: Threads + Wait + Sync>(
    rt: &R,
    alloc: Global,
    number: u64,
) -> Result<bool, AllocError> {
    match circuit_drawn(alloc, number)? {
        Some(circuit) => is_circuit_decided_on(rt, alloc, circuit),
        None => Ok(false),
    }
}

// ---- limits

// The limit, where the kind is this one or that of all three.
fn limit_where(kind: u32, own: u32, limit: u32) -> u64 {
    if kind == own || kind == 3 {
        u64::from(limit)
    } else {
        NO_LIMIT
    }
}

/// So many of one kind: of entries, conflicts, steps, or of all three.
pub(crate) fn numbers_of(kind: u32, workers: u32, limit: u32) -> Numbers {
    Numbers {
        workers,
        conflicts: limit_where(kind, 1, limit),
        steps: limit_where(kind, 2, limit),
        skeletons: if kind == 0 || kind == 3 {
            limit
        } else {
            65_536
        },
        lassos: 0,
        depth: 0,
    }
}

/// 0, 1, 2, .. up to 16, and then twice as many each time.
pub(crate) fn next_limit(limit: u32) -> u32 {
    if limit < 16 {
        limit + 1
    } else {
        limit.saturating_mul(2)
    }
}

fn end_with_limit(
    alloc: Global,
    searched: &SearchedCircuit,
    number: u64,
    kind: u32,
    limit: u32,
    turn: u64,
) -> Result<End, AllocError> {
    let workers = (number % 4) as u32 + 1;
    let n = numbers_of(kind, workers, limit);
    let drawn = number.saturating_mul(28).saturating_add(turn);
    end_of(alloc, searched, &n, drawn)
}

// Whether runs end rightly with each limit of a kind in turn, up to one that is not spent.
fn ends_by_kind(
    alloc: Global,
    searched: &SearchedCircuit,
    number: u64,
    kind: u32,
) -> Result<bool, AllocError> {
    let mut limit = 0;
    for turn in 0..28 {
        let end = end_with_limit(alloc, searched, number, kind, limit, turn)?;
        if end != End::Report {
            return Ok(end == End::Verdict);
        }
        limit = next_limit(limit);
    }
    Ok(false)
}

fn ends_by_all(alloc: Global, searched: &SearchedCircuit, number: u64) -> Result<bool, AllocError> {
    for kind in 0..4 {
        if !ends_by_kind(alloc, searched, number, kind)? {
            return Ok(false);
        }
    }
    Ok(true)
}

fn circuit_ends_within(
    alloc: Global,
    circuit: Arc<Circuit>,
    number: u64,
) -> Result<bool, AllocError> {
    let searched = searched(alloc, circuit)?;
    let is_so = ends_by_all(alloc, &searched, number);
    drop(searched);
    is_so
}

/// Whether 1 to 4 workers end rightly on the drawn model with a number, by drawn schedules, with limits of entries, of
/// conflicts and of steps, and of all three: 0, 1, 2, .. until none is spent.
pub(crate) fn ends_within(alloc: Global, number: u64) -> Result<bool, AllocError> {
    match circuit_drawn(alloc, number)? {
        Some(circuit) => circuit_ends_within(alloc, circuit, number),
        None => Ok(false),
    }
}
