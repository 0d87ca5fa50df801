//! Lasso clauses of drawn circuits, for up to five positions, by a solver and by a search of all states. The main calls are
//! `satisfiable_of` and `has_lasso`.

use crate::counting::{Steps, blank, is_in, put, step_from};
use crate::drawn::{Case, case_of};
use cdcl::{Answer, Solver};
use circuit::Circuit;
use drawn_circuits::{Drawn, circuit_drawn, may_begin};
use edge::{Meter, SolveEnd};
use lasso_bmc::lasso_cnf;
use std::alloc::{AllocError, Global};
use std::test::*;

fn is_sat(answer: &Result<Answer, SolveEnd>) -> Option<bool> {
    match answer {
        Ok(Answer::Sat(_)) => Some(true),
        Ok(Answer::Unsat(_, _)) => Some(false),
        Err(_) => None,
    }
}

fn has_model(solver: &mut Solver) -> Option<bool> {
    let mut meter = Meter::new(4_294_967_295, 4_294_967_295);
    let answer = solver.solve(&[], &mut meter);
    let told = is_sat(&answer);
    drop(answer);
    told
}

// Whether the lasso clauses of the first property are satisfiable.
fn is_satisfiable(alloc: Global, c: &Circuit, k: u32) -> Option<bool> {
    if c.property_count() == 0 {
        return None;
    }
    let clauses = lasso_cnf(alloc, c, 0, k).ok()?;
    let mut solver = Solver::with_clauses(alloc, clauses.into_vec()).ok()?;
    let told = has_model(&mut solver);
    drop(solver);
    told
}

fn satisfiable_of(alloc: Global, text: &[u8], k: u32) -> Option<bool> {
    match aiger_ascii::read(alloc, text) {
        Ok(model) => {
            let told = is_satisfiable(alloc, model.circuit(), k);
            drop(model);
            told
        }
        Err(_) => None,
    }
}

// ---- a search of all states

fn follow_all(steps: &Steps, pair: u64, next: &mut [bool]) {
    for inputs in 0..4 {
        if let Some(after) = step_from(steps, pair, inputs) {
            let _new = put(next, after);
        }
    }
}

// The pairs one position later.
fn later(alloc: Global, steps: &Steps, pairs: &[bool]) -> Result<Vec<bool>, AllocError> {
    let mut next = blank(alloc, steps)?;
    for pair in 0..steps.states.saturating_mul(steps.seen) {
        if is_in(pairs, pair) {
            follow_all(steps, pair, next.as_mut_slice());
        }
    }
    Ok(next)
}

fn after(
    alloc: Global,
    steps: &Steps,
    first: Vec<bool>,
    count: u32,
) -> Result<Vec<bool>, AllocError> {
    let mut pairs = first;
    for _turn in 0..count {
        pairs = later(alloc, steps, pairs.as_slice())?;
    }
    Ok(pairs)
}

// Whether so many positions lead from a state back to it, with each literal true at one of them.
fn comes_back(alloc: Global, steps: &Steps, state: u64, count: u32) -> Result<bool, AllocError> {
    let mut first = blank(alloc, steps)?;
    let _new = put(first.as_mut_slice(), state.saturating_mul(steps.seen));
    let last = after(alloc, steps, first, count)?;
    let all = state.saturating_add(1).saturating_mul(steps.seen);
    Ok(is_in(last.as_slice(), all.saturating_sub(1)))
}

fn is_held(steps: &Steps, pairs: &[bool], state: u64) -> bool {
    for set in 0..steps.seen {
        if is_in(pairs, state.saturating_mul(steps.seen).saturating_add(set)) {
            return true;
        }
    }
    false
}

fn begin(alloc: Global, d: &Drawn, steps: &Steps) -> Result<Vec<bool>, AllocError> {
    let mut first = blank(alloc, steps)?;
    for state in 0..steps.states {
        if may_begin(d, state) {
            let _new = put(first.as_mut_slice(), state.saturating_mul(steps.seen));
        }
    }
    Ok(first)
}

// The same of a lasso that goes back to this place.
fn has_lasso_at(
    alloc: Global,
    d: &Drawn,
    steps: &Steps,
    place: u32,
    count: u32,
) -> Result<bool, AllocError> {
    let stem = after(alloc, steps, begin(alloc, d, steps)?, place)?;
    for state in 0..steps.states {
        if is_held(steps, stem.as_slice(), state) && comes_back(alloc, steps, state, count)? {
            return Ok(true);
        }
    }
    Ok(false)
}

// Whether a fair lasso of the circuit has `k` positions.
fn has_lasso(alloc: Global, d: &Drawn, steps: &Steps, k: u32) -> Result<bool, AllocError> {
    for place in 0..k {
        if has_lasso_at(alloc, d, steps, place, k.saturating_sub(place))? {
            return Ok(true);
        }
    }
    Ok(false)
}

// ---- both

// The place at which a length is counted: of those without a lasso, of those with one, and of those that do not agree.
fn place_of(told: Option<bool>, wanted: bool) -> usize {
    if told != Some(wanted) {
        2
    } else if wanted {
        1
    } else {
        0
    }
}

// Counts up to five positions of the circuit.
fn count_lengths(
    alloc: Global,
    d: &Drawn,
    case: &Case,
    counts: &mut [u64; 3],
) -> Result<(), AllocError> {
    for k in 0..6_u32 {
        let wanted = has_lasso(alloc, d, &case.steps, k)?;
        let told = satisfiable_of(alloc, case.text.as_slice(), k);
        let place = place_of(told, wanted) % 3;
        counts[place] = counts[place].saturating_add(1);
    }
    Ok(())
}

fn count_case(
    alloc: Global,
    d: &Drawn,
    number: u64,
    counts: &mut [u64; 3],
) -> Result<(), AllocError> {
    let case = case_of(alloc, d, number)?;
    let counted = count_lengths(alloc, d, &case, counts);
    drop(case);
    counted
}

// Counts those of the circuit with a number, if it has at most three latches.
fn count_drawn(alloc: Global, number: u64, counts: &mut [u64; 3]) -> Result<(), AllocError> {
    let d = circuit_drawn(alloc, number)?;
    let counted = if d.latches < 4 {
        count_case(alloc, &d, number, counts)
    } else {
        Ok(())
    };
    drop(d);
    counted
}

fn counted(alloc: Global, end: u64) -> Result<[u64; 3], AllocError> {
    let mut counts = [0, 0, 0];
    for number in 0..end {
        count_drawn(alloc, number, &mut counts)?;
    }
    Ok(counts)
}

/// Of drawn circuits of up to three latches, and up to five positions, the clauses are satisfiable where a search of all
/// states finds a lasso.
#[test]
fn clauses_of_drawn_circuits_agree(rt: HostRuntime) -> Result<(), Fail> {
    let counts = counted(rt.alloc(), 80)?;
    assert!(rt; counts[2] == 0 && counts[0] > 0 && counts[1] > 0);
    Ok(())
}
