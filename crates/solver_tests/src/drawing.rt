//! Questions drawn from a seed, and sequences of them. The main calls are `draw_question` and `draw_sequence`.

use crate::session::{FAR, NO_LIMIT, Way};
use std::alloc::{AllocError, Global};

/// Clauses in two parts, of which the second is added later, and assumptions.
#[derive(Drop)]
pub(crate) struct Drawn {
    pub(crate) first: Vec<i64>,
    pub(crate) second: Vec<i64>,
    pub(crate) assumed: Vec<i64>,
}

/// Three to eight variables, two to five clauses a variable in all, of one to three literals each, and none to two
/// assumptions. The same from the same seed.
pub(crate) fn draw_question(alloc: Global, seed: u64) -> Result<Drawn, AllocError> {
    let mut draws = Draws { state: seed };
    let variables = draws.below(6).saturating_add(3);
    let half = draws
        .below(variables.saturating_add(3))
        .saturating_add(variables);
    Ok(Drawn {
        first: draw_clauses(alloc, &mut draws, variables, half)?,
        second: draw_clauses(alloc, &mut draws, variables, half)?,
        assumed: draw_assumptions(alloc, &mut draws, variables)?,
    })
}

/// A step of a sequence: a clause that is added, with a 0 behind it; a question of a call with its assumptions, or
/// units, and its limit of conflicts; or a question to `solve` whose assumptions have a variable that no list of values
/// has a place for, so that memory is refused where there is a model.
#[derive(Drop)]
pub(crate) enum Step {
    Add(Vec<i64>),
    Ask(Way, Vec<i64>, u64),
    Refused(Vec<i64>),
}

/// Eight questions over three to twelve variables, with four clauses a variable between them in all, on the average, and
/// behind one in four a question whose model cannot be written. The same from the same seed.
pub(crate) fn draw_sequence(alloc: Global, seed: u64) -> Result<Vec<Step>, AllocError> {
    let mut draws = Draws { state: seed };
    let variables = draws.below(10).saturating_add(3);
    let mut steps = Vec::new(alloc);
    for _ in 0..8 {
        draw_steps(alloc, &mut draws, variables, &mut steps)?;
    }
    Ok(steps)
}

// Some clauses and a question behind them.
fn draw_steps(
    alloc: Global,
    draws: &mut Draws,
    variables: u64,
    steps: &mut Vec<Step>,
) -> Result<(), AllocError> {
    for _ in 0..draws.below(variables.saturating_add(1)) {
        let clause = draw_clauses(alloc, draws, variables, 1)?;
        steps.push(Step::Add(clause))?;
    }
    let way = draw_way(draws);
    let assumed = draw_assumptions(alloc, draws, variables)?;
    steps.push(Step::Ask(way, assumed, draw_limit(draws)))?;
    draw_refused(alloc, draws, variables, steps)
}

// One in four times a question to which memory is refused where it has a model.
fn draw_refused(
    alloc: Global,
    draws: &mut Draws,
    variables: u64,
    steps: &mut Vec<Step>,
) -> Result<(), AllocError> {
    if draws.below(4) != 0 {
        return Ok(());
    }
    let mut assumed = draw_assumptions(alloc, draws, variables)?;
    assumed.push(FAR)?;
    steps.push(Step::Refused(assumed))?;
    Ok(())
}

fn draw_way(draws: &mut Draws) -> Way {
    match draws.below(3) {
        0 => Way::Solve,
        1 => Way::Ask,
        _ => Way::Refute,
    }
}

fn draw_limit(draws: &mut Draws) -> u64 {
    match draws.below(4) {
        0 => 0,
        1 => 1,
        _ => NO_LIMIT,
    }
}

// So many clauses, with a 0 behind each.
fn draw_clauses(
    alloc: Global,
    draws: &mut Draws,
    variables: u64,
    count: u64,
) -> Result<Vec<i64>, AllocError> {
    let mut made = Vec::new(alloc);
    for _ in 0..count {
        draw_clause(draws, variables, &mut made)?;
    }
    Ok(made)
}

// A literal may stand twice, or beside its negation.
fn draw_clause(draws: &mut Draws, variables: u64, made: &mut Vec<i64>) -> Result<(), AllocError> {
    for _ in 0..draw_length(draws) {
        made.push(draws.literal(variables))?;
    }
    made.push(0)?;
    Ok(())
}

// One in 32 clauses has one literal, and two in 32 have two.
fn draw_length(draws: &mut Draws) -> u64 {
    match draws.below(32) {
        0 => 1,
        1 | 2 => 2,
        _ => 3,
    }
}

// None to two literals. The second is the first one again where it would be its negation.
fn draw_assumptions(
    alloc: Global,
    draws: &mut Draws,
    variables: u64,
) -> Result<Vec<i64>, AllocError> {
    let count = draws.below(3);
    let first = draws.literal(variables);
    let second = draws.literal(variables);
    match count {
        0 => Ok(Vec::new(alloc)),
        1 => Vec::from_slice(alloc, &[first]),
        _ => Vec::from_slice(alloc, &[first, beside(first, second)]),
    }
}

fn beside(first: i64, second: i64) -> i64 {
    if second.unsigned_abs() == first.unsigned_abs() {
        first
    } else {
        second
    }
}

/// A linear congruential generator with the constants of Knuth's MMIX. Its first state is the seed.
#[derive(Drop)]
struct Draws {
    state: u64,
}

impl Draws {
    // A number below `count`, and 0 where that is 0.
    fn below(&mut self, count: u64) -> u64 {
        self.state = self
            .state
            .wrapping_mul(6_364_136_223_846_793_005)
            .wrapping_add(1_442_695_040_888_963_407);
        (self.state / 8_589_934_592).checked_rem(count).unwrap_or(0)
    }

    // A literal of a variable from 1 to `variables`, with either sign.
    fn literal(&mut self, variables: u64) -> i64 {
        let number = i64::try_from(self.below(variables))
            .unwrap_or(0)
            .saturating_add(1);
        if self.below(2) == 0 {
            number
        } else {
            0i64.saturating_sub(number)
        }
    }
}
