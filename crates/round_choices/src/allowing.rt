//! How long a search goes on that asks for one position more each time, by what it has cost. The main call is `is_due`.

use crate::spending::work_of;
use edge::Meter;

/// How much all positions of one question may weigh.
const MOST_WEIGHT: u64 = 500_000;

/// What a latch weighs at a position, where a gate weighs 1: the state is compared with that of each position.
const LATCH_WEIGHT: u64 = 5;

/// What the search may cost before the first round, for each latch.
const COST_PER_LATCH: u64 = 400;

/// What it may cost for each conflict and step that rounds have counted: a tenth of what a conflict costs.
const COST_PER_WORK: u64 = 10;

/// What a conflict costs. A question costs what its positions weigh, beside its conflicts.
const COST_PER_CONFLICT: u64 = 100;

/// What a search has cost, with its conflicts; and what the meter had counted when it was made.
#[derive(Clone, Copy)]
pub struct Expense {
    conflicts: u64,
    cost: u64,
    before: u64,
}

/// How many positions a question has, and how many latches and gates each of them has.
#[derive(Clone, Copy)]
pub struct Size {
    pub positions: u64,
    pub latches: u64,
    pub gates: u64,
}

/// What a search has cost that was asked nothing yet.
pub fn no_expense(meter: &Meter) -> Expense {
    Expense {
        conflicts: 0,
        cost: 0,
        before: work_of(meter),
    }
}

// What the positions of a question weigh.
fn weight_of(size: Size) -> u64 {
    let latches = size.latches.saturating_mul(LATCH_WEIGHT);
    let weight = latches.saturating_add(size.gates);
    weight.saturating_mul(size.positions)
}

// What a search over so many latches may have cost when the next question comes.
fn most_cost(expense: &Expense, latches: u64, meter: &Meter) -> u64 {
    let all = work_of(meter).saturating_sub(expense.before);
    let others = all.saturating_sub(expense.conflicts);
    let first = latches.saturating_mul(COST_PER_LATCH);
    first.saturating_add(others.saturating_mul(COST_PER_WORK))
}

/// Whether the question is asked: it is not too large, and the search has cost no more than it may.
pub fn is_due(expense: &Expense, size: Size, meter: &Meter) -> bool {
    weight_of(size) <= MOST_WEIGHT && expense.cost <= most_cost(expense, size.latches, meter)
}

/// Adds what the question has cost, of which the meter has counted so many conflicts.
pub fn charge(expense: &mut Expense, size: Size, conflicts: u64) {
    expense.conflicts = expense.conflicts.saturating_add(conflicts);
    expense.cost = expense
        .cost
        .saturating_add(conflicts.saturating_mul(COST_PER_CONFLICT))
        .saturating_add(weight_of(size));
}
