//! Which kind of round comes next, and which rounds look for walls of one latch. The main types are `Costs` and `Pauses`.

/// What rounds have cost in which the first literal was asked for, and those in which a state was. The cheaper comes next.
#[derive(Clone, Copy)]
pub struct Costs {
    by_literal: u64,
    by_state: u64,
}

/// Where a worker of this number begins: the first by literals, the second by states; the third never asks for literals, and
/// so on with each three.
pub fn first_costs(worker: u32) -> Costs {
    let by_literal = match worker % 3 {
        0 => 0,
        1 => 1,
        _ => u64::MAX,
    };
    Costs {
        by_literal,
        by_state: 0,
    }
}

/// Whether the first literal is asked for next, and not a state.
pub fn asks_literal(costs: &Costs) -> bool {
    costs.by_literal < u64::MAX && costs.by_literal <= costs.by_state
}

/// Adds to what one of the two has cost, in conflicts, steps, questions for a literal and rounds.
pub fn add_cost(costs: &mut Costs, by_literal: bool, cost: u64) {
    if by_literal {
        costs.by_literal = costs.by_literal.saturating_add(cost);
    } else {
        costs.by_state = costs.by_state.saturating_add(cost);
    }
}

/// How many rounds pass at most between two that look for walls of one latch in vain.
const MOST_PAUSE: u32 = 15;

/// How many rounds have passed without looking for walls of one latch, and how many are to.
#[derive(Clone, Copy)]
pub struct Pauses {
    passed: u32,
    most: u32,
}

/// The next round looks for such walls.
pub const NO_PAUSE: Pauses = Pauses { passed: 0, most: 0 };

/// Whether this round looks for walls of one latch. Behind it more rounds pass than before it: twice as many and one more, up
/// to `MOST_PAUSE`.
pub fn looks(pauses: &mut Pauses) -> bool {
    if pauses.passed < pauses.most {
        pauses.passed += 1;
        return false;
    }
    pauses.passed = 0;
    pauses.most = pauses
        .most
        .saturating_mul(2)
        .saturating_add(1)
        .min(MOST_PAUSE);
    true
}
