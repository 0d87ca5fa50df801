//! What a meter has counted.

use edge::Meter;

/// How many steps and conflicts were counted, together.
pub fn work_of(meter: &Meter) -> u64 {
    let spent = meter.spending();
    spent.steps().saturating_add(spent.conflicts())
}

/// Whether the count of conflicts, or that of steps, equals its limit.
pub fn is_at_limit(meter: &Meter) -> bool {
    let spent = meter.spending();
    spent.conflict_limit() == Some(spent.conflicts()) || spent.step_limit() == Some(spent.steps())
}
