//! Which workers are lasso workers, by their numbers. The main call is `is_round_worker`.

ghost use Rattle.std.specs.Prelude.{◌≡◌, ◌≤◌, nat_lt};
ghost use Rattle.fair_workers.specs.Runs.{lasso_workers, round_workers};

use search_reports::Limits;

// How many of the workers are lasso workers.
fn lasso_workers(limits: Limits) -> u32
    requires { 1 ≤ limits.workers }
    ensures { result ≡ lasso_workers limits }
{
    limits.lassos.min(limits.workers - 1)
}

/// Whether the worker of this number is none.
pub(crate) fn is_round_worker(limits: Limits, number: u32) -> bool
    requires { 1 ≤ limits.workers }
    ensures { result ≡ nat_lt number (round_workers limits) }
{
    number < limits.workers - lasso_workers(limits)
}
