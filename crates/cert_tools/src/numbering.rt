//! The next free number behind the uses of an item. The calls are `after_step` and `after_skeleton`.

ghost use Rattle.std.specs.Prelude.{◌≡◌, ◌<◌, ◌+◌, ◌*◌, length, IfOk};
ghost use Rattle.cnf_unroll.specs.Lending.{lent_all};
ghost use Rattle.aig_semantics.specs.Circuits.{fair_literals};
ghost use Rattle.cnf_unroll.specs.Obligations.{after_step, block_count};
ghost use Rattle.cert_tools.specs.Exported.{after_skeleton};
ghost use Rattle.cert_tools.specs.Exporting.{behind_use, behind_uses};

use circuit::Circuit;
use cnf_unroll::{Kind, Used};
use std::alloc::AllocError;

// So many numbers behind a free one and one more; want of memory where that would be 2^64 or more.
fn behind_marks(free: u64, clauses: u64, places: u64) -> Result<u64, AllocError>
    ensures { IfOk result (λ next. next ≡ free + 1 + clauses * places) }
{
    let Some(marks) = clauses.checked_mul(places) else {
        return Err(AllocError);
    };
    let Some(side) = free.checked_add(1) else {
        return Err(AllocError);
    };
    match side.checked_add(marks) {
        Some(next) => Ok(next),
        None => Err(AllocError),
    }
}

// Behind an entry that is used.
fn behind_use(places: u64, free: u64, used: &Used) -> Result<u64, AllocError>
    ensures { IfOk result (λ next. next ≡ behind_use places free (length used.now.set.now) used.now.kind) }
{
    match used.kind {
        Kind::Reach => Ok(free),
        Kind::Wall => behind_marks(free, used.set.len() as u64, places),
    }
}

fn behind_uses(places: u64, free: u64, uses: &[Used]) -> Result<u64, AllocError>
    ensures { IfOk result (λ next. next ≡ behind_uses places free (lent_all uses.now)) }
{
    let mut next = free;
    for used in uses {
        next = behind_use(places, next, used)?;
    }
    Ok(next)
}

/// Behind the uses of an obligation.
pub(crate) fn after_step(c: &Circuit, uses: &[Used]) -> Result<u64, AllocError>
    ensures { IfOk result (λ next. next ≡ (after_step c.now (lent_all uses.now)).free) }
{
    behind_uses(2, 2 * c.max() + 3, uses)
}

fn literal_count(c: &Circuit, j: u32) -> usize
    requires { j < length c.now.justice }
    ensures { result ≡ length (fair_literals c.now j) }
{
    c.property(j as usize).len() + c.fairness().len()
}

fn block_count(c: &Circuit, j: u32) -> u64
    requires { j < length c.now.justice }
    ensures { result ≡ block_count (fair_literals c.now j) }
{
    literal_count(c, j).max(1) as u64
}

/// Behind the uses of the refutation of a property.
pub(crate) fn after_skeleton(c: &Circuit, j: u32, uses: &[Used]) -> Result<u64, AllocError>
    requires { j < length c.now.justice }
    ensures { IfOk result (λ next. next ≡ (after_skeleton c.now j (lent_all uses.now)).free) }
{
    let blocks = block_count(c, j);
    let free = behind_marks(0, 2 * c.max() + 2, blocks)?;
    let Some(places) = blocks.checked_mul(2) else {
        return Err(AllocError);
    };
    behind_uses(places, free, uses)
}
