//! Bounded search over the cone of the property, which goes on between rounds. The main call is `deepened`.

ghost use Rattle.std.specs.Prelude.{IfOk, IfErr, IfSome};
ghost use Rattle.aig_semantics.specs.Stimuli.{IsFairLassoOf};
ghost use Rattle.edge.specs.Ends.{CountsConflicts};
ghost use Rattle.fair_round.specs.Spending.{IsStop};

use crate::stopping::{Stop, solver_stop};
use circuit::{Circuit, Lasso};
use edge::Meter;
use lasso_bmc::{ConeSearch, deepen_cone};
use round_choices::{Expense, Size, charge, is_due, no_expense};
use std::alloc::{AllocError, Global};
use std::mem;

/// How many positions are asked for behind one another, at most.
const MOST_AT_ONCE: u32 = 64;

/// A bounded search, and what it has cost.
#[derive(Drop)]
struct BegunSearch {
    search: ConeSearch,
    expense: Expense,
}

/// A bounded search, which is made at first use, where there is such a property.
#[derive(Drop)]
pub(crate) struct Bounded {
    begun: Option<BegunSearch>,
    is_used: bool,
}

impl Bounded {
    /// Before the first use.
    pub(crate) fn unused() -> Bounded {
        Bounded {
            begun: None,
            is_used: false,
        }
    }
}

// A search that was asked nothing yet.
fn begin(
    alloc: Global,
    c: &Circuit,
    j: u32,
    meter: &Meter,
) -> Result<Option<BegunSearch>, AllocError> {
    match ConeSearch::new(alloc, c, j)? {
        Some(search) => Ok(Some(BegunSearch {
            search,
            expense: no_expense(meter),
        })),
        None => Ok(None),
    }
}

// Makes the search at first use.
fn use_first(
    alloc: Global,
    c: &Circuit,
    j: u32,
    bounded: &mut Bounded,
    meter: &Meter,
) -> Result<(), AllocError> {
    if bounded.is_used {
        return Ok(());
    }
    bounded.is_used = true;
    let made = begin(alloc, c, j, meter)?;
    drop(mem::replace(&mut bounded.begun, made));
    Ok(())
}

// The size of the next question.
fn size_asked(search: &ConeSearch) -> Size {
    Size {
        positions: u64::from(search.done()).saturating_add(1),
        latches: search.latch_count(),
        gates: search.gate_count(),
    }
}

// The question for one position more.
fn ask_once(
    alloc: Global,
    c: &Circuit,
    j: u32,
    begun: &mut BegunSearch,
    meter: &mut Meter,
) -> Result<Option<Lasso>, Stop>
    ensures lasso { IfOk result (λ found. IfSome found (IsFairLassoOf c.now j)) }
    ensures stop { IfErr result (IsStop meter.new) }
    ensures counted { CountsConflicts meter.old meter.new }
{
    let size = size_asked(&begun.search);
    let before = meter.spending().conflicts();
    let answer = deepen_cone(alloc, c, j, &mut begun.search, meter);
    let conflicts = meter.spending().conflicts().saturating_sub(before);
    charge(&mut begun.expense, size, conflicts);
    match answer {
        Ok(found) => Ok(found),
        Err(end) => Err(solver_stop(end, meter)),
    }
}

// Asks for positions more while they are due.
fn ask_while_due(
    alloc: Global,
    c: &Circuit,
    j: u32,
    begun: &mut BegunSearch,
    meter: &mut Meter,
) -> Result<Option<Lasso>, Stop>
    ensures lasso { IfOk result (λ found. IfSome found (IsFairLassoOf c.now j)) }
    ensures stop { IfErr result (IsStop meter.new) }
    ensures counted { CountsConflicts meter.old meter.new }
{
    for _position in 0..MOST_AT_ONCE {
        let size = size_asked(&begun.search);
        if begun.search.is_over() || !is_due(&begun.expense, size, meter) {
            return Ok(None);
        }
        if let Some(lasso) = ask_once(alloc, c, j, begun, meter)? {
            return Ok(Some(lasso));
        }
    }
    Ok(None)
}

/// Asks for positions more while the search has cost no more than it may before the first round, and its share of what rounds
/// have cost: a fair lasso of property `j` that it finds, or none.
pub(crate) fn deepened(
    alloc: Global,
    c: &Circuit,
    j: u32,
    bounded: &mut Bounded,
    meter: &mut Meter,
) -> Result<Option<Lasso>, Stop>
    ensures lasso { IfOk result (λ found. IfSome found (IsFairLassoOf c.now j)) }
    ensures stop { IfErr result (IsStop meter.new) }
    ensures counted { CountsConflicts meter.old meter.new }
{
    use_first(alloc, c, j, bounded, meter)?;
    match &mut bounded.begun {
        Some(begun) => ask_while_due(alloc, c, j, begun, meter),
        None => Ok(None),
    }
}
