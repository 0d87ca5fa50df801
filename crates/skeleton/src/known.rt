//! The solver of a query, with the entries whose clauses it has. The main call is `catch_up`.
ghost use Rattle.std.specs.Prelude.{◌≡◌, ◌<◌, ◌^◌, false, [], length, IfOk, OnOk};
ghost use Rattle.fair_semantics.specs.Entries.{numbered};
ghost use Rattle.cnf_unroll.specs.Obligations.{skeleton_clauses};
ghost use Rattle.entry.specs.CheckedEntries.{viewed, GoesOnFrom};
ghost use Rattle.skeleton.specs.Keeping.{IsFront, IsBuilt, IsBegun};

use cdcl::{FirstValues, Solver};
use circuit::Circuit;
use cnf::Clause;
use cnf_unroll::{Unrolled, unrolled_skeleton};
use entry::{Checked, lend_view};
use items::Items;
use std::alloc::{AllocError, Global};
use std::sync::Arc;

/// A solver of skeleton clauses, and the entries that were seen. The solver has the first of the clauses over these, and
/// all of them where it is `whole`. The ends are those that the clauses were given with.
#[derive(Drop)]
pub(crate) struct Known {
    pub(crate) solver: Solver,
    pub(crate) seen: Items<Arc<Checked>>,
    pub(crate) ends: Items<u64>,
    whole: bool,
}

// Adds what the solver lacks of these clauses, of which it has the first.
fn add_rest(solver: &mut Solver, mut clauses: Vec<Clause>) -> Result<(), AllocError>
    requires { IsFront solver.old.added clauses.items }
    ensures all { OnOk result (solver.new.added ≡ clauses.items) }
    ensures front { IsFront solver.new.added clauses.items }
{
    let total = clauses.as_slice().len();
    let rest = clauses.split_off(solver.count_added() as usize)?;
    solver.add_all(rest)
}

/// Nothing was seen, and the solver, which has no clause, decides variables with these values first. The error is want of
/// memory.
pub(crate) fn nothing_known(alloc: Global, first: FirstValues) -> Result<Known, AllocError>
    ensures added { IfOk result (λ known. known.solver.added ≡ []) }
    ensures seen { IfOk result (λ known. known.seen ≡ []) }
    ensures whole { IfOk result (λ known. known.whole ≡ false) }
{
    Ok(Known {
        solver: Solver::deciding(alloc, first)?,
        seen: Items::new(alloc),
        ends: Items::new(alloc),
        whole: false,
    })
}

// The skeleton clauses over the entries of a view.
fn clauses_of(
    alloc: Global,
    c: &Circuit,
    j: u32,
    view: &[Arc<Checked>],
) -> Result<Unrolled, AllocError>
    requires property { j < length c.now.justice }
    requires few { length view.now < 2 ^ 32 }
    ensures { IfOk result (λ unrolled.
        unrolled.clauses.clauses ≡ skeleton_clauses c.now j (numbered (viewed view.now))) }
{
    let uses = lend_view(alloc, view)?;
    unrolled_skeleton(alloc, c, j, uses.as_slice())
}

/// Takes in what the view has more than was seen, and what an error before kept from the solver. The error is want of
/// memory; the clauses that were added stay.
#[tactic(auto, using(crate::proofs::Growing::goes_on_same, crate::proofs::Growing::seen_whole))]
pub(crate) fn catch_up(
    alloc: Global,
    c: &Circuit,
    j: u32,
    known: &mut Known,
    view: &[Arc<Checked>],
) -> Result<(), AllocError>
    requires property { j < length c.now.justice }
    requires few { length view.now < 2 ^ 32 }
    requires on { GoesOnFrom (viewed known.old.seen) (viewed view.now) }
    requires begun { IsBegun c.now j known.old }
    ensures begun { IsBegun c.now j known.new }
    ensures built { OnOk result (IsBuilt c.now j known.new) }
    ensures seen { OnOk result (viewed known.new.seen ≡ viewed view.now) }
    ensures grows { GoesOnFrom (viewed known.old.seen) (viewed known.new.seen) }
    ensures on { GoesOnFrom (viewed known.new.seen) (viewed view.now) }
{
    if known.whole && known.seen.len() == view.len() {
        return Ok(());
    }
    let unrolled = clauses_of(alloc, c, j, view)?;
    entry::catch_up(alloc, &mut known.seen, view)?;
    known.ends = unrolled.ends;
    known.whole = false;
    add_rest(&mut known.solver, unrolled.clauses.into_vec())?;
    known.whole = true;
    Ok(())
}
