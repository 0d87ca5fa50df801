//! Entries that are judged, and views of them. The main calls are `proved` and `extended`.

ghost use Rattle.std.specs.Prelude.{◌≡◌, ◌↔◌, ◌<◌, ◌++◌, ◌∷◌, [], length, IsTrue, IfOk, OnOk};
ghost use Rattle.std.specs.List.{All};
ghost use Rattle.std.specs.Arc.{arc_value};
ghost use Rattle.cnf_unroll.specs.Laws.{AreOver};
ghost use Rattle.entry.specs.CheckedEntries.{viewed};
ghost use Rattle.entry.specs.Entries.{said};
ghost use Rattle.entry.specs.Laws.{IsGoodList};
ghost use Rattle.entry.specs.Listing.{entry_of, entries_of};
ghost use Rattle.entry.specs.Proved.{IsProved};

use crate::copies::with_proofs;
use crate::ends::ProvingEnd;
use crate::solving::proofs_of;
use circuit::Circuit;
use cnf::{Clause, Lit};
use entry::{
    Checked, Entry, EntryEnd, Listed, check_entry, good_lists_grow, list_of,
    proved_entries_are_valid,
};
use std::alloc::{AllocError, Global};
use std::sync::Arc;

fn is_over(c: &Circuit, literals: &[Lit]) -> bool
    ensures { IsTrue result ↔ All (λ l. l.var < length c.now.latches) literals.now }
{
    let count = c.latches().len() as u64;
    literals.iter().all(|literal| literal.var < count)
}

fn are_over(c: &Circuit, set: &[Clause]) -> bool
    ensures { IsTrue result ↔ AreOver (length c.now.latches) set.now }
{
    set.iter().all(|clause| is_over(c, clause.as_slice()))
}

// Takes an entry behind those of the list, if its clauses are over the latches, each with a proof.
fn judge_behind(alloc: Global, c: &Circuit, list: &[Listed], e: &Entry) -> Result<(), EntryEnd>
    ensures { OnOk result (IsProved c.now (entries_of list.now) (said e.now) e.now.proofs) }
{
    if !are_over(c, e.set.as_slice()) || e.proofs.len() != e.set.len() {
        return Err(EntryEnd::Memory);
    }
    check_entry(alloc, c, list, e)?;
    Ok(())
}

/// Takes an entry behind those of the view, if its clauses are over the latches, each with a proof.
pub fn judge(alloc: Global, c: &Circuit, view: &[Arc<Checked>], e: &Entry) -> Result<(), EntryEnd>
    ensures { OnOk result (IsProved c.now (viewed view.now) (said e.now) e.now.proofs) }
{
    let list = list_of(alloc, view)?;
    judge_behind(alloc, c, list.as_slice(), e)?;
    Ok(())
}

// The entry, judged behind the view.
fn given(
    alloc: Global,
    shared: &Arc<Circuit>,
    view: &[Arc<Checked>],
    e: Entry,
) -> Result<Checked, ProvingEnd>
    requires view { IsGoodList (arc_value shared.now) (viewed view.now) }
    ensures proved { IfOk result (λ known. IsProved (arc_value shared.now) (viewed view.now) known.entry known.proofs) }
    ensures same { IfOk result (λ known. known.entry ≡ said e) }
{
    let c: &Circuit = &**shared;
    judge(alloc, c, view, &e)?;
    proved_entries_are_valid(c);
    Ok(Checked::given(alloc, shared, view, e)?)
}

/// The entry with proofs of a solver, judged behind the view. `Refused` where it has none, or is not taken.
pub fn proved(
    alloc: Global,
    shared: &Arc<Circuit>,
    view: &[Arc<Checked>],
    entry: Listed,
) -> Result<Checked, ProvingEnd>
    requires view { IsGoodList (arc_value shared.now) (viewed view.now) }
    ensures proved { IfOk result (λ known. IsProved (arc_value shared.now) (viewed view.now) known.entry known.proofs) }
    ensures same { IfOk result (λ known. known.entry ≡ entry_of entry) }
{
    let proofs = proofs_of(alloc, &**shared, view, &entry)?;
    given(alloc, shared, view, with_proofs(entry, proofs))
}

/// The view with one entry more.
pub(crate) fn with_last(
    alloc: Global,
    view: Vec<Arc<Checked>>,
    last: Checked,
) -> Result<Vec<Arc<Checked>>, AllocError>
    ensures { IfOk result (λ longer. viewed longer.items ≡ viewed view.items ++ last.entry ∷ []) }
{
    let mut longer = view;
    longer.push(Arc::new(alloc, last)?)?;
    Ok(longer)
}

/// The view with one entry more, which gets proofs of a solver and is judged.
pub fn extended(
    alloc: Global,
    shared: &Arc<Circuit>,
    view: Vec<Arc<Checked>>,
    entry: Listed,
) -> Result<Vec<Arc<Checked>>, ProvingEnd>
    requires view { IsGoodList (arc_value shared.now) (viewed view.items) }
    ensures view { IfOk result (λ longer. IsGoodList (arc_value shared.now) (viewed longer.items)) }
{
    let last = proved(alloc, shared, view.as_slice(), entry)?;
    good_lists_grow(&**shared);
    Ok(with_last(alloc, view, last)?)
}
