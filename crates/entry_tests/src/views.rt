//! Views of no entry, and of one that is checked.

ghost use Rattle.std.specs.Prelude.{◌≡◌, ◌≤◌, ◌∷◌, [], length, IfOk};
ghost use Rattle.std.specs.Arc.{arc_value};
ghost use Rattle.entry.specs.CheckedEntries.{viewed};
ghost use Rattle.entry.specs.Laws.{IsGoodList};
ghost use Rattle.entry.specs.Proved.{IsProved};

use crate::checked::{Row, checked_row, set_of};
use circuit::Circuit;
use entry::{Checked, EntryEnd, Listed, good_lists_grow};
use items::Items;
use std::alloc::{AllocError, Global};
use std::sync::Arc;

fn listed(alloc: Global, c: &Circuit, row: &Row) -> Result<Listed, EntryEnd> {
    Ok(Listed {
        kind: row.kind,
        set: set_of(alloc, c, row.literal)?,
        uses: Items::new(alloc),
    })
}

fn list_alone(alloc: Global, entry: Listed) -> Result<Vec<Listed>, AllocError> {
    let mut list = Vec::new(alloc);
    list.push(entry)?;
    Ok(list)
}

/// The list of the entry, if there is one, without its proof.
pub(crate) fn list_of(
    alloc: Global,
    c: &Circuit,
    entry: Option<&Row>,
) -> Result<Vec<Listed>, EntryEnd> {
    match entry {
        None => Ok(Vec::new(alloc)),
        Some(row) => Ok(list_alone(alloc, listed(alloc, c, row)?)?),
    }
}

// The view of one entry.
fn view_alone(alloc: Global, checked: Checked) -> Result<Vec<Arc<Checked>>, AllocError>
    ensures viewed { IfOk result (λ view. viewed view.items ≡ checked.entry ∷ []) }
    ensures one { IfOk result (λ view. length view.items ≡ 1) }
{
    let shared = Arc::new(alloc, checked)?;
    let mut view = Vec::new(alloc);
    view.push(shared)?;
    Ok(view)
}

fn good_view(
    alloc: Global,
    shared: &Arc<Circuit>,
    checked: Checked,
) -> Result<Vec<Arc<Checked>>, AllocError>
    requires { IsProved (arc_value shared.now) [] checked.entry checked.proofs }
    ensures good { IfOk result (λ view. IsGoodList (arc_value shared.now) (viewed view.items)) }
    ensures few { IfOk result (λ view. length view.items ≤ 1) }
{
    let c: &Circuit = &**shared;
    good_lists_grow(c);
    let view = view_alone(alloc, checked)?;
    Ok(view)
}

/// The view of the entry, if there is one.
pub(crate) fn view_of(
    alloc: Global,
    shared: &Arc<Circuit>,
    entry: Option<&Row>,
) -> Result<Vec<Arc<Checked>>, EntryEnd>
    ensures good { IfOk result (λ view. IsGoodList (arc_value shared.now) (viewed view.items)) }
    ensures few { IfOk result (λ view. length view.items ≤ 1) }
{
    let c: &Circuit = &**shared;
    good_lists_grow(c);
    match entry {
        None => Ok(Vec::new(alloc)),
        Some(row) => {
            let checked = checked_row(alloc, shared, row)?;
            Ok(good_view(alloc, shared, checked)?)
        }
    }
}
