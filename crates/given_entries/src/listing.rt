//! Entries as the list with which a search begins. The main call is `given_list`.

ghost use Rattle.std.specs.Prelude.{◌≡◌, ◌∷◌, ◌++◌, [], map, length, All, IfOk, OnOk};
ghost use Rattle.std.specs.Arc.{arc_value};
ghost use Rattle.entry.specs.declared.origins.Origin.TheVariants.{Given};
ghost use Rattle.entry.specs.CheckedEntries.{checked_behind, viewed};
ghost use Rattle.entry.specs.Entries.{said};
ghost use Rattle.entry.specs.Laws.{IsGoodList};
ghost use Rattle.entry.specs.Proved.{IsProved};
ghost use Rattle.wall_store.specs.Boards.{IsSoundList};
ghost use Rattle.given_entries.specs.Given.{AreProvedInTurn, list_of};

use circuit::Circuit;
use entry::{Checked, Entry, good_lists_grow, proved_entries_are_valid};
use items::Items;
use std::alloc::{AllocError, Global};
use std::sync::Arc;

/// The entries, each proved behind those before it, as the list with which a search begins: none of them is a worker's, and
/// each is sound behind those before it. The error is want of memory.
pub fn given_list(
    alloc: Global,
    circuit: &Arc<Circuit>,
    entries: Items<Entry>,
) -> Result<Vec<Arc<Checked>>, AllocError>
    requires { AreProvedInTurn (arc_value circuit.now) [] entries }
    ensures list { IfOk result (λ list. map arc_value list.items ≡ list_of (arc_value circuit.now) entries) }
    ensures count { IfOk result (λ list. length list.items ≡ length entries) }
    ensures sound { IfOk result (λ list. IsSoundList (arc_value circuit.now) (map arc_value list.items)) }
    ensures origins { IfOk result (λ list. All (λ e. e.origin ≡ Given) (map arc_value list.items)) }
{
    proved_entries_are_valid(circuit);
    good_lists_grow(circuit);
    listed(alloc, circuit, entries)
}

fn listed(
    alloc: Global,
    circuit: &Arc<Circuit>,
    entries: Items<Entry>,
) -> Result<Vec<Arc<Checked>>, AllocError>
    requires { AreProvedInTurn (arc_value circuit.now) [] entries }
    ensures { IfOk result (λ list. map arc_value list.items ≡ list_of (arc_value circuit.now) entries) }
{
    let mut list = Vec::new(alloc);
    match list_all(alloc, circuit, entries, &mut list) {
        Ok(()) => Ok(list),
        Err(refused) => Err(refused),
    }
}

// Puts the entries into an empty list.
fn list_all(
    alloc: Global,
    circuit: &Arc<Circuit>,
    entries: Items<Entry>,
    list: &mut Vec<Arc<Checked>>,
) -> Result<(), AllocError>
    requires empty { list.old.items ≡ [] }
    requires proved { AreProvedInTurn (arc_value circuit.now) [] entries }
    ensures { OnOk result (map arc_value list.new.items ≡ list_of (arc_value circuit.now) entries) }
{
    good_lists_grow(circuit);
    for entry in entries.into_vec() {
        put(alloc, circuit, entry, list)?;
    }
    Ok(())
}

// Puts one behind the others, which are good.
fn put(
    alloc: Global,
    circuit: &Arc<Circuit>,
    entry: Entry,
    list: &mut Vec<Arc<Checked>>,
) -> Result<(), AllocError>
    requires good { IsGoodList (arc_value circuit.now) (viewed list.old.items) }
    requires proved { IsProved (arc_value circuit.now) (viewed list.old.items) (said entry) entry.proofs }
    ensures { OnOk result (map arc_value list.new.items
        ≡ map arc_value list.old.items
        ++ checked_behind (arc_value circuit.now) (viewed list.old.items) (said entry) entry.proofs Given ∷ []) }
{
    let shared = shared(alloc, circuit, list.as_slice(), entry)?;
    list.push(shared)?;
    Ok(())
}

// The entry, checked behind these, which are good.
fn shared(
    alloc: Global,
    circuit: &Arc<Circuit>,
    before: &[Arc<Checked>],
    entry: Entry,
) -> Result<Arc<Checked>, AllocError>
    requires good { IsGoodList (arc_value circuit.now) (viewed before.now) }
    requires proved { IsProved (arc_value circuit.now) (viewed before.now) (said entry) entry.proofs }
    ensures { IfOk result (λ shared. arc_value shared
        ≡ checked_behind (arc_value circuit.now) (viewed before.now) (said entry) entry.proofs Given) }
{
    proved_entries_are_valid(circuit);
    let checked = Checked::given(alloc, circuit, before, entry)?;
    Ok(Arc::new(alloc, checked)?)
}
