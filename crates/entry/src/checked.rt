//! Entries that were checked, with what they need to hold behind other entries too. The main type is `Checked`.

ghost use Rattle.std.specs.Prelude.{◌≡◌, ◌<◌, ◌++◌, [], ◌∷◌, true, map, length, All, IfOk};
ghost use Rattle.std.specs.Arc.{arc_value};
ghost use Rattle.fair_semantics.specs.Entries.{entry_at, used_entries};
ghost use Rattle.fair_semantics.specs.Skeletons.{excludes};
ghost use Rattle.fair_semantics.specs.Validity.{IsValid};
ghost use Rattle.entry.specs.Listing.{entry_of, numbered_of};
ghost use Rattle.entry.specs.Entries.{said};
ghost use Rattle.entry.specs.Proved.{IsProved};
ghost use Rattle.entry.specs.CheckedEntries.{checked_behind, viewed, ExcludesFrom, HoldsWhereUsesStand};

use crate::entries::Entry;
use crate::list::{Listed, UsedEntry};
use crate::origins::{Origin, Work};
use circuit::Circuit;
use cnf::Proof;
use fair_semantics::{Skeleton, Use};
use items::Items;
use std::alloc::{AllocError, Global};
use std::marker::Model;
use std::sync::Arc;

/// An entry that was checked behind those of a view, with its proofs. It shares its circuit and the entries that it
/// uses, so it costs no more than its own parts. It holds behind each list in which the entries that it uses stand.
#[derive(Drop)]
pub struct Checked {
    circuit: Arc<Circuit>,
    entry: Arc<Listed>,
    proofs: Items<Proof>,
    used: Items<UsedEntry>,
    origin: Origin,
    seen: usize,
}

impl Model for Checked {
    ghost use Rattle.entry.specs.CheckedEntries.{CheckedEntry};

    ghost Value = { CheckedEntry };

    ghost use Rattle.entry.specs.Keeping.{seen_as, Holds};

    ghost view = { seen_as };

    ghost invariant = { Holds };
}

impl Checked {
    /// An entry that a worker found in one of its turns, with the skeleton that it excludes. The error is want of
    /// memory.
    pub fn new(
        alloc: Global,
        circuit: &Arc<Circuit>,
        view: &[Arc<Checked>],
        entry: Entry,
        author: u32,
        turn: u32,
        skeleton: Skeleton,
    ) -> Result<Checked, AllocError>
        requires valid { IsValid (arc_value circuit.now) (viewed view.now) (said entry) }
        requires proved { IsProved (arc_value circuit.now) (viewed view.now) (said entry) entry.proofs }
        requires apart { excludes (viewed view.now ++ said entry ∷ []) (length (viewed view.now)) skeleton ≡ true }
        ensures { IfOk result (λ e. e ≡ checked_behind
            (arc_value circuit.now) (viewed view.now) (said entry) entry.proofs
            (Origin.Worker (record { author = author; turn = turn; skeleton = skeleton }))) }
    {
        let work = Work {
            author,
            turn,
            skeleton,
        };
        keep(alloc, circuit, view, entry, Origin::Worker(work))
    }

    /// An entry that was handed in with the question. The error is want of memory.
    pub fn given(
        alloc: Global,
        circuit: &Arc<Circuit>,
        view: &[Arc<Checked>],
        entry: Entry,
    ) -> Result<Checked, AllocError>
        requires valid { IsValid (arc_value circuit.now) (viewed view.now) (said entry) }
        requires proved { IsProved (arc_value circuit.now) (viewed view.now) (said entry) entry.proofs }
        ensures { IfOk result (λ e. e ≡ checked_behind
            (arc_value circuit.now) (viewed view.now) (said entry) entry.proofs Origin.Given) }
    {
        keep(alloc, circuit, view, entry, Origin::Given)
    }

    /// The circuit that the entry is of.
    pub fn circuit(&self) -> &Arc<Circuit>
        ensures { arc_value result.now ≡ self.now.circuit }
    {
        &self.circuit
    }

    /// The entry without its proofs: its kind, its clauses and its uses.
    pub fn listed(&self) -> &Listed
        ensures { entry_of result.now ≡ self.now.entry }
    {
        &*self.entry
    }

    /// Its proofs, one for each clause, in the order of the clauses.
    pub fn proofs(&self) -> &[Proof]
        ensures { result.now ≡ self.now.proofs }
    {
        self.proofs.as_slice()
    }

    /// The entries that it uses, as they stood where it was checked, in the order of its uses.
    pub fn used(&self) -> &[UsedEntry]
        ensures { map numbered_of result.now ≡ self.now.used }
    {
        self.used.as_slice()
    }

    /// Where it is from.
    pub fn origin(&self) -> &Origin
        ensures { result.now ≡ self.now.origin }
    {
        &self.origin
    }

    /// How many entries the view had that it was checked behind.
    pub fn seen(&self) -> usize
        ensures { result ≡ self.now.seen }
    {
        self.seen
    }

    /// Nothing: the law that the entry is valid, is proved and excludes its skeleton behind all entries among which
    /// those that it uses stand.
    pub fn holds_where_uses_stand(&self)
        ensures { HoldsWhereUsesStand self.now }
    {
        let _ = &self.seen;
    }

    fn shared(&self) -> &Arc<Listed>
        ensures { entry_of (arc_value result.now) ≡ self.now.entry }
    {
        &self.entry
    }
}

// The entry, kept with those that it uses.
fn keep(
    alloc: Global,
    circuit: &Arc<Circuit>,
    view: &[Arc<Checked>],
    entry: Entry,
    origin: Origin,
) -> Result<Checked, AllocError>
    requires valid { IsValid (arc_value circuit.now) (viewed view.now) (said entry) }
    requires proved { IsProved (arc_value circuit.now) (viewed view.now) (said entry) entry.proofs }
    requires apart { ExcludesFrom origin (viewed view.now ++ said entry ∷ []) (length (viewed view.now)) }
    ensures { IfOk result (λ e. e ≡ checked_behind
        (arc_value circuit.now) (viewed view.now) (said entry) entry.proofs origin) }
{
    let used = used_in(alloc, view, entry.uses.as_slice())?;
    let circuit = Arc::try_clone(circuit)?;
    let Entry {
        kind,
        set,
        uses,
        proofs,
    } = entry;
    let entry = Arc::new(alloc, Listed { kind, set, uses })?;
    Ok(Checked {
        circuit,
        entry,
        proofs,
        used,
        origin,
        seen: view.len(),
    })
}

// The entry of the view that a use names.
fn used_at(view: &[Arc<Checked>], u: Use) -> Result<UsedEntry, AllocError>
    requires { u.entry < length view.now }
    ensures { IfOk result (λ used. numbered_of used
        ≡ record { number = u.entry; entry = entry_at (viewed view.now) u.entry }) }
{
    let entry = Arc::try_clone(view[u.entry as usize].shared())?;
    Ok(UsedEntry {
        number: u.entry,
        entry,
    })
}

// The entries of the view that these uses name.
fn used_in(
    alloc: Global,
    view: &[Arc<Checked>],
    uses: &[Use],
) -> Result<Items<UsedEntry>, AllocError>
    requires { All (λ u. u.entry < length view.now) uses.now }
    ensures { IfOk result (λ us. map numbered_of us ≡ used_entries (viewed view.now) uses.now) }
{
    let mut found = Items::new(alloc);
    for u in uses {
        found.push(used_at(view, *u)?)?;
    }
    Ok(found)
}

fn share<T: Send + Sync>() {}

/// Nothing: it has a proof only where threads may share a checked entry and hand it to each other.
pub fn threads_share_checked() {
    share::<Checked>();
}
