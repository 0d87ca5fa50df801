//! Entries as a list keeps them, without proofs. The main type is `Listed`.

ghost use Rattle.std.specs.Prelude.{◌≡◌, ◌<◌, length, All, IfOk};
ghost use Rattle.fair_semantics.specs.Entries.{used_entries};
ghost use Rattle.cnf_unroll.specs.Lending.{lent_all};
ghost use Rattle.entry.specs.Listing.{entry_of, entries_of};

use cnf_unroll::{ClauseSet, Used};
use fair_semantics::{Kind, Use};
use items::Items;
use std::alloc::{AllocError, Global};
use std::sync::Arc;

/// An entry as a list of entries keeps it: its kind, its clauses over latch numbers, and its uses of entries before it.
#[derive(Drop)]
pub struct Listed {
    pub kind: Kind,
    pub set: ClauseSet,
    pub uses: Items<Use>,
}

// The same clauses once more.
fn clauses_again(alloc: Global, set: &ClauseSet) -> Result<ClauseSet, AllocError>
    ensures { IfOk result (λ copy. copy ≡ set.now) }
{
    let mut copy = Items::new(alloc);
    for clause in set.as_slice() {
        copy.push(clause.clone()?)?;
    }
    Ok(copy)
}

impl Listed {
    /// The same entry once more. The error is want of memory.
    pub fn try_copy(&self, alloc: Global) -> Result<Listed, AllocError>
        ensures { IfOk result (λ copy. entry_of copy ≡ entry_of self.now) }
    {
        let set = clauses_again(alloc, &self.set)?;
        let uses = self.uses.try_copy(alloc)?;
        Ok(Listed {
            kind: self.kind,
            set,
            uses,
        })
    }
}

/// An entry that is used, shared with whoever else keeps it, with its number in the list, counted from 0.
#[derive(Drop)]
pub struct UsedEntry {
    pub number: u32,
    pub entry: Arc<Listed>,
}

/// The entries that these uses name, each of which is there. The error is want of memory.
pub fn used<'a>(
    alloc: Global,
    list: &'a [Listed],
    uses: &[Use],
) -> Result<Items<Used<'a>>, AllocError>
    requires { All (λ u. u.entry < length list.now) uses.now }
    ensures { IfOk result (λ us. lent_all us ≡ used_entries (entries_of list.now) uses.now) }
{
    let mut found = Items::new(alloc);
    for u in uses {
        let entry = &list[u.entry as usize];
        found.push(Used {
            number: u.entry,
            kind: entry.kind,
            set: &entry.set,
            uses: entry.uses.as_slice(),
        })?;
    }
    Ok(found)
}
