//! Views: the checked entries that a search knows, as a list of shared handles. The main call is `catch_up`.

ghost use Rattle.std.specs.Prelude.{◌≡◌, ◌<◌, ◌^◌, ◌++◌, length, drop, All, IfOk, OnOk, OnErr};
ghost use Rattle.fair_semantics.specs.Entries.{entry_at, numbered, used_entries};
ghost use Rattle.cnf_unroll.specs.Lending.{lent, lent_all};
ghost use Rattle.entry.specs.CheckedEntries.{entry_in, checked_in, viewed, GoesOnFrom};
ghost use Rattle.entry.specs.Listing.{entries_of};

use crate::checked::Checked;
use crate::list::Listed;
use cnf_unroll::Used;
use fair_semantics::Use;
use items::Items;
use std::alloc::{AllocError, Global};
use std::mem;
use std::sync::Arc;

/// A list of the same checked entries; the entries themselves are not copied. The error is want of memory.
pub fn share(alloc: Global, view: &[Arc<Checked>]) -> Result<Items<Arc<Checked>>, AllocError>
    ensures checked { IfOk result (λ copy. checked_in copy ≡ checked_in view.now) }
    ensures viewed { IfOk result (λ copy. viewed copy ≡ viewed view.now) }
{
    let mut copy = Items::new(alloc);
    for shared in view {
        copy.push(Arc::try_clone(shared)?)?;
    }
    Ok(copy)
}

// Puts the second list behind the first.
fn append(
    alloc: Global,
    seen: &mut Items<Arc<Checked>>,
    more: Items<Arc<Checked>>,
) -> Result<(), AllocError>
    ensures seen { OnOk result (seen.new ≡ seen.old ++ more) }
    ensures kept { OnErr result (seen.new ≡ seen.old) }
{
    let mut values = mem::replace(seen, Items::new(alloc)).into_vec();
    let appended = values.append(&mut more.into_vec());
    *seen = Items::from_vec(values);
    appended
}

/// Takes in what the view has more than was seen, and copies no other handle: of what was seen the checked entries stay,
/// with their proofs and origins. The error is want of memory, and changes nothing.
pub fn catch_up(
    alloc: Global,
    seen: &mut Items<Arc<Checked>>,
    view: &[Arc<Checked>],
) -> Result<(), AllocError>
    requires { GoesOnFrom (viewed seen.old) (viewed view.now) }
    ensures checked { OnOk result (checked_in seen.new ≡ checked_in seen.old ++ drop (length seen.old) (checked_in view.now)) }
    ensures seen { OnOk result (viewed seen.new ≡ viewed view.now) }
    ensures kept { OnErr result (seen.new ≡ seen.old) }
{
    let more = share(alloc, &view[seen.len()..])?;
    append(alloc, seen, more)
}

/// The entries of a view without their proofs, each copied. The error is want of memory.
pub fn list_of(alloc: Global, view: &[Arc<Checked>]) -> Result<Vec<Listed>, AllocError>
    ensures entries { IfOk result (λ list. entries_of list.items ≡ viewed view.now) }
    ensures count { IfOk result (λ list. length list.items ≡ length view.now) }
{
    let mut list = Vec::new(alloc);
    for shared in view {
        list.push(shared.listed().try_copy(alloc)?)?;
    }
    Ok(list)
}

// An entry with its number, as clauses take it.
fn lend(number: u32, shared: &Arc<Checked>) -> Used<'_>
    ensures { lent result ≡ record { number = number; entry = entry_in shared.now } }
{
    let listed = shared.listed();
    Used {
        number,
        kind: listed.kind,
        set: &listed.set,
        uses: listed.uses.as_slice(),
    }
}

/// The entries of a view with their numbers, as clauses take them. The error is want of memory.
pub fn lend_view(alloc: Global, view: &[Arc<Checked>]) -> Result<Items<Used<'_>>, AllocError>
    requires { length view.now < 2 ^ 32 }
    ensures { IfOk result (λ uses. lent_all uses ≡ numbered (viewed view.now)) }
{
    let mut uses = Items::new(alloc);
    for (number, shared) in view.iter().enumerate() {
        uses.push(lend(number as u32, shared))?;
    }
    Ok(uses)
}

// The entry of a view with this number, as clauses take it.
fn lend_at(view: &[Arc<Checked>], number: u32) -> Used<'_>
    requires { number < length view.now }
    ensures { lent result ≡ record { number = number; entry = entry_at (viewed view.now) number } }
{
    lend(number, &view[number as usize])
}

/// The entries of a view that these uses name, each of which is there, as clauses take them. The error is want of memory.
pub fn lend_used<'a>(
    alloc: Global,
    view: &'a [Arc<Checked>],
    uses: &[Use],
) -> Result<Items<Used<'a>>, AllocError>
    requires { All (λ u. u.entry < length view.now) uses.now }
    ensures { IfOk result (λ used. lent_all used ≡ used_entries (viewed view.now) uses.now) }
{
    let mut found = Items::new(alloc);
    for u in uses {
        found.push(lend_at(view, u.entry))?;
    }
    Ok(found)
}
