//! The parts of a new board.

ghost use Rattle.std.specs.Prelude.{◌≡◌, ◌+◌, ◌≤◌, min, map, length, replicate, None, vec_capacity, [], ◌++◌, IfOk, OnOk};
ghost use Rattle.std.specs.Arc.{arc_value};
ghost use Rattle.wall_store.specs.declared.outcomes.Served.{Served};
ghost use Rattle.wall_store.specs.Boards.{most_entries};

use crate::outcomes::Served;
use entry::Checked;
use std::alloc::{AllocError, Global};
use std::sync::Arc;

/// No list is longer.
const MOST_ENTRIES: u32 = 65_536;

/// How long the list may become that begins with these and grows by `more`.
pub fn limit_of(given: &[Arc<Checked>], more: u32) -> u32
    requires given { length given.now ≤ most_entries }
    requires more { more ≤ most_entries }
    ensures { result ≡ min (length given.now + more) most_entries }
{
    let whole = given.len() as u32 + more;
    whole.min(MOST_ENTRIES)
}

/// For each worker, that it has seen this many entries.
pub fn all_seen(alloc: Global, workers: u32, count: u32) -> Result<Vec<u32>, AllocError>
    ensures { IfOk result (λ seen. seen.items ≡ replicate workers count) }
{
    Ok(vec![in alloc; count; workers as usize]?)
}

/// A place for each entry.
pub fn places(alloc: Global, limit: u32) -> Result<Vec<bool>, AllocError>
    ensures { IfOk result (λ places. length places.items ≡ limit) }
{
    Ok(vec![in alloc; false; limit as usize]?)
}

// Puts these properties at the end, without outcomes.
fn push_unserved(served: &mut Vec<Served>, properties: &[u32]) -> Result<(), AllocError>
    ensures { OnOk result (served.new.items
        ≡ served.old.items ++ map (λ j. record { property = j; outcome = None }) properties.now) }
{
    for j in properties {
        served.push(Served {
            property: *j,
            outcome: None,
        })?;
    }
    Ok(())
}

/// These properties, without outcomes.
pub fn unserved(alloc: Global, properties: &[u32]) -> Result<Vec<Served>, AllocError>
    ensures { IfOk result (λ served. served.items ≡ map (λ j. record { property = j; outcome = None }) properties.now) }
{
    let mut served = Vec::new(alloc);
    push_unserved(&mut served, properties)?;
    Ok(served)
}

// Puts these entries into an empty list that has room for them.
fn put_all(entries: &mut Vec<Arc<Checked>>, given: &[Arc<Checked>]) -> Result<(), AllocError>
    requires empty { entries.old.items ≡ [] }
    requires room { length given.now ≤ vec_capacity entries.old }
    ensures entries { OnOk result (map arc_value entries.new.items ≡ map arc_value given.now) }
    ensures room { OnOk result (vec_capacity entries.new ≡ vec_capacity entries.old) }
{
    for e in given {
        entries.push_reserved(Arc::try_clone(e)?);
    }
    Ok(())
}

/// A list of these entries, with room for `limit` in all.
pub fn list_with_room(
    alloc: Global,
    given: &[Arc<Checked>],
    limit: u32,
) -> Result<Vec<Arc<Checked>>, AllocError>
    requires { length given.now ≤ limit }
    ensures entries { IfOk result (λ entries. map arc_value entries.items ≡ map arc_value given.now) }
    ensures room { IfOk result (λ entries. limit ≤ vec_capacity entries) }
{
    let mut entries = Vec::with_capacity(alloc, limit as usize)?;
    put_all(&mut entries, given)?;
    Ok(entries)
}
