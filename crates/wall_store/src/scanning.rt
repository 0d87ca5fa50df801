//! How the properties and the entries of a board are looked through.

ghost use Rattle.std.specs.Prelude.{◌≡◌, ◌<◌, ◌≤◌, map, length, slice_index_or, Contains};
ghost use Rattle.std.specs.Arc.{arc_value};
ghost use Rattle.entry.specs.CheckedEntries.{viewed};
ghost use Rattle.wall_store.specs.Boards.{most_entries, properties_of};
ghost use Rattle.wall_store.specs.Scanning.{all_settled, least_in, next_in, place_in, IsScan, IsScanned};

use crate::outcomes::{Posted, Served};
use entry::{Checked, excludes};
use fair_semantics::Skeleton;
use std::sync::Arc;

/// Whether each has an outcome.
pub fn all_settled(served: &[Served]) -> bool
    ensures { result ≡ all_settled served.now }
{
    served.iter().all(|s| s.outcome.is_some())
}

/// The first property from `from` on that has no outcome.
pub fn least_in(served: &[Served], from: u32) -> Option<u32>
    ensures { result ≡ least_in from served.now }
{
    for s in served {
        if from <= s.property && s.outcome.is_none() {
            return Some(s.property);
        }
    }
    None
}

/// The first property from `from` on that has no outcome, or the first of all.
pub fn next_in(served: &[Served], from: u32) -> Option<u32>
    ensures { result ≡ next_in (least_in from served.now) (least_in 0 served.now) }
{
    match least_in(served, from) {
        Some(property) => Some(property),
        None => least_in(served, 0),
    }
}

/// The place of the first with this number, or how many there are.
fn place_in(served: &[Served], property: u32) -> usize
    ensures { result ≡ place_in served.now property }
{
    for (i, s) in served.iter().enumerate() {
        if s.property == property {
            return i;
        }
    }
    served.len()
}

/// The place of a property that is among these.
pub fn place_of(served: &[Served], property: u32) -> usize
    requires { Contains (properties_of served.now) property }
    ensures inside { result < length served.now }
    ensures place { result ≡ place_in served.now property }
{
    place_in(served, property)
}

/// How many entries the worker has seen.
pub fn seen_by(seen: &[u32], worker: u32) -> u32
    requires { worker < length seen.now }
    ensures { result ≡ slice_index_or seen.now worker 0 }
{
    seen[worker as usize]
}

/// How many entries there are.
pub fn count(entries: &[Arc<Checked>]) -> u32
    requires { length entries.now ≤ most_entries }
    ensures { result ≡ length (map arc_value entries.now) }
{
    entries.len() as u32
}

/// The first entry from `low` on that excludes the skeleton.
pub fn first_against(
    entries: &[Arc<Checked>],
    low: u32,
    skeleton: &Skeleton,
    scratch: &mut [bool],
) -> Option<u32>
    requires few { length entries.now ≤ most_entries }
    requires room { length entries.now ≤ length scratch.old }
    ensures { IsScan (viewed entries.now) skeleton.now low result }
{
    for n in low..entries.len() as u32 {
        if excludes(entries, n, skeleton, scratch) {
            return Some(n);
        }
    }
    None
}

/// The answer to a post with this skeleton, which the entries below `low` are known to allow.
pub fn answer_to(
    served: &[Served],
    entries: &[Arc<Checked>],
    limit: u32,
    low: u32,
    skeleton: &Skeleton,
    scratch: &mut [bool],
) -> Posted
    requires few { length entries.now ≤ most_entries }
    requires room { length entries.now ≤ length scratch.old }
    ensures { IsScanned (all_settled served.now) limit (viewed entries.now) skeleton.now low result }
{
    if all_settled(served) {
        return Posted::Closed;
    }
    let count = count(entries);
    if limit <= count {
        return Posted::Full;
    }
    match first_against(entries, low, skeleton, scratch) {
        Some(n) => Posted::Stale(n),
        None => Posted::Appended(count),
    }
}
