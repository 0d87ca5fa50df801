//! On which side of an entry of a view a state lies, and which skeletons the entry excludes. The main calls are `side`
//! and `excludes`.

ghost use Rattle.std.specs.Prelude.{◌≡◌, ℕ, ◌<◌, ◌≤◌, true, false, [], ◌∷◌, length, take, slice_index_or};
ghost use Rattle.std.specs.List.{list_all};
ghost use Rattle.proof_semantics.specs.Clauses.{bool_eq};
ghost use Rattle.fair_semantics.specs.States.{meets_clauses};
ghost use Rattle.fair_semantics.specs.Entries.{entry_at, lies_on, set_over, set_at};
ghost use Rattle.fair_semantics.specs.Allowing.{all_on, allows_by};
ghost use Rattle.fair_semantics.specs.Skeletons.{states_of, places, excludes};
ghost use Rattle.entry.specs.Listing.{entry_of};
ghost use Rattle.entry.specs.CheckedEntries.{entry_in, viewed};

use crate::checked::Checked;
use crate::list::Listed;
use cnf::{Clause, holds};
use fair_semantics::{Kind, Side, Situation, Skeleton, Use};
use std::sync::Arc;

fn lies_on(side: Side, inside: bool) -> bool
    ensures { result ≡ lies_on side inside }
{
    match side {
        Side::Any => true,
        Side::In => inside,
        Side::Out => !inside,
    }
}

// Whether the state lies in the set of entry n, by the sides of the first entries. It lies in none that is not there.
fn is_inside(sides: &[bool], n: u32) -> bool
    ensures { result ≡ slice_index_or sides.now n false }
{
    sides.get(n as usize).copied().unwrap_or(false)
}

fn lies_where_named(uses: &[Use], sides: &[bool]) -> bool
    ensures { result ≡ list_all (λ u. lies_on u.side (slice_index_or sides.now u.entry false)) uses.now }
{
    uses.iter()
        .all(|u| lies_on(u.side, is_inside(sides, u.entry)))
}

fn meets_clauses(clauses: &[Clause], state: &[bool]) -> bool
    ensures { result ≡ meets_clauses clauses.now state.now }
{
    clauses.iter().all(|clause| holds(clause, state))
}

// Whether the state lies in the set of an entry, by the sides of those before it.
fn is_in_set(entry: &Listed, state: &[bool], sides: &[bool]) -> bool
    ensures { result ≡ set_over (λ n s. slice_index_or sides.now n false) (entry_of entry.now) state.now }
{
    meets_clauses(entry.set.as_slice(), state) && lies_where_named(entry.uses.as_slice(), sides)
}

fn is_in(entry: &Arc<Checked>, state: &[bool], sides: &[bool]) -> bool
    ensures { result ≡ set_over (λ n s. slice_index_or sides.now n false) (entry_in entry.now) state.now }
{
    is_in_set(entry.listed(), state, sides)
}

// Puts into the first places whether the state lies in the sets of these entries.
fn note_sides(view: &[Arc<Checked>], state: &[bool], scratch: &mut [bool])
    requires { length view.now ≤ length scratch.old }
    ensures { (n : ℕ) → slice_index_or (take (length view.now) scratch.new) n false
        ≡ set_at (viewed view.now) n state.now }
{
    for (i, entry) in view.iter().enumerate() {
        let inside = is_in(entry, state, &scratch[..i]);
        scratch[i] = inside;
    }
}

/// Whether the state lies in the set of entry `k` of the view, counted from 0. `scratch` has a place for each entry up
/// to that one, and what stands in it is of no account. Takes no memory.
pub fn side(view: &[Arc<Checked>], k: u32, state: &[bool], scratch: &mut [bool]) -> bool
    requires entry { k < length view.now }
    requires room { k < length scratch.old }
    ensures { result ≡ set_at (viewed view.now) k state.now }
{
    let k = k as usize;
    note_sides(&view[..k], state, scratch);
    is_in(&view[k], state, &scratch[..k])
}

fn is_same(wanted: bool, side: bool) -> bool
    ensures { result ≡ bool_eq wanted side }
{
    wanted == side
}

// Whether a position and its successor lie on this side of entry k.
fn lie_on(
    view: &[Arc<Checked>],
    k: u32,
    wanted: bool,
    situation: &Situation,
    scratch: &mut [bool],
) -> bool
    requires entry { k < length view.now }
    requires room { k < length scratch.old }
    ensures { result ≡ all_on wanted (set_at (viewed view.now) k)
        (situation.now.position.latches ∷ situation.now.successor ∷ []) }
{
    let here = side(view, k, situation.position.latches.as_slice(), scratch);
    let there = side(view, k, situation.successor.as_slice(), scratch);
    is_same(wanted, here) && is_same(wanted, there)
}

// Whether all these situations lie on this side of entry k.
fn all_on(
    view: &[Arc<Checked>],
    k: u32,
    wanted: bool,
    situations: &[Situation],
    scratch: &mut [bool],
) -> bool
    requires entry { k < length view.now }
    requires room { k < length scratch.old }
    ensures { result ≡ all_on wanted (set_at (viewed view.now) k) (states_of situations.now) }
{
    for situation in situations {
        if !lie_on(view, k, wanted, situation, scratch) {
            return false;
        }
    }
    true
}

fn kind_at(view: &[Arc<Checked>], k: u32) -> Kind
    requires { k < length view.now }
    ensures { result ≡ (entry_at (viewed view.now) k).kind }
{
    view[k as usize].listed().kind
}

fn allows(view: &[Arc<Checked>], k: u32, situations: &[Situation], scratch: &mut [bool]) -> bool
    requires entry { k < length view.now }
    requires room { k < length scratch.old }
    ensures { result ≡ allows_by (entry_at (viewed view.now) k).kind (set_at (viewed view.now) k)
        (states_of situations.now) }
{
    match kind_at(view, k) {
        Kind::Reach => all_on(view, k, true, situations, scratch),
        Kind::Wall => {
            all_on(view, k, true, situations, scratch)
                || all_on(view, k, false, situations, scratch)
        }
    }
}

/// Whether entry `k` of the view, counted from 0, excludes the skeleton: not all its states and successors lie in the
/// set of a reach entry, or they do not all lie on one side of a wall. `scratch` is as in `side`. Takes no memory.
pub fn excludes(view: &[Arc<Checked>], k: u32, skeleton: &Skeleton, scratch: &mut [bool]) -> bool
    requires entry { k < length view.now }
    requires room { k < length scratch.old }
    ensures { result ≡ excludes (viewed view.now) k skeleton.now }
{
    !allows(view, k, skeleton.situations.as_slice(), scratch)
}
