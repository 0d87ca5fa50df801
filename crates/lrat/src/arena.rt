//! The literals of all clauses in one list, and where each clause stands in it. The main type is
//! `Arena`, and `find` answers where the clause of an id stands.
ghost use Rattle.std.specs.Prelude.{◌≡◌, ◌≢◌, ℕ, ◌+◌, ◌^◌, ◌<◌, ◌≤◌, not, ◌&&◌, if◌then◌else◌, ◌==◌, [], ◌∷◌, ◌++◌, take, IsTrue, OnOk, IfSome, IfNone, length, vec_len, vec_capacity, slice_index};
ghost use Rattle.proof_semantics.specs.Proofs.{is_empty};
ghost use Rattle.lrat.specs.Ascending.{Ascend};
ghost use Rattle.lrat.specs.ArenaOf.{clauses_in, ids_at, literal_count, AreDeletedBelow, IsGiven, IsPacked};

use cnf::Clause;
use proof_semantics::Lit;
use std::alloc::AllocError;

/// Where a clause stands: its id, and the place of its first literal and that behind its last one.
#[derive(Clone, Copy)]
pub(crate) struct Place {
    pub(crate) id: u64,
    pub(crate) start: usize,
    pub(crate) end: usize,
    /// The round in which it was deleted, or an earlier one, or 0.
    pub(crate) deleted: u64,
}

/// Clauses, one behind the other.
#[derive(Drop)]
pub(crate) struct Arena {
    pub(crate) literals: Vec<Lit>,
    pub(crate) places: Vec<Place>,
}

/// Makes room for so many more clauses with so many literals in all. The error is want of memory.
pub(crate) fn reserve(arena: &mut Arena, clauses: usize, literals: usize) -> Result<(), AllocError>
    ensures literals { arena.new.literals.items ≡ arena.old.literals.items }
    ensures places { arena.new.places.items ≡ arena.old.places.items }
    ensures literal_room { OnOk result (vec_len arena.new.literals + literals ≤ vec_capacity arena.new.literals) }
    ensures place_room { OnOk result (vec_len arena.new.places + clauses ≤ vec_capacity arena.new.places) }
{
    arena.literals.reserve(literals)?;
    arena.places.reserve(clauses)
}

/// Puts a clause behind the others, where there is room. Takes no memory.
pub(crate) fn put(arena: &mut Arena, id: u64, clause: &[Lit])
    requires literal_room { vec_len arena.old.literals + length clause.now ≤ vec_capacity arena.old.literals }
    requires place_room { vec_len arena.old.places + 1 ≤ vec_capacity arena.old.places }
    ensures literals { arena.new.literals.items ≡ arena.old.literals.items ++ clause.now }
    ensures places { arena.new.places.items ≡ arena.old.places.items ++ record {
      id = id;
      start = length arena.old.literals.items;
      end = length arena.old.literals.items + length clause.now;
      deleted = 0;
    } ∷ [] }
    ensures literal_capacity { vec_capacity arena.new.literals ≡ vec_capacity arena.old.literals }
    ensures place_capacity { vec_capacity arena.new.places ≡ vec_capacity arena.old.places }
{
    let start = arena.literals.len();
    push_all(&mut arena.literals, clause);
    arena.places.push_reserved(Place {
        id,
        start,
        end: arena.literals.len(),
        deleted: 0,
    });
}

// Puts the literals at the end, where there is room.
fn push_all(literals: &mut Vec<Lit>, more: &[Lit])
    requires { vec_len literals.old + length more.now ≤ vec_capacity literals.old }
    ensures items { literals.new.items ≡ literals.old.items ++ more.now }
    ensures capacity { vec_capacity literals.new ≡ vec_capacity literals.old }
{
    for literal in more {
        literals.push_reserved(*literal);
    }
}

/// Puts the clauses behind the others, with the numbers of their places as ids, where there is
/// room, and answers how many clauses stand in front of the first empty one; `filled` is that
/// number before. Takes no memory.
pub(crate) fn give_all(arena: &mut Arena, filled: usize, clauses: &[Clause]) -> usize
    requires literal_room { vec_len arena.old.literals + literal_count clauses.now ≤ vec_capacity arena.old.literals }
    requires place_room { vec_len arena.old.places + length clauses.now ≤ vec_capacity arena.old.places }
    requires given { IsGiven arena.old filled }
    ensures clauses { clauses_in arena.new ≡ clauses_in arena.old ++ clauses.now }
    ensures given { IsGiven arena.new result }
    ensures deleted { (round : ℕ) → 0 < round → AreDeletedBelow round arena.old.places.items → AreDeletedBelow round arena.new.places.items }
{
    let mut filled = filled;
    for clause in clauses {
        let place = arena.places.len();
        filled = filled_behind(filled, place, clause);
        put(arena, place as u64 + 1, clause.as_slice());
    }
    filled
}

// How many clauses stand in front of the first empty one, with this one at a place behind them.
fn filled_behind(filled: usize, place: usize, clause: &Clause) -> usize
    requires { place < 2 ^ 63 }
    ensures { result ≡ (if filled == place && not (is_empty clause.now) then filled + 1 else filled) }
{
    if filled == place && !clause.is_empty() {
        filled + 1
    } else {
        filled
    }
}

/// Leaves the first clauses alone. Takes no memory.
pub(crate) fn cut(arena: &mut Arena, kept: usize)
    requires within { kept ≤ length arena.old.places.items }
    requires packed { IsPacked arena.old.literals.items arena.old.places.items }
    ensures places { arena.new.places.items ≡ take kept arena.old.places.items }
    ensures clauses { clauses_in arena.new ≡ take kept (clauses_in arena.old) }
    ensures packed { IsPacked arena.new.literals.items arena.new.places.items }
    ensures fewer_literals { vec_len arena.new.literals ≤ vec_len arena.old.literals }
    ensures fewer_places { vec_len arena.new.places ≤ vec_len arena.old.places }
    ensures literal_capacity { vec_capacity arena.new.literals ≡ vec_capacity arena.old.literals }
    ensures place_capacity { vec_capacity arena.new.places ≡ vec_capacity arena.old.places }
{
    if kept < arena.places.len() {
        let end = arena.places[kept].start;
        arena.literals.truncate(end);
        arena.places.truncate(kept);
    }
}

/// Where the clause of an id stands among the places, whose ids ascend.
pub(crate) fn find(places: &[Place], id: u64) -> Option<usize>
    requires { Ascend (ids_at places.now) }
    ensures found { IfSome result (λ place. place < length places.now) }
    ensures there { IfSome result (λ place. slice_index (ids_at places.now) place ≡ id) }
    ensures none { IfNone result ((k : ℕ) → k < length places.now → slice_index (ids_at places.now) k ≢ id) }
{
    let first = id.wrapping_sub(1) as usize;
    if has_id(places, first, id) {
        return Some(first);
    }
    search(places, id)
}

// Whether the place has this id.
fn has_id(places: &[Place], place: usize, id: u64) -> bool
    ensures found { IsTrue result → place < length places.now }
    ensures there { IsTrue result → slice_index (ids_at places.now) place ≡ id }
{
    match places.get(place) {
        Some(found) => found.id == id,
        None => false,
    }
}

// The same as `find`, by halves.
fn search(places: &[Place], id: u64) -> Option<usize>
    requires { Ascend (ids_at places.now) }
    ensures found { IfSome result (λ place. place < length places.now) }
    ensures there { IfSome result (λ place. slice_index (ids_at places.now) place ≡ id) }
    ensures none { IfNone result ((k : ℕ) → k < length places.now → slice_index (ids_at places.now) k ≢ id) }
{
    let mut low = 0;
    let mut high = places.len();
    while low < high {
        let middle = low + (high - low) / 2;
        let here = places[middle].id;
        if here == id {
            return Some(middle);
        }
        if here < id {
            low = middle + 1;
        } else {
            high = middle;
        }
    }
    None
}
