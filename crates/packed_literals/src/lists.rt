//! For each literal, clauses that watch it. The main type is `Lists`.
ghost use Rattle.std.specs.Prelude.{◌≡◌, ◌<◌, ℕ, [], ◌∷◌, ◌++◌, OnOk, OnErr, length, slice_get, false};
ghost use Rattle.proof_semantics.specs.Clauses.{lit_eq};
ghost use Rattle.proof_semantics.specs.declared.literals.Lit.{Lit};
ghost use Rattle.packed_literals.specs.Lists.{IsWithout, list_at, list_for};

use crate::packed::Packed;
use std::alloc::{AllocError, Global};

/// The last place that a clause may have: it is kept in four bytes.
const LAST: usize = u32::MAX as usize;

/// For each literal, the places of clauses that watch it. Its list stands at the place of its code.
#[derive(Drop)]
pub struct Lists {
    rows: Vec<Vec<u32>>,
}

impl Lists {
    /// No clause. Takes no memory.
    pub fn new(alloc: Global) -> Lists
        ensures { (a : Lit) → list_for result a ≡ [] }
    {
        Lists {
            rows: Vec::new(alloc),
        }
    }

    /// The clause at a place of a literal's list. Takes no memory.
    pub fn get(&self, literal: Packed, place: usize) -> Option<usize>
        ensures { result ≡ slice_get (list_for self.now literal) place }
    {
        get_at(self.rows.as_slice(), literal.code() as usize, place)
    }

    /// Puts a clause at the end of a literal's list. The error is want of memory, or a place past
    /// 2^32 - 1; it changes nothing.
    #[tactic(auto, using(crate::proofs::ListLaws::codes_apart))]
    pub fn add(&mut self, alloc: Global, literal: Packed, clause: usize) -> Result<(), AllocError>
        ensures ok { OnOk result (list_for self.new literal ≡ list_for self.old literal ++ clause ∷ []) }
        ensures err { OnErr result (list_for self.new literal ≡ list_for self.old literal) }
        ensures others { (a : Lit) → lit_eq a literal ≡ false → list_for self.new a ≡ list_for self.old a }
    {
        if clause > LAST {
            return Err(AllocError);
        }
        let row = literal.code() as usize;
        grow(alloc, &mut self.rows, row)?;
        add_at(&mut self.rows, row, clause as u32)
    }

    /// Takes the clause at a place from a literal's list.
    #[tactic(auto, using(crate::proofs::ListLaws::codes_apart))]
    pub fn remove(&mut self, literal: Packed, place: usize)
        requires { place < length (list_for self.old literal) }
        ensures list { IsWithout (list_for self.old literal) place (list_for self.new literal) }
        ensures others { (a : Lit) → lit_eq a literal ≡ false → list_for self.new a ≡ list_for self.old a }
    {
        remove_at(&mut self.rows, literal.code() as usize, place);
    }
}

// The clause at a place of a list.
fn get_at(rows: &[Vec<u32>], row: usize, place: usize) -> Option<usize>
    ensures { result ≡ slice_get (list_at rows.now row) place }
{
    let clause = rows.get(row)?.as_slice().get(place)?;
    Some(*clause as usize)
}

// Puts empty lists behind, until there is one at the place.
fn grow(alloc: Global, rows: &mut Vec<Vec<u32>>, row: usize) -> Result<(), AllocError>
    ensures long { OnOk result (row < length rows.new.items) }
    ensures same { (v : ℕ) → list_at rows.new.items v ≡ list_at rows.old.items v }
{
    'lists: while rows.len() <= row {
        rows.push(Vec::new(alloc))?;
    }
    Ok(())
}

// Puts a clause at the end of a list.
fn add_at(rows: &mut Vec<Vec<u32>>, row: usize, clause: u32) -> Result<(), AllocError>
    requires { row < length rows.old.items }
    ensures ok { OnOk result (list_at rows.new.items row ≡ list_at rows.old.items row ++ clause ∷ []) }
    ensures err { OnErr result (list_at rows.new.items row ≡ list_at rows.old.items row) }
    ensures others { (v : ℕ) → (v ≡ row → ⊥) → list_at rows.new.items v ≡ list_at rows.old.items v }
{
    let list = &mut rows[row];
    list.push(clause)?;
    Ok(())
}

// Takes the clause at a place from a list.
fn remove_at(rows: &mut Vec<Vec<u32>>, row: usize, place: usize)
    requires { place < length (list_at rows.old.items row) }
    ensures list { IsWithout (list_at rows.old.items row) place (list_at rows.new.items row) }
    ensures others { (v : ℕ) → (v ≡ row → ⊥) → list_at rows.new.items v ≡ list_at rows.old.items v }
{
    if row < rows.len() {
        take_out(&mut rows[row], place);
    }
}

// Takes the clause at a place from a list, and puts the last one in its place.
fn take_out(list: &mut Vec<u32>, place: usize)
    requires { place < length list.old.items }
    ensures { IsWithout list.old.items place list.new.items }
{
    if let Some(last) = list.pop() {
        if place < list.as_slice().len() {
            list[place] = last;
        }
    }
}
