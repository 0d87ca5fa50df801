//! The clauses that were taken over, and at which literals each is watched. The main type is
//! `Watching`.
ghost use Rattle.std.specs.Prelude.{◌≡◌, ◌+◌, ◌<◌, ℕ, Bool, [], ◌∷◌, ◌++◌, OnOk, OnErr, IfSome, IfNone, Some, None, length, slice_get, slice_set, option_copied, false, List, vec_len, vec_capacity};
ghost use Rattle.proof_semantics.specs.Clauses.{lit_eq};
ghost use Rattle.proof_semantics.specs.declared.literals.Lit.{Lit};
ghost use Rattle.packed_literals.specs.Lists.{IsWithout, list_for};
ghost use Rattle.cdcl_trail.specs.declared.pairs.Pair.{Pair};
ghost use Rattle.cdcl_trail.specs.Guards.{IsPairOf, IsSingle};
ghost use Rattle.cdcl_trail.specs.Storing.{held, IsStored, IsRewatched, IsPairAt, IsOther, IsAsBefore, has_more_singles, KeepsLists, AreListed, Covers, KeepsCover};

use crate::pairs::Pair;
use clause_arena::{Arena, Ref};
use packed_literals::{Lists, Packed};
use std::alloc::{AllocError, Global};

/// The clauses that were taken over: where their literals stand in the arena, at which two literals
/// each is watched, which have no two, and in whose lists each stands: in those of its watched
/// literals, but for one that it left since the other one is true on level 0.
#[derive(Drop)]
pub struct Watching {
    pub alloc: Global,
    pub arena: Arena<Packed>,
    pub places: Vec<Ref>,
    pub pairs: Vec<Option<Pair>>,
    pub singles: Vec<usize>,
    pub lists: Lists,
}

impl Watching {
    /// No clause. Takes no memory.
    pub fn new(alloc: Global) -> Watching
        ensures stored { IsStored result }
        ensures held { held result ≡ [] }
        ensures pairs { result.pairs.items ≡ [] }
        ensures singles { result.singles.items ≡ [] }
    {
        Watching {
            alloc,
            arena: Arena::new(alloc),
            places: Vec::new(alloc),
            pairs: Vec::new(alloc),
            singles: Vec::new(alloc),
            lists: Lists::new(alloc),
        }
    }

    /// The literals of a clause. `None` where there is no such clause. Takes no memory.
    pub fn clause(&self, number: usize) -> Option<&[Packed]>
        requires { IsStored self.now }
        ensures { option_copied result ≡ slice_get (held self.now) number }
    {
        match self.places.as_slice().get(number) {
            None => None,
            Some(place) => Some(self.arena.get(*place)),
        }
    }

    /// The literals at which a clause is watched. `None` where it is watched at none. Takes no
    /// memory.
    pub fn pair(&self, number: usize) -> Option<Pair>
        ensures some { IfSome result (IsPairAt self.now number) }
        ensures none { IfNone result ((pair : Pair) → IsPairAt self.now number pair → ⊥) }
    {
        match self.pairs.as_slice().get(number) {
            None => None,
            Some(pair) => *pair,
        }
    }

    /// Keeps a clause with the literals at which it is to be watched. The error is want of memory,
    /// and leaves the clauses and their watched literals as they were.
    pub fn keep(&mut self, clause: &[Packed], pair: Option<Pair>) -> Result<(), AllocError>
        requires stored { IsStored self.old }
        requires some { IfSome pair (IsPairOf clause.now) }
        requires none { IfNone pair (IsSingle clause.now) }
        ensures stored { IsStored self.new }
        ensures cover { KeepsCover self.old self.new }
        ensures held { OnOk result (held self.new ≡ held self.old ++ clause.now ∷ []) }
        ensures pairs { OnOk result (self.new.pairs.items ≡ self.old.pairs.items ++ pair ∷ []) }
        ensures singles { OnOk result (self.new.singles.items ≡ has_more_singles self.old.singles.items (length self.old.places.items) pair) }
        ensures err { OnErr result (IsAsBefore self.old self.new) }
    {
        self.reserve_one()?;
        let number = self.places.as_slice().len();
        add_pair(&mut self.lists, self.alloc, &pair, number)?;
        let place = self.arena.push(clause)?;
        self.places.push_reserved(place);
        push_single(&mut self.singles, &pair, number);
        self.pairs.push_reserved(pair);
        Ok(())
    }

    // Makes room for one more clause. The error is want of memory.
    fn reserve_one(&mut self) -> Result<(), AllocError>
        ensures same { IsAsBefore self.old self.new }
        ensures lists { self.new.lists ≡ self.old.lists }
        ensures places { OnOk result (vec_len self.new.places < vec_capacity self.new.places) }
        ensures pairs { OnOk result (vec_len self.new.pairs < vec_capacity self.new.pairs) }
        ensures singles { OnOk result (vec_len self.new.singles < vec_capacity self.new.singles) }
    {
        self.places.reserve(1)?;
        self.pairs.reserve(1)?;
        self.singles.reserve(1)
    }

    /// Watches a clause at a further literal in place of a false one, at a place of whose list it
    /// stands. The error is want of memory, and leaves the watched literals as they were.
    pub fn rewatch(
        &mut self,
        number: usize,
        pair: Pair,
        falsified: Packed,
        place: usize,
    ) -> Result<(), AllocError>
        requires stored { IsStored self.old }
        requires entry { slice_get (list_for self.old.lists falsified) place ≡ Some number }
        requires pair { (clause : List Lit) → slice_get (held self.old) number ≡ Some clause → IsPairOf clause pair }
        requires before { (before : Pair) × IsPairAt self.old number before × IsOther before falsified pair.second }
        requires apart { lit_eq pair.first falsified ≡ false }
        requires apart_too { lit_eq pair.second falsified ≡ false }
        ensures rewatched { IsRewatched self.old self.new }
        ensures cover { (fixed : Lit → Bool) → fixed falsified ≡ false → Covers fixed self.old → Covers fixed self.new }
        ensures pairs { OnOk result (self.new.pairs.items ≡ slice_set self.old.pairs.items number (Some pair)) }
        ensures list { OnOk result (IsWithout (list_for self.old.lists falsified) place (list_for self.new.lists falsified)) }
        ensures below { (j : ℕ) → j < place → slice_get (list_for self.new.lists falsified) j ≡ slice_get (list_for self.old.lists falsified) j }
        ensures err { OnErr result (self.new.pairs ≡ self.old.pairs) }
    {
        self.lists.add(self.alloc, pair.first, number)?;
        self.pairs[number] = Some(pair);
        self.lists.remove(falsified, place);
        Ok(())
    }
}

// Puts a clause into the lists of its watched literals. The error is want of memory.
fn add_pair(
    lists: &mut Lists,
    alloc: Global,
    pair: &Option<Pair>,
    number: usize,
) -> Result<(), AllocError>
    ensures keeps { KeepsLists lists.old lists.new }
    ensures ok { OnOk result (AreListed lists.new number pair.now) }
{
    let Some(pair) = *pair else {
        return Ok(());
    };
    lists.add(alloc, pair.first, number)?;
    lists.add(alloc, pair.second, number)
}

// Puts a clause that is watched nowhere into the list of such clauses.
fn push_single(singles: &mut Vec<usize>, pair: &Option<Pair>, number: usize)
    requires { vec_len singles.old < vec_capacity singles.old }
    ensures { singles.new.items ≡ has_more_singles singles.old.items number pair.now }
{
    if pair.is_none() {
        singles.push_reserved(number);
    }
}
