//! The clauses that a solver holds, with the hints of those that it learned. The main type is `Log`.
ghost use Rattle.std.specs.Prelude.{◌≡◌, ◌+◌, ◌<◌, [], ◌∷◌, ◌++◌, length, vec_capacity, OnOk, OnErr, IfErr, IfSome, Some, None, true};
ghost use Rattle.edge.specs.Units.{SpentConflict};
ghost use Rattle.edge.specs.Faults.{one_more};
ghost use Rattle.edge.specs.Ends.{IsEnd};
ghost use Rattle.cdcl_log.specs.Ids.{ids_from, count_added};
ghost use Rattle.cnf.specs.Clauses.{HasRoomFor};
ghost use Rattle.cdcl_log.specs.Variables.{are_over, is_over, HasAll};

use crate::cover::Cover;
use crate::ids::MOST_GIVEN;
use cnf::{Clause, Db, Lit, Var};
use edge::{Meter, SolveEnd};
use items::Items;
use std::alloc::{AllocError, Global};
use std::marker::Model;

/// The clauses that were added and learned, in the order in which they came, and beside each the
/// hints that it was learned by; `None` where it was added. Beside each, how many were added up to
/// it, and 0 where it was learned. And their variables.
#[derive(Drop)]
pub struct Log {
    db: Db,
    sources: Vec<Option<Items<u64>>>,
    ids: Vec<u64>,
    added: u64,
    cover: Cover,
}

impl Model for Log {
    ghost use Rattle.std.specs.Prelude.{◌≡◌, true};
    ghost use Rattle.cdcl_log.specs.LoggedClauses.{LoggedClauses};
    ghost use Rattle.cdcl_log.specs.Ids.{AreCounted};
    ghost use Rattle.cdcl_log.specs.Variables.{are_over};

    ghost Value = { LoggedClauses };

    ghost view = { λ l. record { clauses = l.db.clauses; sources = l.sources.items } };

    ghost invariant = { λ l. (are_over l.cover l.db.clauses ≡ true) × AreCounted l.sources.items l.ids.items l.added };
}

impl Log {
    /// No clause. Takes no memory.
    pub fn new(alloc: Global) -> Log
        ensures clauses { result.clauses ≡ [] }
        ensures sources { result.sources ≡ [] }
    {
        Log {
            db: Db::new(alloc),
            sources: Vec::new(alloc),
            ids: Vec::new(alloc),
            added: 0,
            cover: Cover::new(alloc),
        }
    }

    /// The clauses. Takes no memory.
    pub fn clauses(&self) -> &Db
        ensures { result.now.clauses ≡ self.now.clauses }
    {
        &self.db
    }

    /// The hints of each clause; `None` where it was added. Takes no memory.
    pub(crate) fn sources(&self) -> &[Option<Items<u64>>]
        ensures { result.now ≡ self.now.sources }
    {
        self.sources.as_slice()
    }

    /// The id of each clause that was added, and 0 for the others. Takes no memory.
    pub(crate) fn ids(&self) -> &[u64]
        ensures { result.now ≡ ids_from 0 self.now.sources }
    {
        self.ids.as_slice()
    }

    /// How many clauses were added. Takes no memory.
    pub fn added(&self) -> u64
        ensures { result ≡ count_added self.now.sources }
    {
        self.added
    }

    /// The variables of the clauses, and maybe others. Takes no memory.
    pub fn variables(&self) -> &[Var]
        ensures { are_over result.now self.now.clauses ≡ true }
    {
        self.cover.variables()
    }

    /// The same, where these literals have no other variable. Takes no memory.
    pub fn variables_with(&self, lits: &[Lit]) -> Option<&[Var]>
        ensures clauses { IfSome result (λ vars. are_over vars.now self.now.clauses ≡ true) }
        ensures lits { IfSome result (λ vars. is_over vars.now lits.now ≡ true) }
    {
        if self.cover.has_all(lits) {
            return Some(self.cover.variables());
        }
        None
    }

    /// Adds a clause. The error is want of memory, and changes nothing.
    pub fn add(&mut self, clause: Clause) -> Result<(), AllocError>
        ensures clauses { OnOk result (self.new.clauses ≡ self.old.clauses ++ clause ∷ []) }
        ensures sources { OnOk result (self.new.sources ≡ self.old.sources ++ None ∷ []) }
        ensures err { OnErr result (self.new ≡ self.old) }
    {
        if self.added >= MOST_GIVEN {
            return Err(AllocError);
        }
        make_room(
            &mut self.db,
            &mut self.sources,
            &mut self.ids,
            &mut self.cover,
            clause.as_slice(),
        )?;
        self.db.push_reserved(clause);
        self.sources.push_reserved(None);
        self.added += 1;
        self.ids.push_reserved(self.added);
        Ok(())
    }

    /// Takes room for a learned clause, counts it, and keeps it with its hints. An error changes
    /// nothing: `Spent` comes where the count of conflicts is at its limit.
    pub fn learn(
        &mut self,
        taught: Clause,
        hints: Items<u64>,
        meter: &mut Meter,
    ) -> Result<(), SolveEnd>
        requires { SpentConflict self.old.clauses taught }
        ensures clauses { OnOk result (self.new.clauses ≡ self.old.clauses ++ taught ∷ []) }
        ensures sources { OnOk result (self.new.sources ≡ self.old.sources ++ Some hints ∷ []) }
        ensures counted { OnOk result (meter.new ≡ record meter.old { conflicts = one_more meter.old.conflicts }) }
        ensures end { IfErr result (IsEnd meter.new) }
        ensures err { OnErr result (self.new ≡ self.old) }
        ensures uncounted { OnErr result (meter.new ≡ meter.old) }
    {
        make_room(
            &mut self.db,
            &mut self.sources,
            &mut self.ids,
            &mut self.cover,
            taught.as_slice(),
        )?;
        meter.conflict(&self.db, &taught)?;
        self.db.push_reserved(taught);
        self.sources.push_reserved(Some(hints));
        self.ids.push_reserved(0);
        Ok(())
    }
}

// Makes room for one more clause, and takes in its variables. The error is want of memory; clauses,
// hints and ids stay as they are.
fn make_room(
    db: &mut Db,
    sources: &mut Vec<Option<Items<u64>>>,
    ids: &mut Vec<u64>,
    cover: &mut Cover,
    clause: &[Lit],
) -> Result<(), AllocError>
    ensures clauses { db.new.clauses ≡ db.old.clauses }
    ensures sources { sources.new.items ≡ sources.old.items }
    ensures ids { ids.new.items ≡ ids.old.items }
    ensures stays { HasAll cover.old cover.new }
    ensures over { OnOk result (is_over cover.new clause.now ≡ true) }
    ensures room { OnOk result (HasRoomFor db.new 1) }
    ensures room_beside { OnOk result (length sources.new.items < vec_capacity sources.new) }
    ensures room_of_ids { OnOk result (length ids.new.items < vec_capacity ids.new) }
{
    db.reserve(1)?;
    sources.reserve(1)?;
    ids.reserve(1)?;
    cover.meet(clause)?;
    Ok(())
}
