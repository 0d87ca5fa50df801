//! Obligations of entries. The main call is `obligation`; `shared` and `broken` are its two parts.

ghost use Rattle.std.specs.Prelude.{◌≡◌, ◌+◌, ◌^◌, ◌<◌, [], ◌++◌, map, length, OnOk, IfOk};
ghost use Rattle.proof_semantics.specs.Clauses.{negation};
ghost use Rattle.cnf_unroll.specs.Numbers.{block_size, block_places, literal_at_place};
ghost use Rattle.cnf_unroll.specs.Blocks.{step_clauses};
ghost use Rattle.cnf_unroll.specs.Uses.{free_from, uses_clauses};
ghost use Rattle.cnf_unroll.specs.Obligations.{units, step_with_uses, after_step, shared_clauses, broken_literals, obligation_clauses};
ghost use Rattle.cnf_unroll.specs.Sides.{counted};
ghost use Rattle.cnf_unroll.specs.Lending.{lent_all};
ghost use Rattle.cnf_unroll.specs.Layout.{BeginWith, AreUseEnds, before_set, use_ends};

use crate::blocks::push_block;
use crate::numbers::{literal_at_place, push_clause, push_set_at};
use crate::places::{Place, state_place, successor_place};
use crate::used::{ClauseSet, Used};
use crate::uses::{Numbering, named_sides, push_uses};
use circuit::Circuit;
use cnf::{Clause, Db};
use fair_semantics::Use;
use items::Items;
use proof_semantics::Lit;
use std::alloc::{AllocError, Global};

/// Clauses with the next number that none of them has, and where their parts end: those of the block, of each use, and of
/// the sides that are named. Behind these stand those of the set, one for each of its clauses.
#[derive(Drop)]
pub struct Begun {
    pub clauses: Db,
    pub free: u64,
    /// How many clauses stand up to the end of those of the first k uses, for each k from 0 to the number of uses.
    pub ends: Items<u64>,
    /// How many stand before those of the set.
    pub sides: u64,
}

// The places of the block with this base.
pub(crate) fn push_places<'a>(
    places: &mut Items<Place<'a>>,
    c: &'a Circuit,
    base: u64,
) -> Result<(), AllocError>
    requires { base < 2 ^ 62 }
    ensures { OnOk result (places.new ≡ places.old ++ block_places c.now base) }
{
    places.push(state_place(c, base))?;
    places.push(successor_place(c, base))
}

fn push_step(
    alloc: Global,
    db: &mut Db,
    c: &Circuit,
    uses: &[Used],
) -> Result<Numbering, AllocError>
    requires { db.old.clauses ≡ [] }
    ensures clauses { OnOk result (db.new.clauses ≡ step_with_uses c.now (lent_all uses.now)) }
    ensures numbering { IfOk result (λ n. counted n ≡ after_step c.now (lent_all uses.now)) }
    ensures ends { IfOk result (λ n. n.ends
        ≡ use_ends (length (step_clauses c.now)) (block_places c.now 0) (free_from (block_size c.now + 1)) (lent_all uses.now)) }
{
    push_block(alloc, db, c, 0)?;
    push_step_uses(alloc, db, c, uses)
}

fn push_units(alloc: Global, db: &mut Db, literals: &[Lit]) -> Result<(), AllocError>
    ensures { OnOk result (db.new.clauses ≡ db.old.clauses ++ units literals.now) }
{
    for literal in literals {
        push_clause(alloc, db, &[*literal])?;
    }
    Ok(())
}

/// What the obligations of an entry with this set and these uses share: a block, the entries that it uses, the sides
/// that it names, and its set at the state.
pub fn shared(
    alloc: Global,
    c: &Circuit,
    uses: &[Used],
    own: &[Use],
    set: &ClauseSet,
) -> Result<Begun, AllocError>
    ensures clauses { IfOk result (λ begun. begun.clauses.clauses ≡ shared_clauses c.now (lent_all uses.now) own.now set.now) }
    ensures free { IfOk result (λ begun. begun.free ≡ (after_step c.now (lent_all uses.now)).free) }
    ensures ends { IfOk result (λ begun. AreUseEnds (step_with_uses c.now) (lent_all uses.now) begun.clauses.clauses begun.ends) }
    ensures sides { IfOk result (λ begun. BeginWith begun.clauses.clauses (before_set c.now (lent_all uses.now) own.now) begun.sides) }
{
    let mut clauses = Db::new(alloc);
    let numbering = push_step(alloc, &mut clauses, c, uses)?;
    let names = named_sides(alloc, &numbering.sides, own)?;
    push_units(alloc, &mut clauses, names.as_slice())?;
    let sides = clauses.len() as u64;
    push_set_at(alloc, &mut clauses, &state_place(c, 0), set.as_slice())?;
    Ok(Begun {
        clauses,
        free: numbering.free,
        ends: numbering.ends,
        sides,
    })
}

// The clauses of the uses over the state and the successor of the first block, whose variables they are numbered behind.
fn push_step_uses(
    alloc: Global,
    db: &mut Db,
    c: &Circuit,
    uses: &[Used],
) -> Result<Numbering, AllocError>
    ensures clauses { OnOk result (db.new.clauses ≡ db.old.clauses ++ uses_clauses (block_places c.now 0) (free_from (block_size c.now + 1)) (lent_all uses.now)) }
    ensures numbering { IfOk result (λ n. counted n ≡ after_step c.now (lent_all uses.now)) }
    ensures ends { IfOk result (λ n. n.ends
        ≡ use_ends (length db.old.clauses) (block_places c.now 0) (free_from (block_size c.now + 1)) (lent_all uses.now)) }
{
    let mut places = Items::new(alloc);
    push_places(&mut places, c, 0)?;
    push_uses(alloc, db, places.as_slice(), 2 * c.max() + 3, uses)
}

/// The clauses of `shared` that stand behind those of the block, which are `step_cnf`'s.
pub fn shared_behind(
    alloc: Global,
    c: &Circuit,
    uses: &[Used],
    own: &[Use],
    set: &ClauseSet,
) -> Result<Db, AllocError>
    ensures { IfOk result (λ db. step_clauses c.now ++ db.clauses ≡ shared_clauses c.now (lent_all uses.now) own.now set.now) }
{
    let mut clauses = Db::new(alloc);
    let numbering = push_step_uses(alloc, &mut clauses, c, uses)?;
    let names = named_sides(alloc, &numbering.sides, own)?;
    push_units(alloc, &mut clauses, names.as_slice())?;
    push_set_at(alloc, &mut clauses, &state_place(c, 0), set.as_slice())?;
    Ok(clauses)
}

fn negated_at(alloc: Global, place: &Place<'_>, clause: &Clause) -> Result<Items<Lit>, AllocError>
    ensures { IfOk result (λ literals. literals ≡ map (λ l. negation (literal_at_place place.now l)) clause.now) }
{
    let mut literals = Items::new(alloc);
    for literal in clause.as_slice() {
        literals.push(literal_at_place(place, *literal).negation())?;
    }
    Ok(literals)
}

/// What the obligation of a clause has beside: the literals that are true together exactly where the successor breaks
/// the clause.
pub fn broken(alloc: Global, c: &Circuit, clause: &Clause) -> Result<Items<Lit>, AllocError>
    ensures { IfOk result (λ literals. literals ≡ broken_literals c.now clause.now) }
{
    negated_at(alloc, &successor_place(c, 0), clause)
}

/// The obligation of the clause with the number `i`, counted from 0, of an entry with this set and these uses: no step
/// that the used entries allow leads from its set to a state that breaks the clause.
pub fn obligation(
    alloc: Global,
    c: &Circuit,
    uses: &[Used],
    own: &[Use],
    set: &ClauseSet,
    i: usize,
) -> Result<Db, AllocError>
    requires { i < length set.now }
    ensures { IfOk result (λ db. db.clauses ≡ obligation_clauses c.now (lent_all uses.now) own.now set.now i) }
{
    let mut begun = shared(alloc, c, uses, own, set)?;
    let literals = broken(alloc, c, &set.as_slice()[i])?;
    push_units(alloc, &mut begun.clauses, literals.as_slice())?;
    Ok(begun.clauses)
}
