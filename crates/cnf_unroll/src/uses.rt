//! The clauses of used entries over places. The main call is `push_uses`.

ghost use Rattle.std.specs.Prelude.{◌≡◌, ◌+◌, [], ◌∷◌, ◌++◌, map, length, OnOk, IfOk};
ghost use Rattle.proof_semantics.specs.Clauses.{negation};
ghost use Rattle.cnf_unroll.specs.Numbers.{minus, clause_at_place};
ghost use Rattle.cnf_unroll.specs.Uses.{denials, marked, wall_at, marks, closing, wall_over, after_marks, wall_clauses, reach_clauses, named_literal, named_sides, use_clauses, after_use, uses_clauses, after_uses, free_from};
ghost use Rattle.cnf_unroll.specs.Sides.{side_in, counted};
ghost use Rattle.fair_semantics.specs.declared.entries.Kind.TheVariants.{Wall};
ghost use Rattle.cnf_unroll.specs.Lending.{lent, lent_all};
ghost use Rattle.cnf_unroll.specs.Layout.{use_ends};

use crate::numbers::{
    extend_at, literal_at_place, minus, next_free, plus, push_clause, push_set_at,
};
use crate::places::Place;
use crate::sides::Sides;
use crate::used::Used;
use cnf::{Clause, Db};
use fair_semantics::{Kind, Side, Use};
use items::Items;
use proof_semantics::Lit;
use std::alloc::{AllocError, Global};

fn push_denials(
    alloc: Global,
    db: &mut Db,
    d: u64,
    place: &Place<'_>,
    clause: &Clause,
) -> Result<(), AllocError>
    ensures { OnOk result (db.new.clauses ≡ db.old.clauses ++ denials d (clause_at_place place.now clause.now)) }
{
    for literal in clause.as_slice() {
        push_clause(
            alloc,
            db,
            &[minus(d), literal_at_place(place, *literal).negation()],
        )?;
    }
    Ok(())
}

fn push_marked(
    alloc: Global,
    db: &mut Db,
    z: u64,
    d: u64,
    place: &Place<'_>,
    clause: &Clause,
) -> Result<(), AllocError>
    ensures { OnOk result (db.new.clauses ≡ db.old.clauses ++ marked z d (clause_at_place place.now clause.now)) }
{
    let mut inside = Clause::from_slice(alloc, &[minus(z)])?;
    extend_at(&mut inside, place, clause)?;
    db.push(inside)?;
    push_denials(alloc, db, d, place, clause)
}

// The answer is the number after the marks.
fn push_wall_at(
    alloc: Global,
    db: &mut Db,
    z: u64,
    place: &Place<'_>,
    first: u64,
    set: &[Clause],
) -> Result<u64, AllocError>
    ensures clauses { OnOk result (db.new.clauses ≡ db.old.clauses ++ wall_at z place.now first set.now) }
    ensures free { IfOk result (λ free. free ≡ first + length set.now) }
{
    let mut d = first;
    for clause in set {
        push_marked(alloc, db, z, d, place, clause)?;
        d = next_free(d)?;
    }
    Ok(d)
}

fn extend_by_marks(out: &mut Clause, first: u64, set: &[Clause]) -> Result<(), AllocError>
    ensures { OnOk result (out.new ≡ out.old ++ marks first set.now) }
{
    let mut d = first;
    for _clause in set {
        out.push(plus(d))?;
        d = next_free(d)?;
    }
    Ok(())
}

fn extend_by_negations(out: &mut Clause, names: &[Lit]) -> Result<(), AllocError>
    ensures { OnOk result (out.new ≡ out.old ++ map negation names.now) }
{
    for name in names {
        out.push(name.negation())?;
    }
    Ok(())
}

fn push_closing(
    alloc: Global,
    db: &mut Db,
    z: u64,
    first: u64,
    set: &[Clause],
    names: &[Lit],
) -> Result<(), AllocError>
    ensures { OnOk result (db.new.clauses ≡ db.old.clauses ++ closing z first set.now names.now ∷ []) }
{
    let mut clause = Clause::from_slice(alloc, &[plus(z)])?;
    extend_by_marks(&mut clause, first, set)?;
    extend_by_negations(&mut clause, names)?;
    db.push(clause)?;
    Ok(())
}

// The answer is the number after the marks.
fn push_wall_over(
    alloc: Global,
    db: &mut Db,
    z: u64,
    names: &[Lit],
    set: &[Clause],
    first: u64,
    places: &[Place<'_>],
) -> Result<u64, AllocError>
    ensures clauses { OnOk result (db.new.clauses ≡ db.old.clauses ++ wall_over z names.now set.now first places.now) }
    ensures free { IfOk result (λ free. free ≡ after_marks set.now first places.now) }
{
    let mut d = first;
    for place in places {
        let free = push_wall_at(alloc, db, z, place, d, set)?;
        push_closing(alloc, db, z, d, set, names)?;
        d = free;
    }
    Ok(d)
}

fn push_names(alloc: Global, db: &mut Db, z: u64, names: &[Lit]) -> Result<(), AllocError>
    ensures { OnOk result (db.new.clauses ≡ db.old.clauses ++ map (λ name. minus z ∷ name ∷ []) names.now) }
{
    for name in names {
        push_clause(alloc, db, &[minus(z), *name])?;
    }
    Ok(())
}

// The answer is the number after the marks.
fn push_wall(
    alloc: Global,
    db: &mut Db,
    z: u64,
    names: &[Lit],
    set: &[Clause],
    places: &[Place<'_>],
) -> Result<u64, AllocError>
    ensures clauses { OnOk result (db.new.clauses ≡ db.old.clauses ++ wall_clauses z names.now set.now places.now) }
    ensures free { IfOk result (λ free. free ≡ after_marks set.now (z + 1) places.now) }
{
    push_names(alloc, db, z, names)?;
    let first = next_free(z)?;
    push_wall_over(alloc, db, z, names, set, first, places)
}

fn push_reach(
    alloc: Global,
    db: &mut Db,
    set: &[Clause],
    places: &[Place<'_>],
) -> Result<(), AllocError>
    ensures { OnOk result (db.new.clauses ≡ db.old.clauses ++ reach_clauses set.now places.now) }
{
    for place in places {
        push_set_at(alloc, db, place, set)?;
    }
    Ok(())
}

fn push_named(names: &mut Items<Lit>, side: Side, number: Option<u64>) -> Result<(), AllocError>
    ensures { OnOk result (names.new ≡ names.old ++ named_literal side number) }
{
    match (side, number) {
        (Side::In, Some(z)) => names.push(plus(z)),
        (Side::Out, Some(z)) => names.push(minus(z)),
        _ => Ok(()),
    }
}

// The sides that an entry names by its uses.
pub(crate) fn named_sides(
    alloc: Global,
    sides: &Sides,
    uses: &[Use],
) -> Result<Items<Lit>, AllocError>
    ensures { IfOk result (λ names. names ≡ named_sides (side_in sides.now) uses.now) }
{
    let mut names = Items::new(alloc);
    for named in uses {
        push_named(&mut names, named.side, sides.get(named.entry))?;
    }
    Ok(names)
}

/// What is counted on from use to use: the next free number, and the sides of the walls so far; and how many clauses
/// stand up to the end of each use's, those before the first among them.
#[derive(Drop)]
pub(crate) struct Numbering {
    pub(crate) free: u64,
    pub(crate) sides: Sides,
    pub(crate) ends: Items<u64>,
}

// Puts the clauses of a used entry behind the others.
fn push_use(
    alloc: Global,
    db: &mut Db,
    places: &[Place<'_>],
    numbering: &mut Numbering,
    used: &Used,
) -> Result<(), AllocError>
    ensures clauses { OnOk result (db.new.clauses ≡ db.old.clauses
        ++ use_clauses places.now (counted numbering.old) (lent used.now).entry used.now.kind) }
    ensures numbering { OnOk result (counted numbering.new ≡ after_use places.now (counted numbering.old) (lent used.now) used.now.kind) }
    ensures ends { numbering.new.ends ≡ numbering.old.ends }
{
    match used.kind {
        Kind::Reach => push_reach(alloc, db, used.set.as_slice(), places),
        Kind::Wall => push_wall_of(alloc, db, places, numbering, used),
    }
}

fn push_wall_of(
    alloc: Global,
    db: &mut Db,
    places: &[Place<'_>],
    numbering: &mut Numbering,
    used: &Used,
) -> Result<(), AllocError>
    ensures clauses { OnOk result (db.new.clauses ≡ db.old.clauses
        ++ use_clauses places.now (counted numbering.old) (lent used.now).entry Wall) }
    ensures numbering { OnOk result (counted numbering.new ≡ after_use places.now (counted numbering.old) (lent used.now) Wall) }
    ensures ends { numbering.new.ends ≡ numbering.old.ends }
{
    let z = numbering.free;
    let names = named_sides(alloc, &numbering.sides, used.uses)?;
    let free = push_wall(alloc, db, z, names.as_slice(), used.set.as_slice(), places)?;
    numbering.sides.put(used.number, z)?;
    numbering.free = free;
    Ok(())
}

// Puts the clauses of the uses over these places behind the others.
pub(crate) fn push_uses(
    alloc: Global,
    db: &mut Db,
    places: &[Place<'_>],
    free: u64,
    uses: &[Used],
) -> Result<Numbering, AllocError>
    ensures clauses { OnOk result (db.new.clauses ≡ db.old.clauses ++ uses_clauses places.now (free_from free) (lent_all uses.now)) }
    ensures numbering { IfOk result (λ n. counted n ≡ after_uses places.now (free_from free) (lent_all uses.now)) }
    ensures ends { IfOk result (λ n. n.ends ≡ use_ends (length db.old.clauses) places.now (free_from free) (lent_all uses.now)) }
{
    let mut numbering = Numbering {
        free,
        sides: Sides::new(alloc),
        ends: Items::new(alloc),
    };
    for used in uses {
        numbering.ends.push(db.len() as u64)?;
        push_use(alloc, db, places, &mut numbering, used)?;
    }
    let end = db.len() as u64;
    numbering.ends.push(end)?;
    Ok(numbering)
}
