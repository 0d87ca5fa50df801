//! Clauses, lists of clauses and cubes, with values worked out by hand.
use crate::literals::{clause, literal};
use cnf::{Clause, Cube, Db, Proof, eval, has_literal, holds, subset};
use std::alloc::{AllocError, Global};
use std::test::*;

// Clauses, and whether they hold where variables 1 and 3 are true.
type Value = (&'static [i64], bool);

fn values() -> &'static [Value] {
    &[
        (&[1, 2, 3], true),
        (&[-1, 2, -3], false),
        (&[-1, -2], true),
        // variable 9 is past the end
        (&[9], false),
        (&[-9], true),
        (&[], false),
    ]
}

fn has_value(alloc: Global, row: &Value) -> Result<bool, AllocError> {
    let made = clause(alloc, row.0)?;
    Ok(holds(&made, &[false, true, false, true]) == row.1)
}

#[test]
fn clauses_hold(rt: HostRuntime) -> Result<(), Fail> {
    for (k, row) in values().iter().enumerate() {
        assert!(rt; has_value(rt.alloc(), row)?, "of row {k}");
    }
    Ok(())
}

const LONG: &[i64] = &[5, -6, 7, 8, -9, 5];

// What workers share must cross threads.
fn crosses<T: Send + Sync>(value: &T) -> &T {
    value
}

fn is_part(alloc: Global, part: &[i64], whole: &[i64]) -> Result<bool, AllocError> {
    let part = clause(alloc, part)?;
    let whole = clause(alloc, whole)?;
    Ok(subset(&part, &whole))
}

fn are_equal(alloc: Global, one: &[i64], other: &[i64]) -> Result<bool, AllocError> {
    let one = clause(alloc, one)?;
    let other = clause(alloc, other)?;
    Ok(one == other)
}

fn is_copied(alloc: Global) -> Result<bool, AllocError> {
    let long = clause(alloc, LONG)?;
    let copy = long.clone()?;
    Ok(copy == long && crosses(&long).len() == 6)
}

fn comparisons(alloc: Global) -> Result<[bool; 5], AllocError> {
    Ok([
        is_part(alloc, &[8, 5, 5], LONG)?,
        is_part(alloc, LONG, &[8, 5, 5])?,
        is_part(alloc, &[6], LONG)?,
        is_copied(alloc)?,
        are_equal(alloc, &[8, 5, 5], &[5, 8, 5])?,
    ])
}

#[test]
fn clauses_are_compared(rt: HostRuntime) -> Result<(), Fail> {
    assert!(rt; comparisons(rt.alloc())? == [true, false, false, true, false]);
    Ok(())
}

fn is_blank(db: &Db) -> bool {
    db.is_empty() && eval(db, &[])
}

fn push_with_room(db: &mut Db, clause: Clause) -> Result<u64, AllocError> {
    db.reserve(1)?;
    Ok(db.push_reserved(clause))
}

// The numbers of (1 2) and (-1), each pushed in one of the two ways.
fn push_both(alloc: Global, db: &mut Db) -> Result<[u64; 2], AllocError> {
    let first = db.push(clause(alloc, &[1, 2])?)?;
    let second = push_with_room(db, clause(alloc, &[-1])?)?;
    Ok([first, second])
}

// Whether the list is true where variable 2 alone is, false where 1 is too, and has clauses by their numbers.
fn has_both(db: &Db) -> [bool; 4] {
    [
        eval(db, &[false, false, true]),
        !eval(db, &[false, true, true]),
        db.get(2).map(|found| found.len()) == Some(1),
        db.get(0).is_none() && db.get(3).is_none(),
    ]
}

fn numbers_of_both(alloc: Global) -> Result<[u64; 2], AllocError> {
    let mut db = Db::new(alloc);
    push_both(alloc, &mut db)
}

fn list_of_both(alloc: Global) -> Result<[bool; 4], AllocError> {
    let mut db = Db::new(alloc);
    push_both(alloc, &mut db)?;
    Ok(has_both(&db))
}

fn lengths_of_both(alloc: Global) -> Result<[usize; 2], AllocError> {
    let mut db = Db::new(alloc);
    push_both(alloc, &mut db)?;
    let length = crosses(&db).len();
    Ok([length, db.into_vec().len()])
}

fn are_kept(alloc: Global) -> Result<[bool; 4], AllocError> {
    Ok([
        is_blank(&Db::from_vec(Vec::new(alloc))),
        numbers_of_both(alloc)? == [1, 2],
        list_of_both(alloc)? == [true; 4],
        lengths_of_both(alloc)? == [2, 2],
    ])
}

#[test]
fn lists_of_clauses(rt: HostRuntime) -> Result<(), Fail> {
    assert!(rt; are_kept(rt.alloc())? == [true; 4]);
    Ok(())
}

// The cube (4 -2), made of its first literal.
fn cube(alloc: Global) -> Result<Cube, AllocError> {
    let mut made = Cube::from_slice(alloc, &[literal(4)])?;
    made.push(literal(-2))?;
    Ok(made)
}

fn is_negated(alloc: Global, cube: &Cube) -> Result<bool, AllocError> {
    let negation = cube.negation()?;
    Ok(negation == clause(alloc, &[-4, 2])?)
}

fn length_of_copy(alloc: Global) -> Result<usize, AllocError> {
    Ok(cube(alloc)?.clone()?.len())
}

fn is_cube_negated(alloc: Global) -> Result<bool, AllocError> {
    is_negated(alloc, &cube(alloc)?)
}

// Whether the cube has 4 and -2, and neither negation.
fn contains_its_own(alloc: Global) -> Result<bool, AllocError> {
    Ok(has_its_own(&cube(alloc)?))
}

fn has_its_own(cube: &Cube) -> bool {
    cube.contains(literal(4))
        && cube.contains(literal(-2))
        && !cube.contains(literal(-4))
        && !has_literal(cube.as_slice(), literal(2))
}

fn are_cubes(alloc: Global) -> Result<[bool; 3], AllocError> {
    Ok([
        contains_its_own(alloc)?,
        length_of_copy(alloc)? == 2,
        is_cube_negated(alloc)?,
    ])
}

#[test]
fn cubes(rt: HostRuntime) -> Result<(), Fail> {
    assert!(rt; are_cubes(rt.alloc())? == [true; 3]);
    Ok(())
}

// What workers hand to each other.
fn is_shared<T: Send + Sync>() -> bool {
    true
}

#[test]
fn shared_by_workers(rt: HostRuntime) {
    assert!(rt; is_shared::<Clause>() && is_shared::<Db>());
    assert!(rt; is_shared::<Cube>() && is_shared::<Proof>());
}
