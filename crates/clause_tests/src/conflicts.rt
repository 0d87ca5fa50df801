//! Conflicts worked out by hand.
ghost use Rattle.std.specs.Prelude.{◌≡◌, []};

use crate::literals::{clause, clauses, literal};
use cdcl_learn::{Learned, learn};
use cdcl_trail::Trail;
use cnf::Db;
use std::alloc::{AllocError, Global};
use std::test::*;

// What the first conflict teaches, where these literals are decided one after the other on a new trail.
fn conflict_on(
    alloc: Global,
    db: &Db,
    trail: &mut Trail,
    decided: &[i64],
) -> Result<Option<Learned>, AllocError>
    requires steps { trail.old.steps ≡ [] }
    requires taken { trail.old.taken ≡ [] }
{
    if trail.propagate(db)?.is_some() {
        return Ok(None);
    }
    for number in decided {
        let assumed = literal(*number);
        if trail.value(assumed.var).is_some() {
            continue;
        }
        trail.assume(assumed)?;
        if let Some(conflict) = trail.propagate(db)? {
            return Ok(Some(learn(alloc, db, trail, conflict)?));
        }
    }
    Ok(None)
}

fn first_conflict(alloc: Global, db: &Db, decided: &[i64]) -> Result<Option<Learned>, AllocError> {
    let mut trail = Trail::new(alloc);
    let found = conflict_on(alloc, db, &mut trail, decided);
    drop(trail);
    found
}

// Clauses, decided literals, the clause that the first conflict teaches, and its hints.
type Row = (
    &'static [&'static [i64]],
    &'static [i64],
    &'static [i64],
    &'static [u64],
);

fn rows() -> &'static [Row] {
    &[
        (
            &[
                &[-1, 2],
                &[-1, 3],
                &[-2, -3, 4],
                &[-4, 5],
                &[-4, 6],
                &[-5, -6],
            ],
            &[1],
            &[-4],
            &[4, 5, 6],
        ),
        // the literal of a lower level stays
        (
            &[&[-7, -1, 2], &[-2, 3], &[-7, -2, -3]],
            &[7, 1],
            &[-7, -2],
            &[2, 3],
        ),
    ]
}

fn minimised_rows() -> &'static [Row] {
    &[
        // a literal goes that another one of the clause forces
        (
            &[&[-7, 8], &[-1, 2], &[-2, -7, 3], &[-2, -8, -3]],
            &[7, 1],
            &[-7, -2],
            &[1, 3, 4],
        ),
        // and one that it forces through a literal outside the clause
        (
            &[&[-7, 8], &[-8, 9], &[-1, 2], &[-2, -7, 3], &[-2, -9, -3]],
            &[7, 1],
            &[-7, -2],
            &[1, 2, 4, 5],
        ),
        // but not one that a literal of another level has a part in
        (
            &[&[-7, -6, 8], &[-1, 2], &[-2, -7, 3], &[-2, -8, -3]],
            &[6, 7, 1],
            &[-7, -8, -2],
            &[3, 4],
        ),
    ]
}

fn is(alloc: Global, found: &Learned, row: &Row) -> Result<bool, AllocError> {
    let (_, _, learned, hints) = row;
    let wanted = clause(alloc, learned)?;
    Ok(found.clause == wanted && found.hints.as_slice() == *hints)
}

fn teaches_of(alloc: Global, db: &Db, row: &Row) -> Result<bool, AllocError> {
    match first_conflict(alloc, db, row.1)? {
        Some(found) => {
            let is_so = is(alloc, &found, row);
            drop(found);
            is_so
        }
        None => Ok(false),
    }
}

fn teaches(alloc: Global, row: &Row) -> Result<bool, AllocError> {
    let db = clauses(alloc, row.0)?;
    teaches_of(alloc, &db, row)
}

// The place of the first row that teaches something else, from 0.
fn wrong_row(alloc: Global, rows: &[Row]) -> Result<Option<usize>, AllocError> {
    for (k, row) in rows.iter().enumerate() {
        if !teaches(alloc, row)? {
            return Ok(Some(k));
        }
    }
    Ok(None)
}

fn wrong_rows(alloc: Global) -> Result<[Option<usize>; 2], AllocError> {
    Ok([
        wrong_row(alloc, rows())?,
        wrong_row(alloc, minimised_rows())?,
    ])
}

#[test]
fn first_implication_points(rt: HostRuntime) -> Result<(), Fail> {
    assert_eq!(rt; wrong_rows(rt.alloc())?, [None; 2]);
    Ok(())
}
