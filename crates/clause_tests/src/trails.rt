//! Trails worked out by hand, and a long row.
ghost use Rattle.std.specs.Prelude.{IsTrue};
ghost use Rattle.cdcl_trail.specs.Watched.{HasTwo};

use crate::literals::{clause, literal};
use cdcl_trail::Trail;
use cnf::{Clause, Db, Lit};
use std::alloc::{AllocError, Global};
use std::marker::Model;
use std::test::*;

/// How many variables the row has.
const ROW: u64 = 10_000;

/// Clauses, and a trail that takes them over.
#[derive(Drop)]
struct Session {
    db: Db,
    trail: Trail,
}

impl Model for Session {
    ghost use Rattle.std.specs.Prelude.{List};
    ghost use Rattle.proof_semantics.specs.declared.literals.Lit.{Lit};
    ghost use Rattle.cdcl_trail.specs.Watched.{Extends};

    ghost Value = { List (List Lit) };

    ghost view = { λ s. s.db.clauses };

    ghost invariant = { λ s. Extends s.trail.taken s.db.clauses };
}

impl Session {
    fn new(alloc: Global) -> Session {
        Session {
            db: Db::new(alloc),
            trail: Trail::new(alloc),
        }
    }

    // The same clauses, and a new trail.
    fn begin_anew(&mut self, alloc: Global) {
        self.trail = Trail::new(alloc);
    }

    fn add(&mut self, clause: Clause) -> Result<(), AllocError> {
        self.db.push(clause)?;
        Ok(())
    }

    // Assumes a literal whose variable has no value.
    fn assume(&mut self, number: i64) -> Result<(), AllocError> {
        let assumed = literal(number);
        if self.trail.value(assumed.var).is_none() {
            self.trail.assume(assumed)?;
        }
        Ok(())
    }

    fn propagate(&mut self) -> Result<Option<u64>, AllocError> {
        self.trail.propagate(&self.db)
    }

    // Goes back to a level that is below the present one.
    fn back_to(&mut self, target: u64) {
        if target < self.trail.level() {
            self.trail.back_to(target);
        }
    }

    // The level of a variable with a value.
    fn level_of(&self, var: u64) -> Option<u64> {
        self.trail.value(var)?;
        Some(self.trail.level_of(var))
    }

    // The watched literals of a clause with two different literals, once propagation is done.
    fn watched(&mut self, number: u64) -> Result<Option<(Lit, Lit)>, AllocError> {
        self.trail.propagate(&self.db)?;
        let Some(clause) = self.db.get(number) else {
            return Ok(None);
        };
        if !has_two(clause.as_slice()) {
            return Ok(None);
        }
        Ok(Some(self.trail.watched(number)))
    }

    // Whether propagation ends in a clause of which each literal is false.
    fn ends_in_conflict(&mut self) -> Result<bool, AllocError> {
        match self.trail.propagate(&self.db)? {
            None => Ok(false),
            Some(number) => Ok(self.is_falsified(number)),
        }
    }

    // Whether each literal of a clause is false.
    fn is_falsified(&self, number: u64) -> bool {
        let Some(clause) = self.db.get(number) else {
            return false;
        };
        for literal in clause.as_slice() {
            if self.trail.value(literal.var) != Some(!literal.positive) {
                return false;
            }
        }
        true
    }
}

// Whether the first two literals are different.
fn has_two(clause: &[Lit]) -> bool
    ensures { IsTrue result → HasTwo clause.now }
{
    match clause {
        [first, second, ..] => !first.is(*second),
        _ => false,
    }
}

// That with a variable the one that comes after it is true.
fn link(alloc: Global, var: u64) -> Result<Clause, AllocError> {
    let one = Lit {
        var,
        positive: false,
    };
    let next = Lit {
        var: var.saturating_add(1),
        positive: true,
    };
    Clause::from_slice(alloc, &[one, next])
}

// That the first variable is true, and with each variable the one that comes after it.
fn add_row(session: &mut Session, alloc: Global) -> Result<(), AllocError> {
    session.add(clause(alloc, &[1])?)?;
    for var in 1..ROW {
        session.add(link(alloc, var)?)?;
    }
    Ok(())
}

// The clauses (1), (-1 2), (-2 -3 4) and (3 5).
fn four_clauses() -> &'static [&'static [i64]] {
    &[&[1], &[-1, 2], &[-2, -3, 4], &[3, 5]]
}

fn add_all(session: &mut Session, alloc: Global, lists: &[&[i64]]) -> Result<(), AllocError> {
    for numbers in lists {
        session.add(clause(alloc, numbers)?)?;
    }
    Ok(())
}

// Whether the literals are these, and nothing is known of variable 5.
fn has_literals(trail: &Trail, numbers: &[i64]) -> bool {
    let literals = trail.literals();
    literals.len() == numbers.len()
        && literals
            .iter()
            .zip(numbers)
            .all(|(found, number)| found.is(literal(*number)))
        && trail.value(5).is_none()
}

// Whether 3 is assumed on the first level, and 4 is forced there by the third clause.
fn has_reasons(trail: &Trail) -> bool {
    trail.reasons() == [Some(1), Some(2), None, Some(3)].as_slice()
        && trail.level() == 1
        && trail.reason(4) == Some(3)
        && trail.reason(3).is_none()
}

// What is so of the four clauses before 3 is assumed, and then.
fn one_way(session: &mut Session) -> Result<[bool; 3], AllocError> {
    let is_open = session.propagate()?.is_none();
    session.assume(3)?;
    let is_closed = session.propagate()?.is_some();
    Ok([
        is_open && !is_closed,
        has_literals(&session.trail, &[1, 2, 3, 4])
            && session.level_of(2) == Some(0)
            && session.level_of(4) == Some(1),
        has_reasons(&session.trail),
    ])
}

// What is so after the way back, and when -3 is assumed with (-5 -1) beside them.
fn the_other_way(session: &mut Session, alloc: Global) -> Result<[bool; 2], AllocError> {
    session.back_to(0);
    let is_back = has_literals(&session.trail, &[1, 2]);
    session.add(clause(alloc, &[-5, -1])?)?;
    session.assume(-3)?;
    Ok([is_back, session.ends_in_conflict()?])
}

fn both_ways(session: &mut Session, alloc: Global) -> Result<([bool; 3], [bool; 2]), AllocError> {
    add_all(session, alloc, four_clauses())?;
    Ok((one_way(session)?, the_other_way(session, alloc)?))
}

fn one_way_and_the_other(alloc: Global) -> Result<([bool; 3], [bool; 2]), AllocError> {
    let mut session = Session::new(alloc);
    let found = both_ways(&mut session, alloc);
    drop(session);
    found
}

#[test]
fn assumed_and_forced(rt: HostRuntime) -> Result<(), Fail> {
    assert!(rt; one_way_and_the_other(rt.alloc())? == ([true; 3], [true; 2]));
    Ok(())
}

// Whether two literals that are not of the variable are watched.
fn watches_two_but(session: &mut Session, number: u64, var: u64) -> Result<bool, AllocError> {
    match session.watched(number)? {
        Some((first, second)) => {
            Ok(first.var != var && second.var != var && first.var != second.var)
        }
        None => Ok(false),
    }
}

fn leaves_one(session: &mut Session, alloc: Global) -> Result<bool, AllocError> {
    session.add(clause(alloc, &[1, 2, 3])?)?;
    session.assume(-1)?;
    watches_two_but(session, 1, 1)
}

// Whether the false literal of (1 2 3) is watched no more, and the two others are.
fn false_one_is_left(alloc: Global) -> Result<bool, AllocError> {
    let mut session = Session::new(alloc);
    let is_left = leaves_one(&mut session, alloc);
    drop(session);
    is_left
}

#[test]
fn watches_move(rt: HostRuntime) -> Result<(), Fail> {
    assert!(rt; false_one_is_left(rt.alloc())?);
    Ok(())
}

// Whether 2^62 stands at place 0 and 7 at place 1, and neither 9, which a clause has, nor 8.
fn has_places(trail: &Trail) -> bool {
    let places = trail.places();
    places.get(1 << 62) == Some(0)
        && places.get(7) == Some(1)
        && places.get(9).is_none()
        && places.get(8).is_none()
}

// What is told of the variables once 2^62 is assumed.
fn told_far_apart(session: &mut Session) -> Result<[bool; 4], AllocError> {
    session.assume(1 << 62)?;
    let is_open = session.propagate()?.is_none();
    Ok([
        is_open,
        has_literals(&session.trail, &[1 << 62, 7]) && session.level_of(7) == Some(1),
        has_places(&session.trail),
        watches_two_but(session, 2, 7)?,
    ])
}

fn add_far_apart(session: &mut Session, alloc: Global) -> Result<[bool; 4], AllocError> {
    session.add(clause(alloc, &[-(1 << 62), 7])?)?;
    session.add(clause(alloc, &[-7, 1 << 40, 9])?)?;
    told_far_apart(session)
}

// What is told of variables far apart, with the clauses (-2^62 7) and (-7 2^40 9), once 2^62 is assumed.
fn far_apart(alloc: Global) -> Result<[bool; 4], AllocError> {
    let mut session = Session::new(alloc);
    let told = add_far_apart(&mut session, alloc);
    drop(session);
    told
}

#[test]
fn variables_far_apart(rt: HostRuntime) -> Result<(), Fail> {
    assert!(rt; far_apart(rt.alloc())? == [true; 4]);
    Ok(())
}

fn ends_behind(session: &mut Session, alloc: Global) -> Result<bool, AllocError> {
    session.begin_anew(alloc);
    session.add(clause(alloc, &[-10_000])?)?;
    session.ends_in_conflict()
}

fn follow(session: &mut Session, alloc: Global) -> Result<(usize, bool), AllocError> {
    add_row(session, alloc)?;
    if session.propagate()?.is_some() {
        return Ok((0, false));
    }
    let count = session.trail.literals().len();
    Ok((count, ends_behind(session, alloc)?))
}

// How many literals the row gives, and whether it ends in a conflict with the negation of its last.
fn follow_row(alloc: Global) -> Result<(usize, bool), AllocError> {
    let mut session = Session::new(alloc);
    let followed = follow(&mut session, alloc);
    drop(session);
    followed
}

#[test]
fn a_long_row(rt: HostRuntime) -> Result<(), Fail> {
    assert!(rt; follow_row(rt.alloc())? == (ROW as usize, true));
    Ok(())
}
