//! Lines whose answers were worked out by hand, from the words of the format.
use crate::literals::clauses;
use cnf::Db;
use lrat::{Checker, LratEnd, LratFault};
use std::alloc::{AllocError, Global};
use std::test::*;

const GREATEST: u64 = 9_223_372_036_854_775_807;

// What a line answers: accepted, or the first test that it fails.
type Answer = Option<LratFault>;

const FINE: Answer = None;

const BAD_LINE: Answer = Some(LratFault::BadLine);

const ID_ORDER: Answer = Some(LratFault::IdOrder);

const RAT: Answer = Some(LratFault::RatRefused);

const NO_CONFLICT: Answer = Some(LratFault::NoConflict);

// Lines over the clauses (-1), (-4 -2), (4 2) and (1), each to a new checker.
type Line = (&'static str, Answer);

fn judged_lines() -> &'static [Line] {
    &[
        ("5 0 1 4 0", FINE),
        ("5 0 -1 4 0", RAT),
        ("4 0 1 4 0", ID_ORDER),
        ("5 0 2 1 4 0", Some(LratFault::NotUnit(2))),
        ("5 0 1 9 0", Some(LratFault::NoClause(9))),
        ("5 0 1 0", NO_CONFLICT),
        ("5 x 0", BAD_LINE),
        // of two faults the first in order
        ("4 0 -1 4 0", ID_ORDER),
        ("4 0 1 x 0", BAD_LINE),
        ("5 0 9 -1 0", RAT),
        ("5 0 2 9 0", Some(LratFault::NotUnit(2))),
        ("5 0 9 2 0", Some(LratFault::NoClause(9))),
        ("5 0 1 2 0", NO_CONFLICT),
        // a literal beside its negation, and one twice
        ("5 2 -2 0 2 3 0", FINE),
        ("5 2 -2 0 1 0", NO_CONFLICT),
        ("5 -4 -4 2 0 3 0", NO_CONFLICT),
        ("5 4 4 2 0 3 0", FINE),
        // deletions
        ("7 d 0", FINE),
        ("7 d 3 3 0", FINE),
        ("7 d 3 9 0", Some(LratFault::NoClause(9))),
        ("7 d -3 0", BAD_LINE),
        ("7 d 3", BAD_LINE),
    ]
}

fn spelled_lines() -> &'static [Line] {
    &[
        // numbers
        ("9223372036854775808 0 1 4 0", BAD_LINE),
        ("9223372036854775807 0 1 4 0", FINE),
        ("5 0 9223372036854775808 0", BAD_LINE),
        (
            "5 0 9223372036854775807 0",
            Some(LratFault::NoClause(GREATEST)),
        ),
        ("5 9223372036854775807 0 1 4 0", FINE),
        ("5 -9223372036854775808 0 1 4 0", BAD_LINE),
        ("0 0 1 4 0", BAD_LINE),
        ("-5 0 1 4 0", BAD_LINE),
        ("05 0 1 4 0", BAD_LINE),
        ("5 0 01 4 0", BAD_LINE),
        ("5 0 -0 4 0", BAD_LINE),
        ("5 0 +1 4 0", BAD_LINE),
        // fields
        ("", BAD_LINE),
        ("5", BAD_LINE),
        ("5 0", BAD_LINE),
        ("5 0 1 4", BAD_LINE),
        ("5 0 1 4 0 ", BAD_LINE),
        ("5 0 1 4 0 0", BAD_LINE),
        ("5  0 1 4 0", BAD_LINE),
        (" 5 0 1 4 0", BAD_LINE),
        ("5\t0 1 4 0", BAD_LINE),
        ("5 0 1 4 0\r", BAD_LINE),
        ("5 0 0", NO_CONFLICT),
    ]
}

// The same clauses and (3 3), (2 -2) behind them, and lines one after another, each with whether an
// empty clause was added by then.
type ProofLine = (&'static str, Answer, bool);

fn proof() -> &'static [ProofLine] {
    &[
        // two literals that are the same are one
        ("7 5 0 5 6 0", NO_CONFLICT, false),
        ("7 3 0 5 0", FINE, false),
        // a literal and its negation are neither false
        ("8 0 1 6 0", NO_CONFLICT, false),
        ("8 0 6 4 0", Some(LratFault::NotUnit(6)), false),
        // a refused line leaves nothing assumed, and nothing held
        ("8 2 0 99 0", Some(LratFault::NoClause(99)), false),
        ("8 0 3 2 0", Some(LratFault::NotUnit(3)), false),
        ("8 5 0 1 0", NO_CONFLICT, false),
        ("8 0 8 0", Some(LratFault::NoClause(8)), false),
        // a deletion that is refused deletes nothing
        ("9 d 1 8 0", Some(LratFault::NoClause(8)), false),
        ("9 d 2 3 0", FINE, false),
        ("9 d 3 0", Some(LratFault::NoClause(3)), false),
        ("8 0 3 0", Some(LratFault::NoClause(3)), false),
        // an id is not used again
        ("3 0 1 4 0", ID_ORDER, false),
        // a deletion's own id does not count
        ("8 0 1 4 0", FINE, true),
        ("9 d 1 4 8 0", FINE, true),
        ("9 0 1 4 0", Some(LratFault::NoClause(1)), true),
    ]
}

fn answer(checker: &mut Checker, line: &str) -> Result<Answer, AllocError> {
    match checker.step(line.as_bytes()) {
        Ok(()) => Ok(None),
        Err(LratEnd::Fault(fault)) => Ok(Some(fault)),
        Err(LratEnd::Memory) => Err(AllocError),
    }
}

// What a worker keeps may go to another thread.
fn sent<T: Send>(value: T) -> T {
    value
}

// Restarts one after another from the clauses (-1), (-4 -2), (4 2) and (1): how many given clauses
// stay, what is given behind them, a line and its answer, and whether an empty clause was given or
// added by then.
type Restart = (usize, &'static [&'static [i64]], &'static str, Answer, bool);

fn restarts() -> &'static [Restart] {
    &[
        (4, &[], "5 0 1 4 0", FINE, true),
        // what was proved and deleted is undone
        (4, &[], "5 d 1 4 0", FINE, false),
        (4, &[], "5 0 1 4 0", FINE, true),
        // what is not kept is gone, and its ids are free
        (3, &[], "5 0 1 4 0", Some(LratFault::NoClause(4)), false),
        (3, &[&[1]], "4 0 1 4 0", ID_ORDER, false),
        (4, &[&[2], &[-2]], "9 0 5 6 0", FINE, true),
        (6, &[], "9 0 9 0", Some(LratFault::NoClause(9)), false),
        // an empty clause that was given stays as long as it is kept
        (5, &[&[], &[7]], "9 d 6 0", FINE, true),
        (6, &[], "9 d 7 0", Some(LratFault::NoClause(7)), true),
        (5, &[], "9 d 0", FINE, false),
        (
            0,
            &[&[9_223_372_036_854_775_807]],
            "2 0 1 0",
            NO_CONFLICT,
            false,
        ),
        (
            1,
            &[&[-9_223_372_036_854_775_807]],
            "4611686018427387904 0 1 2 0",
            FINE,
            true,
        ),
    ]
}

// Restarts the checker, where so many clauses were given.
fn restart(checker: &mut Checker, kept: usize, more: &Db) -> Result<bool, AllocError> {
    if kept > checker.given() {
        return Ok(false);
    }
    checker.restart(kept, more.as_slice())?;
    Ok(true)
}

fn is_restarted(alloc: Global, checker: &mut Checker, row: &Restart) -> Result<bool, AllocError> {
    let more = clauses(alloc, row.1)?;
    restart(checker, row.0, &more)
}

fn is_restart_right(
    alloc: Global,
    checker: &mut Checker,
    row: &Restart,
) -> Result<bool, AllocError> {
    let (_, _, line, wanted, finished) = row;
    Ok(
        is_restarted(alloc, checker, row)?
            && answer(checker, line)? == *wanted
            && checker.proved_empty() == *finished,
    )
}

// How many restarts come before the first whose line is answered otherwise.
fn right_restarts(alloc: Global, checker: &mut Checker) -> Result<u64, AllocError> {
    let mut count = 0u64;
    for row in restarts() {
        if !is_restart_right(alloc, checker, row)? {
            return Ok(count);
        }
        count = count.saturating_add(1);
    }
    Ok(count)
}

// The clauses (-1), (-4 -2), (4 2) and (1).
fn four(alloc: Global) -> Result<Db, AllocError> {
    clauses(alloc, &[&[-1], &[-4, -2], &[4, 2], &[1]])
}

fn restarts_of_four(alloc: Global) -> Result<u64, AllocError> {
    let mut checker = sent(Checker::new(alloc, four(alloc)?)?);
    let count = right_restarts(alloc, &mut checker);
    drop(checker);
    count
}

#[test]
fn restarts_in_their_order(rt: HostRuntime) -> Result<(), Fail> {
    assert!(rt; restarts_of_four(rt.alloc())? == 12);
    Ok(())
}

fn answer_alone(alloc: Global, line: &str) -> Result<Answer, AllocError> {
    let mut checker = Checker::new(alloc, four(alloc)?)?;
    let given = answer(&mut checker, line);
    drop(checker);
    given
}

#[test]
fn each_line_alone(rt: HostRuntime) -> Result<(), Fail> {
    for rows in [judged_lines(), spelled_lines()] {
        for (line, wanted) in rows {
            assert!(rt; answer_alone(rt.alloc(), line)? == *wanted, "of {line}");
        }
    }
    Ok(())
}

// How many lines come before the first that is answered otherwise.
fn right_lines(checker: &mut Checker) -> Result<u64, AllocError> {
    let mut count = 0u64;
    for (line, wanted, finished) in proof() {
        if answer(checker, line)? != *wanted || checker.proved_empty() != *finished {
            return Ok(count);
        }
        count = count.saturating_add(1);
    }
    Ok(count)
}

fn lines_of_six(alloc: Global) -> Result<u64, AllocError> {
    let db = clauses(alloc, &[&[-1], &[-4, -2], &[4, 2], &[1], &[3, 3], &[2, -2]])?;
    let mut checker = Checker::new(alloc, db)?;
    let count = right_lines(&mut checker);
    drop(checker);
    count
}

#[test]
fn lines_in_their_order(rt: HostRuntime) -> Result<(), Fail> {
    assert!(rt; lines_of_six(rt.alloc())? == 16);
    Ok(())
}

fn is_fine(checker: &mut Checker) -> Result<[bool; 5], AllocError> {
    Ok([
        checker.proved_empty(),
        answer(checker, "2 0 2 0")? == ID_ORDER,
        answer(checker, "3 7 0 2 0")? == FINE,
        answer(checker, "9 d 2 0")? == FINE,
        checker.proved_empty(),
    ])
}

fn is_fine_with_empty(alloc: Global) -> Result<[bool; 5], AllocError> {
    let mut checker = Checker::new(alloc, clauses(alloc, &[&[1], &[]])?)?;
    let fine = is_fine(&mut checker);
    drop(checker);
    fine
}

#[test]
fn an_empty_clause_is_given(rt: HostRuntime) -> Result<(), Fail> {
    assert!(rt; is_fine_with_empty(rt.alloc())? == [true; 5]);
    Ok(())
}
