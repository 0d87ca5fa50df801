//! Questions whose answers were worked out by hand: tables of clauses, each with a 0 behind it, with what is asked and
//! what must be said.
use crate::judging::{Said, is_right};
use crate::session::{NO_LIMIT, Session, WAYS, Way};
use cnf::Lit;
use std::alloc::{AllocError, Global};
use std::test::*;

// The clauses that no values of two variables make true together, then in another order.
const SQUARE: &[i64] = &[1, 2, 0, -1, 2, 0, 1, -2, 0, -1, -2, 0];

const TURNED: &[i64] = &[-1, -2, 0, 1, -2, 0, -1, 2, 0, 1, 2, 0];

// The square with a third literal in each clause.
const WITH_3: &[i64] = &[1, 2, 3, 0, -1, 2, 3, 0, 1, -2, 3, 0, -1, -2, 3, 0];

// A question to a new solver: clauses, assumptions, a limit of conflicts, what is said, the core in any order, and how
// many conflicts are counted.
type Question = (
    &'static [i64],
    &'static [i64],
    u64,
    Said,
    &'static [i64],
    u64,
);

fn questions() -> &'static [Question] {
    &[
        (SQUARE, &[], 1, Said::Unsat, &[], 1),
        (SQUARE, &[], 0, Said::Spent, &[], 0),
        (SQUARE, &[], NO_LIMIT, Said::Unsat, &[], 1),
        (TURNED, &[], 1, Said::Unsat, &[], 1),
        (&[1, 0], &[-1], 0, Said::Unsat, &[-1], 0),
        (&[1, 2, 0], &[-1], 0, Said::Sat, &[], 0),
        (&[0], &[], 0, Said::Unsat, &[], 0),
        (&[], &[5], 0, Said::Sat, &[], 0),
        (&[1, -1, 0, 2, 2, 0], &[-2], 0, Said::Unsat, &[-2], 0),
        (
            &[-1, 2, 0, -2, 3, 0],
            &[1, 1, -3],
            0,
            Said::Unsat,
            &[-3, 1],
            0,
        ),
        (&[1, 100_000, 0, -100_000, 0], &[], 0, Said::Sat, &[], 0),
    ]
}

// Whether the last core has these numbers, in any order.
fn is_core(session: &Session, wanted: &[i64]) -> bool {
    let core = session.core();
    core.len() == wanted.len() && has_all(core, wanted)
}

fn has_all(core: &[i64], wanted: &[i64]) -> bool {
    for number in wanted {
        if !core.contains(number) {
            return false;
        }
    }
    true
}

// Whether it is answered as it must be. `refute` tells no core.
fn is_answered(session: &mut Session, way: Way, question: &Question) -> Result<bool, AllocError> {
    let (_, assumed, limit, wanted, core, conflicts) = question;
    let said = session.ask(assumed, *limit)?;
    let is_told = !tells_core(way) || is_core(session, core);
    Ok(said == *wanted && is_told && session.conflicts() == *conflicts)
}

fn tells_core(way: Way) -> bool {
    match way {
        Way::Solve | Way::Ask => true,
        Way::Refute => false,
    }
}

// After a limit was reached it can be asked again, and is answered.
fn is_answered_again(session: &mut Session, question: &Question) -> Result<bool, AllocError> {
    let (_, assumed, _, wanted, _, _) = question;
    let again = session.ask(assumed, 9)?;
    Ok(is_right(again, false) && (again == *wanted || *wanted == Said::Spent))
}

fn are_answers(session: &mut Session, way: Way, question: &Question) -> Result<bool, AllocError> {
    Ok(is_answered(session, way, question)? && is_answered_again(session, question)?)
}

// Clauses, assumptions of which some are not needed, and the core, in ascending order of the numbers.
type Core = (&'static [i64], &'static [i64], &'static [i64]);

fn cores() -> &'static [Core] {
    &[
        (&[-1, 0], &[2, 1], &[1]),
        (&[-1, 0], &[1, 2], &[1]),
        (&[-1, 2, 0, -2, 3, 0], &[5, 1, 6, -3], &[-3, 1]),
        (&[-1, 2, 0, -2, 3, 0], &[4, -3, 2], &[-3, 2]),
        (WITH_3, &[4, -3, 5], &[-3]),
        (&[-1, -2, -3, 0], &[1, 4, 2, -5, 3], &[1, 2, 3]),
        (&[1, 0, -1, 0], &[2, 3], &[]),
    ]
}

fn is_refused_by(
    session: &mut Session,
    assumed: &[i64],
    wanted: &[i64],
) -> Result<bool, AllocError> {
    let said = session.ask(assumed, NO_LIMIT)?;
    Ok(said == Said::Unsat && is_core(session, wanted))
}

// The clauses of the square.
const SIDES: [[i64; 3]; 4] = [[1, 2, 0], [-1, 2, 0], [1, -2, 0], [-1, -2, 0]];

// Four places from 0 to 3, by a number below 256.
fn places_of(code: usize) -> [usize; 4] {
    [code % 4, code / 4 % 4, code / 16 % 4, code / 64 % 4]
}

// Whether no place comes twice.
fn is_order(places: [usize; 4]) -> bool {
    let [a, b, c, d] = places;
    a != b && a != c && a != d && b != c && b != d && c != d
}

fn add_in_order(session: &mut Session, order: [usize; 4]) -> Result<(), AllocError> {
    for place in order {
        session.add(&SIDES[place % 4])?;
    }
    Ok(())
}

// Whether the square is refuted after one conflict when its clauses are added in an order.
fn is_refuted_after(session: &mut Session, order: [usize; 4]) -> Result<bool, AllocError> {
    add_in_order(session, order)?;
    Ok(session.ask(&[], NO_LIMIT)? == Said::Unsat && session.conflicts() == 1)
}

// Clauses and assumptions, or units, and what must be said each time.
type Row = (&'static [i64], &'static [i64], Said);

fn special_rows() -> &'static [Row] {
    &[
        // an assumption that the clauses imply, and one that they refuse without another
        (&[1, 0], &[1], Said::Sat),
        (&[1, 0, -1, 2, 0], &[2, 2], Said::Sat),
        (&[1, 0, -1, 2, 0], &[3, -2], Said::Unsat),
        // the same literal twice, in an assumption and in a clause
        (&[-1, 2, 0], &[1, 1], Said::Sat),
        (&[-1, 0], &[1, 1], Said::Unsat),
        (&[5, 5, 0, -5, -5, 0], &[], Said::Unsat),
        // each of the assumptions is needed
        (&[-1, -2, -3, 0], &[1, 2, 3], Said::Unsat),
        (&[1, 2, 3, 0], &[-1, -2], Said::Sat),
        // empty clauses
        (&[0, 0], &[1], Said::Unsat),
        (&[1, 2, 0, 0], &[-1], Said::Unsat),
        // clauses that every choice makes true
        (&[1, -1, 0], &[-1], Said::Sat),
        (&[1, 1, -1, 0, -1, 2, -2, 0], &[1, -2], Said::Sat),
        // a variable of no clause, and gaps in the numbers
        (&[1, 0], &[-7], Said::Sat),
        (&[1, 100_000, 0, -1, 100_000, 0], &[1], Said::Sat),
        (&[1, 100_000, 0, -1, 100_000, 0], &[-100_000], Said::Unsat),
    ]
}

fn says(session: &mut Session, assumed: &[i64], wanted: Said) -> Result<bool, AllocError> {
    Ok(session.ask(assumed, NO_LIMIT)? == wanted)
}

fn says_again(session: &mut Session, assumed: &[i64], wanted: Said) -> Result<bool, AllocError> {
    Ok(says(session, assumed, wanted)? && says(session, assumed, wanted)?)
}

// Units together with clauses: opposite units, also beside others, and units that are added clauses already.
fn unit_rows() -> &'static [Row] {
    &[
        (&[], &[1, -1], Said::Unsat),
        (&[1, 2, 0], &[-3, 2, -1, 3], Said::Unsat),
        (&[0], &[2, -2], Said::Unsat),
        (&[1, 0], &[1, 1], Said::Sat),
        (&[1, 0, -1, 0], &[1], Said::Unsat),
        (&[1, 0, -1, 2, 0], &[1, -2], Said::Unsat),
        (&[1, 2, 0, -1, 2, 0], &[4, -2, 5], Said::Unsat),
    ]
}

// No two of four pigeons sit in one of three holes, and each of the pigeons, of whom three or four come, sits in one.
const THREE: &[i64] = &[
    -1, -4, 0, -1, -7, 0, -1, -10, 0, -4, -7, 0, -4, -10, 0, -7, -10, 0, -2, -5, 0, -2, -8, 0, -2,
    -11, 0, -5, -8, 0, -5, -11, 0, -8, -11, 0, -3, -6, 0, -3, -9, 0, -3, -12, 0, -6, -9, 0, -6,
    -12, 0, -9, -12, 0, 1, 2, 3, 0, 4, 5, 6, 0, 7, 8, 9, 0,
];

const FOUR: &[i64] = &[
    -1, -4, 0, -1, -7, 0, -1, -10, 0, -4, -7, 0, -4, -10, 0, -7, -10, 0, -2, -5, 0, -2, -8, 0, -2,
    -11, 0, -5, -8, 0, -5, -11, 0, -8, -11, 0, -3, -6, 0, -3, -9, 0, -3, -12, 0, -6, -9, 0, -6,
    -12, 0, -9, -12, 0, 1, 2, 3, 0, 4, 5, 6, 0, 7, 8, 9, 0, 10, 11, 12, 0,
];

fn pigeon_rows() -> &'static [Row] {
    &[
        (FOUR, &[], Said::Unsat),
        // the first two may not sit in the first hole
        (FOUR, &[-1, -4], Said::Unsat),
        (THREE, &[-1, -4], Said::Sat),
        (THREE, &[-1, -4, -7], Said::Unsat),
    ]
}

// Clauses that are added, assumptions, the limit of conflicts, and what must be said after how many conflicts. The
// added clauses have the numbers behind those before, whatever was learned between.
type Step = (&'static [i64], &'static [i64], u64, Said, u64);

fn steps() -> &'static [Step] {
    &[
        (WITH_3, &[-3], 0, Said::Spent, 0),
        (&[], &[-3], 1, Said::Unsat, 1),
        // what was learned refutes it now without a conflict
        (&[], &[-3], 0, Said::Unsat, 0),
        (&[], &[3, 1], 0, Said::Sat, 0),
        (&[], &[-1, 3], 0, Said::Sat, 0),
        (&[-3, 4, 0], &[3], 0, Said::Sat, 0),
        (&[-4, 0], &[3], 0, Said::Unsat, 0),
        (&[5, -5, 0], &[], NO_LIMIT, Said::Unsat, 0),
        (&[1, 0], &[1], 0, Said::Unsat, 0),
    ]
}

// The same with assumptions that `solve` does not take: opposites, and variables 0 and 2^63, which no solver holds; between
// them some that it takes.
fn steps_under_any() -> &'static [Step] {
    &[
        (&[1, 2, 0], &[1, -1], 0, Said::Unsat, 0),
        (&[], &[-5, 1, 5], 0, Said::Unsat, 0),
        (&[], &[1, -2, 4, 2], 0, Said::Unsat, 0),
        (&[], &[4, 1, -2], 0, Said::Sat, 0),
        (&[], &[0], NO_LIMIT, Said::Memory, 0),
        (&[], &[1, -1, 0], NO_LIMIT, Said::Memory, 0),
        (&[], &[1, i64::MIN], NO_LIMIT, Said::Memory, 0),
        (&[], &[-2, -1], 0, Said::Unsat, 0),
        (&[], &[-1], 0, Said::Sat, 0),
    ]
}

fn is_step_right(session: &mut Session, step: &Step) -> Result<bool, AllocError> {
    let (added, assumed, limit, wanted, conflicts) = step;
    session.add(added)?;
    let said = session.ask(assumed, *limit)?;
    Ok(said == *wanted && session.conflicts() == *conflicts)
}

fn are_steps_right(session: &mut Session, steps: &[Step]) -> Result<bool, AllocError> {
    for step in steps {
        if !is_step_right(session, step)? {
            return Ok(false);
        }
    }
    Ok(true)
}

fn positive(var: u64) -> Lit {
    Lit {
        var,
        positive: true,
    }
}

// Whether variables 0 and 2^63 are refused, and 2^63 - 1 is not.
fn refuses_others(session: &mut Session) -> Result<bool, AllocError> {
    let refused = [
        session.refuses(positive(0))?,
        session.refuses(positive((1 << 63) - 1))?,
        session.refuses(positive(1 << 63))?,
    ];
    Ok(refused == [true, false, true])
}

/// What a new solver is tried on.
#[derive(Clone, Copy)]
enum Case {
    /// A question, asked again under another limit.
    Question(&'static Question),
    /// A question of which the core is wanted.
    Core(&'static Core),
    /// A question, asked twice.
    Row(&'static Row),
    /// The clauses of the square, added in this order.
    Order([usize; 4]),
    /// Clauses and questions, one after another.
    Steps(&'static [Step]),
    /// Clauses of numbers that are not held.
    Numbers,
}

// The clauses that the solver is made with.
fn clauses_of(case: Case) -> &'static [i64] {
    match case {
        Case::Question(question) => question.0,
        Case::Core(row) => row.0,
        Case::Row(row) => row.0,
        Case::Order(_) | Case::Steps(_) => &[],
        Case::Numbers => SQUARE,
    }
}

fn is_right_on(session: &mut Session, way: Way, case: Case) -> Result<bool, AllocError> {
    match case {
        Case::Question(question) => are_answers(session, way, question),
        Case::Core(row) => is_refused_by(session, row.1, row.2),
        Case::Row(row) => says_again(session, row.1, row.2),
        Case::Order(order) => is_refuted_after(session, order),
        Case::Steps(steps) => are_steps_right(session, steps),
        Case::Numbers => refuses_others(session),
    }
}

fn is_right_by(alloc: Global, way: Way, case: Case) -> Result<bool, AllocError> {
    let mut session = Session::new(alloc, way, clauses_of(case))?;
    let is_right = is_right_on(&mut session, way, case);
    drop(session);
    is_right
}

// Whether each of these calls answers as it must.
fn is_case_right(alloc: Global, ways: &[Way], case: Case) -> Result<bool, AllocError> {
    for way in ways {
        if !is_right_by(alloc, *way, case)? {
            return Ok(false);
        }
    }
    Ok(true)
}

// The place of the first question that is answered otherwise, from 0.
fn wrong_question(alloc: Global) -> Result<Option<usize>, AllocError> {
    for (k, question) in questions().iter().enumerate() {
        if !is_case_right(alloc, &WAYS, Case::Question(question))? {
            return Ok(Some(k));
        }
    }
    Ok(None)
}

// The same of the cores, which two of the calls tell.
fn wrong_core(alloc: Global) -> Result<Option<usize>, AllocError> {
    for (k, row) in cores().iter().enumerate() {
        if !is_case_right(alloc, &[Way::Solve, Way::Ask], Case::Core(row))? {
            return Ok(Some(k));
        }
    }
    Ok(None)
}

// The same of rows that are asked twice by these calls.
fn wrong_row(
    alloc: Global,
    ways: &[Way],
    rows: &'static [Row],
) -> Result<Option<usize>, AllocError> {
    for (k, row) in rows.iter().enumerate() {
        if !is_case_right(alloc, ways, Case::Row(row))? {
            return Ok(Some(k));
        }
    }
    Ok(None)
}

// The first wrong row of each table.
fn wrong_rows(alloc: Global) -> Result<[Option<usize>; 5], AllocError> {
    Ok([
        wrong_question(alloc)?,
        wrong_core(alloc)?,
        wrong_row(alloc, &WAYS, special_rows())?,
        wrong_row(alloc, &[Way::Refute], unit_rows())?,
        wrong_row(alloc, &WAYS, pigeon_rows())?,
    ])
}

#[test]
fn answers(rt: HostRuntime) -> Result<(), Fail> {
    assert_eq!(rt; wrong_rows(rt.alloc())?, [None; 5]);
    Ok(())
}

// In how many orders of its clauses the square is refuted so; nothing where it is not in one of them.
fn refuted_orders(alloc: Global) -> Result<Option<u64>, AllocError> {
    let mut count = 0u64;
    for code in 0..256usize {
        let order = places_of(code);
        if is_order(order) {
            if !is_case_right(alloc, &WAYS, Case::Order(order))? {
                return Ok(None);
            }
            count = count.saturating_add(1);
        }
    }
    Ok(Some(count))
}

#[test]
fn the_square_in_each_order(rt: HostRuntime) -> Result<(), Fail> {
    assert!(rt; refuted_orders(rt.alloc())? == Some(24));
    Ok(())
}

// Whether the steps are answered as they must be by each call, those under any assumptions by `ask`, and numbers that are not
// held are refused.
fn are_right(alloc: Global) -> Result<[bool; 3], AllocError> {
    Ok([
        is_case_right(alloc, &WAYS, Case::Steps(steps()))?,
        is_case_right(alloc, &[Way::Ask], Case::Steps(steps_under_any()))?,
        is_case_right(alloc, &[Way::Solve], Case::Numbers)?,
    ])
}

#[test]
fn steps_and_numbers(rt: HostRuntime) -> Result<(), Fail> {
    assert!(rt; are_right(rt.alloc())? == [true; 3]);
    Ok(())
}
