//! Questions whose answers a search through all values gives. Each table and each search is in a function without a
//! contract, and a solver is lent to what asks it more than once: so each function proves in seconds.
use crate::drawing::{Drawn, draw_question};
use crate::judging::{Said, is_right};
use crate::session::{FAR, NO_LIMIT, Session, WAYS, Way};
use std::alloc::{AllocError, Global};
use std::test::*;

// What is said of a drawn question: at its first clauses, without assumptions; at all its clauses under its
// assumptions, with no conflict to spend and then with no limit; and at all its clauses without assumptions.
fn ask_parts(session: &mut Session, drawn: &Drawn) -> Result<[Said; 4], AllocError> {
    let first = session.ask(&[], NO_LIMIT)?;
    session.add(drawn.second.as_slice())?;
    let limited = session.ask(drawn.assumed.as_slice(), 0)?;
    let assumed = session.ask(drawn.assumed.as_slice(), NO_LIMIT)?;
    let free = session.ask(&[], NO_LIMIT)?;
    Ok([first, limited, assumed, free])
}

fn ask_drawn(alloc: Global, way: Way, seed: u64) -> Result<[Said; 4], AllocError> {
    let drawn = draw_question(alloc, seed)?;
    let mut session = Session::new(alloc, way, drawn.first.as_slice())?;
    let said = ask_parts(&mut session, &drawn);
    drop(session);
    said
}

// Whether each answer to a drawn question is right.
fn are_right(said: [Said; 4]) -> bool {
    let [first, limited, assumed, free] = said;
    is_right(first, false)
        && is_right(limited, true)
        && is_right(assumed, false)
        && is_right(free, false)
}

fn are_right_by(alloc: Global, way: Way, seed: u64) -> Result<bool, AllocError> {
    Ok(are_right(ask_drawn(alloc, way, seed)?))
}

#[test]
fn drawn_questions(rt: HostRuntime) -> Result<(), Fail> {
    for seed in 0..200u64 {
        for way in WAYS {
            assert!(rt;
                are_right_by(rt.alloc(), way, seed)?,
                "{} of {seed}",
                way.name()
            );
        }
    }
    Ok(())
}

/// How many drawn questions have a model under their assumptions, how many have none, and how many need a conflict.
#[derive(Clone, Copy)]
struct Kinds {
    sat: u64,
    unsat: u64,
    spent: u64,
}

fn kinds_of_drawn(alloc: Global) -> Result<Kinds, AllocError> {
    let mut kinds = Kinds {
        sat: 0,
        unsat: 0,
        spent: 0,
    };
    for seed in 0..200u64 {
        count_kinds(ask_drawn(alloc, Way::Solve, seed)?, &mut kinds);
    }
    Ok(kinds)
}

fn count_kinds(said: [Said; 4], kinds: &mut Kinds) {
    let [_first, limited, assumed, _free] = said;
    kinds.sat = kinds.sat.saturating_add(u64::from(assumed == Said::Sat));
    kinds.unsat = kinds
        .unsat
        .saturating_add(u64::from(assumed == Said::Unsat));
    kinds.spent = kinds
        .spent
        .saturating_add(u64::from(limited == Said::Spent));
}

#[test]
fn drawn_questions_are_of_each_kind(rt: HostRuntime) -> Result<(), Fail> {
    let kinds = kinds_of_drawn(rt.alloc())?;
    assert!(rt;
        kinds.sat >= 50 && kinds.unsat >= 50 && kinds.spent >= 20,
        "{} {} {}",
        kinds.sat,
        kinds.unsat,
        kinds.spent
    );
    Ok(())
}

// What is said of clauses with a variable that no list of values has a place for: where the variable must be true,
// where no model has to be written, and where the variable must be true again, after it could be asked otherwise.
fn ask_far(session: &mut Session) -> Result<[Said; 4], AllocError> {
    let needed = session.ask(&[-1], NO_LIMIT)?;
    let refused = session.ask(&[-1, -FAR], NO_LIMIT)?;
    let again = session.ask(&[-1], NO_LIMIT)?;
    session.add(&[-FAR, 0])?;
    let added = session.ask(&[-1], NO_LIMIT)?;
    Ok([needed, refused, again, added])
}

fn ask_far_by(alloc: Global, way: Way) -> Result<[Said; 4], AllocError> {
    let mut session = Session::new(alloc, way, &[1, FAR, 0])?;
    let said = ask_far(&mut session);
    drop(session);
    said
}

// What is said where there is a model is given: `solve` has to write it, the other calls do not.
fn far_is_answered(alloc: Global, way: Way, with_model: Said) -> Result<bool, AllocError> {
    let [needed, refused, again, added] = ask_far_by(alloc, way)?;
    Ok(
        needed == with_model
            && refused == Said::Unsat
            && again == with_model
            && added == Said::Unsat,
    )
}

#[test]
fn a_variable_without_room(rt: HostRuntime) -> Result<(), Fail> {
    assert!(rt; far_is_answered(rt.alloc(), Way::Solve, Said::Memory)?);
    assert!(rt; far_is_answered(rt.alloc(), Way::Ask, Said::Sat)?);
    assert!(rt; far_is_answered(rt.alloc(), Way::Refute, Said::Sat)?);
    Ok(())
}
