//! The parts of the checks, each called by itself on the wall of a latch that rises.

use crate::claims::{FIRST, OUTSIDE, list_of};
use crate::tests::{OF_WALL, RISEN, RISES};
use circuit::Circuit;
use cnf::Clause;
use cnf_unroll::ClauseSet;
use entry::{
    EntryEnd, Judge, Kind, Listed, User, first_bad_use, first_baseless, holds_initial, used,
};
use std::alloc::{AllocError, Global};
use std::test::Fail;

// Whether a judge ends with this line, and not before it.
fn ends_with(judge: &mut Judge, line: &str) -> bool {
    !judge.is_finished() && judge.step(line.as_bytes()).is_ok() && judge.is_finished()
}

// Whether the clause has this proof, and is not proved without a line.
fn clause_ends_with(
    alloc: Global,
    c: &Circuit,
    judge: &mut Judge,
    clause: &Clause,
    line: &str,
) -> Result<bool, AllocError> {
    judge.begin(alloc, c, clause)?;
    Ok(judge.proof_fault(&[])?.is_some() && ends_with(judge, line))
}

fn each_ends_with(
    alloc: Global,
    c: &Circuit,
    judge: &mut Judge,
    set: &ClauseSet,
    line: &str,
) -> Result<bool, AllocError> {
    for clause in set.as_slice() {
        if !clause_ends_with(alloc, c, judge, clause, line)? {
            return Ok(false);
        }
    }
    Ok(true)
}

// A judge that went to an entry without uses.
fn judge_of(alloc: Global, c: &Circuit, set: &ClauseSet) -> Result<Judge, AllocError> {
    let mut judge = Judge::new(alloc, c)?;
    match judge.enter(alloc, c, &[], &[], set) {
        Ok(_) => Ok(judge),
        Err(refused) => {
            drop(judge);
            Err(refused)
        }
    }
}

// Whether the clauses of the set have this proof, each by itself, and are not all proved without a line.
fn clauses_end_with(
    alloc: Global,
    c: &Circuit,
    set: &ClauseSet,
    line: &str,
) -> Result<bool, AllocError> {
    let mut judge = judge_of(alloc, c, set)?;
    let ends = each_ends_with(alloc, c, &mut judge, set, line);
    drop(judge);
    ends
}

// A judge of the refutation over the first entry, where there is one, and a property.
fn refuting(alloc: Global, c: &Circuit, list: &[Listed]) -> Result<Judge, AllocError> {
    if list.is_empty() || c.property_count() == 0 {
        return Err(AllocError);
    }
    let lent = used(alloc, list, &[FIRST])?;
    Judge::refutation(alloc, c, 0, lent.as_slice())
}

// Whether the refutation over the first entry ends with this line.
fn refutation_ends_with(
    alloc: Global,
    c: &Circuit,
    list: &[Listed],
    line: &str,
) -> Result<bool, AllocError> {
    let mut judge = refuting(alloc, c, list)?;
    let ends = ends_with(&mut judge, line);
    drop(judge);
    Ok(ends)
}

// The latch begins with 0, so no clause of the entry holds an initial literal.
fn is_wall_alone(c: &Circuit, entry: &Listed) -> bool {
    first_baseless(c, Kind::Reach, entry.set.as_slice()) == Some(0)
        && first_baseless(c, Kind::Wall, entry.set.as_slice()) == None
        && !entry
            .set
            .as_slice()
            .iter()
            .any(|clause| holds_initial(c, clause))
}

fn may_be_used(list: &[Listed]) -> bool {
    first_bad_use(User::Entry(Kind::Wall), list, &[OUTSIDE]) == None
        && first_bad_use(User::Entry(Kind::Reach), list, &[FIRST]) == Some(0)
        && first_bad_use(User::Refutation, list, &[FIRST]) == None
}

fn proofs_agree(alloc: Global, c: &Circuit, list: &[Listed]) -> Result<bool, AllocError> {
    match list.first() {
        Some(entry) => Ok(
            is_wall_alone(c, entry)
                && clauses_end_with(alloc, c, &entry.set, "6 0 1 3 5 0")?
                && refutation_ends_with(alloc, c, list, OF_WALL)?,
        ),
        None => Ok(false),
    }
}

fn parts_agree(alloc: Global, c: &Circuit) -> Result<bool, EntryEnd> {
    let list = list_of(alloc, c, &[RISEN])?;
    Ok(may_be_used(list.as_slice()) && proofs_agree(alloc, c, list.as_slice())?)
}

fn parts_of(alloc: Global, text: &str) -> Result<bool, Fail> {
    let model = aiger_ascii::read(alloc, text.as_bytes())?;
    let agree = parts_agree(alloc, model.circuit());
    drop(model);
    Ok(agree?)
}

#[test]
fn parts_of_a_wall(rt: HostRuntime) -> Result<(), Fail> {
    assert!(rt; parts_of(rt.alloc(), RISES)?);
    Ok(())
}
