//! Tables of entries and refutations, with what must be said of each.

use crate::claims::{Claim, FIRST, INSIDE, OUTSIDE, SECOND, entry_answer, refutation_is};
use entry::{EntryEnd, EntryFault, Kind, RefutationFault, Use};
use proof_semantics::LratFault;
use std::alloc::Global;
use std::test::Fail;

// The latch stays at 0; the property is that it is 1.
pub(crate) const STUCK: &str = "aag 1 0 1 0 0 0 0 1 0\n2 2\n1\n2\n";

// The latch rises, from 0 to 1; the property is that it is 0.
pub(crate) const RISES: &str = "aag 1 0 1 0 0 0 0 1 0\n2 1\n1\n3\n";

// The latch changes at each step; the property is never so.
const NEVER: &str = "aag 1 0 1 0 0 0 0 1 0\n2 3\n1\n0\n";

// The latch keeps what it has under the constraint that it is 0; the property is that it is 1.
const KEPT_AT_0: &str = "aag 1 0 1 0 0 0 1 1 0\n2 2 2\n3\n1\n2\n";

// The latch is 1 while it was and the input is; the property is that it is 1.
const FALLS: &str = "aag 3 1 1 0 1 0 0 1 0\n2\n4 6\n1\n4\n6 4 2\n";

const AT_0: Claim = (Kind::Reach, &[&[3]], &[]);

pub(crate) const RISEN: Claim = (Kind::Wall, &[&[2]], &[]);

const NOT_RISEN: Claim = (Kind::Wall, &[&[3]], &[OUTSIDE]);

// A circuit, a list of entries, the entry behind them with a line of proof for each clause, and its fault.
type EntryRow = (
    &'static str,
    &'static [Claim],
    Claim,
    &'static [&'static str],
    Option<EntryFault>,
);

const ENTRIES: [EntryRow; 10] = [
    (STUCK, &[], AT_0, &["6 0 4 2 5 0"], None),
    (
        FALLS,
        &[],
        (Kind::Reach, &[&[5]], &[]),
        &["9 0 8 5 2 7 0"],
        None,
    ),
    (RISES, &[], RISEN, &["6 0 1 3 5 0"], None),
    (
        RISES,
        &[],
        (Kind::Wall, &[&[3]], &[]),
        &["6 0 1 3 5 0"],
        Some(EntryFault::Proof(0, 0, LratFault::NoConflict)),
    ),
    (
        RISES,
        &[RISEN],
        (Kind::Reach, &[&[2]], &[FIRST]),
        &[""],
        Some(EntryFault::BadUse(0)),
    ),
    (RISES, &[RISEN], NOT_RISEN, &["13 0 1 3 10 9 8 0"], None),
    (
        RISES,
        &[RISEN],
        (Kind::Wall, &[&[2]], &[INSIDE]),
        &["13 0 1 3 12 0"],
        None,
    ),
    (
        RISES,
        &[RISEN],
        (Kind::Wall, &[&[3]], &[FIRST]),
        &["13 0 1 3 10 9 8 0"],
        Some(EntryFault::Proof(0, 0, LratFault::NotUnit(9))),
    ),
    (
        STUCK,
        &[],
        (Kind::Reach, &[&[3], &[2]], &[]),
        &["6 0 4 2 5 0", ""],
        Some(EntryFault::Base(1)),
    ),
    (
        FALLS,
        &[],
        (Kind::Reach, &[&[5, 2]], &[]),
        &[""],
        Some(EntryFault::NotLatch(2)),
    ),
];

// Whether this is what is said of an entry of the circuit of this text.
fn entry_is(
    alloc: Global,
    text: &str,
    claims: &[Claim],
    claim: &Claim,
    lines: &[&str],
    fault: Option<EntryFault>,
) -> Result<bool, Fail> {
    let model = aiger_ascii::read(alloc, text.as_bytes())?;
    let wanted = match fault {
        Some(fault) => Err(EntryEnd::Fault(fault)),
        None => Ok(()),
    };
    let answer = entry_answer(alloc, model.circuit(), claims, claim, lines);
    drop(model);
    Ok(answer == wanted)
}

// The place of the first row that is judged otherwise.
fn other_entry(alloc: Global, rows: &[EntryRow]) -> Result<Option<usize>, Fail> {
    for (k, row) in rows.iter().enumerate() {
        let (text, claims, claim, lines, fault) = row;
        if !entry_is(alloc, text, claims, claim, lines, *fault)? {
            return Ok(Some(k));
        }
    }
    Ok(None)
}

#[test]
fn entries(rt: HostRuntime) -> Result<(), Fail> {
    let other = other_entry(rt.alloc(), &ENTRIES);
    assert_eq!(rt; other?, None);
    Ok(())
}

/// The line of a refutation over that wall.
pub(crate) const OF_WALL: &str = "11 0 1 3 4 9 10 5 0";

// A circuit, a list of entries, the uses and the line of a refutation over them, and its fault.
type RefutationRow = (
    &'static str,
    &'static [Claim],
    &'static [Use],
    &'static str,
    Option<RefutationFault>,
);

const REFUTATIONS: [RefutationRow; 15] = [
    (STUCK, &[AT_0], &[FIRST], "7 0 4 5 0", None),
    (
        FALLS,
        &[(Kind::Reach, &[&[5]], &[])],
        &[FIRST],
        "10 0 7 8 0",
        None,
    ),
    (RISES, &[RISEN], &[FIRST], OF_WALL, None),
    (RISES, &[RISEN, NOT_RISEN], &[FIRST], OF_WALL, None),
    (
        RISES,
        &[RISEN, NOT_RISEN],
        &[SECOND],
        OF_WALL,
        Some(RefutationFault::BadUse(1)),
    ),
    (
        RISES,
        &[RISEN],
        &[OUTSIDE],
        OF_WALL,
        Some(RefutationFault::BadUse(0)),
    ),
    (KEPT_AT_0, &[], &[], "6 0 2 5 0", None),
    (NEVER, &[], &[], "5 0 1 4 0", None),
    (
        NEVER,
        &[],
        &[],
        "",
        Some(RefutationFault::Proof(0, LratFault::Unfinished)),
    ),
    (
        NEVER,
        &[],
        &[],
        "5 0 -1 4 0",
        Some(RefutationFault::Proof(0, LratFault::RatRefused)),
    ),
    (
        NEVER,
        &[],
        &[],
        "4 0 1 4 0",
        Some(RefutationFault::Proof(0, LratFault::IdOrder)),
    ),
    (
        NEVER,
        &[],
        &[],
        "5 0 2 1 4 0",
        Some(RefutationFault::Proof(0, LratFault::NotUnit(2))),
    ),
    (
        NEVER,
        &[],
        &[],
        "5 0 1 9 0",
        Some(RefutationFault::Proof(0, LratFault::NoClause(9))),
    ),
    (
        NEVER,
        &[],
        &[],
        "5 0 1 0",
        Some(RefutationFault::Proof(0, LratFault::NoConflict)),
    ),
    (
        NEVER,
        &[],
        &[],
        "5 x 0",
        Some(RefutationFault::Proof(0, LratFault::BadLine)),
    ),
];

// Whether this is the fault of a refutation of the property of the circuit of this text.
fn is_refuted_so(
    alloc: Global,
    text: &str,
    claims: &[Claim],
    uses: &[Use],
    line: &str,
    fault: Option<RefutationFault>,
) -> Result<bool, Fail> {
    let model = aiger_ascii::read(alloc, text.as_bytes())?;
    let is_so = refutation_is(alloc, model.circuit(), claims, uses, line, fault);
    drop(model);
    Ok(is_so?)
}

// The place of the first row that is refuted otherwise.
fn other_refutation(alloc: Global, rows: &[RefutationRow]) -> Result<Option<usize>, Fail> {
    for (k, row) in rows.iter().enumerate() {
        let (text, claims, uses, line, fault) = row;
        if !is_refuted_so(alloc, text, claims, uses, line, *fault)? {
            return Ok(Some(k));
        }
    }
    Ok(None)
}

#[test]
fn refutations(rt: HostRuntime) -> Result<(), Fail> {
    let other = other_refutation(rt.alloc(), &REFUTATIONS);
    assert_eq!(rt; other?, None);
    Ok(())
}
