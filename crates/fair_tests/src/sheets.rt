//! Runs of `solve` for all properties, and of `check`, `wave` and other commands over sheets.

use crate::certificates::{RISES, WALL};
use crate::runs::{Ending, Row, first_taken, first_wrong, run_words, run_words_alone};
use crate::tests::{COUNTER, CYCLE, STUCK, TOGGLE, TWO_POSITIONS};
use std::alloc::{AllocError, Global};
use std::sync::Wait;
use std::test::Fail;
use std::thread::Threads;

// The latch begins with 0 and changes at each step; it is to be 1, and a literal that is never true is to be.
pub(crate) const TWO: &str = "aag 1 0 1 0 0 0 0 2 0\n2 3\n1\n1\n2\n0\n";

const NO_PROPERTY: &str = "aag 1 0 1 0 0\n2 3\n";

// Two latches: one rises, and is to be 0 again and again; the other stays at 0, and is to be 1.
pub(crate) const APART: &str = "aag 2 0 2 0 0 0 0 2 0\n2 1\n4 4\n1\n1\n3\n4\n";

pub(crate) const SHEET: &str =
    "all 2\nversion 2\nlasso j0\n0\n\n\n.\nholds j1\nrefute 0 1\n\n5 0 1 4 0\nend\n";

const BOTH_LASSOS: &str = "all 2\nversion 2\nlasso j0\n0\n\n\n.\nlasso j1\n0\n\n\n.\nend\n";

pub(crate) const WITH_ENTRY: &str =
    "all 2\nversion 2\nwall 1 0\n\n2 0\nproof 1\n8 0 1 3 7 0\nholds j0\nrefute 1 1\n0\n13 0 1 3 6 11 12 7 0\nopen j1\nend\n";

const CHECK: &str = "fairlive check m a";

const ALL: &str = "fairlive solve m --all";

const WAVE: &str = "fairlive wave m a";

// Good sheets, and faults of a block.
const BLOCKS: [Row; 7] = [
    (
        CHECK,
        TWO,
        SHEET,
        "accepted sheet lassos 1 holds 1 unknown 0 entries 0\n",
        0,
    ),
    (CHECK, TWO, BOTH_LASSOS, "refused block 1 no fair loop\n", 1),
    // Each fault of a block, with its number.
    (
        CHECK,
        TWO,
        "all 2\nversion 2\nlasso j0\n0\n0\n\n.\n",
        "refused block 0 width item 1\n",
        1,
    ),
    (
        CHECK,
        TWO,
        "all 2\nversion 2\nlasso j0\n1\n\n\n.\n",
        "refused block 0 initial latch 0\n",
        1,
    ),
    (
        CHECK,
        TWO,
        "all 2\nversion 2\nopen j0\nholds j1\nrefute 1 1\n0\n",
        "refused block 1 use 0\n",
        1,
    ),
    (
        CHECK,
        TWO,
        "all 2\nversion 2\nopen j0\nholds j1\nrefute 0 1\n\n5 0 1 0\n",
        "refused block 1 line 0 no conflict\n",
        1,
    ),
    (
        CHECK,
        TWO,
        "all 2\nversion 2\nopen j0\nholds j1\nrefute 0 0\n\n",
        "refused block 1 line 0 unfinished\n",
        1,
    ),
];

fn blocks() -> &'static [Row] {
    &BLOCKS
}

const LINES: [Row; 8] = [
    // The number of properties, a block that is missing, blocks out of order, and lines behind the end.
    (CHECK, TWO, "all 1\n", "refused property 1\n", 1),
    (CHECK, TWO, "all two\n", "refused shape line 1\n", 1),
    (
        CHECK,
        TWO,
        "all 2\nversion 2\nopen j0\nend\n",
        "refused shape line 4\n",
        1,
    ),
    (
        CHECK,
        TWO,
        "all 2\nversion 2\nopen j1\nopen j0\nend\n",
        "refused shape line 3\n",
        1,
    ),
    (
        CHECK,
        TWO,
        "all 2\nversion 2\nopen j0\nopen j1\nend\nend\n",
        "refused trailing line 6\n",
        1,
    ),
    (
        CHECK,
        APART,
        WITH_ENTRY,
        "accepted sheet lassos 0 holds 1 unknown 1 entries 1\n",
        0,
    ),
    (
        CHECK,
        APART,
        "all 2\nversion 2\nwall 1 0\n\n2 0\nproof 1\n8 0 1 3 0\n",
        "refused entry 0 clause 0 proof line 0 no conflict\n",
        1,
    ),
    (CHECK, CYCLE, SHEET, "model refused cycle 2\n", 3),
];

fn lines() -> &'static [Row] {
    &LINES
}

const SOLVED: [Row; 10] = [
    // What is printed of all properties.
    (ALL, NO_PROPERTY, "", "all 0\nversion 2\nend\n", 0),
    (
        CHECK,
        NO_PROPERTY,
        "all 0\nversion 2\nend\n",
        "accepted sheet lassos 0 holds 0 unknown 0 entries 0\n",
        0,
    ),
    (
        "fairlive solve m --all --skeletons 0",
        STUCK,
        "",
        "all 1\nversion 2\nopen j0\nend\n",
        2,
    ),
    (
        CHECK,
        STUCK,
        "all 1\nversion 2\nopen j0\nend\n",
        "accepted sheet lassos 0 holds 0 unknown 1 entries 0\n",
        0,
    ),
    (
        "fairlive solve m --all --property 7",
        TOGGLE,
        "",
        "all 1\nversion 2\nlasso j0\n0\n\n\n.\nend\n",
        0,
    ),
    (ALL, CYCLE, "", "model refused cycle 2\n", 3),
    // A search of all properties goes on from a sheet, whose entry decides the first without a step, and one of one property; or
    // from a certificate.
    (
        "fairlive solve m --all --steps 0 --resume a",
        APART,
        WITH_ENTRY,
        "all 2\nversion 2\nwall 1 0\n\n2 0\nproof 1\n8 0 1 3 7 0\nholds j0\nrefute 1 1\n0\n13 0 1 6 3 7 11 12 0\nopen j1\nend\n",
        2,
    ),
    (
        "fairlive solve m --property 1 --steps 0 --resume a",
        APART,
        WITH_ENTRY,
        "2\nj1\nc entries 1 of 10001\nc worker 0 conflicts 0 of 1000000 steps 0 of 0\n.\n",
        2,
    ),
    (
        "fairlive solve m --all --resume a",
        TWO,
        BOTH_LASSOS,
        "refused block 1 no fair loop\n",
        1,
    ),
    (
        "fairlive solve m --all --resume a",
        TWO,
        TWO_POSITIONS,
        "refused unknown status\n",
        1,
    ),
];

fn solved() -> &'static [Row] {
    &SOLVED
}

const OTHERS: [Row; 8] = [
    // The waves of a block that has none, or of a sheet that is refused.
    (
        "fairlive wave m a --property 1",
        TWO,
        SHEET,
        "refused unknown status\n",
        1,
    ),
    (
        "fairlive wave m a --property 2",
        TWO,
        SHEET,
        "refused property 2\n",
        1,
    ),
    (WAVE, TWO, BOTH_LASSOS, "refused block 1 no fair loop\n", 1),
    (
        WAVE,
        STUCK,
        "all 1\nversion 2\nopen j0\nend\n",
        "refused unknown status\n",
        1,
    ),
    // Other commands know no sheets.
    (
        "fairlive convert m a",
        TWO,
        SHEET,
        "refused unknown status\n",
        1,
    ),
    (
        "fairlive trim m a",
        TWO,
        SHEET,
        "refused unknown status\n",
        1,
    ),
    (
        "fairlive export m a 0 0",
        TWO,
        SHEET,
        "refused unknown status\n",
        1,
    ),
    (WAVE, RISES, WALL, "refused unknown status\n", 1),
];

fn others() -> &'static [Row] {
    &OTHERS
}

// The first wrong row of each table.
fn wrong_rows<R: Threads + Wait + Sync>(
    rt: &R,
    alloc: Global,
) -> Result<[Option<usize>; 4], AllocError> {
    Ok([
        first_wrong(rt, alloc, blocks())?,
        first_wrong(rt, alloc, lines())?,
        first_wrong(rt, alloc, solved())?,
        first_wrong(rt, alloc, others())?,
    ])
}

/// A model, words, how the line begins that `check` writes of the sheet that they print, and the number that their run must end
/// with.
type Found = (&'static str, &'static str, &'static str, u8);

// The property of the counter twice, the second time with a literal that is never true.
const COUNTERS: &str =
    "aag 6 0 2 0 4 0 0 2 0\n2 3\n4 11\n1\n2\n12\n12\n0\n6 5 2\n8 4 3\n10 9 7\n12 4 2\n";

const FOUND: [Found; 10] = [
    (
        TWO,
        ALL,
        "accepted sheet lassos 1 holds 1 unknown 0 entries ",
        0,
    ),
    (
        TWO,
        "fairlive solve m --all --workers 2",
        "accepted sheet lassos 1 holds 1 unknown 0 entries ",
        0,
    ),
    (
        APART,
        ALL,
        "accepted sheet lassos 0 holds 2 unknown 0 entries ",
        0,
    ),
    (
        APART,
        "fairlive solve m --all --workers 4",
        "accepted sheet lassos 0 holds 2 unknown 0 entries ",
        0,
    ),
    (
        TWO,
        "fairlive solve m --all --workers 2 --lassos 1 --depth 0",
        "accepted sheet lassos 1 holds 1 unknown 0 entries ",
        0,
    ),
    (
        APART,
        "fairlive solve m --all --skeletons 1",
        "accepted sheet lassos 0 holds 1 unknown 1 entries 1\n",
        2,
    ),
    (
        APART,
        "fairlive solve m --all --steps 0",
        "accepted sheet lassos 0 holds 1 unknown 1 entries 1\n",
        2,
    ),
    (
        COUNTERS,
        ALL,
        "accepted sheet lassos 1 holds 1 unknown 0 entries ",
        0,
    ),
    (
        COUNTER,
        "fairlive solve m --all --workers 3",
        "accepted sheet lassos 1 holds 0 unknown 0 entries ",
        0,
    ),
    (
        STUCK,
        ALL,
        "accepted sheet lassos 0 holds 1 unknown 0 entries ",
        0,
    ),
];

fn found() -> &'static [Found] {
    &FOUND
}

// Whether the sheet that a run printed is accepted, with this front of what is written of it, and says by its number whether a
// block is open.
fn is_accepted<R: Threads + Wait + Sync>(
    rt: &R,
    alloc: Global,
    row: &Found,
    ran: &Ending,
) -> Result<bool, AllocError> {
    let is_so = ran.status.number() == row.3;
    match str::from_utf8(ran.text.as_slice()) {
        Ok(sheet) => Ok(is_judged_so(rt, alloc, row, sheet)? && is_so),
        Err(_) => Ok(false),
    }
}

// Whether the sheet is accepted, with this front of what is written of it.
fn is_judged_so<R: Threads + Wait + Sync>(
    rt: &R,
    alloc: Global,
    row: &Found,
    sheet: &str,
) -> Result<bool, AllocError> {
    let checked = run_words(rt, alloc, CHECK, row.0.as_bytes(), sheet, 1000, &[], &[])?;
    let is_so = checked.status.number() == 0
        && checked.text.as_slice().starts_with(row.2.as_bytes());
    drop(checked);
    Ok(is_so)
}

fn is_found_so<R: Threads + Wait + Sync>(
    rt: &R,
    alloc: Global,
    row: &Found,
) -> Result<bool, AllocError> {
    let ran = run_words(rt, alloc, row.1, row.0.as_bytes(), "", 1000, &[], &[])?;
    let is_so = is_accepted(rt, alloc, row, &ran);
    drop(ran);
    is_so
}

// The same of a run on one thread.
fn is_found_alone<R: Threads + Wait + Sync>(
    rt: &R,
    alloc: Global,
    row: &Found,
) -> Result<bool, AllocError> {
    let ran = run_words_alone(alloc, row.1, row.0.as_bytes(), "")?;
    let is_so = is_accepted(rt, alloc, row, &ran);
    drop(ran);
    is_so
}

// The place of the first row that is not found so, by threads or by one thread, from 0.
fn wrong_found<R: Threads + Wait + Sync>(
    rt: &R,
    alloc: Global,
) -> Result<Option<usize>, AllocError> {
    for (k, row) in found().iter().enumerate() {
        if !is_found_so(rt, alloc, row)? {
            return Ok(Some(k));
        }
        if !is_found_alone(rt, alloc, row)? {
            return Ok(Some(k));
        }
    }
    Ok(None)
}

const NONE: [&str; 4] = [
    "fairlive solve m --all --all",
    "fairlive solve m --all=true",
    "fairlive wave m a --property x",
    "fairlive wave m --property 0",
];

/// Sheets are judged, refused and shown as rows say; what is printed of all properties is accepted.
#[test]
fn sheets(rt: HostRuntime) -> Result<(), Fail> {
    assert_eq!(rt; wrong_rows(&rt, rt.alloc())?, [None; 4]);
    assert_eq!(rt; wrong_found(&rt, rt.alloc())?, None);
    assert_eq!(rt; first_taken(&rt, rt.alloc(), &NONE, TWO, SHEET)?, None);
    Ok(())
}
