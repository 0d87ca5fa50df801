//! Runs of `check` on certificates: tables of models and answers with the line that must be written.

use crate::runs::{ends_by, ends_so};
use crate::tests::{FREE_AT_0, STUCK, TOGGLE};
use std::alloc::{AllocError, Global};
use std::sync::Wait;
use std::test::Fail;
use std::thread::Threads;

// The latch begins with 0, and is 1 from the second position on; the property is that it is 0.
pub(crate) const RISES: &str = "aag 1 0 1 0 0 0 0 1 0\n2 1\n1\n3\n";

// The property is a literal that is never true.
const NEVER: &str = "aag 1 0 1 0 0 0 0 1 0\n2 3\n1\n0\n";

// The latch begins with 0, and stays so: its next value is its own and the input's.
const HELD: &str = "aag 3 1 1 0 1 0 0 1 0\n2\n4 6\n1\n4\n6 4 2\n";

// The latch begins with 1, and is 0 from the second position on.
const FALLS: &str = "aag 1 0 1 0 0 0 0 1 0\n2 0 1\n1\n3\n";

const REACH: &str =
    "0\nj0\nversion 1\nreach 1 0\n\n3 0\nproof 1\n6 0 4 2 5 0\nrefute 1 1\n0\n7 0 4 5 0\nend\n";

pub(crate) const WALL: &str =
    "0\nj0\nversion 1\nwall 1 0\n\n2 0\nproof 1\n6 0 1 3 5 0\nrefute 1 1\n0\n11 0 1 3 4 9 10 5 0\nend\n";

const REFUTED: &str = "0\nj0\nversion 1\nrefute 0 1\n\n5 0 1 4 0\nend\n";

pub(crate) const NAMED: &str =
    "0\nj0\nversion 2\nwall 1 0\n\n2 0\nproof 1\n6 0 1 3 5 0\nwall 1 1\n0-\n3 0\nproof 1\n13 0 1 3 10 9 8 0\nrefute 1 1\n0\n11 0 1 3 4 9 10 5 0\nend\n";

/// A model and an answer, and the line that must be written.
type Row = (&'static str, &'static str, &'static str);

const ENTRIES: [Row; 9] = [
    (STUCK, REACH, "accepted certificate j0 entries 1\n"),
    // By clause 2 the latch becomes 0 where it is 1.
    (
        TOGGLE,
        REACH,
        "refused entry 0 clause 0 proof line 0 not unit 2\n",
    ),
    (RISES, WALL, "accepted certificate j0 entries 1\n"),
    (
        RISES,
        "0\nj0\nversion 1\nwall 1 0\n\n3 0\nproof 1\n6 0 1 3 5 0\nrefute 1 1\n0\n11 0 1 3 4 9 10 5 0\nend\n",
        "refused entry 0 clause 0 proof line 0 no conflict\n",
    ),
    (
        FREE_AT_0,
        "0\nj0\nversion 1\nrefute 0 1\n\n6 0 2 5 0\nend\n",
        "accepted certificate j0 entries 0\n",
    ),
    (
        HELD,
        "0\nj0\nversion 1\nreach 1 0\n\n5 0\nproof 1\n9 0 8 5 2 7 0\nrefute 1 1\n0\n10 0 7 8 0\nend\n",
        "accepted certificate j0 entries 1\n",
    ),
    (
        RISES,
        "0\nj0\nversion 1\nwall 1 0\n\n2 0\nproof 1\n6 0 1 3 5 0\nreach 1 1\n0\n2 0\nproof 0\nrefute 1 1\n0\n11 0 1 3 4 9 10 5 0\nend\n",
        "refused entry 1 use 0\n",
    ),
    (NEVER, REFUTED, "accepted certificate j0 entries 0\n"),
    (
        NEVER,
        "0\nj0\nversion 1\nrefute 0 0\n\nend\n",
        "refused refutation line 0 unfinished\n",
    ),
];

fn entries() -> &'static [Row] {
    &ENTRIES
}

const FORMS: [Row; 11] = [
    // An entry without clauses, and one with a clause of no literal.
    (
        NEVER,
        "0\nj0\nversion 1\nwall 0 0\n\nreach 0 0\n\nreach 0 1\n1\nwall 0 3\n0 1 2\nrefute 0 1\n\n5 0 1 4 0\nend\n",
        "accepted certificate j0 entries 4\n",
    ),
    (
        NEVER,
        "0\nj0\nversion 1\nwall 1 0\n\n0\nproof 0\nrefute 1 1\n0\n9 0 1 4 0\nend\n",
        "accepted certificate j0 entries 1\n",
    ),
    // The literal of an input, and initial cubes without the clause's literals.
    (
        HELD,
        "0\nj0\nversion 1\nwall 1 0\n\n2 0\n",
        "refused entry 0 literal 2\n",
    ),
    (
        HELD,
        "0\nj0\nversion 1\nreach 1 0\n\n4 0\n",
        "refused entry 0 base 0\n",
    ),
    (
        FALLS,
        "0\nj0\nversion 1\nreach 1 0\n\n3 0\n",
        "refused entry 0 base 0\n",
    ),
    // Named sides.
    (RISES, NAMED, "accepted certificate j0 entries 2\n"),
    (
        RISES,
        "0\nj0\nversion 2\nwall 1 0\n\n2 0\nproof 1\n6 0 1 3 5 0\nwall 1 1\n0+\n2 0\nproof 1\n13 0 1 3 12 0\nrefute 1 1\n0\n11 0 1 3 4 9 10 5 0\nend\n",
        "accepted certificate j0 entries 2\n",
    ),
    (
        RISES,
        "0\nj0\nversion 2\nwall 1 0\n\n2 0\nproof 1\n6 0 1 3 5 0\nwall 1 1\n0\n3 0\nproof 1\n13 0 1 3 10 9 8 0\nrefute 1 1\n0\n11 0 1 3 4 9 10 5 0\nend\n",
        "refused entry 1 clause 0 proof line 0 not unit 9\n",
    ),
    (
        RISES,
        "0\nj0\nversion 1\nwall 1 0\n\n2 0\nproof 1\n6 0 1 3 5 0\nwall 1 1\n0-\n3 0\nproof 1\n13 0 1 3 10 9 8 0\nrefute 1 1\n0\n11 0 1 3 4 9 10 5 0\nend\n",
        "refused shape line 10\n",
    ),
    (
        RISES,
        "0\nj0\nversion 2\nwall 1 0\n\n2 0\nproof 1\n6 0 1 3 5 0\nwall 1 1\n0-\n3 0\nproof 1\n13 0 1 3 10 9 8 0\nrefute 1 1\n1\n11 0 1 3 4 9 10 5 0\nend\n",
        "refused refutation use 1\n",
    ),
    (
        NEVER,
        "0\nj0\nversion 2\nwall 0 0\n\nwall 0 1\n0-\nwall 0 2\n0 1-\nwall 0 2\n1 2\nrefute 0 1\n\n5 0 1 4 0\nend\n",
        "refused entry 3 use 1\n",
    ),
];

fn forms() -> &'static [Row] {
    &FORMS
}

const ENDS: [Row; 9] = [
    // Counts that are not those of the lines, and numbers that are too great.
    (
        RISES,
        "0\nj0\nversion 1\nwall 9000000000000000000 0\n\n",
        "refused shape line 6\n",
    ),
    (
        RISES,
        "0\nj0\nversion 1\nwall 9223372036854775808 0\n\n",
        "refused shape line 4\n",
    ),
    // The end.
    (
        NEVER,
        "c\nu\n0\nj0\nversion 1\nc\nrefute 0 1\nu\n\n5 0 1 4 0\nend",
        "accepted certificate j0 entries 0\n",
    ),
    (
        NEVER,
        "0\nj0\nversion 1\nrefute 0 1\n\n5 0 1 4 0\nend\nc\nu\n\n",
        "refused trailing line 10\n",
    ),
    (
        NEVER,
        "0\nj1\nversion 1\nrefute 0 1\n\n5 0 1 4 0\nend\n",
        "refused property 1\n",
    ),
    (
        NEVER,
        "0\nj0\nversion 3\nrefute 0 1\n\n5 0 1 4 0\nend\n",
        "refused shape line 3\n",
    ),
    (
        NEVER,
        "2\nj0\nversion 1\nrefute 0 1\n\n5 0 1 4 0\nend\n",
        "refused unknown status\n",
    ),
    (
        NEVER,
        "1\nj0\nversion 1\nrefute 0 1\n\n5 0 1 4 0\nend\n",
        "refused shape line 3\n",
    ),
    (NEVER, "c\nu\n0", "refused shape line 4\n"),
];

fn ends() -> &'static [Row] {
    &ENDS
}

/// The proof line of a refutation, and what must be written.
type ProofLine = (&'static str, &'static str);

const PROOF_LINES: [ProofLine; 8] = [
    ("5 0 1 4 0 0", "refused refutation line 0 bad line\n"),
    (
        "9223372036854775808 0 1 4 0",
        "refused refutation line 0 bad line\n",
    ),
    ("4 0 1 4 0", "refused refutation line 0 id order\n"),
    ("5 0 -1 4 0", "refused refutation line 0 rat\n"),
    ("5 0 1 9 0", "refused refutation line 0 no clause 9\n"),
    ("5 0 2 1 4 0", "refused refutation line 0 not unit 2\n"),
    ("5 0 1 0", "refused refutation line 0 no conflict\n"),
    ("5 -7 0 1 4 0", "refused refutation line 1 unfinished\n"),
];

// A certificate for a latch that rises, with all features, without the last line feed.
const BASE: &str = "0
j0
version 2
wall 3 0

2 0
2 2 0
3 2 0
proof 3
8 4 0 1 3 0
9 d 4 2 0
9 0 8 7 0
proof 3
9 4 0 1 3 0
10 d 0
10 0 9 8 0
proof 3
9 -4 0 8 0
10 d 1 2 3 0
10 0 7 8 0
reach 3 0

3 2 0
2 3 0
3 3 2 0
proof 3
9 4 0 7 0
10 d 7 0
10 0 9 8 0
proof 3
9 4 0 8 0
10 d 8 0
10 0 9 7 0
proof 3
10 4 0 7 0
11 d 7 8 0
11 0 10 9 0
wall 0 2
0+ 1
wall 3 3
0- 1 2
3 0
3 2 0
3 3 0
proof 3
36 4 0 1 3 0
37 d 2 28 0
37 0 36 31 14 16 20 21 0
proof 3
37 d 32 0
39 4 0 35 0
40 0 39 36 0
proof 3
37 4 0 1 3 0
39 d 35 0
40 0 37 31 14 16 20 21 0
refute 3 3
0 1 3
60 4 0 1 3 0
61 d 2 7 0
61 0 60 4 15 17 21 22 5 0
end";

/// The number of a line, counted from 1, what stands in its place, and what must be written.
type Edit = (usize, &'static str, &'static str);

// Each kind of fault is there in an entry and in the refutation.
const OF_LINES: [Edit; 13] = [
    (62, "end", "accepted certificate j0 entries 4\n"),
    (39, "0- 1", "accepted certificate j0 entries 4\n"),
    (4, "wall 03 0", "refused shape line 4\n"),
    (4, "wall 4 0", "refused shape line 9\n"),
    (22, "0", "refused shape line 22\n"),
    (44, "3 3", "refused shape line 44\n"),
    (53, "proof +3", "refused shape line 53\n"),
    (57, "refute 2 3", "refused shape line 58\n"),
    (41, "0- 1 1", "refused entry 3 use 1\n"),
    (
        41,
        "0- 1 9223372036854775807",
        "refused entry 3 use 9223372036854775807\n",
    ),
    (58, "0 1 2+", "refused refutation use 2\n"),
    (25, "3 3 4 0", "refused entry 1 literal 4\n"),
    (25, "2 0", "refused entry 1 base 2\n"),
];

fn of_lines() -> &'static [Edit] {
    &OF_LINES
}

const OF_PROOFS: [Edit; 13] = [
    (
        9,
        "proof 4",
        "refused entry 0 clause 0 proof line 3 bad line\n",
    ),
    (
        32,
        "9 4 0 8 0",
        "refused entry 1 clause 1 proof line 1 id order\n",
    ),
    (
        32,
        "10 4 0 -8 0",
        "refused entry 1 clause 1 proof line 1 rat\n",
    ),
    (
        56,
        "40 0 37 31 14 16 20 35 0",
        "refused entry 3 clause 2 proof line 2 no clause 35\n",
    ),
    (
        56,
        "40 0 12 37 0",
        "refused entry 3 clause 2 proof line 2 not unit 12\n",
    ),
    (
        41,
        "0 1 2",
        "refused entry 3 clause 0 proof line 2 no conflict\n",
    ),
    (
        12,
        "9 d 8 0",
        "refused entry 0 clause 0 proof line 3 unfinished\n",
    ),
    (60, "61 d 2 -7 0", "refused refutation line 1 bad line\n"),
    (
        61,
        "60 0 60 4 15 17 21 22 5 0",
        "refused refutation line 2 id order\n",
    ),
    (60, "61 4 0 1 -3 0", "refused refutation line 1 rat\n"),
    (
        61,
        "61 0 60 2 4 0",
        "refused refutation line 2 no clause 2\n",
    ),
    (
        61,
        "61 0 60 4 15 17 21 22 0",
        "refused refutation line 2 no conflict\n",
    ),
    (
        61,
        "61 5 0 60 4 15 17 21 22 0",
        "refused refutation line 3 unfinished\n",
    ),
];

fn of_proofs() -> &'static [Edit] {
    &OF_PROOFS
}

/// The number of lines behind which the certificate is cut off, and what must be written.
type Cut = (usize, &'static str);

const CUTS: [Cut; 11] = [
    (1, "refused shape line 2\n"),
    (2, "refused shape line 3\n"),
    (3, "refused shape line 4\n"),
    (4, "refused shape line 5\n"),
    (7, "refused shape line 8\n"),
    (8, "refused shape line 9\n"),
    (11, "refused shape line 12\n"),
    (56, "refused shape line 57\n"),
    (57, "refused shape line 58\n"),
    (59, "refused shape line 60\n"),
    (61, "refused shape line 62\n"),
];

/// How many entries, what stands behind them, and what must be written.
type Many = (u64, &'static str, &'static str);

const MANY: [Many; 3] = [
    (
        65_536,
        "refute 1 1\n65535\n7 0 1 4 0\nend\n",
        "accepted certificate j0 entries 65536\n",
    ),
    (65_536, "wall 0\n", "refused shape line 131076\n"),
    (65_537, "", "refused too long\n"),
];

fn proof_lines() -> &'static [ProofLine] {
    &PROOF_LINES
}

fn cuts() -> &'static [Cut] {
    &CUTS
}

fn many_rows() -> &'static [Many] {
    &MANY
}

/// Whether `check` over these texts writes this line and ends with its number, at once and at one byte a call alike.
fn says<R: Threads + Wait + Sync>(
    rt: &R,
    alloc: Global,
    model: &str,
    answer: &str,
    line: &str,
) -> Result<bool, AllocError> {
    let number = if line.as_bytes().starts_with(b"accepted") {
        0
    } else {
        1
    };
    ends_so(
        rt,
        alloc,
        "fairlive check m a",
        model.as_bytes(),
        answer,
        line.as_bytes(),
        number,
    )
}

fn push_line(text: &mut String, line: &str) -> Result<(), AllocError> {
    text.push_str(line)?;
    text.push_str("\n")?;
    Ok(())
}

/// The certificate with this line in the place of the one with this number, counted from 1.
fn edited(alloc: Global, number: usize, other: &str) -> Result<String, AllocError> {
    let mut text = String::new(alloc);
    for (k, line) in BASE.split('\n').enumerate() {
        push_line(&mut text, if k + 1 == number { other } else { line })?;
    }
    Ok(text)
}

/// The first so many lines of the certificate.
fn front(alloc: Global, count: usize) -> Result<String, AllocError> {
    let mut text = String::new(alloc);
    for (k, line) in BASE.split('\n').enumerate() {
        if k < count {
            push_line(&mut text, line)?;
        }
    }
    Ok(text)
}

/// A refutation of this one line, over no entries.
fn refuted(alloc: Global, proof: &str) -> Result<String, AllocError> {
    let mut text = String::from_str(alloc, "0\nj0\nversion 1\nrefute 0 1\n\n")?;
    push_line(&mut text, proof)?;
    push_line(&mut text, "end")?;
    Ok(text)
}

fn push_walls(text: &mut String, entries: u64) -> Result<(), AllocError> {
    for _ in 0..entries {
        text.push_str("wall 0 0\n\n")?;
    }
    Ok(())
}

/// So many entries without clauses behind the version, and then these lines.
fn many(alloc: Global, entries: u64, behind: &str) -> Result<String, AllocError> {
    let mut text = String::from_str(alloc, "0\nj0\nversion 1\n")?;
    push_walls(&mut text, entries)?;
    text.push_str(behind)?;
    Ok(text)
}

/// The same of an edited certificate.
fn edited_says<R: Threads + Wait + Sync>(
    rt: &R,
    alloc: Global,
    number: usize,
    other: &str,
    line: &str,
) -> Result<bool, AllocError> {
    let answer = edited(alloc, number, other)?;
    says(rt, alloc, RISES, &answer, line)
}

/// The same of the front of the certificate.
fn front_says<R: Threads + Wait + Sync>(
    rt: &R,
    alloc: Global,
    count: usize,
    line: &str,
) -> Result<bool, AllocError> {
    let answer = front(alloc, count)?;
    says(rt, alloc, RISES, &answer, line)
}

/// The same of a refutation of this one line.
fn refuted_says<R: Threads + Wait + Sync>(
    rt: &R,
    alloc: Global,
    proof: &str,
    line: &str,
) -> Result<bool, AllocError> {
    let answer = refuted(alloc, proof)?;
    says(rt, alloc, NEVER, &answer, line)
}

/// The same of many entries.
fn many_says<R: Threads + Wait + Sync>(
    rt: &R,
    alloc: Global,
    entries: u64,
    behind: &str,
    line: &str,
) -> Result<bool, AllocError> {
    let answer = many(alloc, entries, behind)?;
    says(rt, alloc, NEVER, &answer, line)
}

/// The place of the first of these rows that is not answered so, from 0.
fn wrong_row<R: Threads + Wait + Sync>(
    rt: &R,
    alloc: Global,
    rows: &[Row],
) -> Result<Option<usize>, AllocError> {
    for (k, (model, answer, line)) in rows.iter().enumerate() {
        if !says(rt, alloc, model, answer, line)? {
            return Ok(Some(k));
        }
    }
    Ok(None)
}

/// Whether `wave` refuses an answer as `check` does, or since a good one has no run.
fn is_refused_by_wave<R: Threads + Wait + Sync>(
    rt: &R,
    alloc: Global,
    row: &Row,
) -> Result<bool, AllocError> {
    let (model, answer, line) = row;
    let wanted = if line.as_bytes().starts_with(b"accepted") {
        "refused unknown status\n"
    } else {
        line
    };
    let (model, wanted) = (model.as_bytes(), wanted.as_bytes());
    ends_by(
        rt,
        alloc,
        "fairlive wave m a",
        model,
        answer,
        wanted,
        1,
        1000,
    )
}

/// The place of the first of these rows that `wave` does not refuse so, from 0.
fn other_of_waves<R: Threads + Wait + Sync>(
    rt: &R,
    alloc: Global,
    rows: &[Row],
) -> Result<Option<usize>, AllocError> {
    for (k, row) in rows.iter().enumerate() {
        if !is_refused_by_wave(rt, alloc, row)? {
            return Ok(Some(k));
        }
    }
    Ok(None)
}

/// The first row of each table that `wave` does not refuse so.
pub(crate) fn says_of_waves<R: Threads + Wait + Sync>(
    rt: &R,
    alloc: Global,
) -> Result<[Option<usize>; 3], AllocError> {
    Ok([
        other_of_waves(rt, alloc, entries())?,
        other_of_waves(rt, alloc, forms())?,
        other_of_waves(rt, alloc, ends())?,
    ])
}

/// The place of the first line of a refutation that is not answered so, from 0.
fn wrong_proof_line<R: Threads + Wait + Sync>(
    rt: &R,
    alloc: Global,
) -> Result<Option<usize>, AllocError> {
    for (k, (proof, line)) in proof_lines().iter().enumerate() {
        if !refuted_says(rt, alloc, proof, line)? {
            return Ok(Some(k));
        }
    }
    Ok(None)
}

/// The place of the first of these edits that is not answered so, from 0.
fn wrong_edit<R: Threads + Wait + Sync>(
    rt: &R,
    alloc: Global,
    edits: &[Edit],
) -> Result<Option<usize>, AllocError> {
    for (k, (number, other, line)) in edits.iter().enumerate() {
        if !edited_says(rt, alloc, *number, other, line)? {
            return Ok(Some(k));
        }
    }
    Ok(None)
}

/// The place of the first cut that is not answered so, from 0.
fn wrong_cut<R: Threads + Wait + Sync>(rt: &R, alloc: Global) -> Result<Option<usize>, AllocError> {
    for (k, (count, line)) in cuts().iter().enumerate() {
        if !front_says(rt, alloc, *count, line)? {
            return Ok(Some(k));
        }
    }
    Ok(None)
}

/// The place of the first one of many entries that is not answered so, from 0.
fn wrong_many<R: Threads + Wait + Sync>(
    rt: &R,
    alloc: Global,
) -> Result<Option<usize>, AllocError> {
    for (k, (entries, behind, line)) in many_rows().iter().enumerate() {
        if !many_says(rt, alloc, *entries, behind, line)? {
            return Ok(Some(k));
        }
    }
    Ok(None)
}

#[test]
fn certificates(rt: HostRuntime) -> Result<(), Fail> {
    assert_eq!(rt; wrong_row(&rt, rt.alloc(), entries())?, None);
    assert_eq!(rt; wrong_row(&rt, rt.alloc(), forms())?, None);
    assert_eq!(rt; wrong_row(&rt, rt.alloc(), ends())?, None);
    Ok(())
}

#[test]
fn lines_of_a_refutation(rt: HostRuntime) -> Result<(), Fail> {
    assert_eq!(rt; wrong_proof_line(&rt, rt.alloc())?, None);
    Ok(())
}

#[test]
fn edited_certificates(rt: HostRuntime) -> Result<(), Fail> {
    assert_eq!(rt; wrong_edit(&rt, rt.alloc(), of_lines())?, None);
    assert_eq!(rt; wrong_edit(&rt, rt.alloc(), of_proofs())?, None);
    Ok(())
}

/// The line that is wanted behind the first so many.
#[test]
fn cut_certificates(rt: HostRuntime) -> Result<(), Fail> {
    assert_eq!(rt; wrong_cut(&rt, rt.alloc())?, None);
    Ok(())
}

/// As many entries as there may be, and one more.
#[test]
fn many_entries(rt: HostRuntime) -> Result<(), Fail> {
    assert_eq!(rt; wrong_many(&rt, rt.alloc())?, None);
    Ok(())
}
