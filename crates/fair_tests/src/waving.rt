//! Runs of `wave` over texts in memory: waves worked out by hand, and refusals.

use crate::certificates::says_of_waves;
use crate::dumps::{NOTHING, NOTHING_DUMP, TOGGLE, TOGGLE_DUMP};
use crate::runs::{Ending, ends_so, run_words};
use crate::tests;
use std::alloc::{AllocError, Global};
use std::sync::Wait;
use std::test::Fail;
use std::thread::Threads;

const WORDS: &str = "fairlive wave m a";

// Of a stimulus the number of a property plays no part.
const WITH_NUMBER: &str = "fairlive wave m a --property 9";

// The lasso of a block of a sheet.
const BLOCK_1: &str = "fairlive wave m a --property 1";

const SHEET: &str = "c a sheet\nall 1\nversion 2\nlasso j0\n0\n\n\n.\nend\n";

const TWICE: &str = "1\nj0\n0\n\n\n.\n";

// Two inputs, a latch that is 1 from the second position on, one that changes and begins with either value, and of each
// other section one, the property with two literals. Names: with a space, twice the same, another's label, a percent
// sign, two for one element, `loop`, a byte behind 126; the second input has none.
const NAMED: &str =
    "aag 4 2 2 1 0 1 1 1 1\n2\n4\n6 1\n8 9 8\n6\n7\n5\n2\n8\n2\n9\ni0 a b\nl0 loop\nl1 i1\no0 a b\nb0 100%\nc0 x\nc0 y\nj0 waits\nf0 \x7f\n";

const NAMES: &str = "a%20b i1 loop i1.l1 a%20b.o0 100%25 y waits waits.j0.1 %7F loop.loop";

// The positions of the lasso from place 1 on, and those from place 1 on once more.
const VALUES: &str = "00010111000 10101010111 00111011001 10101010111 00111011001";

// The property of the second number, which is a literal that is never false; then no latch, and a lasso of one position.
const SECOND: &str = "aag 1 1 0 0 0 0 0 2 0\n2\n1\n1\n2\n1\nj1 always\n";

/// A model, an answer and the digit of its property, the names of its wires in order, and their values at each time.
type Row = (&'static str, &'static str, u8, &'static str, &'static str);

const DUMPS: [Row; 5] = [
    (NAMED, "1\nj0\n01\n00\n10\n00\n.\n", b'0', NAMES, VALUES),
    // The stimulus goes on behind its lasso.
    (
        NAMED,
        "1\nj0\n01\n00\n10\n00\n11\n01\n.\n",
        b'0',
        NAMES,
        VALUES,
    ),
    (SECOND, "1\nj0\n\n1\n.\n", b'0', "i0 j0.0 loop", "111 111"),
    (SECOND, "1\nj1\n\n0\n.\n", b'1', "i0 always loop", "011 011"),
    // The block of property 1 of a sheet.
    (
        SECOND,
        "all 2\nversion 2\nlasso j0\n\n1\n.\nlasso j1\n\n0\n.\nend\n",
        b'1',
        "i0 always loop",
        "011 011",
    ),
];

fn dumps() -> &'static [Row] {
    &DUMPS
}

/// The identifier of the wire at this place.
fn push_identifier(text: &mut Vec<u8>, k: usize) -> Result<(), AllocError> {
    let first = 33 + (k % 94) as u8;
    text.push(first)?;
    if k >= 94 {
        text.push(33)?;
    }
    Ok(())
}

fn digit(number: usize) -> u8 {
    48 + (number % 10) as u8
}

/// A numeral of at most three digits.
fn push_small(text: &mut Vec<u8>, number: usize) -> Result<(), AllocError> {
    if number >= 100 {
        text.push(digit(number / 100))?;
    }
    if number >= 10 {
        text.push(digit(number / 10))?;
    }
    text.push(digit(number))?;
    Ok(())
}

// A wire up to its name.
fn push_wire(text: &mut Vec<u8>, k: usize) -> Result<(), AllocError> {
    text.extend_from_slice(b"$var wire 1 ")?;
    push_identifier(text, k)?;
    text.push(b' ')?;
    Ok(())
}

fn push_name(text: &mut Vec<u8>, k: usize, name: &[u8]) -> Result<(), AllocError> {
    push_wire(text, k)?;
    text.extend_from_slice(name)?;
    text.extend_from_slice(b" $end\n")?;
    Ok(())
}

fn push_names(text: &mut Vec<u8>, names: &str) -> Result<(), AllocError> {
    for (k, name) in names.split(' ').enumerate() {
        push_name(text, k, name.as_bytes())?;
    }
    Ok(())
}

fn push_time(text: &mut Vec<u8>, t: usize) -> Result<(), AllocError> {
    text.push(b'#')?;
    push_small(text, t)?;
    if t > 0 {
        text.push(b'0')?;
    }
    text.push(b'\n')?;
    Ok(())
}

fn push_value(text: &mut Vec<u8>, k: usize, digit: u8) -> Result<(), AllocError> {
    text.push(digit)?;
    push_identifier(text, k)?;
    text.push(b'\n')?;
    Ok(())
}

// The values at ten times this number.
fn push_values(text: &mut Vec<u8>, t: usize, digits: &[u8]) -> Result<(), AllocError> {
    push_time(text, t)?;
    for (k, digit) in digits.iter().enumerate() {
        push_value(text, k, *digit)?;
    }
    Ok(())
}

// The values at each time, and the end.
fn push_times(text: &mut Vec<u8>, rows: &str) -> Result<(), AllocError> {
    let mut t: usize = 0;
    for row in rows.split(' ') {
        push_values(text, t, row.as_bytes())?;
        t = t.saturating_add(1);
    }
    push_time(text, t)
}

fn push_front(text: &mut Vec<u8>, property: u8) -> Result<(), AllocError> {
    text.extend_from_slice(b"$timescale 1ns $end\n$comment fairlive j")?;
    text.push(property)?;
    text.extend_from_slice(b" $end\n$scope module fairlive $end\n")?;
    Ok(())
}

fn push_middle(text: &mut Vec<u8>) -> Result<(), AllocError> {
    text.extend_from_slice(b"$upscope $end\n$enddefinitions $end\n")?;
    Ok(())
}

/// The dump of wires with these names and values.
fn dump_of(alloc: Global, row: &Row) -> Result<Vec<u8>, AllocError> {
    let (_, _, property, names, rows) = row;
    let mut text = Vec::new(alloc);
    push_front(&mut text, *property)?;
    push_names(&mut text, names)?;
    push_middle(&mut text)?;
    push_times(&mut text, rows)?;
    Ok(text)
}

/// Whether a row is printed so.
fn is_printed<R: Threads + Wait + Sync>(
    rt: &R,
    alloc: Global,
    row: &Row,
) -> Result<bool, AllocError> {
    let text = dump_of(alloc, row)?;
    let words = if row.1.starts_with("all") {
        BLOCK_1
    } else {
        WORDS
    };
    ends_so(rt, alloc, words, row.0.as_bytes(), row.1, &text, 0)
}

/// The place of the first row that is not printed so, from 0.
fn wrong_dump<R: Threads + Wait + Sync>(
    rt: &R,
    alloc: Global,
) -> Result<Option<usize>, AllocError> {
    for (k, row) in dumps().iter().enumerate() {
        if !is_printed(rt, alloc, row)? {
            return Ok(Some(k));
        }
    }
    Ok(None)
}

// A hundred inputs and no latch; the property is the first of them.
fn push_inputs(text: &mut Vec<u8>) -> Result<(), AllocError> {
    for k in 1..101 {
        push_small(text, 2 * k)?;
        text.push(b'\n')?;
    }
    Ok(())
}

fn many_inputs(alloc: Global) -> Result<Vec<u8>, AllocError> {
    let mut text = Vec::from_slice(alloc, b"aag 100 100 0 0 0 0 0 1\n")?;
    push_inputs(&mut text)?;
    text.extend_from_slice(b"1\n2\n")?;
    Ok(text)
}

// Every third input is 1, the first among them.
fn push_many_values(text: &mut String) -> Result<(), AllocError> {
    for k in 0..100 {
        text.push_str(if k % 3 == 0 { "1" } else { "0" })?;
    }
    Ok(())
}

fn many_answer(alloc: Global) -> Result<String, AllocError> {
    let mut text = String::from_str(alloc, "1\nj0\n\n")?;
    push_many_values(&mut text)?;
    text.push_str("\n.\n")?;
    Ok(text)
}

// The values of the inputs, and that the property and the loop are there; twice.
fn many_rows(alloc: Global) -> Result<String, AllocError> {
    let mut text = String::new(alloc);
    push_many_values(&mut text)?;
    text.push_str("11 ")?;
    push_many_values(&mut text)?;
    text.push_str("11")?;
    Ok(text)
}

fn push_many_names(text: &mut Vec<u8>) -> Result<(), AllocError> {
    for k in 0..100 {
        push_wire(text, k)?;
        text.push(b'i')?;
        push_small(text, k)?;
        text.extend_from_slice(b" $end\n")?;
    }
    push_name(text, 100, b"j0.0")?;
    push_name(text, 101, b"loop")
}

fn push_many_times(alloc: Global, text: &mut Vec<u8>) -> Result<(), AllocError> {
    let rows = many_rows(alloc)?;
    push_times(text, rows.as_str())
}

fn many_dump(alloc: Global) -> Result<Vec<u8>, AllocError> {
    let mut text = Vec::new(alloc);
    push_front(&mut text, b'0')?;
    push_many_names(&mut text)?;
    push_middle(&mut text)?;
    push_many_times(alloc, &mut text)?;
    Ok(text)
}

fn is_many_dump<R: Threads + Wait + Sync>(
    rt: &R,
    alloc: Global,
    model: &[u8],
    answer: &str,
) -> Result<bool, AllocError> {
    let text = many_dump(alloc)?;
    ends_so(rt, alloc, WORDS, model, answer, &text, 0)
}

/// Whether the dump of a hundred wires and two is printed so: it has identifiers of two characters.
fn many_are_printed<R: Threads + Wait + Sync>(rt: &R, alloc: Global) -> Result<bool, AllocError> {
    let model = many_inputs(alloc)?;
    let answer = many_answer(alloc)?;
    is_many_dump(rt, alloc, &model, &answer)
}

/// Whether the dumps that are written out whole, and the one of many wires, are printed so; and those of a block of a sheet, and
/// of a stimulus, whatever property is named.
fn are_whole<R: Threads + Wait + Sync>(rt: &R, alloc: Global) -> Result<[bool; 5], AllocError> {
    Ok([
        ends_so(rt, alloc, WORDS, TOGGLE, TWICE, TOGGLE_DUMP, 0)?,
        ends_so(rt, alloc, WORDS, NOTHING, "1\nj0\n\n\n.\n", NOTHING_DUMP, 0)?,
        many_are_printed(rt, alloc)?,
        ends_so(rt, alloc, WORDS, TOGGLE, SHEET, TOGGLE_DUMP, 0)?,
        ends_so(rt, alloc, WITH_NUMBER, TOGGLE, TWICE, TOGGLE_DUMP, 0)?,
    ])
}

/// The waves of small models, as they were worked out.
#[test]
fn waves_of_small_models(rt: HostRuntime) -> Result<(), Fail> {
    assert_eq!(rt; are_whole(&rt, rt.alloc())?, [true; 5]);
    assert_eq!(rt; wrong_dump(&rt, rt.alloc())?, None);
    Ok(())
}

/// Whether a run wrote a dump where `check` accepts the answer of this row, and else ended as `check` does.
fn is_end_of(ran: &Ending, row: &tests::Row) -> bool {
    let (_, _, text, number) = row;
    let found = ran.text.as_slice();
    let is_same = if *number == 0 {
        found.starts_with(b"$timescale 1ns $end\n")
    } else {
        found == text.as_bytes()
    };
    is_same && ran.status.number() == *number
}

fn is_answered<R: Threads + Wait + Sync>(
    rt: &R,
    alloc: Global,
    row: &tests::Row,
) -> Result<bool, AllocError> {
    let model = row.0.as_bytes();
    let ran = run_words(rt, alloc, WORDS, model, row.1, 1000, &[], &[])?;
    let is_so = is_end_of(&ran, row);
    drop(ran);
    Ok(is_so)
}

/// The place of the first of these rows of `check` that `wave` does not answer by a dump where it is accepted, and else as
/// `check` does.
fn wrong_row<R: Threads + Wait + Sync>(
    rt: &R,
    alloc: Global,
    rows: &[tests::Row],
) -> Result<Option<usize>, AllocError> {
    for (k, row) in rows.iter().enumerate() {
        if !is_answered(rt, alloc, row)? {
            return Ok(Some(k));
        }
    }
    Ok(None)
}

/// The first wrong row of each table of `check`.
fn wrong_rows<R: Threads + Wait + Sync>(
    rt: &R,
    alloc: Global,
) -> Result<[Option<usize>; 6], AllocError> {
    Ok([
        wrong_row(rt, alloc, tests::accepted())?,
        wrong_row(rt, alloc, tests::first_lines())?,
        wrong_row(rt, alloc, tests::later_lines())?,
        wrong_row(rt, alloc, tests::ends())?,
        wrong_row(rt, alloc, tests::replays())?,
        wrong_row(rt, alloc, tests::models())?,
    ])
}

/// Answers are refused as `check` refuses them, and good certificates since they have no run.
#[test]
fn refusals_of_wave(rt: HostRuntime) -> Result<(), Fail> {
    assert_eq!(rt; wrong_rows(&rt, rt.alloc())?, [None; 6]);
    assert_eq!(rt; says_of_waves(&rt, rt.alloc())?, [None; 3]);
    Ok(())
}
