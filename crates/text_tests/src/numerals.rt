//! Values worked out by hand, from the formats' own words.
use std::alloc::{AllocError, Global};
use std::test::*;
use text_grammar::{cut_line, next_field, next_line, push_number, read_number, text_laws};

const GREATEST: u64 = 9_223_372_036_854_775_807;

// The text, the limit, and the number with how many bytes are left behind it.
type Number = (&'static str, u64, Option<(u64, usize)>);

const NUMBERS: [Number; 14] = [
    ("0", 0, Some((0, 0))),
    ("7 8", 9, Some((7, 2))),
    ("10", 10, Some((10, 0))),
    ("11", 10, None),
    ("9223372036854775807\n", GREATEST, Some((GREATEST, 1))),
    ("9223372036854775808", GREATEST, None),
    ("99999999999999999999999999", GREATEST, None),
    ("00", 9, None),
    ("01", 9, None),
    ("0x", 9, Some((0, 1))),
    ("+1", 9, None),
    ("/", 9, None),
    (":", 9, None),
    ("", 9, None),
];

fn number_rows() -> &'static [Number] {
    &NUMBERS
}

// No limit is above `GREATEST`.
fn number_in(text: &str, limit: u64) -> Option<(u64, usize)> {
    if limit > GREATEST {
        return None;
    }
    let (number, rest) = read_number(text.as_bytes(), limit)?;
    Some((number, rest.len()))
}

// The place of the first text that is read otherwise, from 0.
fn wrong_number() -> Option<usize> {
    for (k, (text, limit, wanted)) in number_rows().iter().enumerate() {
        if number_in(text, *limit) != *wanted {
            return Some(k);
        }
    }
    None
}

fn push_all(numbers: &[u64], out: &mut Vec<u8>) -> Result<(), AllocError> {
    for number in numbers {
        push_number(out, *number)?;
        out.push(b' ')?;
    }
    Ok(())
}

// Whether numbers are written so, with a space behind each.
fn are_written(alloc: Global, numbers: &[u64], wanted: &[u8]) -> Result<bool, AllocError> {
    let mut out = Vec::new(alloc);
    push_all(numbers, &mut out)?;
    Ok(out.as_slice() == wanted)
}

#[test]
fn numbers(rt: HostRuntime) -> Result<(), Fail> {
    assert_eq!(rt; wrong_number(), None);
    let text = b"0 10 18446744073709551615 ";
    assert!(rt; are_written(rt.alloc(), &[0, 10, u64::MAX], text)?);
    Ok(())
}

// The text, and how long its first line and what follows it are.
type Line = (&'static str, Option<(usize, usize)>);

const LINES: [Line; 5] = [
    ("", None),
    ("\n", Some((0, 0))),
    ("a", Some((1, 0))),
    ("a\n", Some((1, 0))),
    ("ab\n\nc", Some((2, 2))),
];

fn line_rows() -> &'static [Line] {
    &LINES
}

fn line_lengths(text: &str) -> Option<(usize, usize)> {
    let (line, rest) = next_line(text.as_bytes())?;
    Some((line.len(), rest.len()))
}

// The place of the first text that is cut otherwise, from 0.
fn wrong_line() -> Option<usize> {
    for (k, (text, wanted)) in line_rows().iter().enumerate() {
        if line_lengths(text) != *wanted {
            return Some(k);
        }
    }
    None
}

// Whether a text is cut so, and a line so into fields.
fn is_cut_so(text: &[u8], wanted: Option<(&[u8], &[u8])>) -> bool {
    cut_line(text) == wanted
}

fn is_field_so(line: &[u8], wanted: &[u8], more: Option<&[u8]>) -> bool {
    let (field, rest) = next_field(line);
    field == wanted && rest == more
}

fn are_cut_so() -> [bool; 4] {
    [
        is_cut_so(b"a", None),
        is_cut_so(b"1 0\n\n2", Some((b"1 0".as_slice(), b"\n2".as_slice()))),
        is_field_so(b"reach 2 1", b"reach", Some(b"2 1".as_slice())),
        is_field_so(b"end", b"end", None),
    ]
}

#[test]
fn lines_and_fields(rt: HostRuntime) {
    text_laws();
    assert_eq!(rt; wrong_line(), None);
    assert!(rt; are_cut_so() == [true; 4]);
}
