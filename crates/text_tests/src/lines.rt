//! The lines of texts, read by several numbers of bytes a call.

ghost use Rattle.std.specs.Prelude.{◌≡◌, length, IfOk};
ghost use Rattle.edge.specs.Told.{IfTold};
ghost use Rattle.text_grammar.specs.Lines.{lines_of};

use answer_lines::{Lines, LinesEnd};
use edge::{MemShelf, Shelf};
use std::alloc::{AllocError, Global};
use std::test::Fail;

/// A shelf with one text.
fn shelf(alloc: Global, text: &[u8], most: u64, failing: &[u64]) -> Result<MemShelf, AllocError> {
    let mut texts = Vec::new(alloc);
    texts.push((String::from_str(alloc, "answer")?, text.to_vec(alloc)?))?;
    Ok(MemShelf::new(texts, most.max(1), failing.to_vec(alloc)?))
}

// The calls on lines, in functions without a contract: no clause of them is wanted here.
fn has_next(lines: &mut Lines, shelf: &mut MemShelf) -> Result<bool, LinesEnd> {
    lines.next(shelf, "answer")
}

fn push_line(lines: &Lines, given: &mut Vec<u8>) -> Result<(), AllocError> {
    given.extend_from_slice(lines.line())?;
    given.push(b'|')?;
    Ok(())
}

/// Adds the lines that are given to `given`, with a bar behind each, until there is none or one is refused.
fn add_lines(lines: &mut Lines, shelf: &mut MemShelf, given: &mut Vec<u8>) -> Result<(), LinesEnd> {
    for _ in 0..1000 {
        if !has_next(lines, shelf)? {
            break;
        }
        push_line(lines, given)?;
    }
    Ok(())
}

fn add_twice(lines: &mut Lines, shelf: &mut MemShelf, given: &mut Vec<u8>) -> Result<(), LinesEnd> {
    add_lines(lines, shelf, given)?;
    add_lines(lines, shelf, given)
}

fn barred_of(alloc: Global, shelf: &mut MemShelf) -> Result<Vec<u8>, LinesEnd> {
    let mut lines = Lines::new(alloc)?;
    let mut given = Vec::new(alloc);
    add_twice(&mut lines, shelf, &mut given)?;
    Ok(given)
}

/// The lines of a text with a bar behind each.
fn barred(alloc: Global, text: &[u8], most: u64) -> Result<Vec<u8>, LinesEnd> {
    let mut shelf = shelf(alloc, text, most, &[])?;
    barred_of(alloc, &mut shelf)
}

/// How many lines a text has: what a loop over `next` may count on.
fn count_lines<H: Shelf>(alloc: Global, shelf: &mut H, name: &str) -> Result<u64, LinesEnd>
    ensures { IfOk result (λ n. IfTold (H.held shelf.old name.now) (λ text. n ≡ length (lines_of text))) }
{
    let mut lines = Lines::new(alloc)?;
    let mut count = 0;
    'lines: while lines.next(shelf, name)? {
        count += 1;
    }
    Ok(count)
}

// The letters a to y, round and round.
fn next_letter(letter: u8) -> u8 {
    if letter >= b'y' { b'a' } else { letter + 1 }
}

// So many letters from this one on; the next one.
fn push_letters(text: &mut Vec<u8>, first: u8, count: usize) -> Result<u8, AllocError> {
    let mut letter = first;
    for _ in 0..count {
        text.push(letter)?;
        letter = next_letter(letter);
    }
    Ok(letter)
}

fn push_spelled(text: &mut Vec<u8>, lengths: &[usize], end: u8) -> Result<(), AllocError> {
    let mut letter = b'a';
    for length in lengths {
        letter = push_letters(text, letter, *length)?;
        text.push(end)?;
    }
    Ok(())
}

/// Lines of these lengths, with the byte `end` behind each.
fn spelled(alloc: Global, lengths: &[usize], end: u8) -> Result<Vec<u8>, AllocError> {
    let mut text = Vec::new(alloc);
    push_spelled(&mut text, lengths, end)?;
    Ok(text)
}

fn push_last(lines: &Lines, lasts: &mut Vec<u8>) -> Result<(), AllocError> {
    let byte = if lines.is_last() { b'l' } else { b'-' };
    lasts.push(byte)?;
    Ok(())
}

fn add_lasts(lines: &mut Lines, shelf: &mut MemShelf, lasts: &mut Vec<u8>) -> Result<(), LinesEnd> {
    for _ in 0..1000 {
        if !has_next(lines, shelf)? {
            break;
        }
        push_last(lines, lasts)?;
    }
    Ok(())
}

fn lasts_of(alloc: Global, shelf: &mut MemShelf) -> Result<Vec<u8>, LinesEnd> {
    let mut lines = Lines::new(alloc)?;
    let mut lasts = Vec::new(alloc);
    add_lasts(&mut lines, shelf, &mut lasts)?;
    Ok(lasts)
}

/// A byte for each line of a text: l where it is said to be the last, and else a dash.
fn lasts(alloc: Global, text: &[u8]) -> Result<Vec<u8>, LinesEnd> {
    let mut shelf = shelf(alloc, text, 2, &[])?;
    lasts_of(alloc, &mut shelf)
}

fn are_last(alloc: Global, text: &str, want: &str) -> Result<bool, LinesEnd> {
    let given = lasts(alloc, text.as_bytes())?;
    Ok(given.as_slice() == want.as_bytes())
}

// A text, and what is made of it.
type Case = (&'static str, &'static str);

fn last_cases() -> &'static [Case] {
    &[
        ("", ""),
        ("a", "l"),
        ("a\n", "-"),
        ("a\n\nbc", "--l"),
        ("a\n\nbc\n", "---"),
    ]
}

// The place of the first text of which something else is said, from 0.
fn wrong_last(alloc: Global) -> Result<Option<usize>, LinesEnd> {
    for (k, (text, want)) in last_cases().iter().enumerate() {
        if !are_last(alloc, text, want)? {
            return Ok(Some(k));
        }
    }
    Ok(None)
}

#[test]
fn says_that_a_line_is_last(rt: HostRuntime) -> Result<(), Fail> {
    assert_eq!(rt; wrong_last(rt.alloc())?, None);
    Ok(())
}

fn are_given(alloc: Global, text: &[u8], want: &[u8], most: u64) -> Result<bool, LinesEnd> {
    let given = barred(alloc, text, most)?;
    Ok(given.as_slice() == want)
}

fn short_cases() -> &'static [Case] {
    &[
        ("", ""),
        ("a", "a|"),
        ("a\n", "a|"),
        ("\n", "|"),
        ("\n\n", "||"),
        ("a\n\nbc", "a||bc|"),
        ("a\n\nbc\n", "a||bc|"),
        ("a\r\n b\n\n", "a\r| b||"),
    ]
}

// The place of the first short text whose lines are not given so, from 0.
fn wrong_short(alloc: Global, most: u64) -> Result<Option<usize>, LinesEnd> {
    for (k, (text, want)) in short_cases().iter().enumerate() {
        if !are_given(alloc, text.as_bytes(), want.as_bytes(), most)? {
            return Ok(Some(k));
        }
    }
    Ok(None)
}

#[test]
fn gives_the_lines_of_short_texts(rt: HostRuntime) -> Result<(), Fail> {
    for most in [1, 7, 5000] {
        assert_eq!(rt; wrong_short(rt.alloc(), most)?, None);
    }
    Ok(())
}

fn without_last(text: &[u8]) -> &[u8] {
    match text.split_last() {
        Some((_, cut)) => cut,
        None => text,
    }
}

// Whether the lines of the text, and of the text without its last line feed, are given so.
fn are_both_given(alloc: Global, text: &[u8], want: &[u8], most: u64) -> Result<bool, LinesEnd> {
    if !are_given(alloc, text, want, most)? {
        return Ok(false);
    }
    are_given(alloc, without_last(text), want, most)
}

fn are_across(alloc: Global, lengths: &[usize], most: u64) -> Result<bool, LinesEnd> {
    let text = spelled(alloc, lengths, b'\n')?;
    let want = spelled(alloc, lengths, b'|')?;
    are_both_given(alloc, &text, &want, most)
}

fn lengths() -> &'static [&'static [usize]] {
    &[
        &[10000],
        &[4095, 4096, 4097],
        &[4096, 0, 3],
        &[4094, 0, 0, 5],
        &[4090, 10, 10000, 1],
        &[8191, 8192],
    ]
}

// The place of the first lengths whose lines are not given so, from 0.
fn wrong_across(alloc: Global, most: u64) -> Result<Option<usize>, LinesEnd> {
    for (k, lengths) in lengths().iter().enumerate() {
        if !are_across(alloc, lengths, most)? {
            return Ok(Some(k));
        }
    }
    Ok(None)
}

#[test]
fn gives_lines_across_pieces(rt: HostRuntime) -> Result<(), Fail> {
    for most in [1, 7, 5000] {
        assert_eq!(rt; wrong_across(rt.alloc(), most)?, None);
    }
    Ok(())
}

fn count_of_three(alloc: Global) -> Result<u64, LinesEnd> {
    let mut shelf = shelf(alloc, b"one\n\nthree", 3, &[])?;
    count_lines(alloc, &mut shelf, "answer")
}

#[test]
fn counts_the_lines(rt: HostRuntime) -> Result<(), Fail> {
    assert_eq!(rt; count_of_three(rt.alloc())?, 3);
    Ok(())
}

// Whether the first turn ends in a failed read, what it gave, and whether the second one gives the rest.
fn two_turns(
    alloc: Global,
    lines: &mut Lines,
    shelf: &mut MemShelf,
    before: &str,
) -> Result<[bool; 3], LinesEnd> {
    let mut given = Vec::new(alloc);
    let first = add_lines(lines, shelf, &mut given);
    let is_failed = first.err() == Some(LinesEnd::ReadFault);
    let is_before = given.as_slice() == before.as_bytes();
    add_lines(lines, shelf, &mut given)?;
    Ok([
        is_failed,
        is_before,
        given.as_slice() == b"one|two|".as_slice(),
    ])
}

fn loses_nothing(alloc: Global, failing: u64, before: &str) -> Result<[bool; 3], LinesEnd> {
    let mut shelf = shelf(alloc, b"one\ntwo", 2, &[failing])?;
    let mut lines = Lines::new(alloc)?;
    two_turns(alloc, &mut lines, &mut shelf, before)
}

/// The text is four reads of at most two bytes, and one that finds its end.
#[test]
fn a_failed_read_loses_nothing(rt: HostRuntime) -> Result<(), Fail> {
    let cases = [(1, ""), (2, ""), (3, "one|"), (4, "one|"), (5, "one|")];
    for (failing, before) in cases {
        let turns = loses_nothing(rt.alloc(), failing, before)?;
        assert_eq!(rt; turns, [true; 3], "call {failing}");
    }
    Ok(())
}
