//! The first lines of a sheet and of its blocks, and its last one.

ghost use Rattle.std.specs.Prelude.{◌≡◌, ◌++◌, ◌≤◌, ◌<◌, length, take, drop, codes};
ghost use Rattle.std.specs.Str.{bytes_eq};
ghost use Rattle.entry.specs.Listing.{entries_of};
ghost use Rattle.certificate_lines.specs.Words.{word_line_of};
ghost use Rattle.certificate_texts.specs.Writing.{property_line};
ghost use Rattle.sheet_answers.specs.Sheets.{total};
ghost use Rattle.sheet_answers.specs.Reading.{count_in, first_step, version_step, end_step};
ghost use Rattle.sheet_answers.specs.Seen.{TellsStep, AreFew};

use crate::counts::Counts;
use crate::ends::{JudgeEnd, misplaced, refused};
use crate::state::State;
use certificate::{AnswerFault, Body, number_in, property_in, states_refuted};
use certificate_lines::{Version, WordLine, word_line_of};
use circuit::Circuit;
use proof_semantics::Lit;
use std::alloc::Global;

// The number of properties that the first line names.
fn count_in(line: &[u8]) -> Option<u64>
    ensures { result ≡ count_in line.now }
{
    if line.len() < 4 {
        return None;
    }
    let (word, digits) = line.split_at(4);
    if word == b"all ".as_slice() {
        number_in(digits)
    } else {
        None
    }
}

/// Behind the first line.
pub(crate) fn first_step(circuit: &Circuit, number: u64, line: &[u8]) -> Result<State, JudgeEnd>
    ensures { TellsStep circuit.now (first_step circuit.now number (count_in line.now)) result }
{
    match count_in(line) {
        Some(count) => {
            if count == circuit.property_count() as u64 {
                return Ok(State::Versioned);
            }
            Err(refused(AnswerFault::NoProperty(count)))
        }
        None => Err(misplaced(number)),
    }
}

/// Behind the version.
pub(crate) fn version_step(
    alloc: Global,
    circuit: &Circuit,
    number: u64,
    line: &[u8],
) -> Result<State, JudgeEnd>
    ensures { TellsStep circuit.now (version_step number (word_line_of line.now)) result }
{
    match word_line_of(line) {
        Some(WordLine::Version(Version::Two)) => {
            let literal = Lit {
                var: 0,
                positive: true,
            };
            Ok(State::Listing(states_refuted(alloc, circuit, 0, literal)?))
        }
        _ => Err(misplaced(number)),
    }
}

// Whether the field names property n, and nothing else.
#[tactic(auto, using(crate::proofs::BlockWords::named_test, crate::proofs::BlockWords::unnamed_test))]
fn names(field: &[u8], n: u32) -> bool
    ensures { result ≡ bytes_eq field.now (property_line n) }
{
    match property_in(field) {
        Some(named) => named == u64::from(n),
        None => false,
    }
}

/// Whether the line is this word and the name of property n.
#[tactic(auto, using(crate::proofs::BlockWords::word_test, crate::proofs::BlockWords::short_test))]
pub(crate) fn opens_block(line: &[u8], word: &[u8], n: u32) -> bool
    ensures { result ≡ bytes_eq line.now (word.now ++ property_line n) }
{
    if line.len() < word.len() {
        return false;
    }
    let (front, field) = line.split_at(word.len());
    front == word && names(field, n)
}

/// The number of the property whose block comes next; and how many properties there are at most.
pub(crate) fn total(circuit: &Circuit, t: Counts) -> u32
    requires { total t ≤ length circuit.now.justice }
    ensures is { result ≡ total t }
    ensures limit { length circuit.now.justice ≤ 4294967295 }
{
    let _limits = circuit.max();
    t.lassos + t.holds + t.unknown
}

/// Behind the last line, where each property has its block.
pub(crate) fn end_step(
    _circuit: &Circuit,
    t: Counts,
    body: Body,
    number: u64,
    line: &[u8],
) -> Result<State, JudgeEnd>
    requires { AreFew body }
    ensures { TellsStep _circuit.now (end_step t (entries_of body.list) number (word_line_of line.now)) result }
{
    match word_line_of(line) {
        Some(WordLine::End) => Ok(State::Done(t, body)),
        _ => {
            drop(body);
            Err(misplaced(number))
        }
    }
}
