//! The first line of a model's text. The main call is `read_heading`.
ghost use Rattle.std.specs.Prelude.{◌≡◌, ◌∷◌, []};
ghost use Rattle.aiger_grammar.specs.Answered.{GivesRead};
ghost use Rattle.aiger_grammar.specs.Names.{counts_of};
ghost use Rattle.aiger_grammar.specs.Headers.{word_at, shown_at, optional_at, numbers_at, first_line_at, heading_at};

use crate::fields::{behind, number};
use aiger_grammar::{Counts, Heading};
use circuit::{ModelEnd, ModelFault};

/// The header at the front, and the bytes behind its line: the word `aag` or `aig`, by the letter in its middle, five
/// numbers, and up to four more, each 0 where it is left out. What is no such line is `Header` at 0; a line that the end
/// of the text cuts is `Truncated`.
#[tactic(auto, unfolding(aiger_grammar::specs::Headers::heading_at))]
pub fn read_heading(letter: u8, total: u64, bytes: &[u8]) -> Result<(Heading, &[u8]), ModelEnd>
    ensures { GivesRead (λ x. (x.0, x.1.now)) result (heading_at (97 ∷ letter ∷ 103 ∷ []) total bytes.now) }
{
    match first_line(letter, total, bytes) {
        Ok(read) => Ok(read),
        Err(ModelEnd::Fault(ModelFault::Number(_))) => Err(ModelEnd::Fault(ModelFault::Header(0))),
        Err(end) => Err(end),
    }
}

/// How many elements of each list a symbol may name, by the header.
pub fn counts(heading: Heading) -> Counts
    ensures { result ≡ counts_of heading }
{
    Counts {
        i: heading.inputs,
        l: heading.latches,
        o: heading.outputs,
        b: heading.bad,
        c: heading.constraints,
        j: heading.justice,
        f: heading.fairness,
    }
}

// The word and the numbers, each fault as in the other lines.
#[tactic(auto, unfolding(aiger_grammar::specs::Headers::first_line_at))]
fn first_line(letter: u8, total: u64, bytes: &[u8]) -> Result<(Heading, &[u8]), ModelEnd>
    ensures { GivesRead (λ x. (x.0, x.1.now)) result (first_line_at (97 ∷ letter ∷ 103 ∷ []) total bytes.now) }
{
    let rest = word(letter, total, bytes)?;
    numbers(total, rest)
}

// What stands behind the word.
#[tactic(auto, unfolding(aiger_grammar::specs::Headers::word_at))]
fn word(letter: u8, total: u64, bytes: &[u8]) -> Result<&[u8], ModelEnd>
    ensures { GivesRead (λ rest. (tt, rest.now)) result (word_at (97 ∷ letter ∷ 103 ∷ []) total bytes.now) }
{
    let rest = behind(b'a', total, bytes)?;
    let rest = behind(letter, total, rest)?;
    let rest = behind(b'g', total, rest)?;
    Ok(rest)
}

// The numbers behind the word, and what stands behind the line.
#[tactic(auto, unfolding(aiger_grammar::specs::Headers::numbers_at))]
fn numbers(total: u64, bytes: &[u8]) -> Result<(Heading, &[u8]), ModelEnd>
    ensures { GivesRead (λ x. (x.0, x.1.now)) result (numbers_at total bytes.now) }
{
    let (max, rest) = shown(total, bytes)?;
    let (inputs, rest) = shown(total, rest)?;
    let (latches, rest) = shown(total, rest)?;
    let (outputs, rest) = shown(total, rest)?;
    let (gates, rest) = shown(total, rest)?;
    let (bad, rest) = optional(total, rest)?;
    let (constraints, rest) = optional(total, rest)?;
    let (justice, rest) = optional(total, rest)?;
    let (fairness, rest) = optional(total, rest)?;
    let rest = behind(b'\n', total, rest)?;
    let heading = Heading {
        max,
        inputs,
        latches,
        outputs,
        gates,
        bad,
        constraints,
        justice,
        fairness,
    };
    Ok((heading, rest))
}

// The number behind a space.
#[tactic(auto, unfolding(aiger_grammar::specs::Headers::shown_at))]
fn shown(total: u64, bytes: &[u8]) -> Result<(u64, &[u8]), ModelEnd>
    ensures { GivesRead (λ x. (x.0, x.1.now)) result (shown_at total bytes.now) }
{
    let rest = behind(b' ', total, bytes)?;
    number(total, rest)
}

// The number behind a space, 0 where there is no space.
#[tactic(auto, unfolding(aiger_grammar::specs::Headers::optional_at))]
fn optional(total: u64, bytes: &[u8]) -> Result<(u64, &[u8]), ModelEnd>
    ensures { GivesRead (λ x. (x.0, x.1.now)) result (optional_at total bytes.now) }
{
    match bytes {
        [b' ', rest @ ..] => number(total, rest),
        _ => Ok((0, bytes)),
    }
}
