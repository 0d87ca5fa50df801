//! Lines that begin with a word. The main calls are `word_line_of` and `push_word_line`.
ghost use Rattle.std.specs.Prelude.{◌≡◌, [], ◌∷◌, ◌++◌, decimal, IfSome, IfNone, OnOk};
ghost use Rattle.std.specs.List.{join_with_byte};
ghost use Rattle.certificate_lines.specs.Fields.{number_in, only};
ghost use Rattle.certificate_lines.specs.Words.{word_line_text, IsWordLine, SpellsNoWordLine, word_in, version_in, two_numbers, opening_of, refutation_of, end_behind, line_behind, word_line_of, version_text, kind_text};
ghost use Rattle.certificate_lines.specs.Reading.{fields_behind};

use crate::fields::{first_field, is_word, number_in};
use fair_semantics::Kind;
use std::alloc::AllocError;
use text_grammar::push_number;

/// The version of a certificate.
#[derive(Clone, Copy)]
pub enum Version {
    /// No use has a sign.
    One,
    /// A use may name a side of a wall.
    Two,
}

/// The first line of an entry.
#[derive(Clone, Copy)]
pub struct Opening {
    pub kind: Kind,
    /// How many clauses the entry has, and as many proofs. Below 2^63.
    pub clauses: u64,
    /// How many uses it has. Below 2^63.
    pub uses: u64,
}

/// The first line of the refutation.
#[derive(Clone, Copy)]
pub struct Refutation {
    /// How many uses it has. Below 2^63.
    pub uses: u64,
    /// How many lines its proof has. Below 2^63.
    pub proof_lines: u64,
}

/// A line that begins with a word.
#[derive(Clone, Copy)]
pub enum WordLine {
    /// `version 1` or `version 2`.
    Version(Version),
    /// `reach C U` or `wall C U`, C clauses and U uses.
    Opening(Opening),
    /// `proof P`, the number of lines of the proof that follows. Below 2^63.
    Proof(u64),
    /// `refute U P`, U uses and P proof lines.
    Refutation(Refutation),
    /// `end`.
    End,
}

// The first word of a line.
#[derive(Clone, Copy)]
pub(crate) enum Word {
    Version,
    Reach,
    Wall,
    Proof,
    Refute,
    End,
}

/// The line that these bytes spell. `None` where it begins with no such word, or is not in the form of its word.
pub fn word_line_of(line: &[u8]) -> Option<WordLine>
    ensures value { result ≡ word_line_of line.now }
    ensures found { IfSome result (λ l. IsWordLine line.now l) }
    ensures none { IfNone result (SpellsNoWordLine line.now) }
{
    read_line(line)
}

// The same, without what follows of it.
fn read_line(line: &[u8]) -> Option<WordLine>
    ensures { result ≡ word_line_of line.now }
{
    let (field, rest) = first_field(line);
    let word = word_in(field)?;
    line_behind(word, rest)
}

fn word_in(field: &[u8]) -> Option<Word>
    ensures { result ≡ word_in field.now }
{
    if is_word(field, b"version") {
        return Some(Word::Version);
    }
    if is_word(field, b"reach") {
        return Some(Word::Reach);
    }
    if is_word(field, b"wall") {
        return Some(Word::Wall);
    }
    if is_word(field, b"proof") {
        return Some(Word::Proof);
    }
    if is_word(field, b"refute") {
        return Some(Word::Refute);
    }
    if is_word(field, b"end") {
        return Some(Word::End);
    }
    None
}

// The line that a word begins, by what follows the word.
fn line_behind(word: Word, rest: Option<&[u8]>) -> Option<WordLine>
    ensures { result ≡ line_behind word (fields_behind rest.entry) }
{
    match word {
        Word::Version => Some(WordLine::Version(only_version(rest)?)),
        Word::Reach => Some(opens(Kind::Reach, two_numbers(rest)?)),
        Word::Wall => Some(opens(Kind::Wall, two_numbers(rest)?)),
        Word::Proof => Some(WordLine::Proof(only_number(rest)?)),
        Word::Refute => Some(refutes(two_numbers(rest)?)),
        Word::End => end_behind(rest),
    }
}

fn opens(kind: Kind, sizes: (u64, u64)) -> WordLine
    ensures { result ≡ opening_of kind sizes }
{
    WordLine::Opening(Opening {
        kind,
        clauses: sizes.0,
        uses: sizes.1,
    })
}

fn refutes(sizes: (u64, u64)) -> WordLine
    ensures { result ≡ refutation_of sizes }
{
    WordLine::Refutation(Refutation {
        uses: sizes.0,
        proof_lines: sizes.1,
    })
}

#[tactic(auto, using(crate::proofs::WordLaws::end_none))]
fn end_behind(rest: Option<&[u8]>) -> Option<WordLine>
    ensures { result ≡ end_behind (fields_behind rest.entry) }
{
    match rest {
        Some(_) => None,
        None => Some(WordLine::End),
    }
}

// The version that is all that follows the word.
#[tactic(auto, using(crate::proofs::FieldLaws::only_none))]
fn only_version(rest: Option<&[u8]>) -> Option<Version>
    ensures { result ≡ only version_in (fields_behind rest.entry) }
{
    let (field, more) = first_field(rest?);
    if more.is_some() {
        return None;
    }
    version_in(field)
}

fn version_in(field: &[u8]) -> Option<Version>
    ensures { result ≡ version_in field.now }
{
    if is_word(field, b"1") {
        return Some(Version::One);
    }
    if is_word(field, b"2") {
        return Some(Version::Two);
    }
    None
}

// The number that is all that follows.
#[tactic(auto, using(crate::proofs::FieldLaws::only_none))]
fn only_number(rest: Option<&[u8]>) -> Option<u64>
    ensures { result ≡ only number_in (fields_behind rest.entry) }
{
    let (field, more) = first_field(rest?);
    if more.is_some() {
        return None;
    }
    number_in(field)
}

// The two numbers that are all that follows the word.
fn two_numbers(rest: Option<&[u8]>) -> Option<(u64, u64)>
    ensures { result ≡ two_numbers (fields_behind rest.entry) }
{
    let (field, more) = first_field(rest?);
    let first = number_in(field)?;
    let second = only_number(more)?;
    Some((first, second))
}

/// Writes the line at the end, without a line feed. The error is want of memory.
pub fn push_word_line(out: &mut Vec<u8>, line: WordLine) -> Result<(), AllocError>
    ensures { OnOk result (out.new.items ≡ out.old.items ++ word_line_text line) }
{
    match line {
        WordLine::Version(Version::One) => out.extend_from_slice(b"version 1"),
        WordLine::Version(Version::Two) => out.extend_from_slice(b"version 2"),
        WordLine::Opening(o) => push_two(out, kind_text(o.kind), o.clauses, o.uses),
        WordLine::Proof(count) => push_one(out, b"proof", count),
        WordLine::Refutation(r) => push_two(out, b"refute", r.uses, r.proof_lines),
        WordLine::End => out.extend_from_slice(b"end"),
    }
}

fn kind_text(kind: Kind) -> &'static [u8]
    ensures { result.now ≡ kind_text kind }
{
    match kind {
        Kind::Reach => b"reach",
        Kind::Wall => b"wall",
    }
}

// Writes a word and a number behind it.
fn push_one(out: &mut Vec<u8>, word: &[u8], n: u64) -> Result<(), AllocError>
    ensures { OnOk result (out.new.items ≡ out.old.items ++ join_with_byte 32 (word.now ∷ decimal n ∷ [])) }
{
    out.extend_from_slice(word)?;
    out.push(b' ')?;
    push_number(out, n)
}

// Writes a word and two numbers behind it.
fn push_two(out: &mut Vec<u8>, word: &[u8], m: u64, n: u64) -> Result<(), AllocError>
    ensures { OnOk result (out.new.items ≡ out.old.items ++ join_with_byte 32 (word.now ∷ decimal m ∷ decimal n ∷ [])) }
{
    push_one(out, word, m)?;
    out.push(b' ')?;
    push_number(out, n)
}
