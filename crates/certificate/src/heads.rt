//! The first lines of an answer: the status, the property and the version.

ghost use Rattle.std.specs.Prelude.{◌≡◌, ◌<◌, ◌≤◌, length, IfOk, IfSome, IfNone, []};
ghost use Rattle.std.specs.Str.{bytes_eq};
ghost use Rattle.aig_semantics.specs.Circuits.{Circuit as CircuitOf};
ghost use Rattle.cnf_unroll.specs.Blocks.{step_clauses};
ghost use Rattle.entry.specs.LatchTables.{AreNumbersOf};
ghost use Rattle.certificate_lines.specs.Fields.{number_in};
ghost use Rattle.certificate_lines.specs.Words.{word_line_of};
ghost use Rattle.certificate.specs.Reading.{opens_rounds, opens_sheet, opens_other, other_status, status_step, property_in, claimed, property_step, version_step, Certified, Start};
ghost use Rattle.certificate.specs.Seen.{seen, seen_claim, IsKept};
ghost use Rattle.certificate.specs.Steps.{Tells};

use crate::ends::{AnswerEnd, AnswerFault, misplaced};
use crate::state::{Body, Claim, Refuted, State, Wanted};
use certificate_lines::{Version, WordLine, word_line_of};
use circuit::Circuit;
use entry::{Judge, LatchNumbers};
use items::Items;
use proof_semantics::Lit;
use std::alloc::{AllocError, Global};
use text_grammar::read_number;

/// The greatest number of a property's line.
const GREATEST: u64 = 9_223_372_036_854_775_807;

/// Whether the line is this word.
pub(crate) fn is_word(line: &[u8], word: &[u8]) -> bool
    ensures { result ≡ bytes_eq line.now word.now }
{
    line == word
}

/// Whether the line begins with `rounds`, as the first line of a text about rounds does.
pub fn opens_rounds(line: &[u8]) -> bool
    ensures { result ≡ opens_rounds line.now }
{
    let front = if line.len() < 6 { line } else { &line[..6] };
    is_word(front, b"rounds")
}

/// Whether the line is the first of a sheet, whatever its form.
pub fn opens_sheet(line: &[u8]) -> bool
    ensures { result ≡ opens_sheet line.now }
{
    let front = if line.len() < 3 { line } else { &line[..3] };
    is_word(front, b"all")
}

fn opens_other(line: &[u8]) -> bool
    ensures { result ≡ opens_other line.now }
{
    opens_rounds(line) || opens_sheet(line)
}

// Behind a line that is no status.
fn other_status(number: u64, line: &[u8]) -> Result<State, AnswerEnd>
    ensures { (c : CircuitOf) → Tells c (other_status number (opens_other line.now)) result }
{
    if opens_other(line) {
        return Err(AnswerEnd::Refused(AnswerFault::UnknownStatus));
    }
    Err(misplaced(number))
}

/// Behind the line of the status.
pub(crate) fn status_step(_circuit: &Circuit, number: u64, line: &[u8]) -> Result<State, AnswerEnd>
    ensures { Tells _circuit.now (status_step number line.now) result }
{
    if is_word(line, b"1") {
        return Ok(State::Property(Claim::HasLasso));
    }
    if is_word(line, b"0") {
        return Ok(State::Property(Claim::HasNone));
    }
    if is_word(line, b"2") {
        return Err(AnswerEnd::Refused(AnswerFault::UnknownStatus));
    }
    other_status(number, line)
}

/// The number, below 2^63, that is the whole field.
pub fn number_in(field: &[u8]) -> Option<u64>
    ensures { result ≡ number_in field.now }
{
    let (number, rest) = read_number(field, GREATEST)?;
    if !rest.is_empty() {
        return None;
    }
    Some(number)
}

/// The number behind the `j` of a line that names a property, below 2^63; `None` where the line is in another form.
pub fn property_in(line: &[u8]) -> Option<u64>
    ensures { result ≡ property_in line.now }
{
    let (byte, digits) = line.split_first()?;
    if *byte == b'j' {
        number_in(digits)
    } else {
        None
    }
}

/// The property with this number, counted from 0, if the circuit has it.
pub fn property_of(circuit: &Circuit, number: u64) -> Option<u32>
    ensures found { IfSome result (λ property. (property ≡ number) × (number < length circuit.now.justice)) }
    ensures none { IfNone result (length circuit.now.justice ≤ number) }
{
    // A circuit is within the limits, so each of its properties has a number of 32 bits.
    let _limits = circuit.max();
    if number >= circuit.property_count() as u64 {
        return None;
    }
    Some(number as u32)
}

// What is wanted behind the line of the property.
fn claimed(claim: Claim, property: u32) -> State
    ensures state { seen result ≡ claimed (seen_claim claim) property }
    ensures kept { (c : CircuitOf) → property < length c.justice → IsKept c result }
{
    match claim {
        Claim::HasLasso => State::Latches(property),
        Claim::HasNone => State::Versioned(property),
    }
}

/// Behind the line of the property.
pub(crate) fn property_step(
    circuit: &Circuit,
    claim: Claim,
    number: u64,
    line: &[u8],
) -> Result<State, AnswerEnd>
    ensures { Tells circuit.now (property_step circuit.now (seen_claim claim) number (property_in line.now)) result }
{
    let Some(named) = property_in(line) else {
        return Err(misplaced(number));
    };
    match property_of(circuit, named) {
        Some(property) => Ok(claimed(claim, property)),
        None => Err(AnswerEnd::Refused(AnswerFault::NoProperty(named))),
    }
}

// A certificate before its first entry, whose refutation is to refute this.
fn body_of(
    alloc: Global,
    circuit: &Circuit,
    property: u32,
    version: Version,
    refuted: Refuted,
) -> Result<Body, AllocError>
    ensures property { IfOk result (λ b. b.property ≡ property) }
    ensures version { IfOk result (λ b. b.version ≡ version) }
    ensures refuted { IfOk result (λ b. b.refuted ≡ refuted) }
    ensures list { IfOk result (λ b. b.list ≡ []) }
    ensures block { IfOk result (λ b. b.judge.block ≡ step_clauses circuit.now) }
    ensures latches { IfOk result (λ b. AreNumbersOf circuit.now b.latches) }
{
    let judge = Judge::new(alloc, circuit)?;
    let latches = LatchNumbers::new(alloc, circuit)?;
    Ok(Body {
        property,
        version,
        refuted,
        list: Items::new(alloc),
        judge,
        latches,
    })
}

/// Behind the line of the version.
pub(crate) fn version_step(
    alloc: Global,
    circuit: &Circuit,
    property: u32,
    number: u64,
    line: &[u8],
) -> Result<State, AnswerEnd>
    requires { property < length circuit.now.justice }
    ensures { Tells circuit.now (version_step property number (word_line_of line.now)) result }
{
    match word_line_of(line) {
        Some(WordLine::Version(version)) => {
            let body = body_of(alloc, circuit, property, version, Refuted::Skeletons)?;
            Ok(State::Certified(body, Wanted::Start))
        }
        _ => Err(misplaced(number)),
    }
}

/// The state before the first entry of a certificate of version 2 whose refutation is to refute the states that have this
/// literal over latch numbers. `property` is the number that its text names, which need not be one of this circuit's.
pub fn states_refuted(
    alloc: Global,
    circuit: &Circuit,
    property: u32,
    literal: Lit,
) -> Result<State, AllocError>
    ensures state { IfOk result (λ s. seen s ≡ Certified
        (record { property = property; version = Version.Two; refuted = Refuted.States literal; entries = [] }) Start) }
    ensures kept { IfOk result (IsKept circuit.now) }
{
    let body = body_of(
        alloc,
        circuit,
        property,
        Version::Two,
        Refuted::States(literal),
    )?;
    Ok(State::Certified(body, Wanted::Start))
}
