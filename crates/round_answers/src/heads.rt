//! The first lines of a text about rounds: how many, the property, and what follows.

ghost use Rattle.std.specs.Prelude.{◌≡◌, ◌≤◌, ◌<◌, ℕ, Some, drop, take, length, codes};
ghost use Rattle.std.specs.Str.{bytes_eq};
ghost use Rattle.certificate_lines.specs.Fields.{number_in};
ghost use Rattle.certificate_lines.specs.Words.{word_line_of};
ghost use Rattle.certificate.specs.Reading.{property_in};
ghost use Rattle.round_monitor.specs.Monitor.{monitor_circuit};
ghost use Rattle.round_monitor.specs.Ends.{IsMonitorable};
ghost use Rattle.round_answers.specs.Texts.{MayBeAsked};
ghost use Rattle.round_answers.specs.Answers.{last_latch};
ghost use Rattle.round_answers.specs.Reading.{asked_in, first_step, named_step, version_step, chosen_step};
ghost use Rattle.round_answers.specs.Seen.{IsAsked, TellsStep};

use crate::ends::{JudgeEnd, misplaced, refused};
use crate::limits::MAX_ROUNDS;
use crate::state::{Asked, State};
use aiger_names::Model;
use certificate::{
    AnswerFault, State as Within, number_in, property_in, property_of, states_refuted,
};
use certificate_lines::{Version, WordLine, word_line_of};
use circuit::Circuit;
use entry::good_lists_grow;
use live_to_safe::TranslateEnd;
use proof_semantics::Lit;
use round_monitor::monitor;
use std::alloc::{AllocError, Global};

// The number of rounds that the first line names.
fn asked_in(line: &[u8]) -> Option<u64>
    ensures { result ≡ asked_in line.now }
{
    if line.len() < 7 {
        return None;
    }
    let (word, digits) = line.split_at(7);
    if word == b"rounds ".as_slice() {
        number_in(digits)
    } else {
        None
    }
}

/// Behind the first line.
pub(crate) fn first_step(_circuit: &Circuit, number: u64, line: &[u8]) -> Result<State, JudgeEnd>
    ensures { TellsStep _circuit.now (first_step number (asked_in line.now)) result }
{
    match asked_in(line) {
        Some(k) => {
            if 1 <= k && k <= MAX_ROUNDS {
                return Ok(State::Named(k as u32));
            }
            Err(misplaced(number))
        }
        None => Err(misplaced(number)),
    }
}

// Behind the line of a property that the circuit has.
fn monitored(alloc: Global, circuit: &Circuit, k: u32, property: u32) -> Result<State, JudgeEnd>
    requires asked { MayBeAsked k }
    requires property { property < length circuit.now.justice }
    ensures { (number : ℕ) → TellsStep circuit.now (named_step circuit.now k number (Some property)) result }
{
    match monitor(alloc, circuit, property, k) {
        Ok(model) => {
            let t = model.circuit();
            let _limits = t.max();
            good_lists_grow(t);
            Ok(State::Chosen(Asked { k, property }, model))
        }
        Err(TranslateEnd::TooLarge(variable)) => Err(JudgeEnd::TooLarge(variable)),
        Err(TranslateEnd::Memory) => Err(JudgeEnd::from(AllocError)),
        Err(TranslateEnd::NoProperty(_)) => unreachable!(),
    }
}

/// Behind the line of the property.
pub(crate) fn named_step(
    alloc: Global,
    circuit: &Circuit,
    k: u32,
    number: u64,
    line: &[u8],
) -> Result<State, JudgeEnd>
    requires { MayBeAsked k }
    ensures { TellsStep circuit.now (named_step circuit.now k number (property_in line.now)) result }
{
    let Some(named) = property_in(line) else {
        return Err(misplaced(number));
    };
    match property_of(circuit, named) {
        Some(property) => monitored(alloc, circuit, k, property),
        None => Err(refused(AnswerFault::NoProperty(named))),
    }
}

// The last latch of a circuit.
fn last_latch(t: &Circuit) -> Lit
    requires { 1 ≤ length t.now.latches }
    ensures { result ≡ last_latch t.now }
{
    Lit {
        var: t.latches().len() as u64 - 1,
        positive: true,
    }
}

// Before the first entry of the monitor.
fn listing(alloc: Global, _circuit: &Circuit, asked: Asked, model: Model) -> Result<State, JudgeEnd>
    requires { IsAsked _circuit.now asked model }
    ensures { (number : ℕ)
        → TellsStep _circuit.now (version_step _circuit.now asked.k asked.property number (Some (WordLine.Version Version.Two))) result }
{
    let t = model.circuit();
    match states_refuted(alloc, t, asked.property, last_latch(t)) {
        Ok(begun) => Ok(State::Listing(asked, model, begun)),
        Err(error) => {
            drop(model);
            Err(JudgeEnd::from(error))
        }
    }
}

/// Behind the line that says what follows: a run, or a certificate.
pub(crate) fn chosen_step(
    alloc: Global,
    circuit: &Circuit,
    asked: Asked,
    model: Model,
    number: u64,
    line: &[u8],
) -> Result<State, JudgeEnd>
    requires { IsAsked circuit.now asked model }
    ensures { TellsStep circuit.now (chosen_step circuit.now asked.k asked.property number line.now) result }
{
    if line == b"run".as_slice() {
        drop(model);
        return Ok(State::Running(asked, Within::Latches(asked.property)));
    }
    match word_line_of(line) {
        Some(WordLine::Version(Version::Two)) => listing(alloc, circuit, asked, model),
        _ => {
            drop(model);
            Err(misplaced(number))
        }
    }
}
