//! The reading of a sheet, line by line. The main calls are `step` and `finish`.

ghost use Rattle.std.specs.Prelude.{◌≡◌, ◌<◌, ◌≤◌, length, Ok};
ghost use Rattle.entry.specs.Listing.{entries_of};
ghost use Rattle.certificate_lines.specs.Words.{word_line_of};
ghost use Rattle.certificate.specs.declared.state.State.TheVariants.{Certified};
ghost use Rattle.certificate.specs.declared.state.Wanted.TheVariants.{Start};
ghost use Rattle.certificate.specs.Reading.{open_step, step as step_of_answer};
ghost use Rattle.certificate.specs.Seen.{seen as seen_within, seen_body, IsKept as IsKeptWithin};
ghost use Rattle.sheet_answers.specs.Sheets.{total};
ghost use Rattle.sheet_answers.specs.Reading.{Replays, Plain, Listing as ListingOf, after_answer, entry_step, listing_step, between_step, block_step, step};
ghost use Rattle.sheet_answers.specs.Ends.{AreReplays};
ghost use Rattle.sheet_answers.specs.Seen.{seen, AreFew, IsKept, TellsStep, TellsEnd};

use crate::blocks_read::{prove_step, refute_step, show_step};
use crate::counts::Counts;
use crate::ends::{JudgeEnd, misplaced, refused};
use crate::found::Accepted;
use crate::heads::{end_step, first_step, opens_block, total, version_step};
use crate::state::State;
use certificate::{AnswerFault, Body, MAX_ENTRIES, State as Within, Wanted, step as step_within};
use certificate_lines::{Opening, WordLine, word_line_of};
use circuit::Circuit;
use std::alloc::Global;

// The first line of the block of a property, of which there is one that has none yet.
fn block_step(
    circuit: &Circuit,
    t: Counts,
    body: Body,
    number: u64,
    line: &[u8],
) -> Result<State, JudgeEnd>
    requires owed { total t < length circuit.now.justice }
    requires few { AreFew body }
    ensures { TellsStep circuit.now (block_step t (entries_of body.list) (total t) number line.now) result }
{
    let n = total(circuit, t);
    if opens_block(line, b"lasso ", n) {
        return Ok(State::Showing(t, body, Within::Latches(n)));
    }
    if opens_block(line, b"holds ", n) {
        return Ok(State::Refuting(t, body));
    }
    if opens_block(line, b"open ", n) {
        let later = Counts {
            lassos: t.lassos,
            holds: t.holds,
            unknown: t.unknown + 1,
        };
        return Ok(State::Between(later, body));
    }
    drop(body);
    Err(misplaced(number))
}

// The first line of the next block, or the last line.
fn between_step(
    circuit: &Circuit,
    t: Counts,
    body: Body,
    number: u64,
    line: &[u8],
) -> Result<State, JudgeEnd>
    requires within { total t ≤ length circuit.now.justice }
    requires few { AreFew body }
    ensures { TellsStep circuit.now (between_step circuit.now t (entries_of body.list) number line.now) result }
{
    if total(circuit, t) as usize == circuit.property_count() {
        return end_step(circuit, t, body, number, line);
    }
    block_step(circuit, t, body, number, line)
}

// Behind an entry's first line, where there is room for one more.
fn open_entry(_circuit: &Circuit, body: Body, opening: Opening) -> Result<State, JudgeEnd>
    requires { IsKeptWithin _circuit.now (Certified body Start) }
    ensures { TellsStep _circuit.now (after_answer (λ s. Ok (ListingOf s)) Plain (open_step (seen_body body) opening)) result }
{
    if (body.list.len() as u64) < MAX_ENTRIES {
        return Ok(State::Listing(Within::Certified(body, Wanted::EntryUses(opening))));
    }
    drop(body);
    Err(refused(AnswerFault::TooLong))
}

// The first line of an entry, or of what stands behind all of them.
fn entry_step(circuit: &Circuit, body: Body, number: u64, line: &[u8]) -> Result<State, JudgeEnd>
    requires { IsKeptWithin circuit.now (Certified body Start) }
    ensures { TellsStep circuit.now (entry_step circuit.now (seen_body body) number line.now (word_line_of line.now)) result }
{
    match word_line_of(line) {
        Some(WordLine::Opening(opening)) => open_entry(circuit, body, opening),
        _ => {
            let counted = Counts {
                lassos: 0,
                holds: 0,
                unknown: 0,
            };
            between_step(circuit, counted, body, number, line)
        }
    }
}

// A further line of an entry.
fn further_step(
    alloc: Global,
    circuit: &Circuit,
    listed: Within,
    number: u64,
    line: &[u8],
) -> Result<State, JudgeEnd>
    requires { IsKeptWithin circuit.now listed }
    ensures { TellsStep circuit.now (after_answer (λ s. Ok (ListingOf s)) Plain (step_of_answer circuit.now (seen_within listed) number line.now)) result }
{
    match step_within(alloc, circuit, listed, number, line) {
        Ok(next) => Ok(State::Listing(next)),
        Err(end) => Err(JudgeEnd::from(end)),
    }
}

// A line of the entries, or the first behind them.
fn listing_step(
    alloc: Global,
    circuit: &Circuit,
    listed: Within,
    number: u64,
    line: &[u8],
) -> Result<State, JudgeEnd>
    requires { IsKeptWithin circuit.now listed }
    ensures { TellsStep circuit.now (listing_step circuit.now (seen_within listed) number line.now) result }
{
    match listed {
        Within::Certified(body, Wanted::Start) => entry_step(circuit, body, number, line),
        listed => further_step(alloc, circuit, listed, number, line),
    }
}

/// The state behind a line with this number, which is not skipped, or the line's fault.
pub(crate) fn step(
    alloc: Global,
    circuit: &Circuit,
    state: State,
    number: u64,
    line: &[u8],
) -> Result<State, JudgeEnd>
    requires { IsKept circuit.now state }
    ensures { (replays : Replays) → AreReplays circuit.now replays
        → TellsStep circuit.now (step circuit.now replays (seen state) number line.now) result }
{
    match state {
        State::First => first_step(circuit, number, line),
        State::Versioned => version_step(alloc, circuit, number, line),
        State::Listing(listed) => listing_step(alloc, circuit, listed, number, line),
        State::Between(t, body) => between_step(circuit, t, body, number, line),
        State::Refuting(t, body) => refute_step(circuit, t, body, number, line),
        State::Proving(t, refuted) => prove_step(alloc, circuit, t, refuted, number, line),
        State::Showing(t, body, shown) => {
            show_step(alloc, circuit, t, body, shown, number, line)
        }
        State::Done(_, _) => Err(refused(AnswerFault::Trailing(number))),
    }
}

/// How a sheet ends in a state, where a line behind the last one would have this number.
pub(crate) fn finish(_circuit: &Circuit, state: &State, number: u64) -> Result<Accepted, JudgeEnd>
    requires { IsKept _circuit.now state.now }
    ensures { TellsEnd (seen state.now) number result }
{
    match state {
        State::Done(t, body) => Ok(Accepted {
            counts: *t,
            entries: body.list.len() as u32,
        }),
        _ => Err(misplaced(number)),
    }
}
