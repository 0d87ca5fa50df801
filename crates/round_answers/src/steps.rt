//! The reading of a text about rounds, line by line. The main calls are `step` and `finish`.

ghost use Rattle.std.specs.Prelude.{◌<◌, length, IfOk};
ghost use Rattle.certificate.specs.Seen.{seen as seen_within};
ghost use Rattle.round_answers.specs.Reading.{step, Running as RunningOf, Listing as ListingOf};
ghost use Rattle.round_answers.specs.Seen.{seen, IsAsked, IsKept, TellsStep};
ghost use Rattle.round_answers.specs.Telling.{TellsEnd, KnowsMonitor};

use crate::ends::{JudgeEnd, Judged, misplaced, shown};
use crate::heads::{chosen_step, first_step, named_step};
use crate::running::judge_run;
use crate::state::{Asked, State};
use aiger_names::Model;
use certificate::{State as Within, step as step_within};
use circuit::Circuit;
use std::alloc::Global;

// The state behind a line of a run.
fn run_step(
    alloc: Global,
    circuit: &Circuit,
    asked: Asked,
    run: Within,
    number: u64,
    line: &[u8],
) -> Result<State, JudgeEnd>
    requires { IsKept circuit.now (State.Running asked run) }
    ensures { TellsStep circuit.now (step circuit.now (RunningOf asked.k asked.property (seen_within run)) number line.now) result }
{
    match step_within(alloc, circuit, run, number, line) {
        Ok(next) => Ok(State::Running(asked, next)),
        Err(end) => Err(JudgeEnd::Answer(end)),
    }
}

// The state behind a line of a certificate of the monitor.
fn listed_step(
    alloc: Global,
    _circuit: &Circuit,
    asked: Asked,
    model: Model,
    listed: Within,
    number: u64,
    line: &[u8],
) -> Result<State, JudgeEnd>
    requires { IsKept _circuit.now (State.Listing asked model listed) }
    ensures { TellsStep _circuit.now (step _circuit.now (ListingOf asked.k asked.property (seen_within listed)) number line.now) result }
{
    match step_within(alloc, model.circuit(), listed, number, line) {
        Ok(next) => Ok(State::Listing(asked, model, next)),
        Err(end) => {
            drop(model);
            Err(JudgeEnd::Answer(end))
        }
    }
}

/// The state behind a line with this number, which is not skipped, or why the reading ends there.
pub(crate) fn step(
    alloc: Global,
    circuit: &Circuit,
    state: State,
    number: u64,
    line: &[u8],
) -> Result<State, JudgeEnd>
    requires { IsKept circuit.now state }
    ensures { TellsStep circuit.now (step circuit.now (seen state) number line.now) result }
{
    match state {
        State::First => first_step(circuit, number, line),
        State::Named(k) => named_step(alloc, circuit, k, number, line),
        State::Chosen(asked, model) => chosen_step(alloc, circuit, asked, model, number, line),
        State::Running(asked, run) => run_step(alloc, circuit, asked, run, number, line),
        State::Listing(asked, model, listed) => {
            listed_step(alloc, circuit, asked, model, listed, number, line)
        }
    }
}

// How a text ends whose lines ended in this state of a run.
fn run_end(
    alloc: Global,
    circuit: &Circuit,
    asked: Asked,
    run: &Within,
    number: u64,
) -> Result<Judged, JudgeEnd>
    requires { asked.property < length circuit.now.justice }
    ensures tells { TellsEnd circuit.now (RunningOf asked.k asked.property (seen_within run.now)) number result }
    ensures knows { IfOk result (KnowsMonitor circuit.now) }
{
    match run {
        Within::Dotted(_, stimulus) => judge_run(alloc, circuit, asked, stimulus),
        _ => Err(misplaced(number)),
    }
}

// How a text ends whose lines ended in this state of a certificate.
fn listed_end(
    _circuit: &Circuit,
    asked: Asked,
    _model: &Model,
    listed: &Within,
    number: u64,
) -> Result<Judged, JudgeEnd>
    requires { IsAsked _circuit.now asked _model.now }
    ensures tells { TellsEnd _circuit.now (ListingOf asked.k asked.property (seen_within listed.now)) number result }
    ensures knows { IfOk result (KnowsMonitor _circuit.now) }
{
    match listed {
        Within::Ended(_) => Ok(shown(asked, false)),
        _ => Err(misplaced(number)),
    }
}

/// How a text about rounds ends in a state, where a line behind the last one would have this number.
pub(crate) fn finish(
    alloc: Global,
    circuit: &Circuit,
    state: &State,
    number: u64,
) -> Result<Judged, JudgeEnd>
    requires { IsKept circuit.now state.now }
    ensures tells { TellsEnd circuit.now (seen state.now) number result }
    ensures knows { IfOk result (KnowsMonitor circuit.now) }
{
    match state {
        State::Running(asked, run) => run_end(alloc, circuit, *asked, run, number),
        State::Listing(asked, model, listed) => listed_end(circuit, *asked, model, listed, number),
        _ => Err(misplaced(number)),
    }
}
