//! The lines of a stimulus.

ghost use Rattle.std.specs.Prelude.{◌≡◌, ◌<◌, length, IfOk, codes};
ghost use Rattle.aig_semantics.specs.Circuits.{Circuit as CircuitOf};
ghost use Rattle.certificate.specs.Reading.{values_in, latches_step, step, State};
ghost use Rattle.certificate.specs.Reading.State.{Rows as RowsOf};
ghost use Rattle.certificate.specs.Steps.{Tells};

use crate::ends::{AnswerEnd, misplaced};
use crate::heads::is_word;
use crate::state::State;
use aig_semantics::Stimulus;
use circuit::Circuit;
use items::Items;
use std::alloc::{AllocError, Global};
use stimulus::values_of;

// The values that the characters of a line stand for.
fn values_in(alloc: Global, line: &[u8]) -> Result<Option<Items<bool>>, AllocError>
    ensures { IfOk result (λ values. values ≡ values_in line.now) }
{
    values_of(alloc, line)
}

/// Behind the values of the latches.
pub(crate) fn latches_step(
    alloc: Global,
    _circuit: &Circuit,
    property: u32,
    number: u64,
    line: &[u8],
) -> Result<State, AnswerEnd>
    requires { property < length _circuit.now.justice }
    ensures { Tells _circuit.now (latches_step property number (values_in line.now)) result }
{
    match values_in(alloc, line)? {
        Some(latches) => Ok(State::Rows(
            property,
            Stimulus {
                latches,
                inputs: Items::new(alloc),
            },
        )),
        None => Err(misplaced(number)),
    }
}

/// Behind the values of the inputs at a position, or the dot.
pub(crate) fn row_step(
    alloc: Global,
    _circuit: &Circuit,
    property: u32,
    mut stimulus: Stimulus,
    number: u64,
    line: &[u8],
) -> Result<State, AnswerEnd>
    requires { property < length _circuit.now.justice }
    ensures { Tells _circuit.now (step _circuit.now (RowsOf property stimulus) number line.now) result }
{
    if is_word(line, b".") {
        return Ok(State::Dotted(property, stimulus));
    }
    match values_in(alloc, line)? {
        Some(values) => {
            stimulus.inputs.push(values)?;
            Ok(State::Rows(property, stimulus))
        }
        None => Err(misplaced(number)),
    }
}
