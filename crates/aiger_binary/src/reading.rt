//! Binary texts of models, read from the left. The main call is `read`.
ghost use Rattle.std.specs.Prelude.{◌≡◌, ◌==◌, ◌≤◌, Ok, Err, IfOk};
ghost use Rattle.unless_memory.specs.Answers.{Gives, GivesSome};
ghost use Rattle.circuit.specs.declared.faults.ModelFault.{ModelFault as FaultOf};
ghost use Rattle.aiger_grammar.specs.Models.{Model as ModelOf};
ghost use Rattle.aiger_grammar.specs.Answered.{GivesRead};
ghost use Rattle.aiger_grammar.specs.Headers.{defined_count};
ghost use Rattle.aiger_grammar.specs.BothForms.{SameFault};
ghost use Rattle.aiger_grammar.specs.BinaryTexts.{IsBinaryTextOf, HasBinaryFault, binary_heading_at, binary_sections_at, binary_at};
ghost use Rattle.std.specs.List.{range_with_len};
ghost use Rattle.aiger_grammar.specs.Ordered.{IsOrdered};
ghost use Rattle.aiger_sections.specs.Answers.{IsAnswer};

use crate::lines::{NumberedGateLine, NumberedLatchLine};
use aig_semantics::{MAX_MODEL_BYTES, MAX_VARIABLE};
use aiger_grammar::{Heading, Names};
use aiger_names::{Model, read_last_names};
use aiger_sections::{
    counts, is_too_long, read_heading, read_lines, read_properties, within_limit,
};
use circuit::{ModelEnd, ModelFault, Parts, keep_circuit};
use items::Items;
use std::alloc::{AllocError, Global};

/// The model of a binary text, or the first fault with its place. Places are counted in bytes from 0; those of
/// `Undefined`, `Twice` and `Cycle` are variables. A text of more than 1,073,741,824 bytes is `Limit` at 1,073,741,824.
/// Then come the header's faults (`Header` at 0, `Truncated`, and `Limit` at 0 for a greatest variable above
/// 16,777,216), then those of the sections and names in the order of the file (`Number`, `Range`, `Truncated`, `Limit`
/// at the size line of a property that has more than 256 literals with fairness, `Trailing`, `Symbol`), then `Twice`,
/// then `Undefined`, then `Cycle`. Takes memory for what was read and for the inputs, of which there are at most
/// 16,777,216; the work is in proportion to the text and to the greatest variable.
pub fn read(alloc: Global, bytes: &[u8]) -> Result<Model, ModelEnd>
    ensures found { IfOk result (λ m. IsBinaryTextOf m bytes.now) }
    ensures ordered { IfOk result (λ m. IsOrdered m) }
    ensures every { (m : ModelOf) → IsBinaryTextOf m bytes.now
        → Gives (Err ModelEnd.Memory) (Ok m) result }
    ensures fault { (fault : FaultOf) → result ≡ Err (ModelEnd.Fault fault) → HasBinaryFault bytes.now fault }
    ensures first { (fault : FaultOf) → HasBinaryFault bytes.now fault
        → GivesSome (Err ModelEnd.Memory)
        (λ answer. (said : FaultOf) × (answer ≡ Err (ModelEnd.Fault said)) × SameFault said fault) result }
{
    read_checked(alloc, bytes)
}

// The same, by cases on what is answered.
fn read_checked(alloc: Global, bytes: &[u8]) -> Result<Model, ModelEnd>
    ensures { IsAnswer IsBinaryTextOf HasBinaryFault bytes.now result }
{
    let (parts, names) = read_parts(alloc, bytes)?;
    let kept = keep_circuit(alloc, parts)?;
    Ok(Model::new(kept.circuit, kept.outputs, kept.bad, names))
}

// What the text says, before it is checked.
#[tactic(auto, unfolding(aiger_grammar::specs::BinaryTexts::binary_at))]
fn read_parts(alloc: Global, bytes: &[u8]) -> Result<(Parts, Names), ModelEnd>
    ensures { GivesRead (λ x. x) result (binary_at bytes.now) }
{
    if is_too_long(bytes) {
        return Err(ModelEnd::Fault(ModelFault::Limit(MAX_MODEL_BYTES)));
    }
    let total = bytes.len() as u64;
    let (heading, body) = read_first_line(total, bytes)?;
    let (parts, rest) = read_sections(alloc, heading, total, body)?;
    let names = read_last_names(alloc, bytes.len(), rest, &counts(heading))?;
    Ok((parts, names))
}

// The header, within its limits, and the bytes behind it.
#[tactic(auto, unfolding(aiger_grammar::specs::BinaryTexts::binary_heading_at))]
fn read_first_line(total: u64, bytes: &[u8]) -> Result<(Heading, &[u8]), ModelEnd>
    ensures read { GivesRead (λ x. (x.0, x.1.now)) result (binary_heading_at total bytes.now) }
    ensures low { IfOk result (λ x. x.0.max ≤ MAX_VARIABLE) }
    ensures whole { IfOk result (λ x. defined_count x.0 ≡ x.0.max) }
{
    let (heading, body) = read_heading(b'i', total, bytes)?;
    within_limit(is_whole(heading), heading, body)
}

// Whether the greatest variable is the number of inputs, latches and gates together.
fn is_whole(heading: Heading) -> bool
    ensures { result ≡ (defined_count heading == heading.max) }
{
    heading.inputs <= heading.max
        && heading.latches <= heading.max - heading.inputs
        && heading.gates == heading.max - heading.inputs - heading.latches
}

// The sections behind a header, and the bytes behind them.
#[tactic(auto, unfolding(aiger_grammar::specs::BinaryTexts::binary_sections_at))]
fn read_sections(
    alloc: Global,
    heading: Heading,
    total: u64,
    bytes: &[u8],
) -> Result<(Parts, &[u8]), ModelEnd>
    requires low { heading.max ≤ MAX_VARIABLE }
    requires whole { defined_count heading ≡ heading.max }
    ensures { GivesRead (λ x. (x.0, x.1.now)) result (binary_sections_at heading total bytes.now) }
{
    let latch = NumberedLatchLine { heading };
    let (latches, rest) = read_lines(alloc, &latch, heading.latches, total, bytes)?;
    let (properties, rest) = read_properties(alloc, heading, total, rest)?;
    let gate = NumberedGateLine { heading };
    let (gates, rest) = read_lines(alloc, &gate, heading.gates, total, rest)?;
    let parts = Parts {
        max: heading.max,
        inputs: variables(alloc, heading.inputs)?,
        latches,
        gates,
        outputs: properties.outputs,
        bad: properties.bad,
        constraints: properties.constraints,
        justice: properties.justice,
        fairness: properties.fairness,
    };
    Ok((parts, rest))
}

// The variables from 1 on.
fn variables(alloc: Global, count: u64) -> Result<Items<u64>, AllocError>
    requires { count ≤ MAX_VARIABLE }
    ensures { IfOk result (λ variables. variables ≡ range_with_len 1 count) }
{
    let mut variables = Items::new(alloc);
    for k in 0..count {
        variables.push(k + 1)?;
    }
    Ok(variables)
}
