//! Gates of a binary text, read from their deltas. The main call is `read_gate`.
ghost use Rattle.std.specs.Prelude.{◌≡◌, ◌==◌, ◌&&◌, not, ◌≤◌, ◌*◌};
ghost use Rattle.aiger_grammar.specs.Answered.{GivesRead};
ghost use Rattle.aiger_grammar.specs.Deltas.{delta_at, difference_at};
ghost use Rattle.aiger_binary.specs.Groups.{summed_at, next_unit};
ghost use Rattle.aiger_grammar.specs.BinaryTexts.{numbered_gate_at};

use aig_semantics::{Gate, MAX_NUMBER, MAX_VARIABLE};
use aiger_sections::place;
use circuit::{ModelEnd, ModelFault};

/// The gate with variable `v` whose right sides stand at the front as deltas, and the bytes behind them. A delta that is
/// out of its range is `Range` at its first byte.
#[tactic(auto, unfolding(aiger_grammar::specs::BinaryTexts::numbered_gate_at))]
pub fn read_gate(v: u64, total: u64, bytes: &[u8]) -> Result<(Gate, &[u8]), ModelEnd>
    requires { v ≤ MAX_VARIABLE }
    ensures { GivesRead (λ x. (x.0, x.1.now)) result (numbered_gate_at v total bytes.now) }
{
    let literal = 2 * v;
    let (first, rest) = difference(1, literal, total, bytes)?;
    let rhs0 = literal.saturating_sub(first);
    let (second, rest) = difference(0, rhs0, total, rest)?;
    let rhs1 = rhs0.saturating_sub(second);
    let gate = Gate { var: v, rhs0, rhs1 };
    Ok((gate, rest))
}

// A delta from `least` to `greatest`.
#[tactic(auto, unfolding(aiger_grammar::specs::Deltas::difference_at))]
fn difference(least: u64, greatest: u64, total: u64, bytes: &[u8]) -> Result<(u64, &[u8]), ModelEnd>
    ensures { GivesRead (λ x. (x.0, x.1.now)) result (difference_at least greatest total bytes.now) }
{
    let (n, rest) = delta(total, bytes)?;
    if n < least || n > greatest {
        return Err(ModelEnd::Fault(ModelFault::Range(place(total, bytes))));
    }
    Ok((n, rest))
}

// The delta at the front, and the bytes behind it.
fn delta(total: u64, bytes: &[u8]) -> Result<(u64, &[u8]), ModelEnd>
    ensures { GivesRead (λ x. (x.0, x.1.now)) result (delta_at total bytes.now) }
{
    groups(place(total, bytes), total, bytes)
}

// The same, where the delta begins at the place `first`.
fn groups(first: u64, total: u64, bytes: &[u8]) -> Result<(u64, &[u8]), ModelEnd>
    ensures { GivesRead (λ x. (x.0, x.1.now)) result (summed_at first total 1 0 bytes.now) }
{
    let mut unit = 1;
    let mut so_far = 0;
    for (i, byte) in bytes.iter().enumerate() {
        let value = so_far + unit * u64::from(*byte % 128);
        if value > MAX_NUMBER {
            return Err(ModelEnd::Fault(ModelFault::Number(first)));
        }
        if *byte < 128 {
            if is_empty(*byte, unit) {
                return Err(ModelEnd::Fault(ModelFault::Number(first)));
            }
            return Ok((value, &bytes[i + 1..]));
        }
        so_far = value;
        unit = next_unit(unit);
    }
    Err(ModelEnd::Fault(ModelFault::Truncated(total)))
}

// Whether a last group is 0 and not the only one.
fn is_empty(byte: u8, unit: u64) -> bool
    ensures { result ≡ (byte == 0 && not (unit == 1)) }
{
    byte == 0 && unit != 1
}

// What the lowest bit of the next group counts. It need not grow once a group that is not 0 is too great.
fn next_unit(unit: u64) -> u64
    requires { unit ≤ 128 * MAX_NUMBER }
    ensures { result ≡ next_unit unit }
{
    if unit > MAX_NUMBER {
        return unit;
    }
    128 * unit
}
