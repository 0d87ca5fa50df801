//! Numbers and bytes of a model's text. The main call is `field`, a number that passes a test and the byte behind it.
ghost use Rattle.std.specs.Prelude.{◌≡◌};
ghost use Rattle.aiger_grammar.specs.Answered.{GivesRead};
ghost use Rattle.aiger_grammar.specs.Reading.{place, unfit, byte_at, numeral_at, passes, test_fault, value_at, field_at};

use aig_semantics::{MAX_NUMBER, MAX_PROPERTY_LITERALS};
use aiger_grammar::Test;
use circuit::{ModelEnd, ModelFault};
use text_grammar::read_number;

/// How many bytes of a text of `total` bytes stand in front of the last ones.
pub fn place(total: u64, last: &[u8]) -> u64
    ensures { result ≡ place total last.now }
{
    total.saturating_sub(last.len() as u64)
}

/// The fault where these bytes begin with no number, or with another byte than the line needs: `Number`, or `Truncated`
/// where there is no byte.
pub fn unfit(total: u64, bytes: &[u8]) -> ModelFault
    ensures { result ≡ unfit total bytes.now }
{
    if bytes.is_empty() {
        return ModelFault::Truncated(total);
    }
    ModelFault::Number(place(total, bytes))
}

/// Whether the number may stand where this is asked.
pub fn passes(test: Test, n: u64) -> bool
    ensures { result ≡ passes test n }
{
    match test {
        Test::Variable(max) => n % 2 == 0 && n > 0 && n / 2 <= max,
        Test::Literal(max) => n / 2 <= max,
        Test::Reset(literal) => n <= 1 || n == literal,
        Test::Size(fairness) => {
            n <= MAX_PROPERTY_LITERALS && fairness <= MAX_PROPERTY_LITERALS - n
        }
    }
}

// The fault of a number at this place that may not stand there.
fn test_fault(test: Test, at: u64) -> ModelFault
    ensures { result ≡ test_fault test at }
{
    match test {
        Test::Variable(_) | Test::Literal(_) | Test::Reset(_) => ModelFault::Range(at),
        Test::Size(_) => ModelFault::Limit(at),
    }
}

/// The number at the front, at most 4,294,967,295, and the bytes behind it. A leading zero, a number too great and what
/// is no number are `Number`, the end of the text `Truncated`.
#[tactic(auto, unfolding(aiger_grammar::specs::Reading::numeral_at))]
pub fn number(total: u64, bytes: &[u8]) -> Result<(u64, &[u8]), ModelEnd>
    ensures { GivesRead (λ x. (x.0, x.1.now)) result (numeral_at total bytes.now) }
{
    match read_number(bytes, MAX_NUMBER) {
        Some((n, rest)) => Ok((n, rest)),
        None => Err(ModelEnd::Fault(unfit(total, bytes))),
    }
}

/// What stands behind this byte. Another byte is `Number` at it, the end of the text `Truncated`.
#[tactic(auto, unfolding(aiger_grammar::specs::Reading::byte_at))]
pub fn behind(byte: u8, total: u64, bytes: &[u8]) -> Result<&[u8], ModelEnd>
    ensures { GivesRead (λ rest. (tt, rest.now)) result (byte_at byte total bytes.now) }
{
    match bytes {
        [b, rest @ ..] if *b == byte => Ok(rest),
        _ => Err(ModelEnd::Fault(unfit(total, bytes))),
    }
}

/// The number at the front, and the bytes behind it. One that does not pass the test is `Range` at its first byte, or
/// `Limit` where it is a size.
#[tactic(auto, unfolding(aiger_grammar::specs::Reading::value_at))]
pub fn value(test: Test, total: u64, bytes: &[u8]) -> Result<(u64, &[u8]), ModelEnd>
    ensures { GivesRead (λ x. (x.0, x.1.now)) result (value_at test total bytes.now) }
{
    let (n, rest) = number(total, bytes)?;
    if !passes(test, n) {
        return Err(ModelEnd::Fault(test_fault(test, place(total, bytes))));
    }
    Ok((n, rest))
}

/// The number at the front, which passes the test, and the bytes behind the byte that ends it.
#[tactic(auto, unfolding(aiger_grammar::specs::Reading::field_at))]
pub fn field(test: Test, stop: u8, total: u64, bytes: &[u8]) -> Result<(u64, &[u8]), ModelEnd>
    ensures { GivesRead (λ x. (x.0, x.1.now)) result (field_at test stop total bytes.now) }
{
    let (n, after) = value(test, total, bytes)?;
    let rest = behind(stop, total, after)?;
    Ok((n, rest))
}
