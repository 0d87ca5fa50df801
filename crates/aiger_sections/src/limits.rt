//! The limits of a text and of its header, which are the same in both forms.
ghost use Rattle.std.specs.Prelude.{◌≡◌, ◌≤◌, IfOk, IsTrue, length, nat_lt};
ghost use Rattle.aiger_grammar.specs.Answered.{GivesRead};
ghost use Rattle.aiger_grammar.specs.Headers.{within_limit};

use aig_semantics::{MAX_MODEL_BYTES, MAX_VARIABLE};
use aiger_grammar::Heading;
use circuit::{ModelEnd, ModelFault};

/// Whether a text is longer than what is read, 1,073,741,824 bytes.
pub fn is_too_long(bytes: &[u8]) -> bool
    ensures { result ≡ nat_lt MAX_MODEL_BYTES (length bytes.now) }
{
    bytes.len() as u64 > MAX_MODEL_BYTES
}

/// A header that fits its form or does not, and the bytes behind it. One that does not is `Header` at 0; of one that
/// does, a greatest variable above 16,777,216 is `Limit` at 0.
pub fn within_limit(fits: bool, heading: Heading, body: &[u8]) -> Result<(Heading, &[u8]), ModelEnd>
    ensures read { GivesRead (λ x. (x.0, x.1.now)) result (within_limit fits heading body.now) }
    ensures within { IfOk result (λ x. IsTrue fits × (x.0 ≡ heading) × (x.0.max ≤ MAX_VARIABLE)) }
{
    if !fits {
        return Err(ModelEnd::Fault(ModelFault::Header(0)));
    }
    if heading.max > MAX_VARIABLE {
        return Err(ModelEnd::Fault(ModelFault::Limit(0)));
    }
    Ok((heading, body))
}
