//! The laws of trimming. The call does nothing; its contract is the laws.

ghost use Rattle.cert_tools.specs.Laws.{TrimmedIsGood, TrimmedStays, OneTrimmed, OneHeld};

use circuit::Circuit;

/// What is printed of a trimmed answer has it, and so is a good answer for the same property, where it is within the limit
/// on its length; a trimmed answer stays as it is when it is trimmed; an answer is trimmed to one thing; and a text has one
/// answer.
pub fn trimmed_answers_are_good(c: &Circuit)
    ensures good { TrimmedIsGood c.now }
    ensures again { TrimmedStays c.now }
    ensures one { OneTrimmed c.now }
    ensures held { OneHeld c.now }
{}
