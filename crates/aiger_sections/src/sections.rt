//! The lines of each section: of an input, a latch, a literal, a size and a gate, each a `Line`.
ghost use Rattle.std.specs.Prelude.{◌≡◌, ◌/◌};
ghost use Rattle.aiger_grammar.specs.Answered.{GivesRead};
ghost use Rattle.aiger_grammar.specs.Sections.{input_at, reset_of, reset_at, next_at, latch_at, literal_at, size_at, gate_at};

use crate::fields::{field, unfit, value};
use crate::lines::Line;
use aig_semantics::{Gate, Latch, Reset};
use aiger_grammar::Test;
use circuit::ModelEnd;

/// An input, with a variable up to `max`.
#[derive(Clone, Copy)]
pub struct InputLine {
    pub max: u64,
}

/// A latch of an ASCII text, with variables up to `max`.
#[derive(Clone, Copy)]
pub struct LatchLine {
    pub max: u64,
}

/// A literal, with a variable up to `max`.
#[derive(Clone, Copy)]
pub struct LiteralLine {
    pub max: u64,
}

/// The size of a property, where there are so many fairness literals.
#[derive(Clone, Copy)]
pub struct SizeLine {
    pub fairness: u64,
}

/// A gate of an ASCII text, with variables up to `max`.
#[derive(Clone, Copy)]
pub struct GateLine {
    pub max: u64,
}

impl Line<u64> for InputLine {
    ghost within = { λ line number. Unit {0} };

    ghost item_at = { λ line number total. input_at line.max total };

    #[tactic(auto, unfolding(aiger_grammar::specs::Sections::input_at))]
    fn read<'a>(
        &self,
        _number: u64,
        total: u64,
        bytes: &'a [u8],
    ) -> Result<(u64, &'a [u8]), ModelEnd> {
        let (literal, rest) = field(Test::Variable(self.max), b'\n', total, bytes)?;
        Ok((literal / 2, rest))
    }
}

impl Line<Latch> for LatchLine {
    ghost within = { λ line number. Unit {0} };

    ghost item_at = { λ line number total. latch_at line.max total };

    #[tactic(auto, unfolding(aiger_grammar::specs::Sections::latch_at))]
    fn read<'a>(
        &self,
        _number: u64,
        total: u64,
        bytes: &'a [u8],
    ) -> Result<(Latch, &'a [u8]), ModelEnd> {
        let (literal, after) = field(Test::Variable(self.max), b' ', total, bytes)?;
        read_next(literal, self.max, total, after)
    }
}

impl Line<u64> for LiteralLine {
    ghost within = { λ line number. Unit {0} };

    ghost item_at = { λ line number total. literal_at line.max total };

    #[tactic(auto, unfolding(aiger_grammar::specs::Sections::literal_at))]
    fn read<'a>(
        &self,
        _number: u64,
        total: u64,
        bytes: &'a [u8],
    ) -> Result<(u64, &'a [u8]), ModelEnd> {
        field(Test::Literal(self.max), b'\n', total, bytes)
    }
}

impl Line<u64> for SizeLine {
    ghost within = { λ line number. Unit {0} };

    ghost item_at = { λ line number total. size_at line.fairness total };

    #[tactic(auto, unfolding(aiger_grammar::specs::Sections::size_at))]
    fn read<'a>(
        &self,
        _number: u64,
        total: u64,
        bytes: &'a [u8],
    ) -> Result<(u64, &'a [u8]), ModelEnd> {
        field(Test::Size(self.fairness), b'\n', total, bytes)
    }
}

impl Line<Gate> for GateLine {
    ghost within = { λ line number. Unit {0} };

    ghost item_at = { λ line number total. gate_at line.max total };

    #[tactic(auto, unfolding(aiger_grammar::specs::Sections::gate_at))]
    fn read<'a>(
        &self,
        _number: u64,
        total: u64,
        bytes: &'a [u8],
    ) -> Result<(Gate, &'a [u8]), ModelEnd> {
        let (literal, rest) = field(Test::Variable(self.max), b' ', total, bytes)?;
        let (rhs0, rest) = field(Test::Literal(self.max), b' ', total, rest)?;
        let (rhs1, rest) = field(Test::Literal(self.max), b'\n', total, rest)?;
        let gate = Gate {
            var: literal / 2,
            rhs0,
            rhs1,
        };
        Ok((gate, rest))
    }
}

/// The end of a line of the latch with this literal: its next literal, with a variable up to `max`, and its reset, which
/// is 0 where it is left out; and the bytes behind the line.
#[tactic(auto, unfolding(aiger_grammar::specs::Sections::next_at))]
pub fn read_next(
    literal: u64,
    max: u64,
    total: u64,
    bytes: &[u8],
) -> Result<(Latch, &[u8]), ModelEnd>
    ensures { GivesRead (λ x. (x.0, x.1.now)) result (next_at literal max total bytes.now) }
{
    let (next, after) = value(Test::Literal(max), total, bytes)?;
    let (reset, rest) = reset(literal, total, after)?;
    let latch = Latch {
        var: literal / 2,
        next,
        reset,
    };
    Ok((latch, rest))
}

// The end of a latch's line: a line feed, or a space and the reset.
#[tactic(auto, unfolding(aiger_grammar::specs::Sections::reset_at))]
fn reset(literal: u64, total: u64, bytes: &[u8]) -> Result<(Reset, &[u8]), ModelEnd>
    ensures { GivesRead (λ x. (x.0, x.1.now)) result (reset_at literal total bytes.now) }
{
    match bytes {
        [b'\n', rest @ ..] => Ok((Reset::Zero, rest)),
        [b' ', after @ ..] => {
            let (n, rest) = field(Test::Reset(literal), b'\n', total, after)?;
            Ok((reset_by(n), rest))
        }
        _ => Err(ModelEnd::Fault(unfit(total, bytes))),
    }
}

// What a reset stands for, by its number.
fn reset_by(n: u64) -> Reset
    ensures { result ≡ reset_of n }
{
    match n {
        0 => Reset::Zero,
        1 => Reset::One,
        _ => Reset::Free,
    }
}
