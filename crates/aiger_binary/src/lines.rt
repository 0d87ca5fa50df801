//! The numbered lines of a binary text: of a latch and of a gate, each a `Line`.
ghost use Rattle.std.specs.Prelude.{◌≡◌, ◌+◌, ◌≤◌};
ghost use Rattle.aiger_grammar.specs.Answered.{GivesRead};
ghost use Rattle.aiger_grammar.specs.Sections.{next_at};
ghost use Rattle.aiger_grammar.specs.BinaryTexts.{latch_literal, gate_variable, numbered_gate_at};

use crate::differences::read_gate;
use aig_semantics::{Gate, Latch};
use aiger_grammar::Heading;
use aiger_sections::{Line, read_next};
use circuit::ModelEnd;

/// A latch: its variable is one of those behind the inputs.
#[derive(Clone, Copy)]
pub struct NumberedLatchLine {
    pub heading: Heading,
}

/// A gate: its variable is one of those behind the inputs and latches.
#[derive(Clone, Copy)]
pub struct NumberedGateLine {
    pub heading: Heading,
}

impl Line<Latch> for NumberedLatchLine {
    ghost use Rattle.aig_semantics.specs.declared.limits.TheConstants.{MAX_VARIABLE};

    ghost within = { λ line number. line.heading.inputs + 1 + number ≤ MAX_VARIABLE };

    ghost item_at = { λ line number total. next_at (latch_literal line.heading number) line.heading.max total };

    fn read<'a>(
        &self,
        number: u64,
        total: u64,
        bytes: &'a [u8],
    ) -> Result<(Latch, &'a [u8]), ModelEnd> {
        let literal = 2 * (self.heading.inputs + 1 + number);
        read_next(literal, self.heading.max, total, bytes)
    }
}

impl Line<Gate> for NumberedGateLine {
    ghost use Rattle.aig_semantics.specs.declared.limits.TheConstants.{MAX_VARIABLE};

    ghost within = { λ line number. line.heading.inputs + line.heading.latches + 1 + number ≤ MAX_VARIABLE };

    ghost item_at = { λ line number total. numbered_gate_at (gate_variable line.heading number) total };

    fn read<'a>(
        &self,
        number: u64,
        total: u64,
        bytes: &'a [u8],
    ) -> Result<(Gate, &'a [u8]), ModelEnd> {
        let variable = self.heading.inputs + self.heading.latches + 1 + number;
        read_gate(variable, total, bytes)
    }
}
