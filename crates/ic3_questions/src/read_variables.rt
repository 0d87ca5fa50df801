//! AIGER literals in the block. The main call is `is_read`.
ghost use Rattle.std.specs.Prelude.{◌≡◌, ◌==◌};
ghost use Rattle.std.specs.List.{list_any};
ghost use Rattle.cnf_unroll.specs.Numbers.{literal_in_block};
ghost use Rattle.ic3_questions.specs.ReadVariables.{is_read};

use circuit::Circuit;
use cnf::Lit;

fn is_input(c: &Circuit, variable: u64) -> bool
    ensures { result ≡ list_any (λ u. u == variable) c.now.inputs }
{
    c.inputs().iter().any(|input| *input == variable)
}

fn is_latch(c: &Circuit, variable: u64) -> bool
    ensures { result ≡ list_any (λ latch. latch.var == variable) c.now.latches }
{
    c.latches().iter().any(|latch| latch.var == variable)
}

fn is_gate(c: &Circuit, variable: u64) -> bool
    ensures { result ≡ list_any (λ gate. gate.var == variable) c.now.gates }
{
    c.gates().iter().any(|gate| gate.var == variable)
}

/// Whether the variable is 0, an input, a latch or a gate; of others the clauses of a block say nothing.
pub fn is_read(c: &Circuit, variable: u64) -> bool
    ensures { result ≡ is_read c.now variable }
{
    variable == 0 || is_input(c, variable) || is_latch(c, variable) || is_gate(c, variable)
}

/// The literal of the first block that is true where the AIGER literal is.
pub fn literal_in_block(literal: u64) -> Lit
    ensures { result ≡ literal_in_block 0 literal }
{
    Lit {
        var: 1 + literal / 2,
        positive: literal % 2 != 1,
    }
}
