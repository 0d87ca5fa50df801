//! The numbers of a moment. The main type is `Moment`.

ghost use Rattle.std.specs.Prelude.{◌≡◌, ◌^◌, ◌<◌, ◌≤◌, [], ◌∷◌, length};
ghost use Rattle.aig_semantics.specs.Circuits.{fair_literals};
ghost use Rattle.proof_semantics.specs.Lines.{AreSized};
ghost use Rattle.lasso_clauses.specs.Moments.{begins, inside, closes, met, moment_base, moment_before};
ghost use Rattle.lasso_clauses.specs.Clauses.{closing_literal};
ghost use Rattle.lasso_clauses.specs.Lowness.{IsLow};

use crate::numbers::plus;
use circuit::Circuit;
use proof_semantics::Lit;

/// A moment: the base of its block, and that of the moment before, if there is one.
#[derive(Drop)]
pub(crate) struct Moment<'a> {
    pub(crate) circuit: &'a Circuit,
    pub(crate) before: Option<u64>,
    pub(crate) base: u64,
}

pub(crate) fn begins(c: &Circuit, base: u64) -> u64
    requires { base < 2 ^ 62 }
    ensures { result ≡ begins c.now base }
{
    base + (2 * c.max() + 2) + 1
}

pub(crate) fn inside(c: &Circuit, base: u64) -> u64
    requires { base < 2 ^ 62 }
    ensures { result ≡ inside c.now base }
{
    base + (2 * c.max() + 2) + 2
}

pub(crate) fn closes(c: &Circuit, base: u64) -> u64
    requires { base < 2 ^ 62 }
    ensures number { result ≡ closes c.now base }
    ensures small { result < 2 ^ 63 }
{
    base + (2 * c.max() + 2) + 3
}

pub(crate) fn met(c: &Circuit, base: u64, m: u64) -> u64
    requires base { base < 2 ^ 62 }
    requires m { m < 2 ^ 62 }
    ensures { result ≡ met c.now base m }
{
    base + (2 * c.max() + 2) + 4 + m
}

// How many literals are asked for: those of property `j`, and of fairness.
pub(crate) fn count_literals(c: &Circuit, j: u32) -> u64
    requires { j < length c.now.justice }
    ensures count { result ≡ length (fair_literals c.now j) }
    ensures small { result ≤ 256 }
{
    let _limits = c.max();
    (c.property(j as usize).len() + c.fairness().len()) as u64
}

// The base of the moment `i`, where `n` literals are asked for.
pub(crate) fn base_of(c: &Circuit, n: u64, i: u32) -> u64
    requires { n ≤ 256 }
    ensures base { result ≡ moment_base c.now n i }
    ensures small { result < 2 ^ 62 }
{
    let _limits = c.max();
    c.max() + 1 + i as u64 * (2 * c.max() + 2 + 3 + n)
}

pub(crate) fn moment_of<'a>(c: &'a Circuit, n: u64, i: u32) -> Moment<'a>
    requires { n ≤ 256 }
    ensures circuit { result.circuit.now ≡ c.now }
    ensures before { result.before ≡ moment_before c.now n i }
    ensures base { result.base ≡ moment_base c.now n i }
    ensures low { IsLow result }
{
    let before = if i == 0 {
        None
    } else {
        Some(base_of(c, n, i - 1))
    };
    Moment {
        circuit: c,
        before,
        base: base_of(c, n, i),
    }
}

/// The literal by which position `i`, counted from 0, is the last one of a lasso of property `j`: with the clauses of the
/// positions up to it, it is the lasso clauses of `i + 1` positions.
pub fn closing_literal(c: &Circuit, j: u32, i: u32) -> Lit
    requires { j < length c.now.justice }
    ensures literal { result ≡ closing_literal c.now j i }
    ensures sized { AreSized (result ∷ []) }
{
    plus(closes(c, moment_base(c, j, i)))
}

/// The base of the block of position `i`, counted from 0, of lassos of property `j`.
pub fn moment_base(c: &Circuit, j: u32, i: u32) -> u64
    requires { j < length c.now.justice }
    ensures base { result ≡ moment_base c.now (length (fair_literals c.now j)) i }
    ensures small { result < 2 ^ 62 }
{
    base_of(c, count_literals(c, j), i)
}
