//! The numbers of the variables that the translation adds.

ghost use Rattle.std.specs.Prelude.{◌≡◌, ◌+◌, ◌*◌, ◌≤◌, ◌<◌, length};
ghost use Rattle.aig_semantics.specs.declared.limits.TheConstants.{MAX_NUMBER, MAX_VARIABLE};
ghost use Rattle.live_to_safe.specs.Numbers.{sizes_of, positive, negative, negation, copy, seen, saving, latch_gate, literal_gate, bad_gate, greatest};

use circuit::Circuit;

/// What these numbers are counted from.
#[derive(Clone, Copy)]
pub struct Sizes {
    /// The circuit's greatest variable.
    pub variables: u64,
    /// How many latches it has.
    pub latches: u64,
    /// How many literals the property and fairness have.
    pub literals: u64,
}

/// The sizes of a circuit and its property `j`.
pub(crate) fn sizes_of(c: &Circuit, j: usize) -> Sizes
    requires { j < length c.now.justice }
    ensures sizes { result ≡ sizes_of c.now j }
    ensures variables { result.variables ≤ MAX_VARIABLE }
    ensures latches { result.latches ≤ MAX_NUMBER }
    ensures literals { result.literals ≤ MAX_NUMBER }
{
    Sizes {
        variables: c.max(),
        latches: c.latches().len() as u64,
        literals: c.property(j).len() as u64 + c.fairness().len() as u64,
    }
}

/// The literal of a variable.
pub(crate) fn positive(v: u64) -> u64
    requires { v ≤ MAX_VARIABLE }
    ensures { result ≡ positive v }
{
    2 * v
}

/// The negated literal of a variable.
pub(crate) fn negative(v: u64) -> u64
    requires { v ≤ MAX_VARIABLE }
    ensures { result ≡ negative v }
{
    2 * v + 1
}

/// The negation of a literal.
pub(crate) fn negation(literal: u64) -> u64
    requires { literal ≤ 2 * MAX_VARIABLE + 1 }
    ensures { result ≡ negation literal }
{
    if literal % 2 == 1 {
        literal - 1
    } else {
        literal + 1
    }
}

/// The greatest variable of the translation.
pub(crate) fn greatest(z: Sizes) -> u64
    requires variables { z.variables ≤ MAX_VARIABLE }
    requires latches { z.latches ≤ MAX_NUMBER }
    requires literals { z.literals ≤ MAX_NUMBER }
    ensures { result ≡ greatest z }
{
    z.variables + 4 + 8 * z.latches + 4 * z.literals
}

/// The gate that tells whether the state is saved now.
pub(crate) fn saving(z: Sizes) -> u64
    requires { greatest z ≤ MAX_VARIABLE }
    ensures { result ≡ saving z }
{
    z.variables + 3 + z.latches + z.literals
}

/// The copy of latch `i`.
pub(crate) fn copy(z: Sizes, i: u64) -> u64
    requires fits { greatest z ≤ MAX_VARIABLE }
    requires inside { i < z.latches }
    ensures { result ≡ copy z i }
{
    z.variables + 3 + i
}

/// The latch that tells whether literal `m` was seen.
pub(crate) fn seen(z: Sizes, m: u64) -> u64
    requires fits { greatest z ≤ MAX_VARIABLE }
    requires inside { m < z.literals }
    ensures { result ≡ seen z m }
{
    z.variables + 3 + z.latches + m
}

/// The first gate of latch `i`.
pub(crate) fn latch_gate(z: Sizes, i: u64) -> u64
    requires fits { greatest z ≤ MAX_VARIABLE }
    requires inside { i < z.latches }
    ensures { result ≡ latch_gate z i }
{
    saving(z) + 2 + 6 * i
}

/// The first gate of literal `m`.
pub(crate) fn literal_gate(z: Sizes, m: u64) -> u64
    requires fits { greatest z ≤ MAX_VARIABLE }
    requires inside { m < z.literals }
    ensures { result ≡ literal_gate z m }
{
    saving(z) + 2 + 6 * z.latches + 2 * m
}

/// The first gate of the chain whose last is the bad state literal.
pub(crate) fn bad_gate(z: Sizes) -> u64
    requires { greatest z ≤ MAX_VARIABLE }
    ensures { result ≡ bad_gate z }
{
    saving(z) + 2 + 6 * z.latches + 2 * z.literals
}
