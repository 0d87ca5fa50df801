//! The numbers of the variables that the monitor adds.

ghost use Rattle.std.specs.Prelude.{◌≡◌, ◌+◌, ◌-◌, ◌*◌, ◌^◌, ◌≤◌, ◌<◌, length};
ghost use Rattle.aig_semantics.specs.declared.limits.TheConstants.{MAX_NUMBER, MAX_VARIABLE};
ghost use Rattle.live_to_safe.specs.Numbers.{positive, negative, negation};
ghost use Rattle.round_monitor.specs.Numbers.{sizes_of, seen, counter, missing, ending, seen_gate, counter_gate, greatest};

use circuit::Circuit;

/// What these numbers are counted from.
#[derive(Clone, Copy)]
pub struct Sizes {
    /// The circuit's greatest variable.
    pub variables: u64,
    /// How many literals the property and fairness have.
    pub literals: u64,
    /// How many rounds are counted.
    pub counters: u64,
}

/// The sizes of a circuit, its property `j` and `k` rounds.
pub(crate) fn sizes_of(c: &Circuit, j: usize, k: u32) -> Sizes
    requires { j < length c.now.justice }
    ensures sizes { result ≡ sizes_of c.now j k }
    ensures variables { result.variables ≤ MAX_VARIABLE }
    ensures literals { result.literals ≤ MAX_NUMBER }
    ensures counters { result.counters < 2 ^ 32 }
{
    Sizes {
        variables: c.max(),
        literals: c.property(j).len() as u64 + c.fairness().len() as u64,
        counters: u64::from(k),
    }
}

/// The literal of a variable.
pub(crate) fn positive(v: u64) -> u64
    requires { v ≤ MAX_VARIABLE }
    ensures { result ≡ positive v }
{
    2 * v
}

/// The negated literal of a variable.
pub(crate) fn negative(v: u64) -> u64
    requires { v ≤ MAX_VARIABLE }
    ensures { result ≡ negative v }
{
    2 * v + 1
}

/// The negation of a literal.
pub(crate) fn negation(literal: u64) -> u64
    requires { literal ≤ 2 * MAX_VARIABLE + 1 }
    ensures { result ≡ negation literal }
{
    if literal % 2 == 1 {
        literal - 1
    } else {
        literal + 1
    }
}

/// The greatest variable of the monitor.
pub(crate) fn greatest(z: Sizes) -> u64
    requires variables { z.variables ≤ MAX_VARIABLE }
    requires literals { z.literals ≤ MAX_NUMBER }
    requires counters { z.counters < 2 ^ 32 }
    ensures { result ≡ greatest z }
{
    let ending = z.variables + 1 + 2 * z.literals + z.counters;
    ending + z.literals.saturating_sub(1) + z.literals + 2 * z.counters.saturating_sub(1)
}

/// The latch that tells whether literal `m` was seen.
pub(crate) fn seen(z: Sizes, m: u64) -> u64
    requires fits { greatest z ≤ MAX_VARIABLE }
    requires inside { m < z.literals }
    ensures { result ≡ seen z m }
{
    z.variables + 1 + m
}

/// Counter `i`.
pub(crate) fn counter(z: Sizes, i: u64) -> u64
    requires fits { greatest z ≤ MAX_VARIABLE }
    requires inside { i < z.counters }
    ensures { result ≡ counter z i }
{
    z.variables + 1 + z.literals + i
}

/// The gate that tells whether literal `m` is missing.
pub(crate) fn missing(z: Sizes, m: u64) -> u64
    requires fits { greatest z ≤ MAX_VARIABLE }
    requires inside { m < z.literals }
    ensures { result ≡ missing z m }
{
    z.variables + 1 + z.literals + z.counters + m
}

/// The first gate of the chain whose last one says that a round ends.
pub(crate) fn ending(z: Sizes) -> u64
    requires { greatest z ≤ MAX_VARIABLE }
    ensures { result ≡ ending z }
{
    z.variables + 1 + z.literals + z.counters + z.literals
}

/// The gate that tells whether literal `m` was seen at the next position.
pub(crate) fn seen_gate(z: Sizes, m: u64) -> u64
    requires fits { greatest z ≤ MAX_VARIABLE }
    requires inside { m < z.literals }
    ensures { result ≡ seen_gate z m }
{
    ending(z) + (z.literals - 1) + m
}

/// The gate of counter `i`.
pub(crate) fn counter_gate(z: Sizes, i: u64) -> u64
    requires fits { greatest z ≤ MAX_VARIABLE }
    requires inside { i < z.counters }
    ensures { result ≡ counter_gate z i }
{
    ending(z) + z.literals.saturating_sub(1) + z.literals + 2 * i
}
