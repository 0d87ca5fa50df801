//! Sixty-four ternary values at once. The main type is `Lanes`.

ghost use Rattle.std.specs.Prelude.{◌≡◌, ◌≢◌, ◌↔◌, ℕ, ◌<◌, ◌≤◌};
ghost use Rattle.std.specs.Int.{bit_at};
ghost use Rattle.ternary.specs.Values.{negation3, and3};
ghost use Rattle.ternary.specs.Lanes.{lane_of, value_at};

use crate::values::Value3;
use std::simd::prelude::*;

/// How many lanes there are.
pub const LANES: usize = 64;

/// Ternary values in 64 lanes. Bit k of the first word says that the value of lane k can only be 1, and bit k of
/// the second word that it can be 1; where the second bit is 0 the first tells nothing.
#[derive(Clone, Copy)]
pub struct Lanes {
    planes: u64x2,
}

/// The two words of a value that stands in each lane.
fn words_of(value: Value3) -> [u64; 2]
    ensures { (k : ℕ) → k < 64 → value_at result k ≡ value }
{
    match value {
        Value3::Zero => [0, 0],
        Value3::One => [u64::MAX, u64::MAX],
        Value3::X => [0, u64::MAX],
    }
}

/// The words of the negated values.
fn negated(words: [u64; 2]) -> [u64; 2]
    ensures { (k : ℕ) → k < 64 → value_at result k ≡ negation3 (value_at words k) }
{
    let [one, possible] = words;
    [!possible, !(one & possible)]
}

/// The words where the value at place k, below 64, is this one.
fn with_value(words: [u64; 2], k: usize, value: Value3) -> [u64; 2]
    requires { k < 64 }
    ensures here { value_at result k ≡ value }
    ensures others { (i : ℕ) → i < 64 → i ≢ k → value_at result i ≡ value_at words i }
{
    let [one, possible] = words;
    let bit = 1 << k;
    match value {
        Value3::Zero => [one, possible & !bit],
        Value3::One => [one | bit, possible | bit],
        Value3::X => [one & !bit, possible | bit],
    }
}

/// The words where the values at the places from `from` on, which is below 64, are X.
fn unknown_words(words: [u64; 2], from: usize) -> [u64; 2]
    requires { from < 64 }
    ensures hidden { (k : ℕ) → k < 64 → from ≤ k → value_at result k ≡ Value3.X }
    ensures shown { (k : ℕ) → k < from → value_at result k ≡ value_at words k }
{
    let [one, possible] = words;
    let rest = u64::MAX << from;
    [one & !rest, possible | rest]
}

/// The places where the value is 1, as the bits of a word.
fn ones_in(words: [u64; 2]) -> u64
    ensures { (k : ℕ) → k < 64 → ((bit_at result k ≡ 1) ↔ (value_at words k ≡ Value3.One)) }
{
    let [one, possible] = words;
    one & possible
}

/// The value at place k of two words.
fn value_in(words: [u64; 2], k: usize) -> Value3
    requires { k < 64 }
    ensures { result ≡ value_at words k }
{
    let [one, possible] = words;
    if possible >> k & 1 == 0 {
        Value3::Zero
    } else if one >> k & 1 == 0 {
        Value3::X
    } else {
        Value3::One
    }
}

impl Lanes {
    /// The value in lane `k`.
    pub fn lane(self, k: usize) -> Value3
        requires { k < 64 }
        ensures { result ≡ lane_of self k }
    {
        value_in(self.planes.to_array(), k)
    }

    /// The same lanes with this value in lane `k`.
    pub fn with_lane(self, k: usize, value: Value3) -> Lanes
        requires { k < 64 }
        ensures here { lane_of result k ≡ value }
        ensures others { (i : ℕ) → i < 64 → i ≢ k → lane_of result i ≡ lane_of self i }
    {
        Lanes {
            planes: u64x2::from_array(with_value(self.planes.to_array(), k, value)),
        }
    }

    /// The same value in each lane.
    pub fn splat(value: Value3) -> Lanes
        ensures { (k : ℕ) → k < 64 → lane_of result k ≡ value }
    {
        Lanes {
            planes: u64x2::from_array(words_of(value)),
        }
    }

    /// The same lanes with X from lane `from` on.
    pub fn unknown_from(self, from: usize) -> Lanes
        requires { from < 64 }
        ensures hidden { (k : ℕ) → k < 64 → from ≤ k → lane_of result k ≡ Value3.X }
        ensures shown { (k : ℕ) → k < from → lane_of result k ≡ lane_of self k }
    {
        Lanes {
            planes: u64x2::from_array(unknown_words(self.planes.to_array(), from)),
        }
    }

    /// The lanes whose value is 1, as the bits of a word.
    pub fn ones(self) -> u64
        ensures { (k : ℕ) → k < 64 → ((bit_at result k ≡ 1) ↔ (lane_of self k ≡ Value3.One)) }
    {
        ones_in(self.planes.to_array())
    }

    /// The negation in each lane.
    pub fn negation(self) -> Lanes
        ensures { (k : ℕ) → k < 64 → lane_of result k ≡ negation3 (lane_of self k) }
    {
        Lanes {
            planes: u64x2::from_array(negated(self.planes.to_array())),
        }
    }

    /// The conjunction in each lane.
    pub fn and(self, other: Lanes) -> Lanes
        ensures { (k : ℕ) → k < 64 → lane_of result k ≡ and3 (lane_of self k) (lane_of other k) }
    {
        Lanes {
            planes: self.planes & other.planes,
        }
    }
}
