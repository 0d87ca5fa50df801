//! Latches and gates. A variable `v` has the literals `2v` and `2v + 1`, its negation; variable 0 is false.

/// The value that a latch begins with.
#[derive(Clone, Copy, Debug, PartialEq, Eq)]
pub enum Reset {
    /// The latch begins with 0.
    Zero,
    /// The latch begins with 1.
    One,
    /// The latch begins with either value.
    Free,
}

impl Reset {
    ghost use Rattle.std.specs.Prelude.{◌≡◌, ◌↔◌, IsTrue};
    ghost use Rattle.aig_semantics.specs.Runs.{AgreesWith, agrees_with};

    /// Whether a latch with this reset may begin with the value.
    pub fn agrees_with(self, value: bool) -> bool
        ensures test { result ≡ agrees_with self value }
        ensures exactly { IsTrue result ↔ AgreesWith self value }
    {
        match self {
            Reset::Zero => !value,
            Reset::One => value,
            Reset::Free => true,
        }
    }
}

/// A latch: its variable, from 1 to the circuit's greatest; the literal that gives its next value; its reset.
#[derive(Clone, Copy, Debug, PartialEq, Eq)]
pub struct Latch {
    pub var: u64,
    pub next: u64,
    pub reset: Reset,
}

/// An and gate: its variable, from 1 to the circuit's greatest, and the two literals whose conjunction it is.
#[derive(Clone, Copy, Debug, PartialEq, Eq)]
pub struct Gate {
    pub var: u64,
    pub rhs0: u64,
    pub rhs1: u64,
}
