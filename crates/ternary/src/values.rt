//! Ternary values: 0, 1, and X for what is not known. The main type is `Value3`.

ghost use Rattle.std.specs.Prelude.{◌≡◌};
ghost use Rattle.ternary.specs.Values.{negation3, and3, known};

/// A value that is known to be 0 or 1, or is not known.
#[derive(Clone, Copy, Debug, PartialEq, Eq)]
pub enum Value3 {
    /// False.
    Zero,
    /// True.
    One,
    /// Not known.
    X,
}

impl Value3 {
    /// The ternary value of a truth value.
    pub fn known(value: bool) -> Value3
        ensures { result ≡ known value }
    {
        if value { Value3::One } else { Value3::Zero }
    }

    /// The negation; that of X is X.
    pub fn negation(self) -> Value3
        ensures { result ≡ negation3 self }
    {
        match self {
            Value3::Zero => Value3::One,
            Value3::One => Value3::Zero,
            Value3::X => Value3::X,
        }
    }

    /// The conjunction: 0 where one of the two is 0, 1 where both are 1, else X.
    pub fn and(self, other: Value3) -> Value3
        ensures { result ≡ and3 self other }
    {
        match (self, other) {
            (Value3::Zero, _) | (_, Value3::Zero) => Value3::Zero,
            (Value3::One, Value3::One) => Value3::One,
            _ => Value3::X,
        }
    }
}
