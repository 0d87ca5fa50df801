//! Literals. The main type is `Lit`.
ghost use Rattle.std.specs.Prelude.{◌≡◌};
ghost use Rattle.proof_semantics.specs.Clauses.{lit_eq, negation, literal_value, values_of};

/// A variable or its negation. Variables are numbered from 1; a proof writes the negation of
/// variable 7 as `-7`.
#[derive(Clone, Copy, Debug, Default, PartialEq, Eq, PartialOrd, Ord, Hash)]
pub struct Lit {
    /// The number of the variable.
    pub var: u64,
    /// Whether it is the variable itself, and not its negation.
    pub positive: bool,
}

impl Lit {
    /// The literal that is true exactly where this one is false.
    pub fn negation(self) -> Lit
        ensures { result ≡ negation self }
    {
        Lit {
            var: self.var,
            positive: !self.positive,
        }
    }

    /// Whether the two are the same literal.
    pub fn is(self, other: Lit) -> bool
        ensures { result ≡ lit_eq self other }
    {
        self.var == other.var && self.positive == other.positive
    }

    /// Whether the literal is true where variable v has the value at place v. A variable past the
    /// end is false.
    pub fn holds(self, values: &[bool]) -> bool
        ensures { result ≡ literal_value (values_of values.now) self }
    {
        let value = values.get(self.var as usize).copied().unwrap_or(false);
        value == self.positive
    }
}
