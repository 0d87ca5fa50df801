//! The values that literals stand for. The main call is `values_from`.
ghost use Rattle.std.specs.Prelude.{◌≡◌, ℕ, IfOk, OnOk, IsTrue, if◌then◌else◌, ◌==◌};
ghost use Rattle.proof_semantics.specs.Clauses.{values_of};
ghost use Rattle.cdcl_trail.specs.Trails.{once};
ghost use Rattle.cdcl.specs.Searching.{AreTrue};

use cnf::Lit;
use items::Items;
use std::alloc::{AllocError, Global};

/// Values under which each of the literals is true, and a variable without one is false.
pub(crate) fn values_from(alloc: Global, literals: &[Lit]) -> Result<Items<bool>, AllocError>
    requires { IsTrue (once literals.now) }
    ensures { IfOk result (λ values. AreTrue values literals.now) }
{
    let mut values: Vec<bool> = Vec::new(alloc);
    for literal in literals {
        put(&mut values, literal.var as usize, literal.positive)?;
    }
    Ok(Items::from_vec(values))
}

// Writes a value at a place, with false before it where the list is too short.
fn put(values: &mut Vec<bool>, place: usize, value: bool) -> Result<(), AllocError>
    ensures { OnOk result ((n : ℕ) → values_of values.new.items n ≡ (if n == place then value else values_of values.old.items n)) }
{
    let length = place.saturating_add(1);
    if values.len() < length {
        values.resize(length, false)?;
    }
    values[place] = value;
    Ok(())
}
