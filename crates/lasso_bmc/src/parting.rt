//! Which clauses of a position come into the solver first: those of the property's cone. No contract says which they are.
//! The main call is `part`.

ghost use Rattle.std.specs.Prelude.{◌≡◌, ◌&&◌, ◌∷◌, [], ℕ, Bool, IfOk, OnOk};
ghost use Rattle.proof_semantics.specs.Clauses.{clause_value, clauses_value};

use cnf::Clause;
use cone::Cone;
use std::alloc::{AllocError, Global};

/// Which clauses are taken: those of a cone in the block with this base, where no variable is above the greatest; or all.
#[derive(Drop)]
pub(crate) struct Choice {
    pub(crate) cone: Cone,
    pub(crate) base: u64,
    pub(crate) max: u64,
    pub(crate) is_all: bool,
}

impl Choice {
    // The variable whose value, or whose value at the next position, has this number.
    fn variable(&self, number: u64) -> Option<u64> {
        let place = number.checked_sub(self.base)?.checked_sub(1)?;
        if place <= self.max {
            return Some(place);
        }
        let next = place.checked_sub(self.max)?.checked_sub(1)?;
        if next <= self.max { Some(next) } else { None }
    }

    // Whether a clause is taken: one literal alone, or a first literal that is of no variable outside the cone.
    fn takes(&self, clause: &Clause) -> bool {
        let literals = clause.as_slice();
        if self.is_all || literals.len() == 1 {
            return true;
        }
        let Some(first) = literals.first() else {
            return true;
        };
        match self.variable(first.var) {
            Some(variable) => self.cone.has(variable),
            None => true,
        }
    }
}

// Puts a clause behind those of one of two lists.
fn put(
    is_taken: bool,
    clause: Clause,
    taken: &mut Vec<Clause>,
    rest: &mut Vec<Clause>,
) -> Result<(), AllocError>
    ensures { OnOk result ((v : ℕ → Bool) → ((clauses_value v taken.old.items && clauses_value v rest.old.items) && clause_value v clause)
        ≡ (clauses_value v taken.new.items && clauses_value v rest.new.items)) }
{
    if is_taken {
        taken.push(clause)?;
        return Ok(());
    }
    rest.push(clause)?;
    Ok(())
}

/// The clauses that are taken; the others come behind the rest.
pub(crate) fn part(
    alloc: Global,
    choice: &Choice,
    clauses: Vec<Clause>,
    rest: &mut Vec<Clause>,
) -> Result<Vec<Clause>, AllocError>
    ensures { IfOk result (λ taken. (v : ℕ → Bool) → (clauses_value v rest.old.items && clauses_value v clauses.items)
        ≡ (clauses_value v taken.items && clauses_value v rest.new.items)) }
{
    let mut taken = Vec::new(alloc);
    for clause in clauses {
        let is_taken = choice.takes(&clause);
        put(is_taken, clause, &mut taken, rest)?;
    }
    Ok(taken)
}
