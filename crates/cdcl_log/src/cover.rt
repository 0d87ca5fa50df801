//! The variables of clauses, each of them once. The main type is `Cover`.
ghost use Rattle.std.specs.Prelude.{◌≡◌, [], OnOk, IsTrue, true, nat_eq};
ghost use Rattle.std.specs.List.{list_any};
ghost use Rattle.cdcl_log.specs.Variables.{is_over, HasAll};

use cnf::{Lit, Var};
use packed_literals::Table;
use std::alloc::{AllocError, Global};
use std::marker::Model;

/// Variables, in the order in which they came, and where each stands.
#[derive(Drop)]
pub(crate) struct Cover {
    variables: Vec<Var>,
    places: Table<usize>,
}

impl Model for Cover {
    ghost use Rattle.std.specs.Prelude.{ℕ, List};

    ghost Value = { List ℕ };

    ghost view = { λ c. c.variables.items };
}

impl Cover {
    /// No variable. Takes no memory.
    pub(crate) fn new(alloc: Global) -> Cover
        ensures { result ≡ [] }
    {
        Cover {
            variables: Vec::new(alloc),
            places: Table::new(alloc),
        }
    }

    /// The variables. Takes no memory.
    pub(crate) fn variables(&self) -> &[Var]
        ensures { result.now ≡ self.now }
    {
        self.variables.as_slice()
    }

    /// Takes in the variables of a clause. The error is want of memory; what was there stays.
    #[tactic(auto, using(crate::proofs::CoverLaws::has_all_same, crate::proofs::CoverLaws::has_all_chain))]
    pub(crate) fn meet(&mut self, clause: &[Lit]) -> Result<(), AllocError>
        ensures over { OnOk result (is_over self.new clause.now ≡ true) }
        ensures stays { HasAll self.old self.new }
    {
        for literal in clause {
            self.meet_one(literal.var)?;
        }
        Ok(())
    }

    // Takes in a variable. The error is want of memory; what was there stays.
    fn meet_one(&mut self, var: Var) -> Result<(), AllocError>
        ensures has { OnOk result (list_any (nat_eq var) self.new ≡ true) }
        ensures stays { HasAll self.old self.new }
    {
        if self.has(var) {
            return Ok(());
        }
        let place = self.variables.len();
        self.variables.push(var)?;
        self.places.insert(var, place)
    }

    /// Whether the variables of the literals were taken in. Takes no memory.
    pub(crate) fn has_all(&self, lits: &[Lit]) -> bool
        ensures { IsTrue result → is_over self.now lits.now ≡ true }
    {
        for literal in lits {
            if !self.has(literal.var) {
                return false;
            }
        }
        true
    }

    // Whether a variable was taken in, as far as its place tells.
    fn has(&self, var: Var) -> bool
        ensures { IsTrue result → list_any (nat_eq var) self.now ≡ true }
    {
        match self.places.get(var) {
            None => false,
            Some(place) => stands_at(self.variables.as_slice(), place, var),
        }
    }
}

// Whether a variable stands at a place.
fn stands_at(variables: &[Var], place: usize, var: Var) -> bool
    ensures { IsTrue result → list_any (nat_eq var) variables.now ≡ true }
{
    match variables.get(place) {
        None => false,
        Some(other) => var == *other,
    }
}
