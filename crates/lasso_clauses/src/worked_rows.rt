//! Worked rows: small lasso clauses, computed from the definitions. No function here does anything.
ghost use Rattle.std.specs.Prelude.{◌≡◌, [], ◌∷◌, ◌++◌};
ghost use Rattle.aig_semantics.specs.Examples.{toggle};
ghost use Rattle.cnf_unroll.specs.Numbers.{plus, minus};
ghost use Rattle.lasso_clauses.specs.Clauses.{lasso_clauses};
ghost use Rattle.lasso_clauses.specs.Examples.{first_toggle};

/// One position of the toggling latch, which is the last one.
pub fn one_position()
    ensures { lasso_clauses toggle 0 1 ≡ first_toggle ++ (plus 9 ∷ []) ∷ [] }
{}

/// The second position follows from the first, and its successor is the state in which the loop begins.
pub fn two_positions()
    ensures { lasso_clauses toggle 0 2 ≡ first_toggle
        ++ (minus 11 ∷ []) ∷ (minus 14 ∷ minus 12 ∷ []) ∷ (plus 14 ∷ plus 12 ∷ [])
        ∷ (minus 12 ∷ plus 6 ∷ []) ∷ (plus 12 ∷ minus 6 ∷ [])
        ∷ (minus 12 ∷ plus 2 ∷ minus 15 ∷ []) ∷ (plus 12 ∷ minus 2 ∷ minus 15 ∷ [])
        ∷ (minus 16 ∷ plus 15 ∷ plus 8 ∷ []) ∷ (minus 17 ∷ plus 16 ∷ [])
        ∷ (minus 14 ∷ plus 2 ∷ minus 17 ∷ []) ∷ (plus 14 ∷ minus 2 ∷ minus 17 ∷ [])
        ∷ (minus 18 ∷ plus 16 ∷ []) ∷ (minus 18 ∷ plus 12 ∷ plus 10 ∷ []) ∷ (minus 17 ∷ plus 18 ∷ [])
        ∷ (plus 17 ∷ []) ∷ [] }
{}
