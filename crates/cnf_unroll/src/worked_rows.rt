//! Worked rows: the clauses of small obligations and skeletons, computed from the definitions. No function here does
//! anything.
ghost use Rattle.std.specs.Prelude.{◌≡◌, [], ◌∷◌};
ghost use Rattle.cnf_unroll.specs.Numbers.{plus, minus};
ghost use Rattle.cnf_unroll.specs.Obligations.{obligation_clauses, skeleton_clauses};
ghost use Rattle.cnf_unroll.specs.Examples.{rises, latch_true, latch_false, first_wall, second_wall, outside_first};

/// The latch stays true once it is: constant, gate-less latch, the set at the state, the broken clause at the successor.
pub fn latch_stays_true()
    ensures { obligation_clauses rises [] [] latch_true 0
        ≡ (minus 1 ∷ []) ∷ (minus 4 ∷ minus 1 ∷ []) ∷ (plus 4 ∷ plus 1 ∷ []) ∷ (plus 2 ∷ []) ∷ (minus 4 ∷ []) ∷ [] }
{}

/// No skeleton has its places on one side of that wall, whose side is 5 and whose marks are 6 and 7.
pub fn wall_excludes_skeleton()
    ensures { skeleton_clauses rises 0 (first_wall ∷ [])
        ≡ (minus 1 ∷ []) ∷ (minus 4 ∷ minus 1 ∷ []) ∷ (plus 4 ∷ plus 1 ∷ []) ∷ (minus 2 ∷ [])
        ∷ (minus 5 ∷ plus 2 ∷ []) ∷ (minus 6 ∷ minus 2 ∷ []) ∷ (plus 5 ∷ plus 6 ∷ [])
        ∷ (minus 5 ∷ plus 4 ∷ []) ∷ (minus 7 ∷ minus 4 ∷ []) ∷ (plus 5 ∷ plus 7 ∷ []) ∷ [] }
{}

/// A second wall outside the first: its obligation has the first wall's side, 5, false.
pub fn wall_outside_another()
    ensures { obligation_clauses rises (first_wall ∷ []) outside_first latch_false 0
        ≡ (minus 1 ∷ []) ∷ (minus 4 ∷ minus 1 ∷ []) ∷ (plus 4 ∷ plus 1 ∷ [])
        ∷ (minus 5 ∷ plus 2 ∷ []) ∷ (minus 6 ∷ minus 2 ∷ []) ∷ (plus 5 ∷ plus 6 ∷ [])
        ∷ (minus 5 ∷ plus 4 ∷ []) ∷ (minus 7 ∷ minus 4 ∷ []) ∷ (plus 5 ∷ plus 7 ∷ [])
        ∷ (minus 5 ∷ []) ∷ (minus 2 ∷ []) ∷ (plus 4 ∷ []) ∷ [] }
{}

/// Used, the second wall has the side 8, which lies outside the first, and closing clauses that name the first.
pub fn wall_with_a_named_side()
    ensures { skeleton_clauses rises 0 (first_wall ∷ second_wall ∷ [])
        ≡ (minus 1 ∷ []) ∷ (minus 4 ∷ minus 1 ∷ []) ∷ (plus 4 ∷ plus 1 ∷ []) ∷ (minus 2 ∷ [])
        ∷ (minus 5 ∷ plus 2 ∷ []) ∷ (minus 6 ∷ minus 2 ∷ []) ∷ (plus 5 ∷ plus 6 ∷ [])
        ∷ (minus 5 ∷ plus 4 ∷ []) ∷ (minus 7 ∷ minus 4 ∷ []) ∷ (plus 5 ∷ plus 7 ∷ [])
        ∷ (minus 8 ∷ minus 5 ∷ [])
        ∷ (minus 8 ∷ minus 2 ∷ []) ∷ (minus 9 ∷ plus 2 ∷ []) ∷ (plus 8 ∷ plus 9 ∷ plus 5 ∷ [])
        ∷ (minus 8 ∷ minus 4 ∷ []) ∷ (minus 10 ∷ plus 4 ∷ []) ∷ (plus 8 ∷ plus 10 ∷ plus 5 ∷ []) ∷ [] }
{}
