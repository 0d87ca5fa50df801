//! Worked rows: facts about entries of small circuits, computed from the definitions. No function here does anything.
ghost use Rattle.std.specs.Prelude.{◌≡◌, ℕ, Bool, true, false, List, [], ◌∷◌};
ghost use Rattle.aig_semantics.specs.declared.traces.Position.{Position};
ghost use Rattle.aig_semantics.specs.Runs.{IsFairLasso};
ghost use Rattle.aig_semantics.specs.Examples.{stuck, kept};
ghost use Rattle.fair_semantics.specs.declared.entries.Kind.TheVariants.{Reach, Wall};
ghost use Rattle.fair_semantics.specs.declared.entries.Side.TheVariants as sides;
ghost use Rattle.fair_semantics.specs.declared.skeletons.Skeleton.{Skeleton};
ghost use Rattle.fair_semantics.specs.States.{IsStep, initial_cube};
ghost use Rattle.fair_semantics.specs.Entries.{Entry, numbered, set_at, AreClosed};
ghost use Rattle.fair_semantics.specs.Allowing.{allow};
ghost use Rattle.fair_semantics.specs.Skeletons.{IsSkeleton, places, excludes};
ghost use Rattle.fair_semantics.specs.Validity.{IsValid, AreValid};
ghost use Rattle.fair_semantics.specs.Examples.{rises, latch_is, use_of, latch_entry, risen, not_risen, one_situation};

/// A latch that rises steps from 0 to 1, and nothing steps to 0.
pub fn steps_of_a_rising_latch()
    ensures rises { IsStep rises (false ∷ []) (true ∷ []) }
    ensures never_falls { (s : List Bool) → IsStep rises s (false ∷ []) → ⊥ }
    ensures initial { initial_cube rises ≡ record { var = 0; positive = false } ∷ [] }
    ensures free { initial_cube kept ≡ [] }
{}

/// A wall that names no side holds the states that make its clauses true. One that names a side of it lies on that side
/// of it.
pub fn sets_with_named_sides()
    ensures in_clauses { set_at (risen ∷ []) 0 (true ∷ []) ≡ true }
    ensures out_of_clauses { set_at (risen ∷ []) 0 (false ∷ []) ≡ false }
    ensures outside { set_at (risen ∷ not_risen ∷ []) 1 (false ∷ []) ≡ true }
    ensures not_outside { set_at (risen ∷ not_risen ∷ []) 1 (true ∷ []) ≡ false }
    ensures not_inside { set_at (risen ∷ latch_entry Wall false (use_of 0 sides.In ∷ []) ∷ []) 1 (false ∷ []) ≡ false }
    ensures either { set_at (risen ∷ latch_entry Wall false (use_of 0 sides.Any ∷ []) ∷ []) 1 (false ∷ []) ≡ true }
{}

/// Uses are closed where the walls of which used walls name sides are used too, and before them. Only a wall has a side
/// named, and uses ascend.
pub fn closed_uses()
    ensures both { AreClosed (risen ∷ not_risen ∷ []) (use_of 0 sides.Any ∷ use_of 1 sides.In ∷ []) }
    ensures named_is_missing { AreClosed (risen ∷ not_risen ∷ []) (use_of 1 sides.In ∷ []) → ⊥ }
    ensures side_of_reach { AreClosed (latch_entry Reach false [] ∷ []) (use_of 0 sides.In ∷ []) → ⊥ }
    ensures order { AreClosed (risen ∷ risen ∷ []) (use_of 1 sides.Any ∷ use_of 0 sides.Any ∷ []) → ⊥ }
    ensures not_there { AreClosed [] (use_of 0 sides.Any ∷ []) → ⊥ }
{}

/// The states of a latch that has risen are a wall, and those before it rises, behind it. By themselves the latter are
/// none: the latch leaves them.
pub fn walls_of_a_rising_latch()
    ensures walls { AreValid rises (risen ∷ not_risen ∷ []) }
    ensures leaves { IsValid rises [] (latch_entry Wall false []) → ⊥ }
{}

/// A stuck latch is never 1, as a reach entry says. A reach entry holds the initial states and the states after them,
/// and uses no wall.
pub fn reach_entries()
    ensures stuck { AreValid stuck (latch_entry Reach false [] ∷ []) }
    ensures not_initial { IsValid stuck [] (latch_entry Reach true []) → ⊥ }
    ensures leaves { IsValid rises [] (latch_entry Reach false []) → ⊥ }
    ensures uses_wall { IsValid rises (risen ∷ []) (latch_entry Reach false (use_of 0 sides.Out ∷ [])) → ⊥ }
{}

/// A latch that rises is 0 at one position, whose successor lies on the other side of the wall. So the wall excludes
/// each skeleton, and there is no fair lasso.
pub fn skeletons_of_a_rising_latch()
    ensures one { IsSkeleton rises 0 (one_situation false true) }
    ensures excluded { excludes (risen ∷ []) 0 (one_situation false true) ≡ true }
    ensures none { (sk : Skeleton) → IsSkeleton rises 0 sk → allow (numbered (risen ∷ [])) (places sk) ≡ false }
    ensures no_lasso { (run : List Position) → (from : ℕ) → IsFairLasso rises 0 run from → ⊥ }
{}

/// A latch that keeps its 1 gives a skeleton that a wall allows from inside or from outside, and a reach entry from
/// inside alone.
pub fn skeletons_of_a_kept_latch()
    ensures one { IsSkeleton kept 0 (one_situation true true) }
    ensures inside { allow (numbered (risen ∷ [])) (places (one_situation true true)) ≡ true }
    ensures outside { allow (numbered (latch_entry Wall false [] ∷ [])) (places (one_situation true true)) ≡ true }
    ensures reached { excludes (latch_entry Reach true [] ∷ []) 0 (one_situation true true) ≡ false }
    ensures not_reached { excludes (latch_entry Reach false [] ∷ []) 0 (one_situation true true) ≡ true }
{}
