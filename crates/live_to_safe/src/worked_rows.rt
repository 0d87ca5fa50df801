//! Worked rows: facts about a translated circuit, computed from the definitions. No function here does anything.
ghost use Rattle.std.specs.Prelude.{◌≡◌};
ghost use Rattle.aig_semantics.specs.Examples.{toggle};
ghost use Rattle.live_to_safe.specs.BadRuns.{IsBadRun};
ghost use Rattle.live_to_safe.specs.Numbers.{greatest};
ghost use Rattle.live_to_safe.specs.Translation.{safety_model};
ghost use Rattle.live_to_safe.specs.Examples.{toggle_watched, once_round, half_round};

/// A latch that toggles, translated, and a run on which its 0 comes again after its 1 was seen.
pub fn toggling_latch()
    ensures model { safety_model toggle 0 ≡ toggle_watched }
    ensures bad_run { IsBadRun (safety_model toggle 0) once_round }
    ensures too_short { IsBadRun (safety_model toggle 0) half_round → ⊥ }
{}

/// A circuit without latches, and a property without literals, with as many variables as there may be.
pub fn largest_circuit()
    ensures { greatest (record { variables = 16777216; latches = 0; literals = 0 }) ≡ 16777220 }
{}
