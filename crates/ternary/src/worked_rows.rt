//! Worked rows: facts about small circuits, computed from the definitions. No function here does anything.

ghost use Rattle.std.specs.Prelude.{◌≡◌, true, false, [], ◌∷◌};
ghost use Rattle.aig_semantics.specs.Examples.{counter, input_and_latch};
ghost use Rattle.ternary.specs.declared.values.Value3.TheVariants.{Zero, One, X};
ghost use Rattle.ternary.specs.Values.{IsCompletion};
ghost use Rattle.ternary.specs.Simulation.{simulation};
ghost use Rattle.ternary.specs.Cubes.{state_of, LeavesOpen, NeedsEachLiteral};

/// A counter of two bits where one of them is not known, both or none: variable 3 is 'the low bit alone', 4 'the high bit
/// alone', 5 'both alike' and 6 'both'.
pub fn counter_of_unknown_bits()
    ensures low { simulation counter (X ∷ Zero ∷ []) [] ≡ Zero ∷ X ∷ Zero ∷ X ∷ Zero ∷ X ∷ Zero ∷ [] }
    ensures high { simulation counter (One ∷ X ∷ []) [] ≡ Zero ∷ One ∷ X ∷ X ∷ Zero ∷ X ∷ X ∷ [] }
    ensures both { simulation counter (X ∷ X ∷ []) [] ≡ Zero ∷ X ∷ X ∷ X ∷ X ∷ X ∷ X ∷ [] }
    ensures none { simulation counter (One ∷ One ∷ []) [] ≡ Zero ∷ One ∷ One ∷ Zero ∷ Zero ∷ One ∷ One ∷ [] }
{}

/// A gate over an input and a latch is 0 where one of them is, and a variable that is defined nowhere is 0.
pub fn gate_of_unknown_input()
    ensures latch_zero { simulation input_and_latch (Zero ∷ []) (X ∷ []) ≡ Zero ∷ X ∷ Zero ∷ Zero ∷ Zero ∷ [] }
    ensures latch_one { simulation input_and_latch (One ∷ []) (X ∷ []) ≡ Zero ∷ X ∷ One ∷ X ∷ Zero ∷ [] }
{}

/// What is not known may be either truth value; what is known is one, and there are as many of both.
pub fn completions()
    ensures either { IsCompletion (X ∷ X ∷ One ∷ []) (false ∷ true ∷ true ∷ []) }
    ensures other { IsCompletion (Zero ∷ []) (true ∷ []) → ⊥ }
    ensures fewer { IsCompletion (X ∷ X ∷ []) (true ∷ []) → ⊥ }
{}

/// Where both bits of the counter are 1, 'both' needs both literals; the low bit needs its own alone.
pub fn cubes_of_the_counter()
    ensures told { state_of 3 (record { var = 1; positive = false } ∷ []) ≡ X ∷ Zero ∷ X ∷ [] }
    ensures needed { NeedsEachLiteral counter [] (12 ∷ [])
        (record { var = 0; positive = true } ∷ record { var = 1; positive = true } ∷ []) }
    ensures open { LeavesOpen counter [] (2 ∷ []) (record { var = 1; positive = true } ∷ []) }
    ensures not_needed { NeedsEachLiteral counter [] (2 ∷ [])
        (record { var = 0; positive = true } ∷ record { var = 1; positive = true } ∷ []) → ⊥ }
{}
