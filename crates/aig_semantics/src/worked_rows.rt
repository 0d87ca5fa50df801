//! Worked rows: facts about small circuits, computed from the definitions. No function here does anything.
ghost use Rattle.std.specs.Prelude.{◌≡◌, ℕ, true, false, List, [], ◌∷◌};
ghost use Rattle.aig_semantics.specs.declared.traces.Stimulus.{Stimulus};
ghost use Rattle.aig_semantics.specs.Circuits.{IsChecked, IsOnCycle};
ghost use Rattle.aig_semantics.specs.Valuations.{valuation, IsValuation};
ghost use Rattle.aig_semantics.specs.Runs.{IsFairLasso};
ghost use Rattle.aig_semantics.specs.Stimuli.{HasLasso, StandsFor};
ghost use Rattle.aig_semantics.specs.Examples.{toggle, toggle_of_nothing, stuck, kept, kept_false, rising, one_input, input_and_latch, counter, counter_reversed, self_reading, without_inputs, late_width};

/// A latch that toggles is true at every other position: two positions, back to the first, also
/// where the stimulus has a third one.
pub fn toggling_latch()
    ensures stands { StandsFor toggle 0 (without_inputs (false ∷ []) 3) 2 0 }
    ensures none_of_one { (from : ℕ) → HasLasso toggle 0 (without_inputs (false ∷ []) 3) 1 from → ⊥ }
    ensures none_beyond_the_stimulus { (from : ℕ) → HasLasso toggle 0 (without_inputs (false ∷ []) 3) 4 from → ⊥ }
    ensures none_of_no_position { (from : ℕ) → IsFairLasso toggle 0 [] from → ⊥ }
{}

/// A stimulus has no lasso where its latches are not initial, where a list has another length than
/// the circuit wants, also behind the lasso, and for a property that is not there.
pub fn stimuli_that_do_not_fit()
    ensures not_initial { (k : ℕ) → (from : ℕ) → HasLasso toggle 0 (without_inputs (true ∷ []) 2) k from → ⊥ }
    ensures latches_too_long { (k : ℕ) → (from : ℕ) → HasLasso toggle 0 (without_inputs (false ∷ false ∷ []) 2) k from → ⊥ }
    ensures inputs_too_long { (k : ℕ) → (from : ℕ) → HasLasso toggle 0 late_width k from → ⊥ }
    ensures no_property { (k : ℕ) → (from : ℕ) → HasLasso toggle 1 (without_inputs (false ∷ []) 2) k from → ⊥ }
{}

/// A property without literals asks for a loop alone.
pub fn property_without_literals()
    ensures { StandsFor toggle_of_nothing 0 (without_inputs (false ∷ []) 2) 2 0 }
{}

/// A latch that keeps its 0 is never true.
pub fn stuck_latch()
    ensures { (k : ℕ) → (from : ℕ) → HasLasso stuck 0 (without_inputs (false ∷ []) 1) k from → ⊥ }
{}

/// A latch that keeps what it begins with, and may begin with either value.
pub fn uninitialised_latch()
    ensures begun_true { StandsFor kept 0 (without_inputs (true ∷ []) 1) 1 0 }
    ensures begun_false { (k : ℕ) → (from : ℕ) → HasLasso kept 0 (without_inputs (false ∷ []) 1) k from → ⊥ }
{}

/// A constraint rules out the positions at which it is false.
pub fn constrained_latch()
    ensures { (k : ℕ) → (from : ℕ) → HasLasso kept_false 0 (without_inputs (true ∷ []) 1) k from → ⊥ }
{}

/// What is true on the stem only is not true on the loop.
pub fn fairness_on_the_stem()
    ensures { (k : ℕ) → (from : ℕ) → HasLasso rising 0 (without_inputs (false ∷ []) 2) k from → ⊥ }
{}

/// A circuit without latches has one state, in which every run closes.
pub fn circuit_without_latches()
    ensures { StandsFor one_input 0 (record { latches = []; inputs = (true ∷ []) ∷ [] }) 1 0 }
{}

/// The values of an input, of a latch, of the gate over both, and of a variable that is defined nowhere.
/// A list that says otherwise, or ends too early, is no valuation.
pub fn input_and_latch_values()
    ensures input_false { valuation input_and_latch (true ∷ []) (false ∷ []) ≡ false ∷ false ∷ true ∷ false ∷ false ∷ [] }
    ensures latch_false { valuation input_and_latch (false ∷ []) (true ∷ []) ≡ false ∷ true ∷ false ∷ false ∷ false ∷ [] }
    ensures both_true { valuation input_and_latch (true ∷ []) (true ∷ []) ≡ false ∷ true ∷ true ∷ true ∷ false ∷ [] }
    ensures wrong_gate { IsValuation input_and_latch (true ∷ []) (true ∷ []) (false ∷ true ∷ true ∷ false ∷ false ∷ []) → ⊥ }
    ensures wrong_nowhere { IsValuation input_and_latch (true ∷ []) (true ∷ []) (false ∷ true ∷ true ∷ true ∷ true ∷ []) → ⊥ }
    ensures too_short { IsValuation input_and_latch (true ∷ []) (true ∷ []) (false ∷ true ∷ true ∷ true ∷ []) → ⊥ }
{}

/// A counter of two bits comes back to 0 after four positions. Its values do not depend on the order
/// of its gates.
pub fn two_bit_counter()
    ensures checked { IsChecked counter }
    ensures computed { valuation counter (true ∷ true ∷ []) [] ≡ false ∷ true ∷ true ∷ false ∷ false ∷ true ∷ true ∷ [] }
    ensures reversed { valuation counter_reversed (true ∷ true ∷ []) [] ≡ valuation counter (true ∷ true ∷ []) [] }
    ensures meets { IsValuation counter (true ∷ true ∷ []) [] (valuation counter (true ∷ true ∷ []) []) }
    ensures stands { StandsFor counter 0 (without_inputs (false ∷ false ∷ []) 4) 4 0 }
{}

/// A gate that reads itself is on a cycle; a latch that does is not.
pub fn cycles()
    ensures gate { IsOnCycle self_reading 2 }
    ensures refused { IsChecked self_reading → ⊥ }
    ensures latch { IsChecked stuck }
{}
