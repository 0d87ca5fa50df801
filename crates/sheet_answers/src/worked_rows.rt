//! Worked rows: how sheets of small circuits are read, computed from the definitions. No function here does anything.

ghost use Rattle.std.specs.Prelude.{◌≡◌, [], ◌∷◌, ◌++◌, Some, None, Ok, Err, codes};
ghost use Rattle.stimulus.specs.declared.ends.ReplayFault.TheVariants.{NoFairLoop};
ghost use Rattle.certificate.specs.declared.ends.AnswerFault.TheVariants.{Shape, NoProperty, Trailing};
ghost use Rattle.sheet_answers.specs.declared.ends.BlockFault.TheVariants.{Replay, RefuteUse, Refutation};
ghost use Rattle.sheet_answers.specs.Reading.{Replays, Plain, InBlock, Done, Between};
ghost use Rattle.sheet_answers.specs.Examples.{two_wishes, no_property, two_positions, read, all_two, first_lasso, second_holds};
ghost use Rattle.proof_semantics.specs.declared.faults.LratFault.TheVariants.{Unfinished};

/// A lasso of the first property, and a refutation of the second: a good sheet, where the stimulus stands for a lasso.
pub fn lasso_and_refutation()
    ensures whole { (replays : Replays) → replays 0 two_positions ≡ None
        → read two_wishes replays (all_two ++ first_lasso ++ second_holds ++ codes "end" ∷ [])
        ≡ Ok (Done (record { lassos = 1; holds = 1; unknown = 0 }) []) }
    ensures undecided { (replays : Replays) → read two_wishes replays (all_two ++ codes "open j0" ∷ second_holds ++ codes "end" ∷ [])
        ≡ Ok (Done (record { lassos = 0; holds = 1; unknown = 1 }) []) }
{}

/// A circuit without properties has a sheet without blocks.
pub fn no_blocks()
    ensures { (replays : Replays) → read no_property replays (codes "all 0" ∷ codes "version 2" ∷ codes "end" ∷ [])
        ≡ Ok (Done (record { lassos = 0; holds = 0; unknown = 0 }) []) }
{}

/// A stimulus is replayed at its dot: its fault is the first, whatever stands behind it.
pub fn stimulus_of_no_lasso()
    ensures { (replays : Replays) → replays 0 two_positions ≡ Some NoFairLoop
        → read two_wishes replays (all_two ++ first_lasso ++ codes "holds j7" ∷ []) ≡ Err (InBlock 0 (Replay NoFairLoop)) }
{}

/// The faults of a refutation are those of its block.
pub fn refutation_faults()
    ensures used { (replays : Replays) → read two_wishes replays (all_two ++ codes "open j0" ∷ codes "holds j1" ∷ codes "refute 1 0" ∷ codes "0" ∷ [])
        ≡ Err (InBlock 1 (RefuteUse 0)) }
    ensures unfinished { (replays : Replays) → read two_wishes replays (all_two ++ codes "open j0" ∷ codes "holds j1" ∷ codes "refute 0 0" ∷ [] ∷ [])
        ≡ Err (InBlock 1 (Refutation 0 Unfinished)) }
{}

/// The heads: another number of properties is that of no property, and all else is out of form, as is version 1.
pub fn heads()
    ensures more { (replays : Replays) → read two_wishes replays (codes "all 3" ∷ []) ≡ Err (Plain (NoProperty 3)) }
    ensures form { (replays : Replays) → read two_wishes replays (codes "all  2" ∷ []) ≡ Err (Plain (Shape 1)) }
    ensures first_version { (replays : Replays) → read two_wishes replays (codes "c" ∷ codes "all 2" ∷ codes "version 1" ∷ []) ≡ Err (Plain (Shape 3)) }
{}

/// The blocks stand in the order of the properties, each has one, no entry stands behind a block, and nothing behind the end.
pub fn order()
    ensures swapped { (replays : Replays) → read two_wishes replays (all_two ++ codes "open j1" ∷ []) ≡ Err (Plain (Shape 3)) }
    ensures owed { (replays : Replays) → read two_wishes replays (all_two ++ codes "open j0" ∷ codes "end" ∷ []) ≡ Err (Plain (Shape 4)) }
    ensures too_many { (replays : Replays) → read two_wishes replays (all_two ++ codes "open j0" ∷ codes "open j1" ∷ codes "open j2" ∷ []) ≡ Err (Plain (Shape 5)) }
    ensures entry { (replays : Replays) → read two_wishes replays (all_two ++ codes "open j0" ∷ codes "wall 0 0" ∷ []) ≡ Err (Plain (Shape 4)) }
    ensures refuted { (replays : Replays) → read two_wishes replays (all_two ++ codes "refute 0 1" ∷ []) ≡ Err (Plain (Shape 3)) }
    ensures behind { (replays : Replays) → read no_property replays (codes "all 0" ∷ codes "version 2" ∷ codes "end" ∷ codes "u" ∷ codes "end" ∷ [])
        ≡ Err (Plain (Trailing 5)) }
{}
