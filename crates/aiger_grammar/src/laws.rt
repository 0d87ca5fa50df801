//! The laws of the grammar, as contracts of functions that do nothing.
ghost use Rattle.std.specs.Prelude.{◌≡◌, [], ◌∷◌};
ghost use Rattle.aig_semantics.specs.declared.limits.TheConstants.{MAX_NUMBER};
ghost use Rattle.aiger_grammar.specs.Deltas.{delta_text, ReadsDeltas, HasOneDelta, HasOneSpelling};
ghost use Rattle.aiger_grammar.specs.Names.{ReadsNames, ReadsFirstFault};
ghost use Rattle.aiger_grammar.specs.Spelling.{WritesNames, WritesAscii};

/// Does nothing. Its contract ties the reading of symbols and comment to what stands in a text: names are read exactly
/// where they stand there, and a fault is read exactly where it is the first one.
pub fn names_laws()
    ensures names { ReadsNames }
    ensures faults { ReadsFirstFault }
{}

/// Does nothing. Its contract is that what is written of a model, and of its names, stands for them.
pub fn spelling_laws()
    ensures names { WritesNames }
    ensures ascii { WritesAscii }
{}

/// Does nothing. Its contract is that a delta is read exactly where one stands, that at most one number stands at the
/// front of a text as a delta, and that each number has one spelling.
pub fn delta_laws()
    ensures read { ReadsDeltas }
    ensures one_delta { HasOneDelta }
    ensures one_spelling { HasOneSpelling }
{}

/// Does nothing. Its contract is numbers with their groups, worked out by hand from the format; the last is the greatest
/// that a text may have.
pub fn worked_deltas()
    ensures none { delta_text 0 ≡ 0 ∷ [] }
    ensures two { delta_text 2 ≡ 2 ∷ [] }
    ensures one_group { delta_text 127 ≡ 127 ∷ [] }
    ensures two_groups { delta_text 128 ≡ 128 ∷ 1 ∷ [] }
    ensures low_first { delta_text 130 ≡ 130 ∷ 1 ∷ [] }
    ensures more { delta_text 300 ≡ 172 ∷ 2 ∷ [] }
    ensures greatest { delta_text MAX_NUMBER ≡ 255 ∷ 255 ∷ 255 ∷ 255 ∷ 15 ∷ [] }
{}
