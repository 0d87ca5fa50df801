//! Worked rows: draws that another program computed, computed from the definition. The function does nothing.
ghost use Rattle.std.specs.Prelude.{◌≡◌, [], ◌∷◌};
ghost use Rattle.model_gen.specs.Draws.{draws};

/// The first ten draws from three seeds.
pub fn first_draws()
    ensures zero { draws 0 10 ≡ 167951807 ∷ 218396424 ∷ 1299921937 ∷ 861605236 ∷ 823830125 ∷ 1204436891 ∷ 169888184
        ∷ 764459975 ∷ 1036791264 ∷ 959018139 ∷ [] }
    ensures one { draws 1 10 ≡ 908834774 ∷ 1093944153 ∷ 1392341196 ∷ 822192870 ∷ 1708211034 ∷ 1074839795 ∷ 1189567130
        ∷ 140486902 ∷ 1803298089 ∷ 426146746 ∷ [] }
    ensures greatest { draws 4294967295 10 ≡ 69501759 ∷ 1503429036 ∷ 1091279824 ∷ 2129514251 ∷ 663846270 ∷ 1479768959
        ∷ 492109816 ∷ 1860332840 ∷ 1620854143 ∷ 553379200 ∷ [] }
{}
