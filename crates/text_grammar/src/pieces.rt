//! A text cut at a byte, and the fields of a line. The main call is `next_field`.
ghost use Rattle.std.specs.Prelude.{◌≡◌, ◌∷◌, [], IfSome, IfNone};
ghost use Rattle.text_grammar.specs.Pieces.{IsCut, Lacks, fields};

/// The bytes in front of the first `byte`, and those behind it. `None` where there is no such byte.
pub fn cut_first(bytes: &[u8], byte: u8) -> Option<(&[u8], &[u8])>
    ensures found { IfSome result (λ x. IsCut byte x.0.now bytes.now x.1.now) }
    ensures none { IfNone result (Lacks bytes.now byte) }
{
    for (i, b) in bytes.iter().enumerate() {
        if *b == byte {
            return Some((&bytes[..i], &bytes[i + 1..]));
        }
    }
    None
}

/// The first field of a line, and what follows the space behind it, if there is one.
pub fn next_field(line: &[u8]) -> (&[u8], Option<&[u8]>)
    ensures more { IfSome result.1 (λ rest. fields line.now ≡ result.0.now ∷ fields rest.now) }
    ensures cut { IfSome result.1 (λ rest. IsCut 32 result.0.now line.now rest.now) }
    ensures last { IfNone result.1 (fields line.now ≡ result.0.now ∷ []) }
    ensures whole { IfNone result.1 (result.0.now ≡ line.now) }
{
    match cut_first(line, b' ') {
        Some((field, rest)) => (field, Some(rest)),
        None => (line, None),
    }
}
