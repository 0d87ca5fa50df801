//! Fields of lines.
ghost use Rattle.std.specs.Prelude.{◌≡◌, ◌∷◌};
ghost use Rattle.std.specs.Str.{bytes_eq};
ghost use Rattle.text_grammar.specs.Pieces.{fields};
ghost use Rattle.certificate_lines.specs.Fields.{number_in};
ghost use Rattle.certificate_lines.specs.Reading.{fields_behind};

use text_grammar::{next_field, read_number};

/// The greatest number in a line.
pub(crate) const GREATEST: u64 = 9_223_372_036_854_775_807;

/// The first field of a line, and what follows the space behind it, if there is one.
pub(crate) fn first_field(line: &[u8]) -> (&[u8], Option<&[u8]>)
    ensures { fields line.now ≡ result.0.now ∷ fields_behind result.1 }
{
    next_field(line)
}

/// The number that is the whole field.
pub(crate) fn number_in(field: &[u8]) -> Option<u64>
    ensures { result ≡ number_in field.now }
{
    let (number, rest) = read_number(field, GREATEST)?;
    if !rest.is_empty() {
        return None;
    }
    Some(number)
}

/// Whether the field is this word.
pub(crate) fn is_word(field: &[u8], word: &[u8]) -> bool
    ensures { result ≡ bytes_eq field.now word.now }
{
    field == word
}
