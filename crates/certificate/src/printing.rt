//! The text of an answer that is held, written. The main call is `print`.

ghost use Rattle.std.specs.Prelude.{◌≡◌, ◌≤◌, length, IfOk};
ghost use Rattle.answer_lines.specs.Left.{most_bytes};
ghost use Rattle.certificate.specs.Loading.{printed_text};

use crate::loaded::Loaded;
use certificate_texts::print_certificate;
use std::alloc::{AllocError, Global};

/// Writes a whole answer: of a stimulus as `stimulus::write` does, with all of its positions; of a certificate in version 2,
/// with its entries and the lines of its proofs as they are. Nothing is checked. The error is want of memory.
pub fn print(alloc: Global, loaded: &Loaded) -> Result<Vec<u8>, AllocError>
    ensures text { IfOk result (λ text. text.items ≡ printed_text loaded.now) }
    // The text is within the limit on the length of an answer.
    ensures within { IfOk result (λ text. length text.items ≤ most_bytes) }
{
    match loaded {
        Loaded::Lasso {
            property,
            stimulus,
            ..
        } => stimulus::write(alloc, *property, stimulus),
        Loaded::Holds {
            property,
            certificate,
        } => print_certificate(alloc, *property, certificate),
    }
}
