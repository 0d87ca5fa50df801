//! The command `convert`: the text that it makes of an answer.

use crate::commands::remaking::MakesText;
use certificate::{Loaded, print, printed_answers_hold_the_same};
use circuit::Circuit;
use std::alloc::{AllocError, Global};

/// The answer in the current version.
#[derive(Clone, Copy)]
pub struct Conversion {}

impl MakesText for Conversion {
    ghost use Rattle.plain_commands.specs.Convert.{IsConversion};

    ghost made = { λ how. IsConversion };

    fn text(
        &self,
        alloc: Global,
        circuit: &Circuit,
        loaded: &Loaded,
    ) -> Result<Vec<u8>, AllocError> {
        printed_answers_hold_the_same(circuit);
        print(alloc, loaded)
    }
}
