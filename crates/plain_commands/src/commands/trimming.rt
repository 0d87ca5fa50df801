//! The command `trim`: the text that it makes of an answer.

use crate::commands::remaking::MakesText;
use cert_tools::{trim, trimmed_answers_are_good};
use certificate::{Loaded, print, printed_answers_hold_the_same};
use circuit::Circuit;
use std::alloc::{AllocError, Global};

/// The answer without what it does not need.
#[derive(Clone, Copy)]
pub struct Trimming {}

impl MakesText for Trimming {
    ghost use Rattle.plain_commands.specs.Trim.{IsTrimming};

    ghost made = { λ how. IsTrimming };

    fn text(
        &self,
        alloc: Global,
        circuit: &Circuit,
        loaded: &Loaded,
    ) -> Result<Vec<u8>, AllocError> {
        printed_answers_hold_the_same(circuit);
        trimmed_answers_are_good(circuit);
        let trimmed = trim(alloc, circuit, loaded)?;
        print(alloc, &trimmed)
    }
}
