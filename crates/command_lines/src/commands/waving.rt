//! The words of the command `wave`.

ghost use Rattle.std.specs.Prelude.{codes, IfSome, IfNone};
ghost use Rattle.clap.specs.Walk.{rows_of};
ghost use Rattle.clap.specs.Matches.{found_of};
ghost use Rattle.command_lines.specs.Commands.{Request as AskedFor, meant, Means};
ghost use Rattle.command_lines.specs.Making.{MakesCommand};
ghost use Rattle.command_lines.specs.Wave.{wave_command};

use crate::commands::Request;
use crate::words::{for_model_and_answer, number_or, value_of, with_number_option};
use clap::{ArgMatches, Command};
use std::alloc::{AllocError, Global};

/// The command `wave`, with its arguments.
pub(crate) fn wave_command<'a>(alloc: Global) -> Result<Command<'a>, AllocError>
    ensures { MakesCommand wave_command result }
{
    let command = for_model_and_answer(alloc, "wave");
    with_number_option(alloc, command, "property", 0, 4_294_967_295)
}

/// The names and the number that `wave` is given.
pub(crate) fn wave_of<'a>(given: &ArgMatches<'a>) -> Option<Request<'a>>
    ensures found { IfSome result (λ asked. Means (meant asked) (codes "wave") (rows_of (found_of given.now))) }
    ensures none { IfNone result ((asked : AskedFor) → Means asked (codes "wave") (rows_of (found_of given.now)) → ⊥) }
{
    let model = value_of(given, "MODEL")?;
    let answer = value_of(given, "ANSWER")?;
    let property = number_or(given, "property", 0, 4_294_967_295, 0)?;
    Some(Request::Wave {
        model,
        answer,
        property: property as u32,
    })
}
