//! The words of the command `rounds`.

ghost use Rattle.std.specs.Prelude.{codes, IfSome, IfNone};
ghost use Rattle.clap.specs.Walk.{rows_of};
ghost use Rattle.clap.specs.Matches.{found_of};
ghost use Rattle.command_lines.specs.Commands.{Request as AskedFor, meant, Means};
ghost use Rattle.command_lines.specs.Making.{MakesCommand};
ghost use Rattle.command_lines.specs.Rounds.{rounds_command};

use crate::commands::{DEFAULTS, Request};
use crate::words::{
    for_value, number_of, number_or, value_of, with_number_option, with_wanted_number,
};
use clap::{ArgMatches, Command};
use std::alloc::{AllocError, Global};

/// How many rounds are asked for, of which property, and what may be spent on the search.
#[derive(Clone, Copy)]
pub struct RoundsRequest {
    /// How many rounds, 1 to 64.
    pub k: u32,
    /// The number of the property, counted from 0.
    pub property: u32,
    /// How many conflicts may be counted, 0 to 4,294,967,295; the last value means no limit.
    pub conflicts: u64,
    /// How many steps may be counted, 0 to 4,294,967,295; the last value means no limit.
    pub steps: u64,
}

/// The command `rounds`, with its arguments.
pub(crate) fn rounds_command<'a>(alloc: Global) -> Result<Command<'a>, AllocError>
    ensures { MakesCommand rounds_command result }
{
    let command = for_value(alloc, "rounds", "MODEL");
    let command = with_wanted_number(alloc, command, "K", 1, 64);
    let command = with_number_option(alloc, command, "property", 0, 4_294_967_295);
    let command = with_number_option(alloc, command, "conflicts", 0, 4_294_967_295);
    with_number_option(alloc, command, "steps", 0, 4_294_967_295)
}

/// The name and the numbers that `rounds` is given, with the defaults of `solve`.
pub(crate) fn rounds_of<'a>(given: &ArgMatches<'a>) -> Option<Request<'a>>
    ensures found { IfSome result (λ asked. Means (meant asked) (codes "rounds") (rows_of (found_of given.now))) }
    ensures none { IfNone result ((asked : AskedFor) → Means asked (codes "rounds") (rows_of (found_of given.now)) → ⊥) }
{
    let model = value_of(given, "MODEL")?;
    let k = number_of(given, "K", 1, 64)?;
    let property = number_or(given, "property", 0, 4_294_967_295, 0)?;
    let conflicts = number_or(given, "conflicts", 0, 4_294_967_295, DEFAULTS.conflicts)?;
    let steps = number_or(given, "steps", 0, 4_294_967_295, DEFAULTS.steps)?;
    let request = RoundsRequest {
        k: k as u32,
        property: property as u32,
        conflicts,
        steps,
    };
    Some(Request::Rounds { model, request })
}
