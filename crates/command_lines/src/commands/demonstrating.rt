//! The words of the command `demo`.

ghost use Rattle.std.specs.Prelude.{codes, IfSome, IfNone};
ghost use Rattle.clap.specs.Walk.{rows_of};
ghost use Rattle.clap.specs.Matches.{found_of};
ghost use Rattle.command_lines.specs.Commands.{Request as AskedFor, meant, Means};
ghost use Rattle.command_lines.specs.Making.{MakesCommand};
ghost use Rattle.command_lines.specs.Demo.{demo_command};

use crate::commands::Request;
use crate::words::{number_of, with_wanted_number};
use clap::{ArgMatches, Command};
use std::alloc::{AllocError, Global};

/// The model of `scramble` that `demo` decides.
#[derive(Clone, Copy)]
pub struct DemoRequest {
    /// 0 to 4,294,967,295.
    pub seed: u64,
    /// The number of latches, 1 to 256.
    pub size: u64,
}

/// The command `demo`, with its arguments.
pub(crate) fn demo_command<'a>(alloc: Global) -> Result<Command<'a>, AllocError>
    ensures { MakesCommand demo_command result }
{
    let command = Ok(Command::new(alloc, "demo"));
    let command = with_wanted_number(alloc, command, "SEED", 0, 4_294_967_295);
    with_wanted_number(alloc, command, "SIZE", 1, 256)
}

/// The request that the values of `demo` are.
pub(crate) fn demo_of<'a>(given: &ArgMatches<'a>) -> Option<Request<'a>>
    ensures found { IfSome result (λ asked. Means (meant asked) (codes "demo") (rows_of (found_of given.now))) }
    ensures none { IfNone result ((asked : AskedFor) → Means asked (codes "demo") (rows_of (found_of given.now)) → ⊥) }
{
    let seed = number_of(given, "SEED", 0, 4_294_967_295)?;
    let size = number_of(given, "SIZE", 1, 256)?;
    Some(Request::Demo(DemoRequest { seed, size }))
}
