//! The words of the command `shortest`.

ghost use Rattle.std.specs.Prelude.{codes, IfSome, IfNone};
ghost use Rattle.clap.specs.Walk.{rows_of};
ghost use Rattle.clap.specs.Matches.{found_of};
ghost use Rattle.command_lines.specs.Commands.{Request as AskedFor, meant, Means};
ghost use Rattle.command_lines.specs.Making.{MakesCommand};
ghost use Rattle.command_lines.specs.Shortest.{shortest_command};

use crate::commands::{DEFAULTS, Request};
use crate::words::{for_property, number_or, value_of, with_number_option};
use clap::{ArgMatches, Command};
use std::alloc::{AllocError, Global};

/// Of which property a shortest lasso is asked for, up to how many positions, and what may be spent on the search.
#[derive(Clone, Copy)]
pub struct ShortestRequest {
    /// The number of the property, counted from 0.
    pub property: u32,
    /// How many conflicts may be counted, 0 to 4,294,967,295; the last value means no limit.
    pub conflicts: u64,
    /// How many positions a lasso may have, 0 to 65,536.
    pub depth: u32,
}

/// The command `shortest`, with its arguments.
pub(crate) fn shortest_command<'a>(alloc: Global) -> Result<Command<'a>, AllocError>
    ensures { MakesCommand shortest_command result }
{
    let command = for_property(alloc, "shortest");
    let command = with_number_option(alloc, command, "conflicts", 0, 4_294_967_295);
    with_number_option(alloc, command, "depth", 0, 65_536)
}

/// The name and the numbers that `shortest` is given, with the defaults of `solve`, and of 100 positions.
pub(crate) fn shortest_of<'a>(given: &ArgMatches<'a>) -> Option<Request<'a>>
    ensures found { IfSome result (λ asked. Means (meant asked) (codes "shortest") (rows_of (found_of given.now))) }
    ensures none { IfNone result ((asked : AskedFor) → Means asked (codes "shortest") (rows_of (found_of given.now)) → ⊥) }
{
    let model = value_of(given, "MODEL")?;
    let property = number_or(given, "property", 0, 4_294_967_295, 0)?;
    let conflicts = number_or(given, "conflicts", 0, 4_294_967_295, DEFAULTS.conflicts)?;
    let depth = number_or(given, "depth", 0, 65_536, 100)?;
    let request = ShortestRequest {
        property: property as u32,
        conflicts,
        depth: depth as u32,
    };
    Some(Request::Shortest { model, request })
}
