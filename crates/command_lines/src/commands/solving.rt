//! The words of the command `solve`.

ghost use Rattle.std.specs.Prelude.{codes, false, IfSome, IfNone};
ghost use Rattle.clap.specs.Walk.{rows_of};
ghost use Rattle.clap.specs.Matches.{found_of};
ghost use Rattle.command_lines.specs.Commands.{Request as AskedFor, meant, Means};
ghost use Rattle.command_lines.specs.Making.{MakesCommand};
ghost use Rattle.command_lines.specs.Solve.{solve_command};

use crate::commands::Request;
use crate::words::{
    flag_of, for_property, number_or, value_of, with_flag, with_number_option, with_text_option,
};
use clap::{ArgMatches, Command};
use std::alloc::{AllocError, Global};

/// Which property is to be decided, or that all are, and by what means.
#[derive(Clone, Copy)]
pub struct SolveRequest {
    /// The number of the property, counted from 0.
    pub property: u32,
    /// How many workers search, 1 to 64.
    pub workers: u32,
    /// How many conflicts a worker may count, 0 to 4,294,967,295; the last value means no limit.
    pub conflicts: u64,
    /// How many steps a worker may count, 0 to 4,294,967,295; the last value means no limit.
    pub steps: u64,
    /// By how many entries the shared list may grow, 0 to 65,536.
    pub skeletons: u32,
    /// How many of the workers are lasso workers, 0 to 63, and never all.
    pub lassos: u32,
    /// How many positions the lassos have at most that these ask for, 0 to 65,536.
    pub depth: u32,
    /// Whether all properties are to be decided; the number of one plays then no part, nor do lasso workers.
    pub all: bool,
}

/// What is asked for where only a model is named.
pub const DEFAULTS: SolveRequest = SolveRequest {
    property: 0,
    workers: 1,
    conflicts: 1_000_000,
    steps: 100_000,
    skeletons: 10_000,
    lassos: 0,
    depth: 100,
    all: false,
};

/// The command `solve`, with its arguments.
pub(crate) fn solve_command<'a>(alloc: Global) -> Result<Command<'a>, AllocError>
    ensures { MakesCommand solve_command result }
{
    let command = for_property(alloc, "solve");
    let command = with_number_option(alloc, command, "workers", 1, 64);
    let command = with_number_option(alloc, command, "conflicts", 0, 4_294_967_295);
    let command = with_number_option(alloc, command, "steps", 0, 4_294_967_295);
    let command = with_number_option(alloc, command, "skeletons", 0, 65_536);
    let command = with_number_option(alloc, command, "lassos", 0, 63);
    let command = with_number_option(alloc, command, "depth", 0, 65_536);
    let command = with_flag(alloc, command, "all");
    with_text_option(alloc, command, "resume")
}

/// The names and the numbers that `solve` is given, with the numbers' defaults.
pub(crate) fn solve_of<'a>(given: &ArgMatches<'a>) -> Option<Request<'a>>
    ensures found { IfSome result (λ asked. Means (meant asked) (codes "solve") (rows_of (found_of given.now))) }
    ensures none { IfNone result ((asked : AskedFor) → Means asked (codes "solve") (rows_of (found_of given.now)) → ⊥) }
{
    let model = value_of(given, "MODEL")?;
    let resume = value_of(given, "resume");
    let property = number_or(
        given,
        "property",
        0,
        4_294_967_295,
        u64::from(DEFAULTS.property),
    )?;
    let workers = number_or(given, "workers", 1, 64, u64::from(DEFAULTS.workers))?;
    let conflicts = number_or(given, "conflicts", 0, 4_294_967_295, DEFAULTS.conflicts)?;
    let steps = number_or(given, "steps", 0, 4_294_967_295, DEFAULTS.steps)?;
    let skeletons = number_or(given, "skeletons", 0, 65_536, u64::from(DEFAULTS.skeletons))?;
    let lassos = number_or(given, "lassos", 0, 63, u64::from(DEFAULTS.lassos))?;
    let depth = number_or(given, "depth", 0, 65_536, u64::from(DEFAULTS.depth))?;
    let all = flag_of(given, "all");
    let request = SolveRequest {
        property: property as u32,
        workers: workers as u32,
        conflicts,
        steps,
        skeletons: skeletons as u32,
        lassos: lassos as u32,
        depth: depth as u32,
        all,
    };
    Some(Request::Solve {
        model,
        request,
        resume,
    })
}
