//! The commands, each of which has a module of its own: here is one line, or one case, for each in the list of what is
//! asked for, in the usage text, in `program` and in `asked_as`. The main call is `asked_of`.
//!
//! A new command has here a file in `src/commands/` and one in `specs/`, and in `plain_commands` or `fair_top`, one of which
//! runs it, again one of each with a file of lemmas. Else it touches the lists: here `specs/Commands.antt`, this file,
//! `proofs/EachCommand.antt`, `proofs/commands/program/Answers.antt` and `specs/Lib.antt`, and those that
//! `fair_top/src/commands.rt` names.

ghost use Rattle.std.specs.Prelude.{◌≡◌, ◌⊎◌, option_map, IfOk, IfErr, IfSome, IfNone};
ghost use Rattle.clap.specs.Simple.{app_of, subcommand_rows_of, subcommand_of};
ghost use Rattle.clap.specs.Walk.{rows_of};
ghost use Rattle.clap.specs.Matches.{found_of};
ghost use Rattle.clap.specs.Kinds.{FailsBy};
ghost use Rattle.clap.specs.Faults.{fault_of};
ghost use Rattle.command_lines.specs.Words.{bytes_of};
ghost use Rattle.command_lines.specs.Commands.{Request as AskedFor, meant, fairlive, Means};
ghost use Rattle.command_lines.specs.Asking.{AsksFor, IsUsage, IsTakenOrUsage, IsTold};
ghost use Rattle.command_lines.specs.Met.{MetFor, IsRead};

mod bounding;
mod checking;
mod converting;
mod counting;
mod demonstrating;
mod exporting;
mod generating;
mod slicing;
mod solving;
mod translating;
mod trimming;
mod waving;

use crate::words::{attached, for_model_and_answer, for_property};
pub use bounding::ShortestRequest;
use bounding::{shortest_command, shortest_of};
use checking::check_of;
use clap::error::ErrorKind;
use clap::{ArgMatches, Command, Error};
use converting::convert_of;
pub use counting::RoundsRequest;
use counting::{rounds_command, rounds_of};
pub use demonstrating::DemoRequest;
use demonstrating::{demo_command, demo_of};
pub use exporting::ExportRequest;
use exporting::{export_command, export_of};
pub use generating::{GenKind, GenRequest};
use generating::{gen_command, gen_of};
use slicing::slice_of;
pub use solving::{DEFAULTS, SolveRequest};
use solving::{solve_command, solve_of};
use std::alloc::{AllocError, Global};
use translating::safety_of;
use trimming::trim_of;
use waving::{wave_command, wave_of};

/// A command with its values.
#[derive(Clone, Copy)]
pub enum Request<'a> {
    /// Decide a property, or all, of the model under the name, by a list that begins with the entries of the answer under
    /// another, where one is given.
    Solve {
        model: &'a str,
        request: SolveRequest,
        resume: Option<&'a str>,
    },
    /// Check the answer under one name against the model under the other.
    Check {
        model: &'a str,
        answer: &'a str,
    },
    /// Write a generated model.
    Gen(GenRequest),
    /// Decide a property of a generated model, and print a summary.
    Demo(DemoRequest),
    /// Write the waves of the answer's lasso; of a sheet those of a property's.
    Wave {
        model: &'a str,
        answer: &'a str,
        property: u32,
    },
    /// Write what of the model lies in the cone of a property.
    Slice {
        model: &'a str,
        property: u32,
    },
    /// Write the answer in the current version.
    Convert {
        model: &'a str,
        answer: &'a str,
    },
    /// Write a property of the model as a model for checkers of safety.
    Safety {
        model: &'a str,
        property: u32,
    },
    /// Decide whether some run has so many rounds of a property of the model.
    Rounds {
        model: &'a str,
        request: RoundsRequest,
    },
    /// Print a shortest lasso of a property of the model, or that there is none of so many positions.
    Shortest {
        model: &'a str,
        request: ShortestRequest,
    },
    /// Write the answer without what it does not need.
    Trim {
        model: &'a str,
        answer: &'a str,
    },
    /// Write the clauses of an obligation of the answer, or its proof, for other checkers.
    Export {
        model: &'a str,
        answer: &'a str,
        request: ExportRequest,
    },
}

/// What is written where the words are no command: a line for each command.
pub const USAGE: &str =
    "usage: fairlive solve MODEL [--property N] [--workers W] [--conflicts C] [--steps S] [--skeletons K] [--lassos N] [--depth D] [--all] [--resume ANSWER]\n       fairlive check MODEL ANSWER\n       fairlive gen KIND SEED SIZE [--binary]\n       fairlive demo SEED SIZE\n       fairlive wave MODEL ANSWER [--property N]\n       fairlive slice MODEL [--property N]\n       fairlive convert MODEL ANSWER\n       fairlive safety MODEL [--property N]\n       fairlive rounds MODEL K [--property N] [--conflicts C] [--steps S]\n       fairlive shortest MODEL [--property N] [--conflicts C] [--depth D]\n       fairlive trim MODEL ANSWER\n       fairlive export MODEL ANSWER ENTRY CLAUSE [--lrat]\n";

/// Why the words ask for nothing.
#[derive(Drop)]
pub enum WordsEnd {
    /// They are no command, or their values are no request of it.
    Usage,
    /// Memory was refused.
    Memory,
}

/// What the words ask for, of which the first is the program's own name: where `clap` takes them, and their values are such
/// as the command takes. `Usage` comes exactly where they are no command, unless memory is wanted; `Memory` where it is.
pub fn asked_of<'a>(alloc: Global, words: &'a [String]) -> Result<Request<'a>, WordsEnd>
    // What is told is asked for; and whatever is asked for is told, unless memory is refused.
    ensures found { IfOk result (λ asked. AsksFor (bytes_of words.now) (meant asked)) }
    ensures exactly { (asked : AskedFor) → AsksFor (bytes_of words.now) asked → IsTold asked result }
    // Words ask for something, or are no command; `Usage` is answered where they are none.
    ensures either { IsTakenOrUsage (bytes_of words.now) }
    ensures ended { IfErr result (λ end. ((end ≡ WordsEnd.Usage) × IsUsage (bytes_of words.now)) ⊎ (end ≡ WordsEnd.Memory)) }
{
    read_words(alloc, words)
}

fn read_words<'a>(alloc: Global, words: &'a [String]) -> Result<Request<'a>, WordsEnd>
    ensures { IsRead (bytes_of words.now) result }
{
    match matches_of(alloc, words) {
        Ok(matches) => {
            let asked = asked_by(&matches);
            drop(matches);
            match asked {
                Some(asked) => Ok(asked),
                None => Err(WordsEnd::Usage),
            }
        }
        Err(error) => {
            let kind = error.kind();
            drop(error);
            match kind {
                ErrorKind::OutOfMemory => Err(WordsEnd::Memory),
                _ => Err(WordsEnd::Usage),
            }
        }
    }
}

/// What `clap` makes of the words.
fn matches_of<'a>(alloc: Global, words: &'a [String]) -> Result<ArgMatches<'a>, Error>
    ensures found { IfOk result (λ matches. subcommand_rows_of matches ≡ subcommand_of fairlive (bytes_of words.now)) }
    ensures kinds { FailsBy (fault_of fairlive (bytes_of words.now)) result }
{
    let command = program(alloc)?;
    command.try_get_matches_from(words)
}

/// The program and its commands: a line for each.
fn program<'a>(alloc: Global) -> Result<Command<'a>, AllocError>
    ensures { IfOk result (λ command. app_of command ≡ fairlive) }
{
    let program = Command::new(alloc, "fairlive")
        .subcommand_required(true)
        .disable_help_subcommand(true);
    let program = attached(Ok(program), solve_command(alloc));
    let program = attached(program, for_model_and_answer(alloc, "check"));
    let program = attached(program, gen_command(alloc));
    let program = attached(program, demo_command(alloc));
    let program = attached(program, wave_command(alloc));
    let program = attached(program, for_property(alloc, "slice"));
    let program = attached(program, for_model_and_answer(alloc, "convert"));
    let program = attached(program, for_property(alloc, "safety"));
    let program = attached(program, rounds_command(alloc));
    let program = attached(program, shortest_command(alloc));
    let program = attached(program, for_model_and_answer(alloc, "trim"));
    attached(program, export_command(alloc))
}

/// What the command that was met asks for, if it is one of the program's and its values are a request.
fn asked_by<'a>(matches: &ArgMatches<'a>) -> Option<Request<'a>>
    ensures found { IfSome result (λ asked. MetFor (subcommand_rows_of matches.now) (meant asked)) }
    ensures none { IfNone result ((asked : AskedFor) → MetFor (subcommand_rows_of matches.now) asked → ⊥) }
{
    match met(matches) {
        Some((name, given)) => asked_as(name, given),
        None => None,
    }
}

/// The name of the command that was met, and its values.
fn met<'a, 'm>(matches: &'m ArgMatches<'a>) -> Option<(&'a str, &'m ArgMatches<'a>)>
    ensures { option_map (λ p. (p.0.now, rows_of (found_of p.1.now))) result ≡ subcommand_rows_of matches.now }
{
    matches.subcommand()
}

/// What the command of this name asks for: a case for each.
fn asked_as<'a>(name: &str, given: &ArgMatches<'a>) -> Option<Request<'a>>
    ensures found { IfSome result (λ asked. Means (meant asked) name.now (rows_of (found_of given.now))) }
    ensures none { IfNone result ((asked : AskedFor) → Means asked name.now (rows_of (found_of given.now)) → ⊥) }
{
    match name {
        "solve" => solve_of(given),
        "check" => check_of(given),
        "gen" => gen_of(given),
        "demo" => demo_of(given),
        "wave" => wave_of(given),
        "slice" => slice_of(given),
        "convert" => convert_of(given),
        "safety" => safety_of(given),
        "rounds" => rounds_of(given),
        "shortest" => shortest_of(given),
        "trim" => trim_of(given),
        "export" => export_of(given),
        _ => None,
    }
}
