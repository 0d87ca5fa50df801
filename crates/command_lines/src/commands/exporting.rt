//! The words of the command `export`.

ghost use Rattle.std.specs.Prelude.{codes, IfSome, IfNone};
ghost use Rattle.clap.specs.Walk.{rows_of};
ghost use Rattle.clap.specs.Matches.{found_of};
ghost use Rattle.command_lines.specs.declared.commands.exporting.ExportRequest.{ExportRequest as RequestOf};
ghost use Rattle.command_lines.specs.Commands.{Request as AskedFor, meant, Means};
ghost use Rattle.command_lines.specs.Making.{MakesCommand};
ghost use Rattle.command_lines.specs.Export.{export_command, IsItemGiven};

use crate::commands::Request;
use crate::words::{
    flag_of, for_model_and_answer, number_of, value_of, with_flag, with_wanted_number,
};
use clap::{ArgMatches, Command};
use std::alloc::{AllocError, Global};

/// Which obligation of an answer is asked for, and in which form.
#[derive(Clone, Copy)]
pub struct ExportRequest {
    /// The number of an entry, or behind the last one for the refutation.
    pub entry: u32,
    /// The number of the entry's clause, or 0.
    pub clause: u32,
    /// Its proof, else its clauses.
    pub lrat: bool,
}

/// The command `export`, with its arguments.
pub(crate) fn export_command<'a>(alloc: Global) -> Result<Command<'a>, AllocError>
    ensures { MakesCommand export_command result }
{
    let command = for_model_and_answer(alloc, "export");
    let command = with_wanted_number(alloc, command, "ENTRY", 0, 4_294_967_295);
    let command = with_wanted_number(alloc, command, "CLAUSE", 0, 4_294_967_295);
    with_flag(alloc, command, "lrat")
}

/// The names and the item that `export` is given.
pub(crate) fn export_of<'a>(given: &ArgMatches<'a>) -> Option<Request<'a>>
    ensures found { IfSome result (λ asked. Means (meant asked) (codes "export") (rows_of (found_of given.now))) }
    ensures none { IfNone result ((asked : AskedFor) → Means asked (codes "export") (rows_of (found_of given.now)) → ⊥) }
{
    let model = value_of(given, "MODEL")?;
    let answer = value_of(given, "ANSWER")?;
    let request = item_of(given)?;
    Some(Request::Export {
        model,
        answer,
        request,
    })
}

fn item_of(given: &ArgMatches) -> Option<ExportRequest>
    ensures found { IfSome result (IsItemGiven (rows_of (found_of given.now))) }
    ensures none { IfNone result ((request : RequestOf) → IsItemGiven (rows_of (found_of given.now)) request → ⊥) }
{
    let entry = number_of(given, "ENTRY", 0, 4_294_967_295)?;
    let clause = number_of(given, "CLAUSE", 0, 4_294_967_295)?;
    let lrat = flag_of(given, "lrat");
    Some(ExportRequest {
        entry: entry as u32,
        clause: clause as u32,
        lrat,
    })
}
