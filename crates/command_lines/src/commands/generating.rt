//! The words of the command `gen`.

ghost use Rattle.std.specs.Prelude.{◌≡◌, Some, codes, IfSome, IfNone};
ghost use Rattle.clap.specs.Walk.{rows_of};
ghost use Rattle.clap.specs.Matches.{found_of};
ghost use Rattle.command_lines.specs.declared.commands.generating.GenKind.{GenKind as KindOf};
ghost use Rattle.command_lines.specs.declared.commands.generating.GenRequest.{GenRequest as RequestOf};
ghost use Rattle.command_lines.specs.Commands.{Request as AskedFor, meant, Means};
ghost use Rattle.command_lines.specs.Making.{MakesCommand};
ghost use Rattle.command_lines.specs.Gen.{gen_command, name_of_kind, MeansGen};

use crate::commands::Request;
use crate::words::{flag_of, for_value, number_of, value_of, with_flag, with_wanted_number};
use clap::{ArgMatches, Command};
use std::alloc::{AllocError, Global};

/// Which generated model is asked for, and in which form.
#[derive(Clone, Copy)]
pub struct GenRequest {
    pub kind: GenKind,
    /// 0 to 4,294,967,295.
    pub seed: u64,
    /// The number of latches, 1 to 256.
    pub size: u64,
    /// In binary, else in ASCII.
    pub binary: bool,
}

/// The kinds of generated models.
#[derive(Clone, Copy)]
pub enum GenKind {
    /// Latches in a ring, of which one begins with 1.
    Ring,
    /// Two inputs, latches and twice as many gates, whose literals are drawn.
    Scramble,
}

/// The command `gen`, with its arguments. KIND is tested by the program itself, see `kind_of`.
pub(crate) fn gen_command<'a>(alloc: Global) -> Result<Command<'a>, AllocError>
    ensures { MakesCommand gen_command result }
{
    let command = for_value(alloc, "gen", "KIND");
    let command = with_wanted_number(alloc, command, "SEED", 0, 4_294_967_295);
    let command = with_wanted_number(alloc, command, "SIZE", 1, 256);
    with_flag(alloc, command, "binary")
}

/// The request that the values of `gen` are.
pub(crate) fn gen_of<'a>(given: &ArgMatches<'a>) -> Option<Request<'a>>
    ensures found { IfSome result (λ asked. Means (meant asked) (codes "gen") (rows_of (found_of given.now))) }
    ensures none { IfNone result ((asked : AskedFor) → Means asked (codes "gen") (rows_of (found_of given.now)) → ⊥) }
{
    Some(Request::Gen(request_of(given)?))
}

fn request_of(given: &ArgMatches) -> Option<GenRequest>
    ensures found { IfSome result (MeansGen (rows_of (found_of given.now))) }
    ensures none { IfNone result ((request : RequestOf) → MeansGen (rows_of (found_of given.now)) request → ⊥) }
{
    let kind = kind_of(value_of(given, "KIND")?)?;
    let seed = number_of(given, "SEED", 0, 4_294_967_295)?;
    let size = number_of(given, "SIZE", 1, 256)?;
    let binary = flag_of(given, "binary");
    Some(GenRequest {
        kind,
        seed,
        size,
        binary,
    })
}

/// The kind of this name.
fn kind_of(name: &str) -> Option<GenKind>
    ensures found { IfSome result (λ kind. name.now ≡ name_of_kind kind) }
    ensures exactly { (kind : KindOf) → name.now ≡ name_of_kind kind → result ≡ Some kind }
{
    if name == "ring" {
        return Some(GenKind::Ring);
    }
    if name == "scramble" {
        return Some(GenKind::Scramble);
    }
    None
}
