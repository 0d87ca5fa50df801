//! The words of the command `safety`.

ghost use Rattle.std.specs.Prelude.{◌≡◌, codes, IfSome, IfNone};
ghost use Rattle.clap.specs.Walk.{rows_of};
ghost use Rattle.clap.specs.Matches.{found_of};
ghost use Rattle.command_lines.specs.Commands.{Request as AskedFor, meant, Means};

use crate::commands::Request;
use crate::words::{number_or, value_of};
use clap::ArgMatches;

/// The name and the number that `safety` is given.
pub(crate) fn safety_of<'a>(given: &ArgMatches<'a>) -> Option<Request<'a>>
    ensures found { IfSome result (λ asked. Means (meant asked) (codes "safety") (rows_of (found_of given.now))) }
    ensures none { IfNone result ((asked : AskedFor) → Means asked (codes "safety") (rows_of (found_of given.now)) → ⊥) }
{
    let model = value_of(given, "MODEL")?;
    let property = number_or(given, "property", 0, 4_294_967_295, 0)?;
    Some(Request::Safety {
        model,
        property: property as u32,
    })
}
