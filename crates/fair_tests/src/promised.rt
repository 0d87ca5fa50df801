//! Clauses of public calls, said again as clauses of this crate's own: where such a call comes to say less, the function
//! here that makes it is not proved.
ghost use Rattle.std.specs.Prelude.{◌≡◌, ◌⊎◌, IfOk, IfErr};
ghost use Rattle.command_lines.specs.Words.{bytes_of};
ghost use Rattle.command_lines.specs.Commands.{Request as AskedFor, meant};
ghost use Rattle.command_lines.specs.Asking.{AsksFor, IsUsage, IsTakenOrUsage, IsTold};

use command_lines::{Request, WordsEnd};
use std::alloc::Global;

/// What is told is asked for, what is asked for is told, and `Usage` comes where the words are no command.
fn asked_of<'a>(alloc: Global, words: &'a [String]) -> Result<Request<'a>, WordsEnd>
    ensures found { IfOk result (λ asked. AsksFor (bytes_of words.now) (meant asked)) }
    ensures exactly { (asked : AskedFor) → AsksFor (bytes_of words.now) asked → IsTold asked result }
    ensures either { IsTakenOrUsage (bytes_of words.now) }
    ensures ended { IfErr result (λ end. ((end ≡ WordsEnd.Usage) × IsUsage (bytes_of words.now)) ⊎ (end ≡ WordsEnd.Memory)) }
{
    command_lines::asked_of(alloc, words)
}
