//! The commands, each of which has a module of its own here or in `plain_commands`: here is one case for each in
//! `ending_for`. The main call is `ending_of`, which does what the words ask for. Writes nothing.
//!
//! A new command has in `command_lines`, which reads its words, a file in `src/commands/` and one in `specs/`, and here, or in
//! `plain_commands`, again one of each with a file of lemmas. Else it touches the lists: here `specs/Commands.antt`, this
//! file, `proofs/EachCommand.antt` and `proofs/commands/ending_for/Answers.antt`; `specs/Lib.antt` and `proofs/Lib.antt` of
//! that crate, and of `plain_commands` `src/lib.rt` and `src/commands.rt`; and those that `command_lines/src/commands.rt`
//! names.

ghost use Rattle.std.specs.Prelude.{◌≡◌, ◌⊎◌, List, ℕ, false, IfOk, IfErr};
ghost use Rattle.edge.specs.Faults.{NoneFell};
ghost use Rattle.edge.specs.Reads.{KeepsTexts};
ghost use Rattle.sheet_answers.specs.declared.ends.Judged.{Judged as JudgedOf};
ghost use Rattle.command_lines.specs.Words.{bytes_of};
ghost use Rattle.plain_commands.specs.Check.{done_by};
ghost use Rattle.command_lines.specs.Commands.{Request as AskedFor, names_in, meant};
ghost use Rattle.fair_top.specs.Commands.{CommandGives, Decides, ShownBy};
ghost use Rattle.command_lines.specs.Asking.{AsksFor, IsUsage, IsTakenOrUsage};
ghost use Rattle.fair_top.specs.Headline.{ReadsNothing, Ends, IsVerdict, HoldsAsShown, MayHaveFailed, ReadFailed, HasRead};
ghost use Rattle.plain_commands.specs.Answering.{IsSilent, GivesVerdict, FailedOf, ReadsModelFirst};
ghost use Rattle.fair_top.specs.Solved.{SolvesAsked, IsSearch};
ghost use Rattle.fair_top.specs.Beginnings.{circuit_in, served_in, given_in};
ghost use Rattle.plain_commands.specs.Statuses.{status_in, is_read_fault};

mod checking;
mod demonstrating;
mod solving;
mod waving;

use crate::beginnings::Beginning;
use checking::check;
pub(crate) use checking::status_of_end;
use command_lines::{Request, SolveRequest, WordsEnd, asked_of};
use demonstrating::demonstrate;
use edge::Shelf;
use fair_workers::{Ended, Report};
use plain_commands::{
    Conversion, Ending, Status, Trimming, count_rounds, export_item, find_shortest, generate,
    remake, safety, with_text, write_slice,
};
pub(crate) use solving::limits_of;
use solving::solve;
use std::alloc::Global;
use waving::wave;

/// The status with which a run ends and the text that it writes, but for its writing; or the status of a run that
/// writes nothing, `ReadFault` or `Memory`. The workers of `solve` search as `search` lets them.
pub(crate) fn ending_of<S: Fn(&Beginning, SolveRequest) -> Result<Report, Ended>, H: Shelf>(
    search: &S,
    alloc: Global,
    words: &[String],
    shelf: &mut H,
) -> Result<Ending, Status>
    requires search { IsSearch (λ q. circuit_in q.now) (λ q. served_in q.now) (λ q. given_in q.now) (S.pre search.now) (S.post search.now) }
    ensures found { IfOk result (λ ending. Ends (H.held shelf.old) (bytes_of words.now) ending.status ending.text.items) }
    ensures silent { IfErr result IsSilent }
    ensures aloud { IfOk result (λ ending. is_read_fault ending.status ≡ false) }
    ensures exactly { (verdict : Status) → IsVerdict (H.held shelf.old) (bytes_of words.now) verdict
        → GivesVerdict verdict (status_in result) }
    ensures shown { HoldsAsShown (H.held shelf.old) (bytes_of words.now) (status_in result) }
    ensures words { IsTakenOrUsage (bytes_of words.now) }
    ensures solved { (asked : AskedFor) → AsksFor (bytes_of words.now) asked → SolvesAsked (H.held shelf.old) asked (status_in result) }
    ensures read { status_in result ≡ Status.ReadFault
        → ReadFailed (H.held shelf.old) (bytes_of words.now) (H.faults shelf.old) (H.faults shelf.new) }
    ensures reads { HasRead H.reads (H.held shelf.old) (bytes_of words.now) (status_in result) shelf.old shelf.new }
    ensures unread { ReadsNothing (bytes_of words.now) → shelf.new ≡ shelf.old }
    ensures counts { NoneFell (H.faults shelf.old) (H.faults shelf.new) }
    ensures kept { KeepsTexts (H.held shelf.old) (H.held shelf.new) }
{
    match asked_for(alloc, words) {
        Ok(asked) => ending_for(search, alloc, asked, shelf),
        Err(status) => with_text(alloc, status),
    }
}

/// What the words ask for. The status is `Usage` where they are no command or its values no request, or `Memory`.
fn asked_for<'a>(alloc: Global, words: &'a [String]) -> Result<Request<'a>, Status>
    ensures found { IfOk result (λ asked. AsksFor (bytes_of words.now) (meant asked)) }
    ensures either { IsTakenOrUsage (bytes_of words.now) }
    ensures ended { IfErr result (λ status. ((status ≡ Status.Usage) × IsUsage (bytes_of words.now)) ⊎ (status ≡ Status.Memory)) }
{
    match asked_of(alloc, words) {
        Ok(asked) => Ok(asked),
        Err(WordsEnd::Usage) => Err(Status::Usage),
        Err(WordsEnd::Memory) => Err(Status::Memory),
    }
}

/// The ending of what is asked for: a case for each command.
fn ending_for<S: Fn(&Beginning, SolveRequest) -> Result<Report, Ended>, H: Shelf>(
    search: &S,
    alloc: Global,
    asked: Request,
    shelf: &mut H,
) -> Result<Ending, Status>
    requires search { IsSearch (λ q. circuit_in q.now) (λ q. served_in q.now) (λ q. given_in q.now) (S.pre search.now) (S.post search.now) }
    requires asked { (words : List (List ℕ)) × AsksFor words (meant asked) }
    ensures found { IfOk result (λ ending. CommandGives (H.held shelf.old) (meant asked.entry) ending.status ending.text.items) }
    ensures silent { IfErr result IsSilent }
    ensures aloud { IfOk result (λ ending. is_read_fault ending.status ≡ false) }
    ensures exactly { (verdict : Status) → Decides (H.held shelf.old) (meant asked.entry) verdict
        → GivesVerdict verdict (status_in result) }
    ensures shown { (accepted : JudgedOf) → status_in result ≡ Status.Done (done_by accepted)
        → ShownBy (H.held shelf.old) (meant asked.entry) accepted }
    ensures solved { SolvesAsked (H.held shelf.old) (meant asked.entry) (status_in result) }
    ensures read { status_in result ≡ Status.ReadFault
        → FailedOf (H.held shelf.old) (names_in (meant asked.entry)) (H.faults shelf.old) (H.faults shelf.new) }
    ensures there { status_in result ≡ Status.ReadFault
        → MayHaveFailed (H.held shelf.old) (meant asked.entry) (H.faults shelf.old) (H.faults shelf.new) }
    ensures reads { ReadsModelFirst H.reads (H.held shelf.old) (names_in (meant asked.entry))
        (is_read_fault (status_in result)) shelf.old shelf.new }
    ensures counts { NoneFell (H.faults shelf.old) (H.faults shelf.new) }
    ensures kept { KeepsTexts (H.held shelf.old) (H.held shelf.new) }
{
    match asked {
        Request::Solve {
            model,
            request,
            resume,
        } => solve(search, alloc, shelf, model, resume, &request),
        Request::Check { model, answer } => with_text(alloc, check(alloc, shelf, model, answer)),
        Request::Gen(request) => generate(alloc, &request),
        Request::Demo(request) => demonstrate(alloc, &request),
        Request::Wave {
            model,
            answer,
            property,
        } => wave(alloc, shelf, model, answer, property),
        Request::Slice { model, property } => write_slice(alloc, shelf, model, property),
        Request::Convert { model, answer } => remake(alloc, shelf, model, answer, &Conversion {}),
        Request::Safety { model, property } => safety(alloc, shelf, model, property),
        Request::Rounds { model, request } => count_rounds(alloc, shelf, model, &request),
        Request::Shortest { model, request } => find_shortest(alloc, shelf, model, &request),
        Request::Trim { model, answer } => remake(alloc, shelf, model, answer, &Trimming {}),
        Request::Export {
            model,
            answer,
            request,
        } => export_item(alloc, shelf, model, answer, &request),
    }
}
