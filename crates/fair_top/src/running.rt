//! The top call: the one place that decides what a run of the program answers and writes.

ghost use Rattle.std.specs.Prelude.{◌≡◌, ◌≤◌, ◌⊎◌, ℕ, List, Option, IfOk, IfErr};
ghost use Rattle.fair_workers.specs.Runs.{AreServed, ServesOne, IsAnswer, IsEnded};
ghost use Rattle.given_entries.specs.Beginning.{told_of};
ghost use Rattle.fair_top.specs.Beginnings.{circuit_in, served_in, given_in};
ghost use Rattle.fair_top.specs.Solved.{AreWithin, MayBegin, IsSearch};
ghost use Rattle.edge.specs.Faults.{Rose, NoneFell};
ghost use Rattle.edge.specs.Reads.{KeepsTexts};
ghost use Rattle.command_lines.specs.Words.{bytes_of};
ghost use Rattle.command_lines.specs.Commands.Request.{Solve, Gen, Demo};
ghost use Rattle.fair_top.specs.Solve.{HasAsked, IsSolved, limits_of, task_for};
ghost use Rattle.fair_top.specs.Demo.{IsSummedUp};
ghost use Rattle.command_lines.specs.Asking.{AsksFor, IsTakenOrUsage};
ghost use Rattle.fair_top.specs.Headline.{ReadsNothing, IsRight, IsVerdict, HoldsAsShown, HasTakenText, ReadFailed, HasRead};
ghost use Rattle.plain_commands.specs.Answering.{GivesVerdict, IsCutShort, IsSilent, HasWritten};
ghost use Rattle.command_lines.specs.declared.commands.demonstrating.DemoRequest.{DemoRequest};
ghost use Rattle.command_lines.specs.declared.commands.generating.GenRequest.{GenRequest};
ghost use Rattle.command_lines.specs.declared.commands.solving.SolveRequest.{SolveRequest};
ghost use Rattle.unless_memory.specs.Answers.{GivesSome};
ghost use Rattle.plain_commands.specs.declared.status.Done.TheVariants.{Printed};

use crate::beginnings::Beginning;
use crate::commands::ending_of;
use crate::searching::{in_turns, on_threads};
use command_lines::SolveRequest;
use edge::{Gate, Shelf, Sink, write_all};
use fair_workers::{Ended, Report};
use plain_commands::{Ending, Status};
use std::alloc::Global;
use std::sync::Wait;
use std::thread::Threads;

/// Runs the command that the words name, of which the first is the program's own name: reads the texts from the
/// shelf, and writes the answer's text to `out`. The workers of `solve` have a thread each, and pass the gate before
/// their first round, between two rounds, and after the last. The clauses are those of `run_alone`, with their words
/// there; where threads wait for one another no clause says that it returns.
pub fn run<R: Threads + Wait + Sync, H: Shelf, O: Sink, G: Gate>(
    rt: &R,
    alloc: Global,
    words: &[String],
    shelf: &mut H,
    out: &mut O,
    gate: &G,
) -> Status
    ensures found { IsRight (H.held shelf.old) (bytes_of words.now) result }
    ensures exactly { (verdict : Status) → IsVerdict (H.held shelf.old) (bytes_of words.now) verdict → GivesVerdict verdict result }
    ensures shown { HoldsAsShown (H.held shelf.old) (bytes_of words.now) result }
    ensures words { IsTakenOrUsage (bytes_of words.now) }
    ensures printed { (request : GenRequest) → AsksFor (bytes_of words.now) (Gen request)
        → (result ≡ Status.Done Printed) ⊎ ((result ≡ Status.Memory) ⊎ (result ≡ Status.WriteFault)) }
    ensures solved { (model : List ℕ) (request : SolveRequest) (resume : Option (List ℕ))
        → AsksFor (bytes_of words.now) (Solve model request resume)
        → HasAsked (H.held shelf.old model) (told_of (H.held shelf.old) resume) request
        → GivesSome Status.Memory (λ status. IsSolved request.all status ⊎ IsCutShort status) result }
    ensures summed { (request : DemoRequest) → AsksFor (bytes_of words.now) (Demo request)
        → GivesSome Status.Memory (λ status. IsSummedUp status ⊎ (status ≡ Status.WriteFault)) result }
    ensures text { HasTakenText (H.held shelf.old) (bytes_of words.now) (O.taken out.old) (O.taken out.new) result }
    ensures silent { IsSilent result → out.new ≡ out.old }
    ensures read { result ≡ Status.ReadFault
        → ReadFailed (H.held shelf.old) (bytes_of words.now) (H.faults shelf.old) (H.faults shelf.new) }
    ensures reads { HasRead H.reads (H.held shelf.old) (bytes_of words.now) result shelf.old shelf.new }
    ensures written { HasWritten O.writes result out.old out.new }
    ensures write { result ≡ Status.WriteFault → Rose (O.faults out.old) (O.faults out.new) }
    ensures kept { KeepsTexts (H.held shelf.old) (H.held shelf.new) }
    ensures counts { NoneFell (H.faults shelf.old) (H.faults shelf.new) }
    ensures unread { ReadsNothing (bytes_of words.now) → shelf.new ≡ shelf.old }
    ensures writes { O.faults out.old ≤ O.faults out.new }
{
    let search = |beginning: &Beginning, request: SolveRequest| -> Result<Report, Ended>
        requires within { AreWithin request }
        requires serves { AreServed (circuit_in beginning.now) (served_in beginning.now) }
        requires one { ServesOne (limits_of request) (served_in beginning.now) }
        requires begins { MayBegin (circuit_in beginning.now) (given_in beginning.now) }
        ensures answer { IfOk result (IsAnswer
            (task_for (circuit_in beginning.now) (served_in beginning.now) request (given_in beginning.now))) }
        ensures ended { IfErr result (IsEnded
            (task_for (circuit_in beginning.now) (served_in beginning.now) request (given_in beginning.now))) }
    { on_threads(rt, gate, alloc, beginning, &request) };
    run_by(&search, alloc, words, shelf, out)
}

/// The same on one thread, where the workers of `solve` take turns. It waits for nobody, and returns.
pub fn run_alone<H: Shelf, O: Sink>(
    alloc: Global,
    words: &[String],
    shelf: &mut H,
    out: &mut O,
) -> Status
    // What is answered is so, of the words and of the texts that the shelf tells: the words are no command with its
    // values, or what the command gives with this status;
    ensures found { IsRight (H.held shelf.old) (bytes_of words.now) result }
    // and what is decided once is answered, unless memory is refused or a read or write fails.
    ensures exactly { (verdict : Status) → IsVerdict (H.held shelf.old) (bytes_of words.now) verdict → GivesVerdict verdict result }
    // What `check` accepts or `solve` prints is true: the circuit of MODEL has such a fair lasso, or has none of the
    // property; of a sheet there is a block for each property, as many of each kind as are told, and what they say is so.
    ensures shown { HoldsAsShown (H.held shelf.old) (bytes_of words.now) result }
    // Words are a command with its values, or are refused; and those of `gen` are answered with a model, unless memory
    // is refused or a write fails.
    ensures words { IsTakenOrUsage (bytes_of words.now) }
    ensures printed { (request : GenRequest) → AsksFor (bytes_of words.now) (Gen request)
        → (result ≡ Status.Done Printed) ⊎ ((result ≡ Status.Memory) ⊎ (result ≡ Status.WriteFault)) }
    // `solve` of a model that is told and has what is asked for, and of an answer, where one is named, that is told and gives
    // entries, comes to a verdict, on the property or on all, or to a report, unless memory is refused or a read or write fails.
    ensures solved { (model : List ℕ) (request : SolveRequest) (resume : Option (List ℕ))
        → AsksFor (bytes_of words.now) (Solve model request resume)
        → HasAsked (H.held shelf.old model) (told_of (H.held shelf.old) resume) request
        → GivesSome Status.Memory (λ status. IsSolved request.all status ⊎ IsCutShort status) result }
    // `demo` comes to a board with an outcome or to a report, unless memory is refused or a write fails.
    ensures summed { (request : DemoRequest) → AsksFor (bytes_of words.now) (Demo request)
        → GivesSome Status.Memory (λ status. IsSummedUp status ⊎ (status ≡ Status.WriteFault)) result }

    // The sink has taken the text that goes with the answer; after a failed write a part of it; after a failed read or
    // want of memory nothing: then the sink is as before.
    ensures text { HasTakenText (H.held shelf.old) (bytes_of words.now) (O.taken out.old) (O.taken out.new) result }
    ensures silent { IsSilent result → out.new ≡ out.old }

    // A failed read or write is answered only where it came. The reads are of the names that the words give, in turn,
    // MODEL's first and ANSWER's only where MODEL is a model's text. No read of MODEL goes behind the limit on a model's
    // text and one byte more. Of reads and of writes a failed one is the last, and is answered.
    ensures read { result ≡ Status.ReadFault
        → ReadFailed (H.held shelf.old) (bytes_of words.now) (H.faults shelf.old) (H.faults shelf.new) }
    ensures reads { HasRead H.reads (H.held shelf.old) (bytes_of words.now) result shelf.old shelf.new }
    ensures written { HasWritten O.writes result out.old out.new }
    ensures write { result ≡ Status.WriteFault → Rose (O.faults out.old) (O.faults out.new) }

    // The texts stay as they are, and no count of faults falls; words that are no command, `gen` and `demo` leave the shelf
    // alone.
    ensures kept { KeepsTexts (H.held shelf.old) (H.held shelf.new) }
    ensures counts { NoneFell (H.faults shelf.old) (H.faults shelf.new) }
    ensures unread { ReadsNothing (bytes_of words.now) → shelf.new ≡ shelf.old }
    ensures writes { O.faults out.old ≤ O.faults out.new }
{
    let search = |beginning: &Beginning, request: SolveRequest| -> Result<Report, Ended>
        requires within { AreWithin request }
        requires serves { AreServed (circuit_in beginning.now) (served_in beginning.now) }
        requires one { ServesOne (limits_of request) (served_in beginning.now) }
        requires begins { MayBegin (circuit_in beginning.now) (given_in beginning.now) }
        ensures answer { IfOk result (IsAnswer
            (task_for (circuit_in beginning.now) (served_in beginning.now) request (given_in beginning.now))) }
        ensures ended { IfErr result (IsEnded
            (task_for (circuit_in beginning.now) (served_in beginning.now) request (given_in beginning.now))) }
    { in_turns(alloc, beginning, &request) };
    run_by(&search, alloc, words, shelf, out)
}

// The same with workers that search by this closure. The clauses are those of `run_alone`.
fn run_by<S: Fn(&Beginning, SolveRequest) -> Result<Report, Ended>, H: Shelf, O: Sink>(
    search: &S,
    alloc: Global,
    words: &[String],
    shelf: &mut H,
    out: &mut O,
) -> Status
    requires search { IsSearch (λ q. circuit_in q.now) (λ q. served_in q.now) (λ q. given_in q.now) (S.pre search.now) (S.post search.now) }
    ensures found { IsRight (H.held shelf.old) (bytes_of words.now) result }
    ensures exactly { (verdict : Status) → IsVerdict (H.held shelf.old) (bytes_of words.now) verdict → GivesVerdict verdict result }
    ensures shown { HoldsAsShown (H.held shelf.old) (bytes_of words.now) result }
    ensures words { IsTakenOrUsage (bytes_of words.now) }
    ensures printed { (request : GenRequest) → AsksFor (bytes_of words.now) (Gen request)
        → (result ≡ Status.Done Printed) ⊎ ((result ≡ Status.Memory) ⊎ (result ≡ Status.WriteFault)) }
    ensures solved { (model : List ℕ) (request : SolveRequest) (resume : Option (List ℕ))
        → AsksFor (bytes_of words.now) (Solve model request resume)
        → HasAsked (H.held shelf.old model) (told_of (H.held shelf.old) resume) request
        → GivesSome Status.Memory (λ status. IsSolved request.all status ⊎ IsCutShort status) result }
    ensures summed { (request : DemoRequest) → AsksFor (bytes_of words.now) (Demo request)
        → GivesSome Status.Memory (λ status. IsSummedUp status ⊎ (status ≡ Status.WriteFault)) result }
    ensures text { HasTakenText (H.held shelf.old) (bytes_of words.now) (O.taken out.old) (O.taken out.new) result }
    ensures silent { IsSilent result → out.new ≡ out.old }
    ensures read { result ≡ Status.ReadFault
        → ReadFailed (H.held shelf.old) (bytes_of words.now) (H.faults shelf.old) (H.faults shelf.new) }
    ensures reads { HasRead H.reads (H.held shelf.old) (bytes_of words.now) result shelf.old shelf.new }
    ensures written { HasWritten O.writes result out.old out.new }
    ensures write { result ≡ Status.WriteFault → Rose (O.faults out.old) (O.faults out.new) }
    ensures kept { KeepsTexts (H.held shelf.old) (H.held shelf.new) }
    ensures counts { NoneFell (H.faults shelf.old) (H.faults shelf.new) }
    ensures unread { ReadsNothing (bytes_of words.now) → shelf.new ≡ shelf.old }
    ensures writes { O.faults out.old ≤ O.faults out.new }
{
    match ending_of(search, alloc, words, shelf) {
        Ok(Ending { status, text }) => match write_all(out, &text) {
            Ok(()) => status,
            Err(_) => Status::WriteFault,
        },
        Err(status) => status,
    }
}
