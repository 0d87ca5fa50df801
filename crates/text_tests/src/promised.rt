//! Clauses of public calls, said again as clauses of this crate's own: where such a call comes to say less, the function
//! here that makes it is not proved.
ghost use Rattle.std.specs.Prelude.{◌≡◌, Ok, Err, IfOk, ◌↔◌, IsTrue, ◌-◌, [], ◌++◌, IsErrOf};
ghost use Rattle.std.specs.Prelude.{IsFalse, ◌≤◌, length, ◌<◌, take, OnErr, Some, IsErr, IfErr, OnOk};
ghost use Rattle.std.specs.Prelude.{ℕ, List, ◌+◌, ◌^◌, drop, is_err, vec_len};
ghost use Rattle.unless_memory.specs.Answers.{Gives, GivesSome, GivesExactlyWhere};
ghost use Rattle.proof_semantics.specs.Clauses.{clauses_value, values_of};
ghost use Rattle.circuit.specs.declared.faults.ModelFault.{ModelFault as FaultOf};
ghost use Rattle.aiger_grammar.specs.BothForms.{SameFault};
ghost use Rattle.aiger_grammar.specs.declared.names.Counts.{Counts as CountsOf};
ghost use Rattle.aiger_grammar.specs.declared.names.Names.{Names as NamesOf};
ghost use Rattle.aiger_grammar.specs.Names.{names_at, AreNames, HasNamesFault};
ghost use Rattle.aiger_grammar.specs.Reading.{answer_of};
ghost use Rattle.aiger_grammar.specs.Models.{Model as ModelOf};
ghost use Rattle.aiger_grammar.specs.AsciiTexts.{IsAsciiTextOf, HasAsciiFault};
ghost use Rattle.aiger_grammar.specs.Spelling.{ascii_text, HasAsciiForm, binary_text, names_text, AreWritable};
ghost use Rattle.aiger_grammar.specs.BinaryTexts.{IsBinaryTextOf, HasBinaryFault, HasBinaryForm};
ghost use Rattle.aiger_grammar.specs.Ordered.{IsOrdered, HasBinaryText};
ghost use Rattle.edge.specs.Told.{IfTold};
ghost use Rattle.text_grammar.specs.Lines.{lines_of};
ghost use Rattle.answer_lines.specs.Left.{left_of, given_line, most_bytes, IsTooLong, Took};
ghost use Rattle.edge.specs.Faults.{HasCause, NoneFell, Rose, one_more};
ghost use Rattle.edge.specs.InMemory.{named_texts, text_of};
ghost use Rattle.edge.specs.Reads.{GivesBytes, KeepsTexts, Reads, Within, has_failed};
ghost use Rattle.edge.specs.Writes.{Adds, AddsPart, Writes};
ghost use Rattle.edge.specs.Units.{SpentConflict, SpentLemma, SpentFrame};
ghost use Rattle.edge.specs.declared.metering.Counted.TheVariants.{Conflicts, Steps};

use aig_semantics::MAX_MODEL_BYTES;
use aiger_names::{Counts, Model, Names};
use answer_lines::{Lines, LinesEnd};
use circuit::{Circuit, ModelEnd};
use cnf::{Clause, Db};
use edge::{
    Failed, FileShelf, Held, MemShelf, MemSink, Meter, ReadEnd, Shelf, Sink, Spending, Spent,
    StdSink,
};
use std::alloc::{AllocError, Global};
use std::rt::Files;

/// A model is read where the text stands for it, names and all; and else its first fault is told.
fn ascii_read(alloc: Global, bytes: &[u8]) -> Result<Model, ModelEnd>
    ensures found { IfOk result (λ m. IsAsciiTextOf m bytes.now) }
    ensures every { (m : ModelOf) → IsAsciiTextOf m bytes.now
        → Gives (Err ModelEnd.Memory) (Ok m) result }
    ensures fault { (fault : FaultOf) → result ≡ Err (ModelEnd.Fault fault) → HasAsciiFault bytes.now fault }
    ensures first { (fault : FaultOf) → HasAsciiFault bytes.now fault
        → GivesSome (Err ModelEnd.Memory)
        (λ answer. (said : FaultOf) × (answer ≡ Err (ModelEnd.Fault said)) × SameFault said fault) result }
{
    aiger_ascii::read(alloc, bytes)
}

/// Resets and right sides are written as they are, and the text is read as the model again.
fn ascii_written(alloc: Global, model: &Model) -> Result<Vec<u8>, AllocError>
    ensures text { IfOk result (λ text. text.items ≡ ascii_text model.now) }
    ensures stands { IfOk result (λ text. HasAsciiForm model.now text.items) }
    ensures read { IfOk result (λ text. length text.items ≤ MAX_MODEL_BYTES → IsAsciiTextOf model.now text.items) }
{
    aiger_ascii::write(alloc, model)
}

/// A model that is read is ordered, and its text stands for it.
fn binary_read(alloc: Global, bytes: &[u8]) -> Result<Model, ModelEnd>
    ensures found { IfOk result (λ m. IsBinaryTextOf m bytes.now) }
    ensures ordered { IfOk result (λ m. IsOrdered m) }
    ensures every { (m : ModelOf) → IsBinaryTextOf m bytes.now
        → Gives (Err ModelEnd.Memory) (Ok m) result }
    ensures fault { (fault : FaultOf) → result ≡ Err (ModelEnd.Fault fault) → HasBinaryFault bytes.now fault }
    ensures first { (fault : FaultOf) → HasBinaryFault bytes.now fault
        → GivesSome (Err ModelEnd.Memory)
        (λ answer. (said : FaultOf) × (answer ≡ Err (ModelEnd.Fault said)) × SameFault said fault) result }
{
    aiger_binary::read(alloc, bytes)
}

/// A model with a greater greatest variable is not ordered.
fn is_ordered(model: &Model) -> bool
    ensures ordered { IsTrue result ↔ IsOrdered model.now }
    ensures text { IsTrue result ↔ HasBinaryText model.now }
{
    aiger_binary::is_ordered(model)
}

/// The two differences of a gate are written in their order.
fn binary_written(alloc: Global, model: &Model) -> Result<Vec<u8>, AllocError>
    requires { IsOrdered model.now }
    ensures text { IfOk result (λ text. text.items ≡ binary_text model.now) }
    ensures stands { IfOk result (λ text. HasBinaryForm model.now text.items) }
    ensures read { IfOk result (λ text. length text.items ≤ MAX_MODEL_BYTES → IsBinaryTextOf model.now text.items) }
{
    aiger_binary::write(alloc, model)
}

/// The circuit of a model is its own.
fn circuit_in(model: Model) -> Circuit
    ensures { result ≡ model.circuit }
{
    model.into_circuit()
}

/// Symbols and the comment are read where they stand, and else their fault is told.
fn names_read(alloc: Global, bytes: &[u8], from: u64, counts: &Counts) -> Result<Names, ModelEnd>
    requires { from ≤ length bytes.now }
    ensures found { IfOk result (λ names. AreNames counts.now names (drop from bytes.now)) }
    ensures every { (names : NamesOf) → AreNames counts.now names (drop from bytes.now)
        → Gives (Err ModelEnd.Memory) (Ok names) result }
    ensures fault { (fault : FaultOf) → GivesExactlyWhere (Err ModelEnd.Memory) (Err (ModelEnd.Fault fault))
        (HasNamesFault counts.now (length bytes.now) (drop from bytes.now) fault) result }
    ensures exact { Gives (Err ModelEnd.Memory)
        (answer_of (names_at counts.now (length bytes.now) (drop from bytes.now))) result }
{
    aiger_names::read_names(alloc, bytes, from, counts)
}

/// They are written in their order, and stand for these names exactly where these can be written.
fn names_written(alloc: Global, names: &Names) -> Result<Vec<u8>, AllocError>
    ensures text { IfOk result (λ text. text.items ≡ names_text names.now) }
    ensures stands { IfOk result (λ text. (counts : CountsOf)
        → AreNames counts names.now text.items ↔ AreWritable counts names.now) }
{
    aiger_names::write_names(alloc, names)
}

/// Each line comes once, and is told as the last, or as too long, exactly where it is.
fn next_line<H: Shelf>(lines: &mut Lines, shelf: &mut H, name: &str) -> Result<bool, LinesEnd>
    ensures line { IfOk result (λ given. IfTold (H.held shelf.old name.now)
        (λ text. lines_of (left_of lines.old text)
        ≡ given_line given lines.new.line ++ lines_of (left_of lines.new text))) }
    ensures end { IfOk result (λ given. IfTold (H.held shelf.old name.now)
        (λ text. IsFalse given ↔ (left_of lines.old text ≡ []))) }
    ensures took { IfOk result (λ given. IsTrue given → Took (H.held shelf.old name.now) lines.old lines.new) }
    ensures too_long { IsErrOf result LinesEnd.TooLong → IfTold (H.held shelf.old name.now)
        (λ text. IsTooLong (most_bytes - lines.old.taken) (left_of lines.old text)) }
    ensures within { IfOk result (λ _. IfTold (H.held shelf.old name.now)
        (λ text. ¬ (IsTooLong (most_bytes - lines.old.taken) (left_of lines.old text)))) }
{
    lines.next(shelf, name)
}

/// A text is read whole, or up to the byte behind the limit, and nothing but it is read.
fn text_read<H: Shelf>(
    alloc: Global,
    shelf: &mut H,
    name: &str,
    limit: u64,
) -> Result<Vec<u8>, ReadEnd>
    requires { limit < 2 ^ 63 }
    ensures text { IfOk result (λ read. IfTold (H.held shelf.old name.now) (λ text. read.items ≡ take (limit + 1) text)) }
    ensures bound { IfOk result (λ read. vec_len read ≤ limit + 1) }
    ensures failed { IsErrOf result ReadEnd.Failed → Rose (H.faults shelf.old name.now) (H.faults shelf.new name.now) }
    ensures counts { NoneFell (H.faults shelf.old) (H.faults shelf.new) }
    ensures kept { KeepsTexts (H.held shelf.old) (H.held shelf.new) }
    ensures reads { Reads (Within (limit + 1) H.reads) name.now (has_failed result) shelf.old shelf.new }
{
    edge::read_text(alloc, shelf, name, limit)
}

/// A shelf of files has counted no fault at first.
fn files_of<R: Files>(alloc: Global, files: R) -> FileShelf<R>
    ensures { result ≡ 0 }
{
    FileShelf::new(alloc, files)
}

/// A shelf in memory holds the texts that it is given, and has counted nothing.
fn shelf_of(texts: Vec<(String, Vec<u8>)>, most: u64, failing: Vec<u64>) -> MemShelf
    requires { 1 ≤ most }
    ensures held { (name : List ℕ) → ⟦<MemShelf as Shelf>⟧.held result name ≡ text_of (named_texts texts.items) name }
    ensures state { result ≡ record {
      texts = named_texts texts.items;
      most = most;
      failing = failing.items;
      calls = 0;
      faults = 0;
    } }
{
    MemShelf::new(texts, most, failing)
}

/// A sink in memory has taken nothing at first.
fn sink_of(alloc: Global, most: u64, failing: Vec<u64>) -> MemSink
    requires { 1 ≤ most }
    ensures { result ≡ record {
      bytes = [];
      most = most;
      failing = failing.items;
      calls = 0;
      faults = 0;
    } }
{
    MemSink::new(alloc, most, failing)
}

/// What it took is what it tells.
fn taken_by(sink: &MemSink) -> &[u8]
    ensures { ⟦<MemSink as Sink>⟧.taken sink.now ≡ Some result.now }
{
    sink.taken()
}

/// A read fails only where a count of the shelf rises, and else gives bytes of the text.
fn read_once<H: Shelf>(
    shelf: &mut H,
    name: &str,
    from: u64,
    buf: &mut [u8],
) -> Result<usize, Failed>
    ensures bound { IfOk result (λ n. n ≤ length buf.new) }
    ensures bytes { IfOk result (λ n. IfTold (H.held shelf.old name.now) (λ text. GivesBytes text from n buf.new)) }
    ensures kept { KeepsTexts (H.held shelf.old) (H.held shelf.new) }
    ensures cause { HasCause (H.faults shelf.old name.now) (H.faults shelf.new name.now) result }
    ensures others { NoneFell (H.faults shelf.old) (H.faults shelf.new) }
{
    shelf.read_at(name, from, buf)
}

/// A sink takes the bytes that it says, of some at least one, and fails only where its count rises.
fn write_once<O: Sink>(sink: &mut O, piece: &[u8]) -> Result<usize, Failed>
    ensures bound { IfOk result (λ n. n ≤ length piece.now) }
    ensures progress { IfOk result (λ n. 0 < length piece.now → 0 < n) }
    ensures taken { IfOk result (λ n. Adds (O.taken sink.old) (O.taken sink.new) (take n piece.now)) }
    ensures kept { OnErr result (O.taken sink.new ≡ O.taken sink.old) }
    ensures cause { HasCause (O.faults sink.old) (O.faults sink.new) result }
{
    sink.write(piece)
}

/// All bytes are written, or a front of them where a write failed, which is the last.
fn all_written<O: Sink>(sink: &mut O, bytes: &[u8]) -> Result<(), Failed>
    ensures all { OnOk result (Adds (O.taken sink.old) (O.taken sink.new) bytes.now) }
    ensures part { OnErr result (AddsPart (O.taken sink.old) (O.taken sink.new) bytes.now) }
    ensures cause { HasCause (O.faults sink.old) (O.faults sink.new) result }
    ensures writes { Writes O.writes (is_err result) sink.old sink.new }
{
    edge::write_all(sink, bytes)
}

/// Standard output has counted no fault at first.
fn stream_of<P: Print>(out: P) -> StdSink<P>
    ensures { result ≡ 0 }
{
    StdSink::new(out)
}

/// A conflict is refused exactly at the limit, and else counted.
fn count_conflict(meter: &mut Meter, held: &Db, learned: &Clause) -> Result<(), Spent>
    requires { SpentConflict held.now.clauses learned.now }
    ensures spent { IsErr result ↔ (meter.old.conflict_limit ≡ Some meter.old.conflicts) }
    ensures limit { IfErr result (λ spent. spent ≡ record { kind = Conflicts; limit = meter.old.conflicts }) }
    ensures counted { OnOk result (meter.new ≡ record meter.old { conflicts = one_more meter.old.conflicts }) }
    ensures kept { OnErr result (meter.new ≡ meter.old) }
{
    meter.conflict(held, learned)
}

/// So is a lemma.
fn count_lemma<F: Held>(
    meter: &mut Meter,
    frame: &F,
    lemma: &Clause,
    state: &[bool],
) -> Result<(), Spent>
    requires { SpentLemma (F.clauses frame.now) lemma.now state.now }
    ensures spent { IsErr result ↔ (meter.old.step_limit ≡ Some meter.old.steps) }
    ensures limit { IfErr result (λ spent. spent ≡ record { kind = Steps; limit = meter.old.steps }) }
    ensures counted { OnOk result (meter.new ≡ record meter.old { steps = one_more meter.old.steps }) }
    ensures kept { OnErr result (meter.new ≡ meter.old) }
{
    meter.lemma(frame, lemma, state)
}

/// And a frame.
fn count_frame(meter: &mut Meter, deltas: &[u64]) -> Result<(), Spent>
    requires { SpentFrame deltas.now }
    ensures spent { IsErr result ↔ (meter.old.step_limit ≡ Some meter.old.steps) }
    ensures limit { IfErr result (λ spent. spent ≡ record { kind = Steps; limit = meter.old.steps }) }
    ensures counted { OnOk result (meter.new ≡ record meter.old { steps = one_more meter.old.steps }) }
    ensures kept { OnErr result (meter.new ≡ meter.old) }
{
    meter.frame(deltas)
}

/// A state is allowed exactly where each clause is true of it.
fn is_allowed<F: Held>(held: &F, state: &[bool]) -> bool
    ensures { result ≡ clauses_value (values_of state.now) (F.clauses held.now) }
{
    held.allows(state)
}

/// What was counted tells its limits.
fn conflict_limit_of(spending: &Spending) -> Option<u64>
    ensures { result ≡ spending.now.conflict_limit }
{
    spending.conflict_limit()
}

fn step_limit_of(spending: &Spending) -> Option<u64>
    ensures { result ≡ spending.now.step_limit }
{
    spending.step_limit()
}
