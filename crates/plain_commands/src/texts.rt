//! The text that each status writes. The main call is `with_text`.

ghost use Rattle.std.specs.Prelude.{◌≡◌, ◌⊎◌, ◌++◌, true, false, IfOk, IfErr, OnOk, codes, decimal};
ghost use Rattle.plain_commands.specs.Statuses.{ends_silently, status_in, is_read_fault};
ghost use Rattle.plain_commands.specs.Texts.{text_of, line_with, bad_model_text, replay_text, proof_fault_text};
ghost use Rattle.plain_commands.specs.Texts.{entry_fault_text, refusal_text, block_fault_text, ending_word, done_text};

use crate::reports::{text_of_open, text_of_report};
use crate::status::{Done, Status};
use certificate::AnswerFault;
use circuit::ModelFault;
use command_lines::USAGE;
use entry::EntryFault;
use proof_semantics::LratFault;
use sheet_answers::BlockFault;
use std::alloc::{AllocError, Global};
use stimulus::ReplayFault;
use text_grammar::push_number;

/// How a run ends: a status, and the text that is written with it.
#[derive(Drop)]
pub struct Ending {
    pub status: Status,
    pub text: Vec<u8>,
}

/// The status with its own text, or the status alone where nothing is written with it; or `Memory`.
pub fn with_text(alloc: Global, status: Status) -> Result<Ending, Status>
    ensures status { (status_in result ≡ status) ⊎ (status_in result ≡ Status.Memory) }
    ensures text { IfOk result (λ ending. (ending.status ≡ status) × (ending.text.items ≡ text_of status)) }
    ensures aloud { IfOk result (λ ending. ends_silently status ≡ false) }
    ensures silent { IfErr result (λ other. ends_silently other ≡ true) }
    ensures fault { is_read_fault (status_in result) ≡ is_read_fault status }
{
    if is_silent(&status) {
        return Err(status);
    }
    match status_text(alloc, &status) {
        Ok(text) => Ok(Ending { status, text }),
        Err(_) => Err(Status::Memory),
    }
}

/// Whether a run ends with this status without a word.
fn is_silent(status: &Status) -> bool
    ensures { result ≡ ends_silently status.now }
{
    matches!(status, Status::ReadFault | Status::Memory)
}

/// The whole text of a status.
fn status_text(alloc: Global, status: &Status) -> Result<Vec<u8>, AllocError>
    ensures { IfOk result (λ text. text.items ≡ text_of status.now) }
{
    match status {
        Status::Done(done) => text_of_done(alloc, done),
        Status::Refused(fault) => text_of_answer(alloc, fault),
        Status::RefusedBlock(n, fault) => text_of_block(alloc, *n, fault),
        Status::Unknown(report) => text_of_report(alloc, report),
        Status::OpenRounds { property, spent } => text_of_open(alloc, *property, spent),
        Status::BadModel(fault) => text_of_model(alloc, fault),
        Status::NoProperty(n) => numbered(alloc, "no property ", u64::from(*n)),
        Status::TooLarge(n) => numbered(alloc, "too large ", *n),
        Status::NoItem(entry, clause) => text_of_no_item(alloc, *entry, *clause),
        Status::Usage => words(alloc, USAGE),
        Status::ReadFault | Status::WriteFault | Status::Memory | Status::OpenDepth { .. } => {
            Ok(Vec::new(alloc))
        }
    }
}

fn words(alloc: Global, text: &str) -> Result<Vec<u8>, AllocError>
    ensures { IfOk result (λ line. line.items ≡ text.now) }
{
    Vec::from_slice(alloc, text.as_bytes())
}

/// A line of words and a number.
fn numbered(alloc: Global, text: &str, number: u64) -> Result<Vec<u8>, AllocError>
    ensures { IfOk result (λ line. line.items ≡ line_with text.now number) }
{
    let mut line = words(alloc, text)?;
    push_number(&mut line, number)?;
    line.push(b'\n')?;
    Ok(line)
}

fn text_of_no_item(alloc: Global, entry: u32, clause: u32) -> Result<Vec<u8>, AllocError>
    ensures { IfOk result (λ line. line.items ≡ text_of (Status.NoItem entry clause)) }
{
    let mut line = words(alloc, "no item ")?;
    push_number(&mut line, u64::from(entry))?;
    push_numbered(&mut line, " ", u64::from(clause))?;
    Ok(line)
}

fn text_of_model(alloc: Global, fault: &ModelFault) -> Result<Vec<u8>, AllocError>
    ensures { IfOk result (λ line. line.items ≡ bad_model_text fault.now) }
{
    match *fault {
        ModelFault::Header(place) => numbered(alloc, "model refused header ", place),
        ModelFault::Number(place) => numbered(alloc, "model refused number ", place),
        ModelFault::Range(place) => numbered(alloc, "model refused range ", place),
        ModelFault::Undefined(variable) => numbered(alloc, "model refused undefined ", variable),
        ModelFault::Twice(variable) => numbered(alloc, "model refused twice ", variable),
        ModelFault::Cycle(variable) => numbered(alloc, "model refused cycle ", variable),
        ModelFault::Truncated(place) => numbered(alloc, "model refused truncated ", place),
        ModelFault::Limit(place) => numbered(alloc, "model refused limit ", place),
        ModelFault::Trailing(place) => numbered(alloc, "model refused trailing ", place),
        ModelFault::Symbol(place) => numbered(alloc, "model refused symbol ", place),
    }
}

fn text_of_answer(alloc: Global, fault: &AnswerFault) -> Result<Vec<u8>, AllocError>
    ensures { IfOk result (λ line. line.items ≡ refusal_text fault.now) }
{
    match fault {
        AnswerFault::Shape(line) => numbered(alloc, "refused shape line ", *line),
        AnswerFault::NoProperty(property) => numbered(alloc, "refused property ", *property),
        AnswerFault::Replay(fault) => text_of_replay(alloc, fault),
        AnswerFault::Entry(entry, fault) => text_of_entry(alloc, *entry, fault),
        AnswerFault::RefuteUse(entry) => numbered(alloc, "refused refutation use ", *entry),
        AnswerFault::Refutation(line, fault) => text_of_refutation(alloc, *line, fault),
        AnswerFault::TooLong => words(alloc, "refused too long\n"),
        AnswerFault::Trailing(line) => numbered(alloc, "refused trailing line ", *line),
        AnswerFault::UnknownStatus => words(alloc, "refused unknown status\n"),
        AnswerFault::FewRounds(count) => numbered(alloc, "refused rounds ", *count),
    }
}

fn text_of_replay(alloc: Global, fault: &ReplayFault) -> Result<Vec<u8>, AllocError>
    ensures { IfOk result (λ line. line.items ≡ replay_text (codes "refused ") fault.now) }
{
    let mut line = words(alloc, "refused ")?;
    push_replay_fault(&mut line, fault)?;
    Ok(line)
}

/// Adds what is wrong with a stimulus.
fn push_replay_fault(line: &mut Vec<u8>, fault: &ReplayFault) -> Result<(), AllocError>
    ensures { OnOk result (line.new.items ≡ replay_text line.old.items fault.now) }
{
    match *fault {
        ReplayFault::Width(item) => push_numbered(line, "width item ", item),
        ReplayFault::NotInitial(latch) => push_numbered(line, "initial latch ", latch),
        ReplayFault::Constraint(place) => push_numbered(line, "constraint position ", place),
        ReplayFault::NoFairLoop => line.extend_from_slice(b"no fair loop\n"),
        ReplayFault::Shape(number) => push_numbered(line, "shape line ", number),
        ReplayFault::NoProperty => line.extend_from_slice(b"property\n"),
    }
}

/// Adds a line's last words and its number.
fn push_numbered(line: &mut Vec<u8>, text: &str, number: u64) -> Result<(), AllocError>
    ensures { OnOk result (line.new.items ≡ line_with (line.old.items ++ text.now) number) }
{
    line.extend_from_slice(text.as_bytes())?;
    push_number(line, number)?;
    line.push(b'\n')?;
    Ok(())
}

/// Adds what is wrong with a line of a proof.
fn push_proof_fault(line: &mut Vec<u8>, fault: &LratFault) -> Result<(), AllocError>
    ensures { OnOk result (line.new.items ≡ proof_fault_text line.old.items fault.now) }
{
    match *fault {
        LratFault::BadLine => line.extend_from_slice(b"bad line\n"),
        LratFault::IdOrder => line.extend_from_slice(b"id order\n"),
        LratFault::NoClause(id) => push_numbered(line, "no clause ", id),
        LratFault::NotUnit(id) => push_numbered(line, "not unit ", id),
        LratFault::NoConflict => line.extend_from_slice(b"no conflict\n"),
        LratFault::RatRefused => line.extend_from_slice(b"rat\n"),
        LratFault::Unfinished => line.extend_from_slice(b"unfinished\n"),
    }
}

/// Adds what is wrong with an entry.
fn push_entry_fault(line: &mut Vec<u8>, fault: &EntryFault) -> Result<(), AllocError>
    ensures { OnOk result (line.new.items ≡ entry_fault_text line.old.items fault.now) }
{
    match fault {
        EntryFault::BadUse(entry) => push_numbered(line, " use ", *entry),
        EntryFault::NotLatch(literal) => push_numbered(line, " literal ", *literal),
        EntryFault::Base(clause) => push_numbered(line, " base ", *clause),
        EntryFault::Proof(clause, at, fault) => {
            line.extend_from_slice(b" clause ")?;
            push_number(line, *clause)?;
            line.extend_from_slice(b" proof line ")?;
            push_number(line, *at)?;
            line.push(b' ')?;
            push_proof_fault(line, fault)
        }
    }
}

fn text_of_entry(alloc: Global, entry: u64, fault: &EntryFault) -> Result<Vec<u8>, AllocError>
    ensures { IfOk result (λ line. line.items ≡ entry_fault_text (codes "refused entry " ++ decimal entry) fault.now) }
{
    let mut line = words(alloc, "refused entry ")?;
    push_number(&mut line, entry)?;
    push_entry_fault(&mut line, fault)?;
    Ok(line)
}

fn text_of_refutation(alloc: Global, at: u64, fault: &LratFault) -> Result<Vec<u8>, AllocError>
    ensures { IfOk result (λ line. line.items ≡ proof_fault_text (codes "refused refutation line " ++ decimal at ++ codes " ") fault.now) }
{
    let mut line = words(alloc, "refused refutation line ")?;
    push_number(&mut line, at)?;
    line.push(b' ')?;
    push_proof_fault(&mut line, fault)?;
    Ok(line)
}

fn text_of_block(alloc: Global, n: u32, fault: &BlockFault) -> Result<Vec<u8>, AllocError>
    ensures { IfOk result (λ line. line.items ≡ text_of (Status.RefusedBlock n fault.now)) }
{
    let mut line = words(alloc, "refused block ")?;
    push_number(&mut line, u64::from(n))?;
    line.push(b' ')?;
    push_block_fault(&mut line, fault)?;
    Ok(line)
}

/// Adds what is wrong with a block of a sheet.
fn push_block_fault(line: &mut Vec<u8>, fault: &BlockFault) -> Result<(), AllocError>
    ensures { OnOk result (line.new.items ≡ block_fault_text line.old.items fault.now) }
{
    match fault {
        BlockFault::Replay(fault) => push_replay_fault(line, fault),
        BlockFault::RefuteUse(entry) => push_numbered(line, "use ", *entry),
        BlockFault::Refutation(at, fault) => {
            line.extend_from_slice(b"line ")?;
            push_number(line, *at)?;
            line.push(b' ')?;
            push_proof_fault(line, fault)
        }
    }
}

fn text_of_done(alloc: Global, done: &Done) -> Result<Vec<u8>, AllocError>
    ensures { IfOk result (λ line. line.items ≡ done_text done.now) }
{
    match *done {
        Done::Lasso {
            property,
            positions,
            from,
        } => text_of_lasso(alloc, property, positions, from),
        Done::Holds { property, entries } => text_of_certificate(alloc, property, entries),
        Done::Rounds {
            property,
            k,
            reached,
        } => text_of_rounds(alloc, property, k, reached),
        Done::All {
            lassos,
            holds,
            unknown,
            entries,
        } => text_of_sheet(alloc, lassos, holds, unknown, entries),
        Done::NoneWithin { property, depth } => text_of_none(alloc, property, depth),
        Done::Printed | Done::Demo(_) => Ok(Vec::new(alloc)),
    }
}

fn text_of_lasso(
    alloc: Global,
    property: u32,
    positions: u64,
    from: u64,
) -> Result<Vec<u8>, AllocError>
    ensures { IfOk result (λ line. line.items ≡ done_text (Done.Lasso property positions from)) }
{
    let mut line = words(alloc, "accepted lasso j")?;
    push_number(&mut line, u64::from(property))?;
    line.extend_from_slice(b" positions ")?;
    push_number(&mut line, positions)?;
    line.extend_from_slice(b" loop ")?;
    push_number(&mut line, from)?;
    line.push(b'\n')?;
    Ok(line)
}

fn text_of_certificate(alloc: Global, property: u32, entries: u32) -> Result<Vec<u8>, AllocError>
    ensures { IfOk result (λ line. line.items ≡ done_text (Done.Holds property entries)) }
{
    let mut line = words(alloc, "accepted certificate j")?;
    push_number(&mut line, u64::from(property))?;
    line.extend_from_slice(b" entries ")?;
    push_number(&mut line, u64::from(entries))?;
    line.push(b'\n')?;
    Ok(line)
}

fn text_of_sheet(
    alloc: Global,
    lassos: u32,
    holds: u32,
    unknown: u32,
    entries: u32,
) -> Result<Vec<u8>, AllocError>
    ensures { IfOk result (λ line. line.items ≡ done_text (Done.All lassos holds unknown entries)) }
{
    let mut line = words(alloc, "accepted sheet lassos ")?;
    push_number(&mut line, u64::from(lassos))?;
    line.extend_from_slice(b" holds ")?;
    push_number(&mut line, u64::from(holds))?;
    line.extend_from_slice(b" unknown ")?;
    push_number(&mut line, u64::from(unknown))?;
    push_numbered(&mut line, " entries ", u64::from(entries))?;
    Ok(line)
}

fn text_of_none(alloc: Global, property: u32, depth: u32) -> Result<Vec<u8>, AllocError>
    ensures { IfOk result (λ line. line.items ≡ done_text (Done.NoneWithin property depth)) }
{
    let mut line = words(alloc, "no lasso within ")?;
    push_number(&mut line, u64::from(depth))?;
    push_numbered(&mut line, " j", u64::from(property))?;
    Ok(line)
}

fn text_of_rounds(
    alloc: Global,
    property: u32,
    k: u32,
    reached: bool,
) -> Result<Vec<u8>, AllocError>
    ensures { IfOk result (λ line. line.items ≡ done_text (Done.Rounds property k reached)) }
{
    let mut line = words(alloc, "accepted rounds ")?;
    push_number(&mut line, u64::from(k))?;
    line.extend_from_slice(b" j")?;
    push_number(&mut line, u64::from(property))?;
    line.extend_from_slice(ending_word(reached).as_bytes())?;
    Ok(line)
}

fn ending_word(reached: bool) -> &'static str
    ensures { result.now ≡ ending_word reached }
{
    if reached { " reached\n" } else { " fewer\n" }
}
