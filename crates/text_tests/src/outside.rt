//! Each public call of the outside once, at the objects that tests and programs use.
ghost use Rattle.std.specs.Prelude.{◌≡◌, IfOk};
ghost use Rattle.edge.specs.Units.{SpentConflict};

use crate::fakes::{FakeFiles, FakePrint};
use cnf::{Clause, Db, Lit, holds};
use edge::{
    Counted, FileShelf, FreeGate, Gate, Held, MemShelf, MemSink, Meter, Point, ReadEnd, Shelf,
    Sink, SolveEnd, Spending, Spent, StdSink, read_text, write_all,
};
use std::alloc::{AllocError, Global};
use std::rt::Files;
use std::test::Fail;
use std::{fs, io};

fn named(alloc: Global, name: &str, text: &[u8]) -> Result<(String, Vec<u8>), AllocError> {
    let text = text.to_vec(alloc)?;
    Ok((String::from_str(alloc, name)?, text))
}

fn push_text(
    alloc: Global,
    texts: &mut Vec<(String, Vec<u8>)>,
    name: &str,
    text: &[u8],
) -> Result<(), AllocError> {
    let pair = named(alloc, name, text)?;
    texts.push(pair)?;
    Ok(())
}

// A text of six bytes, an empty one, and another text under the first name.
fn named_texts(alloc: Global) -> Result<Vec<(String, Vec<u8>)>, AllocError> {
    let mut texts = Vec::new(alloc);
    push_text(alloc, &mut texts, "model", b"answer")?;
    push_text(alloc, &mut texts, "empty", b"")?;
    push_text(alloc, &mut texts, "model", b"second")?;
    Ok(texts)
}

/// A shelf with these texts.
fn shelf(alloc: Global, most: u64, failing: &[u64]) -> Result<MemShelf, AllocError> {
    let failing = failing.to_vec(alloc)?;
    let texts = named_texts(alloc)?;
    Ok(MemShelf::new(texts, most.max(1), failing))
}

// A name, a limit, and the text that is read to it and one byte more.
fn limits() -> &'static [(&'static str, u32, &'static str)] {
    &[
        ("model", 0, "a"),
        ("model", 4, "answe"),
        ("model", 5, "answer"),
        ("model", 6, "answer"),
        ("model", 7, "answer"),
        ("empty", 0, ""),
    ]
}

// Whether this is the one text that is wanted.
fn is_text(found: &[u8], want: &[&str]) -> bool {
    match want.first() {
        Some(text) => found == text.as_bytes(),
        None => false,
    }
}

/// Whether this one text is read of a name to a limit; where there is none, whether the read fails.
fn is_read<H: Shelf>(alloc: Global, shelf: &mut H, name: &str, limit: u32, want: &[&str]) -> bool {
    match read_text(alloc, shelf, name, u64::from(limit)) {
        Ok(text) => is_text(text.as_slice(), want),
        Err(end) => end == ReadEnd::Failed && want.is_empty(),
    }
}

// How many texts are read as they must be, one after another.
fn count_limits(alloc: Global, shelf: &mut MemShelf) -> usize {
    let mut count = 0usize;
    for (name, limit, want) in limits() {
        if is_read(alloc, shelf, name, *limit, &[want]) {
            count = count.saturating_add(1);
        }
    }
    count
}

fn are_read_by(alloc: Global, most: u64) -> Result<bool, AllocError> {
    let mut shelf = shelf(alloc, most, &[])?;
    let count = count_limits(alloc, &mut shelf);
    Ok(count == 6 && is_read(alloc, &mut shelf, "missing", 7, &[]))
}

fn are_read_by_each(alloc: Global) -> Result<[bool; 3], AllocError> {
    Ok([
        are_read_by(alloc, 1)?,
        are_read_by(alloc, 4)?,
        are_read_by(alloc, 100)?,
    ])
}

#[test]
fn reads_to_the_limit_and_one_byte_more(rt: HostRuntime) -> Result<(), Fail> {
    assert_eq!(rt; are_read_by_each(rt.alloc())?, [true; 3]);
    Ok(())
}

// The text, or none where its read fails.
fn wanted(is_read: bool) -> &'static [&'static str] {
    if is_read { &["answer"] } else { &[] }
}

fn are_read(alloc: Global, shelf: &mut MemShelf, failing: u64) -> bool {
    is_read(alloc, shelf, "model", 100, wanted(failing > 7))
        && is_read(alloc, shelf, "model", 100, wanted(failing <= 7))
}

// Whether the first text fails where a read of it does, and the second one where that is a later read.
fn fails_once(alloc: Global, failing: u64) -> Result<bool, AllocError> {
    let mut shelf = shelf(alloc, 1, &[failing])?;
    Ok(are_read(alloc, &mut shelf, failing))
}

// The number of the first call that fails otherwise.
fn first_other(alloc: Global) -> Result<Option<u64>, AllocError> {
    for failing in 1..9 {
        if !fails_once(alloc, failing)? {
            return Ok(Some(failing));
        }
    }
    Ok(None)
}

/// The text is six reads of a byte and one that finds its end.
#[test]
fn one_failing_read_fails_one_text(rt: HostRuntime) -> Result<(), Fail> {
    assert_eq!(rt; first_other(rt.alloc())?, None);
    Ok(())
}

// How many bytes a call takes at most, which call fails, and what is taken by then.
fn failing_writes() -> &'static [(u64, u64, &'static str)] {
    &[
        (1, 1, ""),
        (1, 2, "a"),
        (1, 6, "answe"),
        (1, 7, "answer"),
        (4, 1, ""),
        (4, 2, "answ"),
        (4, 3, "answer"),
        (6, 2, "answer"),
    ]
}

// One call; no clause of it is wanted here.
fn is_all_taken(sink: &mut MemSink, text: &[u8]) -> bool {
    write_all(sink, text).is_ok()
}

// Whether so much is taken, and the text is said to be written where that is all of it.
fn is_taken(alloc: Global, most: u64, failing: u64, want: &str) -> Result<bool, AllocError> {
    let mut sink = MemSink::new(alloc, most.max(1), [failing].to_vec(alloc)?);
    let is_whole = is_all_taken(&mut sink, b"answer");
    Ok(is_whole == (want == "answer") && sink.taken() == want.as_bytes())
}

fn is_taken_in_parts(alloc: Global) -> bool {
    let mut sink = MemSink::new(alloc, 1, Vec::new(alloc));
    is_all_taken(&mut sink, b"an")
        && is_all_taken(&mut sink, b"")
        && is_all_taken(&mut sink, b"swer")
        && sink.taken() == b"answer".as_slice()
}

#[test]
fn a_failing_write_ends_the_text(rt: HostRuntime) -> Result<(), Fail> {
    for (most, failing, want) in failing_writes() {
        let taken = is_taken(rt.alloc(), *most, *failing, want)?;
        assert!(rt; taken, "{most}, call {failing}");
    }
    assert!(rt; is_taken_in_parts(rt.alloc()));
    Ok(())
}

// A name, and the text that is read of it; none where the read fails.
fn texts() -> &'static [(&'static str, &'static [&'static str])] {
    &[
        ("model", &["answer"]),
        ("missing", &[]),
        ("other", &["second"]),
        ("folder", &[]),
        ("model", &["answer"]),
    ]
}

// How many of five texts are read as they must be, one after another.
fn count_texts<H: Shelf>(alloc: Global, shelf: &mut H) -> usize {
    let mut count = 0usize;
    for (name, want) in texts() {
        if is_read(alloc, shelf, name, 100, want) {
            count = count.saturating_add(1);
        }
    }
    count
}

// How many bytes are read of a name from a place; nothing where the read fails.
fn count_of<H: Shelf>(shelf: &mut H, name: &str, from: u64, buf: &mut [u8]) -> Option<usize> {
    shelf.read_at(name, from, buf).ok()
}

// Whether the first so many bytes are this one text; where there is none, whether the read fails.
fn is_front(buf: &[u8], count: Option<usize>, want: &[&str]) -> bool {
    match count {
        Some(count) => count <= buf.len() && is_text(&buf[..count], want),
        None => want.is_empty(),
    }
}

// A name, a place, the room, and the text that is read; none where the read fails.
type Reading = (&'static str, u64, usize, &'static [&'static str]);

fn is_part<H: Shelf>(alloc: Global, shelf: &mut H, row: &Reading) -> Result<bool, AllocError> {
    let (name, from, room, want) = row;
    let mut buf = vec![in alloc; 0u8; *room]?;
    let count = count_of(shelf, name, *from, &mut buf);
    Ok(is_front(&buf, count, want))
}

// How many of the reads are as they must be.
fn count_parts<H: Shelf>(
    alloc: Global,
    shelf: &mut H,
    rows: &[Reading],
) -> Result<usize, AllocError> {
    let mut count = 0usize;
    for row in rows {
        if is_part(alloc, shelf, row)? {
            count = count.saturating_add(1);
        }
    }
    Ok(count)
}

fn parts_of_files() -> &'static [Reading] {
    &[
        ("model", 3, 3, &["wer"]),
        ("model", 0, 3, &["ans"]),
        ("other", 4, 3, &["nd"]),
        ("model", 6, 3, &[""]),
    ]
}

fn read_files<H: Shelf>(alloc: Global, shelf: &mut H) -> Result<(usize, usize), AllocError> {
    let texts = count_texts(alloc, shelf);
    Ok((texts, count_parts(alloc, shelf, parts_of_files())?))
}

fn lay_files<R: Files>(files: &R) -> io::Result<()> {
    fs::write(files, "model", "answer")?;
    fs::write(files, "other", "second")?;
    fs::create_dir(files, "folder")
}

fn read_by_paths<R: Files>(alloc: Global, files: &R) -> Result<(usize, usize), AllocError> {
    let mut shelf = FileShelf::new(alloc, files);
    read_files(alloc, &mut shelf)
}

#[test]
fn files_are_read_by_their_paths(rt: HostRuntime) -> Result<(), Fail> {
    lay_files(&rt)?;
    assert_eq!(rt; read_by_paths(rt.alloc(), &rt)?, (5, 4));
    Ok(())
}

// The file `stream` has no place but the one where its last read ended.
fn parts_in_any_order() -> &'static [Reading] {
    &[
        ("model", 0, 2, &["01"]),
        ("model", 2, 9, &["234"]),
        ("model", 7, 9, &["789"]),
        ("model", 1, 1, &["1"]),
        ("model", 1, 1, &["1"]),
        ("model", 10, 9, &[""]),
        ("stream", 0, 4, &["str"]),
        ("stream", 3, 2, &["ea"]),
        ("stream", 5, 2, &["m "]),
        ("model", 7, 1, &["7"]),
        // the file was opened anew, and does not move to where it stood
        ("stream", 7, 2, &[]),
        ("stream", 0, 2, &["st"]),
        ("missing", 0, 2, &[]),
        ("model", 4, 2, &["45"]),
    ]
}

fn count_in_any_order<H: Shelf>(alloc: Global, shelf: &mut H) -> Result<usize, AllocError> {
    count_parts(alloc, shelf, parts_in_any_order())
}

fn read_in_any_order(alloc: Global) -> Result<usize, AllocError> {
    let mut shelf = FileShelf::new(alloc, FakeFiles);
    count_in_any_order(alloc, &mut shelf)
}

#[test]
fn reads_in_any_order(rt: HostRuntime) -> Result<(), Fail> {
    assert_eq!(rt; read_in_any_order(rt.alloc())?, 14);
    Ok(())
}

// How many of seven bytes are taken in one call of an output; nothing where it fails.
fn taken_at_once(most: usize) -> Option<usize> {
    let mut sink = StdSink::new(FakePrint::new(most));
    sink.write(b"written").ok()
}

// How many of them when all are written.
fn taken_of_all(most: usize) -> Option<usize> {
    let print = FakePrint::new(most);
    let mut sink = StdSink::new(&print);
    write_all(&mut sink, b"written").ok()?;
    Some(print.taken.get())
}

// How many bytes a call of the output takes at most, how many of seven are taken in one call, and how many of
// them when all are written; nothing where that fails.
fn few_bytes() -> &'static [(usize, Option<usize>, Option<usize>)] {
    &[
        (3, Some(3), Some(7)),
        (9, Some(7), Some(7)),
        (0, None, None),
        (100, None, None),
    ]
}

// How many of the rows are as they must be.
fn count_few_bytes() -> usize {
    let mut count = 0usize;
    for (most, one, all) in few_bytes() {
        if taken_at_once(*most) == *one && taken_of_all(*most) == *all {
            count = count.saturating_add(1);
        }
    }
    count
}

#[test]
fn writes_of_few_bytes(rt: HostRuntime) {
    assert_eq!(rt; count_few_bytes(), 4);
}

// What workers share or keep may go to another thread.
fn crosses<T: Send>(value: T) -> T {
    value
}

fn pass_all<G: Gate>(gate: &G) {
    for at in [Point::Start, Point::Turn, Point::Done] {
        gate.pass(1, at);
    }
}

#[test]
fn output_takes_text_and_the_gate_is_free(rt: HostRuntime) -> Result<(), Fail> {
    let mut sink = StdSink::new(&rt);
    assert!(rt; write_all(&mut sink, b"written\n").is_ok());
    pass_all(&FreeGate);
    Ok(())
}

fn literal(var: u64, positive: bool) -> Lit
    ensures { result ≡ record { var = var; positive = positive } }
{
    Lit { var, positive }
}

/// The clauses -1 and 1 2, and the clause 2, which follows from them.
#[tactic(auto, using(crate::proofs::Learning::learned_from_both))]
fn held_and_learned(alloc: Global) -> Result<(Db, Clause), AllocError>
    ensures { IfOk result (λ made. SpentConflict made.0.clauses made.1) }
{
    let mut held = Db::new(alloc);
    held.push(Clause::from_slice(alloc, &[literal(1, false)])?)?;
    held.push(Clause::from_slice(alloc, &[literal(1, true), literal(2, true)])?)?;
    Ok((held, Clause::from_slice(alloc, &[literal(2, true)])?))
}

/// Counts a conflict, as a solver does.
fn count_conflict(meter: &mut Meter, held: &Db, learned: &Clause) -> Result<(), SolveEnd>
    requires { SpentConflict held.now.clauses learned.now }
{
    meter.conflict(held, learned)?;
    Ok(())
}

/// Counts a lemma that excludes the state, and then a frame.
fn count_steps(meter: &mut Meter, held: &Db, lemma: &Clause) -> Result<(), Spent> {
    let state = [false, false, true];
    if held.allows(&state) && !holds(lemma, &state) {
        meter.lemma(held, lemma, &state)?;
    }
    meter.frame(&[2, 1])
}

// Whether a conflict is counted, or its error is that of a limit.
fn is_conflict_counted(meter: &mut Meter, held: &Db, learned: &Clause, limit: u64) -> bool
    requires { SpentConflict held.now.clauses learned.now }
{
    match count_conflict(meter, held, learned) {
        Ok(()) => true,
        Err(end) => {
            let kind = Counted::Conflicts;
            end == SolveEnd::Spent(Spent { kind, limit })
        }
    }
}

// The same of a lemma and a frame.
fn are_steps_counted(meter: &mut Meter, held: &Db, lemma: &Clause, limit: u64) -> bool {
    match count_steps(meter, held, lemma) {
        Ok(()) => true,
        Err(spent) => {
            let kind = Counted::Steps;
            spent == Spent { kind, limit }
        }
    }
}

// Limits of conflicts and of steps, those that a meter has, and how many it counts in three rounds.
type Count = (u64, u64, Option<u64>, Option<u64>, u64, u64);

fn counts() -> &'static [Count] {
    &[
        (0, 0, Some(0), Some(0), 0, 0),
        (2, 1, Some(2), Some(1), 2, 1),
        (3, 5, Some(3), Some(5), 3, 5),
        (4, 6, Some(4), Some(6), 3, 6),
        (
            4_294_967_294,
            4_294_967_295,
            Some(4_294_967_294),
            None,
            3,
            6,
        ),
        (18_446_744_073_709_551_615, 0, None, Some(0), 3, 0),
    ]
}

fn has_counted(spending: Spending, row: &Count) -> bool {
    let (_, _, conflict_limit, step_limit, conflicts, steps) = row;
    spending.conflicts() == *conflicts
        && spending.conflict_limit() == *conflict_limit
        && spending.steps() == *steps
        && spending.step_limit() == *step_limit
}

/// Whether three rounds of a conflict, a lemma and a frame are counted so.
fn are_counted(held: &Db, learned: &Clause, lemma: &Clause, row: &Count) -> bool
    requires { SpentConflict held.now.clauses learned.now }
{
    let mut meter = crosses(Meter::new(row.0, row.1));
    for _ in 0..3 {
        if !is_conflict_counted(&mut meter, held, learned, row.0)
            || !are_steps_counted(&mut meter, held, lemma, row.1)
        {
            return false;
        }
    }
    has_counted(meter.spending(), row)
}

fn count_of_rows(held: &Db, learned: &Clause, lemma: &Clause) -> usize
    requires { SpentConflict held.now.clauses learned.now }
{
    let mut count = 0usize;
    for row in counts() {
        if are_counted(held, learned, lemma, row) {
            count = count.saturating_add(1);
        }
    }
    count
}

fn count_all(alloc: Global) -> Result<usize, AllocError> {
    let lemma = Clause::from_slice(alloc, &[literal(1, true)])?;
    let (held, learned) = held_and_learned(alloc)?;
    Ok(count_of_rows(&held, &learned, &lemma))
}

#[test]
fn a_meter_counts_to_its_limits(rt: HostRuntime) -> Result<(), Fail> {
    assert_eq!(rt; count_all(rt.alloc())?, 6);
    Ok(())
}
