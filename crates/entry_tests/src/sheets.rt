//! Sheets of small circuits, judged and written: proofs are worked out by hand.

use crate::claims::proof_of;
use crate::rounds::{model_of, shelf_of};
use aig_semantics::Stimulus;
use aiger_names::Model;
use certificate::{Accepted, AnswerEnd, AnswerFault};
use entry::{Checked, EntryFault, Refutation};
use items::Items;
use proof_semantics::LratFault;
use round_answers::Judged as TextJudged;
use sheet_answers::{Block, BlockFault, Counts, JudgeEnd, Judged, check_answer, write};
use std::alloc::{AllocError, Global};
use std::sync::Arc;
use std::test::Fail;
use stimulus::ReplayFault;

// The latch begins with 0 and changes at each step; a property that it is 1, and one that is false.
const TOGGLE: &str = "aag 1 0 1 0 0 0 0 2 0\n2 3\n1\n1\n2\n0\n";

// The latch stays at 0; the same properties.
const STUCK: &str = "aag 1 0 1 0 0 0 0 2 0\n2 2\n1\n1\n2\n0\n";

// No property.
const NONE: &str = "aag 1 0 1 0 0\n2 3\n";

const BOTH: &str = "all 2\nversion 2\nlasso j0\n0\n\n\n.\nholds j1\nrefute 0 1\n\n5 0 1 4 0\nend\n";

const BY_ENTRY: &str =
    "all 2\nversion 2\nreach 1 0\n\n3 0\nproof 1\n6 0 4 5 2 0\nholds j0\nrefute 1 1\n0\n7 0 4 5 0\nholds j1\nrefute 0 1\n\n5 0 1 4 0\nend\n";

const CERTIFICATE: &str =
    "0\nj0\nversion 2\nreach 1 0\n\n3 0\nproof 1\n6 0 4 5 2 0\nrefute 1 1\n0\n7 0 4 5 0\nend\n";

fn plain(end: AnswerEnd) -> JudgeEnd {
    JudgeEnd::Text(round_answers::JudgeEnd::Answer(end))
}

fn judged_by(alloc: Global, model: &Model, text: &str) -> Result<Judged, JudgeEnd> {
    let Ok(mut shelf) = shelf_of(alloc, text) else {
        return Err(plain(AnswerEnd::Memory));
    };
    let judged = check_answer(alloc, model.circuit(), &mut shelf, "a");
    drop(shelf);
    judged
}

fn judged(alloc: Global, model: &str, text: &str) -> Result<Judged, JudgeEnd> {
    let Ok(model) = model_of(alloc, model) else {
        return Err(plain(AnswerEnd::Memory));
    };
    let judged = judged_by(alloc, &model, text);
    drop(model);
    judged
}

const fn sheet(lassos: u32, holds: u32, unknown: u32, entries: u32) -> Judged {
    let counts = Counts {
        lassos,
        holds,
        unknown,
    };
    Judged::Sheet(counts, entries)
}

/// What is said of a text.
#[derive(Clone, Copy)]
enum Wanted {
    /// A sheet is accepted that shows so many lassos, properties that hold, properties that are open, and entries.
    Shown(u32, u32, u32, u32),
    /// It is refused for a fault that other texts have too.
    Refused(AnswerFault),
    /// The block of a property is refused.
    InBlock(u32, BlockFault),
}

/// A model, a text, and what is said of it.
type Row = (&'static str, &'static str, Wanted);

// Texts that are accepted.
const ACCEPTED: [Row; 6] = [
    (TOGGLE, BOTH, Wanted::Shown(1, 1, 0, 0)),
    (STUCK, BY_ENTRY, Wanted::Shown(0, 2, 0, 1)),
    (
        TOGGLE,
        "c\nall 2\nu\nversion 2\nopen j0\nc\nopen j1\nend\nc",
        Wanted::Shown(0, 0, 2, 0),
    ),
    (
        TOGGLE,
        "all 2\nversion 2\nlasso j0\nx\nc\n\n\n\n.\nopen j1\nend",
        Wanted::Shown(1, 0, 1, 0),
    ),
    (NONE, "all 0\nversion 2\nend\n", Wanted::Shown(0, 0, 0, 0)),
    (
        NONE,
        "all 0\nversion 2\nwall 0 0\n\nend\n",
        Wanted::Shown(0, 0, 0, 1),
    ),
];

fn accepted() -> &'static [Row] {
    &ACCEPTED
}

// Sheets that are refused at their head, or at the first line of their blocks.
const HEADS: [Row; 12] = [
    (TOGGLE, "all", Wanted::Refused(AnswerFault::Shape(1))),
    (
        TOGGLE,
        "c\nallx 2\n",
        Wanted::Refused(AnswerFault::Shape(2)),
    ),
    (TOGGLE, "all 02\n", Wanted::Refused(AnswerFault::Shape(1))),
    (TOGGLE, "all 2 \n", Wanted::Refused(AnswerFault::Shape(1))),
    (
        TOGGLE,
        "all 1\n",
        Wanted::Refused(AnswerFault::NoProperty(1)),
    ),
    (TOGGLE, "all 2\n", Wanted::Refused(AnswerFault::Shape(2))),
    (
        TOGGLE,
        "all 2\nversion 1\n",
        Wanted::Refused(AnswerFault::Shape(2)),
    ),
    (
        TOGGLE,
        "all 2\nversion 2\n",
        Wanted::Refused(AnswerFault::Shape(3)),
    ),
    (
        TOGGLE,
        "all 2\nversion 2\nend\n",
        Wanted::Refused(AnswerFault::Shape(3)),
    ),
    (
        TOGGLE,
        "all 2\nversion 2\nopen j1\n",
        Wanted::Refused(AnswerFault::Shape(3)),
    ),
    (
        TOGGLE,
        "all 2\nversion 2\nopen j00\n",
        Wanted::Refused(AnswerFault::Shape(3)),
    ),
    (
        TOGGLE,
        "all 2\nversion 2\nopen  j0\n",
        Wanted::Refused(AnswerFault::Shape(3)),
    ),
];

fn heads() -> &'static [Row] {
    &HEADS
}

// Sheets that are refused at a line of a block.
const BLOCK_LINES: [Row; 9] = [
    (
        TOGGLE,
        "all 2\nversion 2\nopen j0\nend\n",
        Wanted::Refused(AnswerFault::Shape(4)),
    ),
    (
        TOGGLE,
        "all 2\nversion 2\nopen j0\nopen j0\n",
        Wanted::Refused(AnswerFault::Shape(4)),
    ),
    (
        TOGGLE,
        "all 2\nversion 2\nopen j0\nopen j1\nopen j2\n",
        Wanted::Refused(AnswerFault::Shape(5)),
    ),
    (
        TOGGLE,
        "all 2\nversion 2\nopen j0\nwall 0 0\n",
        Wanted::Refused(AnswerFault::Shape(4)),
    ),
    (
        TOGGLE,
        "all 2\nversion 2\nrefute 0 0\n",
        Wanted::Refused(AnswerFault::Shape(3)),
    ),
    (
        TOGGLE,
        "all 2\nversion 2\nholds j0\nwall 0 0\n",
        Wanted::Refused(AnswerFault::Shape(4)),
    ),
    (
        TOGGLE,
        "all 2\nversion 2\nlasso j0\n2\n",
        Wanted::Refused(AnswerFault::Shape(4)),
    ),
    (
        TOGGLE,
        "all 2\nversion 2\nlasso j0\n.\n",
        Wanted::Refused(AnswerFault::Shape(4)),
    ),
    (
        TOGGLE,
        "all 2\nversion 2\nlasso j0\n0\n",
        Wanted::Refused(AnswerFault::Shape(5)),
    ),
];

fn block_lines() -> &'static [Row] {
    &BLOCK_LINES
}

// An entry, what stands behind the end, and other texts.
const OTHERS: [Row; 7] = [
    (
        STUCK,
        "all 2\nversion 2\nreach 1 0\n\n2 0\n",
        Wanted::Refused(AnswerFault::Entry(0, EntryFault::Base(0))),
    ),
    (
        NONE,
        "all 0\nversion 2\nend\nc\nend\n",
        Wanted::Refused(AnswerFault::Trailing(5)),
    ),
    (TOGGLE, "", Wanted::Refused(AnswerFault::Shape(1))),
    (
        TOGGLE,
        "0\nj2\n",
        Wanted::Refused(AnswerFault::NoProperty(2)),
    ),
    (
        TOGGLE,
        "0\nj0\nend\n",
        Wanted::Refused(AnswerFault::Shape(3)),
    ),
    (TOGGLE, "2\n", Wanted::Refused(AnswerFault::UnknownStatus)),
    (TOGGLE, "rounds 0\n", Wanted::Refused(AnswerFault::Shape(1))),
];

fn others() -> &'static [Row] {
    &OTHERS
}

// Sheets of which a block is refused.
const BLOCK_FAULTS: [Row; 9] = [
    (
        TOGGLE,
        "all 2\nversion 2\nopen j0\nlasso j1\n0\n\n\n.\n",
        Wanted::InBlock(1, BlockFault::Replay(ReplayFault::NoFairLoop)),
    ),
    (
        TOGGLE,
        "all 2\nversion 2\nlasso j0\n0\n\n.\nno line\n",
        Wanted::InBlock(0, BlockFault::Replay(ReplayFault::NoFairLoop)),
    ),
    (
        TOGGLE,
        "all 2\nversion 2\nlasso j0\n1\n.\n",
        Wanted::InBlock(0, BlockFault::Replay(ReplayFault::NotInitial(0))),
    ),
    (
        TOGGLE,
        "all 2\nversion 2\nlasso j0\n0\n\n1\n.\n",
        Wanted::InBlock(0, BlockFault::Replay(ReplayFault::Width(2))),
    ),
    (
        TOGGLE,
        "all 2\nversion 2\nholds j0\nrefute 1 0\n0\n",
        Wanted::InBlock(0, BlockFault::RefuteUse(0)),
    ),
    (
        STUCK,
        "all 2\nversion 2\nreach 1 0\n\n3 0\nproof 1\n6 0 4 5 2 0\nopen j0\nholds j1\nrefute 1 1\n1\n",
        Wanted::InBlock(1, BlockFault::RefuteUse(1)),
    ),
    (
        TOGGLE,
        "all 2\nversion 2\nopen j0\nholds j1\nrefute 0 0\n\n",
        Wanted::InBlock(1, BlockFault::Refutation(0, LratFault::Unfinished)),
    ),
    (
        TOGGLE,
        "all 2\nversion 2\nholds j0\nrefute 0 1\n\n5 0 1 4 0\n",
        Wanted::InBlock(0, BlockFault::Refutation(0, LratFault::NoConflict)),
    ),
    (
        TOGGLE,
        "all 2\nversion 2\nopen j0\nholds j1\nrefute 0 1\n\nend\n",
        Wanted::InBlock(1, BlockFault::Refutation(0, LratFault::BadLine)),
    ),
];

fn block_faults() -> &'static [Row] {
    &BLOCK_FAULTS
}

// What a text is answered.
fn answer(wanted: Wanted) -> Result<Judged, JudgeEnd> {
    match wanted {
        Wanted::Shown(lassos, holds, unknown, entries) => {
            Ok(sheet(lassos, holds, unknown, entries))
        }
        Wanted::Refused(fault) => Err(plain(AnswerEnd::Refused(fault))),
        Wanted::InBlock(block, fault) => Err(JudgeEnd::Block(block, fault)),
    }
}

// The place of the first of these rows that is judged otherwise, from 0.
fn wrong_row(alloc: Global, rows: &[Row]) -> Option<usize> {
    for (number, (model, text, wanted)) in rows.iter().enumerate() {
        if judged(alloc, model, text) != answer(*wanted) {
            return Some(number);
        }
    }
    None
}

// The first wrong row of each table.
fn wrong_rows(alloc: Global) -> [Option<usize>; 5] {
    [
        wrong_row(alloc, accepted()),
        wrong_row(alloc, heads()),
        wrong_row(alloc, block_lines()),
        wrong_row(alloc, others()),
        wrong_row(alloc, block_faults()),
    ]
}

#[test]
fn sheets_are_judged(rt: HostRuntime) -> Result<(), Fail> {
    assert_eq!(rt; wrong_rows(rt.alloc()), [None; 5]);
    Ok(())
}

#[test]
fn other_texts_are_judged(rt: HostRuntime) -> Result<(), Fail> {
    let lasso = Accepted::Lasso {
        property: 0,
        positions: 2,
        from: 0,
    };
    let shown = judged(rt.alloc(), TOGGLE, "1\nj0\n0\n\n\n.\n");
    assert!(rt; shown == Ok(Judged::Text(TextJudged::Answer(lasso))));
    let holds = Accepted::Holds {
        property: 0,
        entries: 1,
    };
    let shown = judged(rt.alloc(), STUCK, CERTIFICATE);
    assert!(rt; shown == Ok(Judged::Text(TextJudged::Answer(holds))));
    Ok(())
}

const WRITTEN: &str =
    "all 3\nversion 2\nlasso j0\n01\n1\n\n.\nopen j1\nholds j2\nrefute 0 1\n\n5 0 1 4 0\nend\n";

fn lasso(alloc: Global) -> Result<Block, AllocError> {
    let mut inputs = Items::new(alloc);
    inputs.push(Items::from_slice(alloc, &[true])?)?;
    inputs.push(Items::new(alloc))?;
    Ok(Block::Lasso(Stimulus {
        latches: Items::from_slice(alloc, &[false, true])?,
        inputs,
    }))
}

fn written(alloc: Global) -> Result<Vec<u8>, AllocError> {
    let first = lasso(alloc)?;
    let last = Block::Holds(Refutation {
        uses: Items::new(alloc),
        proof: proof_of(alloc, "5 0 1 4 0")?,
    });
    let list: [Arc<Checked>; 0] = [];
    let blocks = [first, Block::Open, last];
    write(alloc, list.as_slice(), blocks.as_slice())
}

#[test]
fn sheets_are_written(rt: HostRuntime) -> Result<(), Fail> {
    let text = written(rt.alloc())?;
    assert!(rt; text.as_slice() == WRITTEN.as_bytes());
    Ok(())
}
