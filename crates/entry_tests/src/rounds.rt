//! Texts about rounds of small circuits, judged and written: proofs are worked out by hand.

use crate::claims::{Claim, FIRST, entry_of, refutation_of};
use aig_semantics::Position;
use aiger_ascii::read;
use aiger_names::Model;
use certificate::{Accepted, AnswerEnd, AnswerFault};
use circuit::Circuit;
use edge::MemShelf;
use entry::{Entry, EntryFault, Kind};
use items::Items;
use proof_semantics::LratFault;
use round_answers::{JudgeEnd, Judged, KnownRounds, check_answer, write};
use round_monitor::monitor;
use std::alloc::{AllocError, Global};
use std::test::Fail;
use stimulus::ReplayFault;

// The latch begins with 0 and changes at each step; the property is that it is 1.
const TOGGLE: &str = "aag 1 0 1 0 0 0 0 1 0\n2 3\n1\n2\n";

// The latch stays at 0.
const STUCK: &str = "aag 1 0 1 0 0 0 0 1 0\n2 2\n1\n2\n";

// The same with a constraint that it is 1.
const NEVER: &str = "aag 1 0 1 0 0 0 1 1 0\n2 2\n2\n1\n2\n";

// The stuck latch, what was seen and the counter stay 0.
const NONE_TRUE: Claim = (Kind::Reach, &[&[3], &[5], &[7]], &[]);

const NONE_TRUE_LINES: [&str; 3] = [
    "21 0 17 11 20 0",
    "21 0 20 13 5 6 0",
    "21 0 20 15 18 17 4 19 10 0",
];

const NEVER_FULL: &str = "5 0 3 4 0";

const SHOWN_BY_ENTRY: &str =
    "rounds 1\nj0\nversion 2\nreach 3 0\n\n3 0\n5 0\n7 0\nproof 1\n21 0 17 11 20 0\nproof 1\n21 0 20 13 5 6 0\nproof 1\n21 0 20 15 18 17 4 19 10 0\nrefute 1 1\n0\n5 0 3 4 0\nend\n";

const SHOWN_BY_RUN: &str = "rounds 2\nj0\nrun\n0\n\n\n\n\n.\n";

/// The model of a text; one that is refused is told as want of memory.
pub(crate) fn model_of(alloc: Global, text: &str) -> Result<Model, AllocError> {
    match read(alloc, text.as_bytes()) {
        Ok(model) => Ok(model),
        Err(_) => Err(AllocError),
    }
}

/// A shelf of this text alone, under the name `a`.
pub(crate) fn shelf_of(alloc: Global, text: &str) -> Result<MemShelf, AllocError> {
    let mut texts = Vec::new(alloc);
    texts.push((
        String::from_str(alloc, "a")?,
        text.as_bytes().to_vec(alloc)?,
    ))?;
    Ok(MemShelf::new(texts, 5, Vec::new(alloc)))
}

fn judged_by(alloc: Global, model: &Model, text: &str) -> Result<Judged, JudgeEnd> {
    let Ok(mut shelf) = shelf_of(alloc, text) else {
        return Err(JudgeEnd::TooLarge(0));
    };
    let judged = check_answer(alloc, model.circuit(), &mut shelf, "a");
    drop(shelf);
    judged
}

fn judged(alloc: Global, model: &str, text: &str) -> Result<Judged, JudgeEnd> {
    let Ok(model) = model_of(alloc, model) else {
        return Err(JudgeEnd::TooLarge(0));
    };
    let judged = judged_by(alloc, &model, text);
    drop(model);
    judged
}

/// A model, a text that is accepted, and what it shows.
type Accepting = (&'static str, &'static str, Judged);

const ACCEPTED: [Accepting; 4] = [
    (
        STUCK,
        SHOWN_BY_ENTRY,
        Judged::Rounds {
            property: 0,
            k: 1,
            reached: false,
        },
    ),
    (
        TOGGLE,
        SHOWN_BY_RUN,
        Judged::Rounds {
            property: 0,
            k: 2,
            reached: true,
        },
    ),
    (
        TOGGLE,
        "cx\nrounds 2\nu\nj0\nrun\n0\n\n\n\n\n.\nc",
        Judged::Rounds {
            property: 0,
            k: 2,
            reached: true,
        },
    ),
    (
        TOGGLE,
        "1\nj0\n0\n\n\n.\n",
        Judged::Answer(Accepted::Lasso {
            property: 0,
            positions: 2,
            from: 0,
        }),
    ),
];

fn accepted_rows() -> &'static [Accepting] {
    &ACCEPTED
}

// Texts that are refused, and their faults.
type Refused = (&'static str, &'static str, AnswerFault);

const REFUSED: [Refused; 9] = [
    (
        TOGGLE,
        "rounds 2\nj0\nrun\n0\n\n\n\n.\n",
        AnswerFault::FewRounds(1),
    ),
    (TOGGLE, "c\nrounds 0\nj0\n", AnswerFault::Shape(2)),
    (TOGGLE, "rounds 65\nj0\n", AnswerFault::Shape(1)),
    (TOGGLE, "rounds", AnswerFault::Shape(1)),
    (TOGGLE, "roundsx 1\n", AnswerFault::Shape(1)),
    (TOGGLE, "rounds 64\n", AnswerFault::Shape(2)),
    (TOGGLE, "rounds 1\nj1\n", AnswerFault::NoProperty(1)),
    (TOGGLE, "rounds 1\nj0\nversion 1\n", AnswerFault::Shape(3)),
    (
        TOGGLE,
        "rounds 1\nj0\nversion 2\nwall 0 0\n",
        AnswerFault::Shape(4),
    ),
];

fn refused_rows() -> &'static [Refused] {
    &REFUSED
}

// More of them: of a run, its end, an entry, a refutation, and of no text.
const LATER: [Refused; 10] = [
    (
        TOGGLE,
        "rounds 1\nj0\nrun\n00\n1\n.\n",
        AnswerFault::Replay(ReplayFault::Width(0)),
    ),
    (
        TOGGLE,
        "rounds 1\nj0\nrun\n1\n1\n.\n",
        AnswerFault::Replay(ReplayFault::Width(1)),
    ),
    (
        TOGGLE,
        "rounds 1\nj0\nrun\n1\n\n.\n",
        AnswerFault::Replay(ReplayFault::NotInitial(0)),
    ),
    (
        NEVER,
        "rounds 1\nj0\nrun\n0\n\n.\n",
        AnswerFault::Replay(ReplayFault::Constraint(0)),
    ),
    (
        TOGGLE,
        "rounds 1\nj0\nrun\n0\n.\n",
        AnswerFault::FewRounds(0),
    ),
    (
        TOGGLE,
        "rounds 1\nj0\nrun\n0\n.\n1\n",
        AnswerFault::Trailing(6),
    ),
    (
        STUCK,
        "rounds 1\nj0\nversion 2\nreach 1 0\n\n2 0\n",
        AnswerFault::Entry(0, EntryFault::Base(0)),
    ),
    (
        STUCK,
        "rounds 1\nj0\nversion 2\nrefute 0 1\n\n5 0 3 4 0\n",
        AnswerFault::Refutation(0, LratFault::NoClause(3)),
    ),
    (
        STUCK,
        "rounds 1\nj0\nversion 2\nrefute 1 1\n0\n",
        AnswerFault::RefuteUse(0),
    ),
    (TOGGLE, "", AnswerFault::Shape(1)),
];

fn later_rows() -> &'static [Refused] {
    &LATER
}

// The place of the first row that is judged otherwise, from 0.
fn first_other_accepted(alloc: Global) -> Option<usize> {
    for (number, (model, text, wanted)) in accepted_rows().iter().enumerate() {
        if judged(alloc, model, text) != Ok(*wanted) {
            return Some(number);
        }
    }
    None
}

fn first_other_refused(alloc: Global, rows: &[Refused]) -> Option<usize> {
    for (number, (model, text, wanted)) in rows.iter().enumerate() {
        if judged(alloc, model, text) != Err(JudgeEnd::Answer(AnswerEnd::Refused(*wanted))) {
            return Some(number);
        }
    }
    None
}

// The first other row of each table.
fn first_others(alloc: Global) -> [Option<usize>; 3] {
    [
        first_other_accepted(alloc),
        first_other_refused(alloc, refused_rows()),
        first_other_refused(alloc, later_rows()),
    ]
}

#[test]
fn texts_are_judged(rt: HostRuntime) -> Result<(), Fail> {
    assert_eq!(rt; first_others(rt.alloc()), [None; 3]);
    Ok(())
}

// A circuit with as many variables as there may be.
#[test]
fn monitor_too_large(rt: HostRuntime) -> Result<(), Fail> {
    let model = "aag 16777216 1 0 0 0 0 0 1 0\n2\n0\n";
    let end = judged(rt.alloc(), model, "rounds 1\nj0\n");
    assert!(rt; end == Err(JudgeEnd::TooLarge(16777218)));
    Ok(())
}

fn position(alloc: Global, latch: bool) -> Result<Position, AllocError> {
    Ok(Position {
        latches: Items::from_slice(alloc, &[latch])?,
        inputs: Items::new(alloc),
    })
}

// Four positions of the toggling latch, which has two rounds there.
fn toggled(alloc: Global) -> Result<Items<Position>, AllocError> {
    let mut run = Items::new(alloc);
    for latch in [false, true, false, true] {
        run.push(position(alloc, latch)?)?;
    }
    Ok(run)
}

// The one entry that shows that the stuck latch has no round, over the monitor for one round.
fn entries(alloc: Global, t: &Circuit) -> Result<Items<Entry>, AllocError> {
    let mut entries = Items::new(alloc);
    match entry_of(alloc, t, &NONE_TRUE, &NONE_TRUE_LINES) {
        Ok(entry) => entries.push(entry)?,
        Err(_) => return Err(AllocError),
    }
    Ok(entries)
}

fn fewer(alloc: Global, t: &Circuit) -> Result<KnownRounds, AllocError> {
    let refutation = refutation_of(alloc, &[FIRST], NEVER_FULL)?;
    Ok(KnownRounds::Fewer {
        entries: entries(alloc, t)?,
        refutation,
    })
}

// What is known of the property's rounds: the run where there is one, and else the entry.
fn known(alloc: Global, t: &Circuit, reached: bool) -> Result<KnownRounds, AllocError> {
    if reached {
        return Ok(KnownRounds::Reached {
            run: toggled(alloc)?,
        });
    }
    fewer(alloc, t)
}

// Whether the text that is written for k rounds is this one.
fn is_written(
    alloc: Global,
    c: &Circuit,
    k: u32,
    reached: bool,
    text: &str,
) -> Result<bool, AllocError> {
    if k == 0 {
        return Ok(false);
    }
    match monitor(alloc, c, 0, k) {
        Ok(t) => {
            let rounds = known(alloc, t.circuit(), reached);
            drop(t);
            Ok(write(alloc, c, 0, k, &rounds?)?.as_slice() == text.as_bytes())
        }
        Err(_) => Err(AllocError),
    }
}

fn is_text_of(
    alloc: Global,
    model: &str,
    k: u32,
    reached: bool,
    text: &str,
) -> Result<bool, AllocError> {
    let model = model_of(alloc, model)?;
    let same = is_written(alloc, model.circuit(), k, reached, text);
    drop(model);
    same
}

#[test]
fn texts_are_written(rt: HostRuntime) -> Result<(), Fail> {
    let alloc = rt.alloc();
    assert!(rt; is_text_of(alloc, STUCK, 1, false, SHOWN_BY_ENTRY)?);
    assert!(rt; is_text_of(alloc, TOGGLE, 2, true, SHOWN_BY_RUN)?);
    Ok(())
}
