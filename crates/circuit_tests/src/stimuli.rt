//! Texts of stimuli, and stimuli replayed on small circuits, with values worked out by hand.
use crate::models::{Model, circuit_of};
use circuit::{Circuit, Latch, Reset, Stimulus};
use items::Items;
use std::alloc::Global;
use std::test::*;
use stimulus::{ReplayEnd, ReplayFault, read, replay, write};

// The text, and how many latches and positions it has, or the number of the line that is none of a stimulus.
type Text = (&'static str, Result<(usize, usize), u64>);

fn texts() -> &'static [Text] {
    &[
        ("", Err(1)),
        ("c\n", Err(2)),
        ("c a\nu b", Err(3)),
        ("\n", Ok((0, 0))),
        ("\n\n\n", Ok((0, 2))),
        ("0", Ok((1, 0))),
        ("0x1\n", Ok((3, 0))),
        ("01\n1\n0\n\n", Ok((2, 3))),
        ("01\n1", Ok((2, 1))),
        ("c\n01\nu1\n1\nc", Ok((2, 1))),
    ]
}

fn other_texts() -> &'static [Text] {
    &[
        ("02\n1\n", Err(1)),
        ("c\n0\n2\n3\n", Err(3)),
        ("0\n1\n2", Err(3)),
        ("0 1\n1\n", Err(1)),
        ("0\r\n", Err(1)),
        ("X\n", Err(1)),
        (".\n", Err(1)),
        ("0\n0c\n", Err(2)),
    ]
}

/// How many latches and positions the text has, or the number of the line that is none of a stimulus.
fn size_of(alloc: Global, text: &str) -> Result<(usize, usize), u64> {
    match read(alloc, text.as_bytes()) {
        Ok(s) => Ok((s.latches.len(), s.inputs.len())),
        Err(ReplayEnd::Fault(ReplayFault::Shape(number))) => Err(number),
        Err(_) => Err(0),
    }
}

fn are_inputs(found: &[Items<bool>], wanted: &[&[bool]]) -> bool {
    found.len() == wanted.len()
        && found
            .iter()
            .zip(wanted)
            .all(|(one, other)| one.as_slice() == *other)
}

/// Whether the text is that of a stimulus with these latch values and these inputs at its positions.
fn is_read_as(
    alloc: Global,
    text: &str,
    latches: &[bool],
    inputs: &[&[bool]],
) -> Result<bool, ReplayEnd> {
    let s = read(alloc, text.as_bytes())?;
    Ok(s.latches.as_slice() == latches && are_inputs(s.inputs.as_slice(), inputs))
}

/// What is written of the stimulus of this text.
fn written(alloc: Global, j: u32, text: &str) -> Result<Vec<u8>, ReplayEnd> {
    let s = read(alloc, text.as_bytes())?;
    Ok(write(alloc, j, &s)?)
}

/// Whether this is written of the stimulus of a text.
fn is_written(alloc: Global, j: u32, text: &str, wanted: &[u8]) -> Result<bool, ReplayEnd> {
    let text = written(alloc, j, text)?;
    Ok(text.as_slice() == wanted)
}

const POSITIONS: &[&[bool]] = &[&[true, true, false], &[false, true, false]];

// The place of the first text that is told otherwise, from 0.
fn wrong_text(alloc: Global, rows: &[Text]) -> Option<usize> {
    for (k, (text, wanted)) in rows.iter().enumerate() {
        if size_of(alloc, text) != *wanted {
            return Some(k);
        }
    }
    None
}

fn is_stimulus(alloc: Global, text: &str) -> Result<bool, ReplayEnd> {
    let is_written = is_written(alloc, 20, text, b"1\nj20\n01\n110\n010\n.\n")?;
    Ok(is_written && is_read_as(alloc, text, &[false, true], POSITIONS)?)
}

fn are_read(alloc: Global) -> Result<[bool; 4], ReplayEnd> {
    Ok([
        wrong_text(alloc, texts()).is_none(),
        wrong_text(alloc, other_texts()).is_none(),
        is_stimulus(alloc, "x1\nc\n110\n01x")?,
        is_stimulus(alloc, "c\n01\n110\nu\n010\n")?,
    ])
}

#[test]
fn texts_are_read(rt: HostRuntime) -> Result<(), Fail> {
    assert!(rt; are_read(rt.alloc())? == [true; 4]);
    Ok(())
}

// The latch begins with 0 and changes at each step.
const TOGGLE: Model = Model {
    max: 2,
    inputs: &[],
    latches: &[Latch {
        var: 1,
        next: 3,
        reset: Reset::Zero,
    }],
    gates: &[],
    constraints: &[],
    property: &[2],
    fairness: &[],
};

// The latch stays at 0, and the property wants 1.
const STUCK: Model = Model {
    max: 2,
    inputs: &[],
    latches: &[Latch {
        var: 1,
        next: 2,
        reset: Reset::Zero,
    }],
    gates: &[],
    constraints: &[],
    property: &[2],
    fairness: &[],
};

// The latch begins with either value and keeps it.
const FREE: Model = Model {
    max: 2,
    inputs: &[],
    latches: &[Latch {
        var: 1,
        next: 2,
        reset: Reset::Free,
    }],
    gates: &[],
    constraints: &[],
    property: &[2],
    fairness: &[],
};

// One input, which is to be true again and again.
const INPUT: Model = Model {
    max: 2,
    inputs: &[1],
    latches: &[],
    gates: &[],
    constraints: &[],
    property: &[2],
    fairness: &[],
};

// The latch begins with 1 and is 0 from then on; the property wants what it is on the stem.
const STEM: Model = Model {
    max: 2,
    inputs: &[],
    latches: &[Latch {
        var: 1,
        next: 0,
        reset: Reset::One,
    }],
    gates: &[],
    constraints: &[],
    property: &[2],
    fairness: &[],
};

// The same latch, and what it is on the loop.
const FALLS: Model = Model {
    max: 2,
    inputs: &[],
    latches: &[Latch {
        var: 1,
        next: 0,
        reset: Reset::One,
    }],
    gates: &[],
    constraints: &[],
    property: &[3],
    fairness: &[],
};

// The latch takes the value of the input, which is 0 at each position; the property is always true.
const CALM: Model = Model {
    max: 2,
    inputs: &[2],
    latches: &[Latch {
        var: 1,
        next: 4,
        reset: Reset::Free,
    }],
    gates: &[],
    constraints: &[5],
    property: &[1],
    fairness: &[],
};

// The latch takes the value of the input; it is to be 1 and 0 again and again.
const BOTH: Model = Model {
    max: 2,
    inputs: &[2],
    latches: &[Latch {
        var: 1,
        next: 4,
        reset: Reset::Free,
    }],
    gates: &[],
    constraints: &[],
    property: &[2],
    fairness: &[3],
};

/// The number of positions and the place of the lasso that replay gives, or what is wrong; `Shape`, which it never
/// says, where the lasso does not begin as the stimulus does, or memory is refused.
fn lasso_of(alloc: Global, c: &Circuit, j: u32, s: &Stimulus) -> Result<(usize, u64), ReplayFault> {
    match replay(alloc, c, j, s) {
        Ok(lasso) => {
            if lasso.start.as_slice() == s.latches.as_slice() {
                return Ok((lasso.inputs.len(), lasso.from));
            }
            Err(ReplayFault::Shape(0))
        }
        Err(ReplayEnd::Fault(fault)) => Err(fault),
        Err(ReplayEnd::Memory) => Err(ReplayFault::Shape(0)),
    }
}

/// The same for the stimulus of a text.
fn replayed(alloc: Global, c: &Circuit, j: u32, text: &str) -> Result<(usize, u64), ReplayFault> {
    match read(alloc, text.as_bytes()) {
        Ok(s) => lasso_of(alloc, c, j, &s),
        Err(_) => Err(ReplayFault::Shape(0)),
    }
}

/// The same on the circuit of a model.
fn replayed_on(
    alloc: Global,
    model: &Model,
    j: u32,
    text: &str,
) -> Result<(usize, u64), ReplayFault> {
    match circuit_of(alloc, model) {
        Ok(c) => {
            let lasso = replayed(alloc, &c, j, text);
            drop(c);
            lasso
        }
        Err(_) => Err(ReplayFault::Shape(0)),
    }
}

// A circuit, a property, a stimulus, and the number of positions of the lasso and the place that it goes back to, or
// what is wrong.
type Replay = (
    &'static Model,
    u32,
    &'static str,
    Result<(usize, u64), ReplayFault>,
);

// Of a latch that changes.
fn replays_of_one_latch() -> &'static [Replay] {
    &[
        (&TOGGLE, 0, "0\n", Err(ReplayFault::NoFairLoop)),
        (&TOGGLE, 0, "0\n\n", Err(ReplayFault::NoFairLoop)),
        (&TOGGLE, 0, "0\n\n\n", Ok((2, 0))),
        (&TOGGLE, 0, "0\n\n\n\n", Ok((2, 0))),
        (&TOGGLE, 0, "1\n\n\n", Err(ReplayFault::NotInitial(0))),
        (&TOGGLE, 1, "00\n\n\n", Err(ReplayFault::NoProperty)),
        (&TOGGLE, u32::MAX, "0\n\n\n", Err(ReplayFault::NoProperty)),
        (&TOGGLE, 0, "\n\n\n", Err(ReplayFault::Width(0))),
        (&TOGGLE, 0, "10\n\n1\n", Err(ReplayFault::Width(0))),
        (&TOGGLE, 0, "0\n1\n\n", Err(ReplayFault::Width(1))),
        (&TOGGLE, 0, "1\n\n\n1\n", Err(ReplayFault::Width(3))),
    ]
}

// Of one that stays, one that is free, an input, and a property of the stem or of the loop.
fn replays_of_others() -> &'static [Replay] {
    &[
        (&STUCK, 0, "0\n\n\n\n", Err(ReplayFault::NoFairLoop)),
        (&FREE, 0, "1\n\n", Ok((1, 0))),
        (&FREE, 0, "x\n\n\n", Err(ReplayFault::NoFairLoop)),
        (&FREE, 0, "1\n", Err(ReplayFault::NoFairLoop)),
        (&INPUT, 0, "\n0\n1\n0\n", Ok((2, 0))),
        (&INPUT, 0, "\n0\nx\n", Err(ReplayFault::NoFairLoop)),
        (&INPUT, 0, "\n0\n11\n", Err(ReplayFault::Width(2))),
        (&STEM, 0, "1\n\n\n\n", Err(ReplayFault::NoFairLoop)),
        (&STEM, 0, "0\n\n\n\n", Err(ReplayFault::NotInitial(0))),
        (&FALLS, 0, "1\n\n\n\n", Ok((2, 1))),
    ]
}

// Of a latch that takes the value of the input.
fn replays_of_a_follower() -> &'static [Replay] {
    &[
        (&CALM, 0, "0\n0\n0\n", Ok((1, 0))),
        (&CALM, 0, "0\n0\n1\n", Ok((1, 0))),
        (&CALM, 0, "1\n0\n0\n", Ok((2, 1))),
        (&CALM, 0, "1\n0\n1\n", Err(ReplayFault::Constraint(1))),
        (&CALM, 0, "0\n1\n0\n", Err(ReplayFault::Constraint(0))),
        (&CALM, 0, "1\n0\n", Err(ReplayFault::NoFairLoop)),
        (&BOTH, 0, "1\n1\n0\n0\n1\n", Ok((4, 0))),
        (&BOTH, 0, "0\n0\n1\n0\n1\n", Ok((3, 0))),
        (&BOTH, 0, "0\n0\n1\n1\n", Err(ReplayFault::NoFairLoop)),
    ]
}

// The place of the first row that is replayed otherwise, from 0.
fn wrong_replay(alloc: Global, rows: &[Replay]) -> Option<usize> {
    for (k, (model, j, text, wanted)) in rows.iter().enumerate() {
        if replayed_on(alloc, model, *j, text) != *wanted {
            return Some(k);
        }
    }
    None
}

fn wrong_replays(alloc: Global) -> [Option<usize>; 3] {
    [
        wrong_replay(alloc, replays_of_one_latch()),
        wrong_replay(alloc, replays_of_others()),
        wrong_replay(alloc, replays_of_a_follower()),
    ]
}

#[test]
fn replays(rt: HostRuntime) {
    assert_eq!(rt; wrong_replays(rt.alloc()), [None; 3]);
}
