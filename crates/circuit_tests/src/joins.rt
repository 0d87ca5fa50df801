//! Lassos joined of parts and shortened, with values worked out by hand. Parts are joined only where they are seen to
//! fit, which `fitting` sees to.
use crate::fitting::{NoFit, checked_join, shortened, successor_of};
use crate::models::{Model, circuit_of};
use circuit::{Circuit, Gate, Lasso, Latch, Position, Reset};
use fair_semantics::{Situation, Skeleton};
use items::Items;
use std::alloc::{AllocError, Global};
use std::test::*;

// The latch begins with 0 and changes at each step; it is to be 1 again and again.
const TOGGLE: Model = Model {
    max: 1,
    inputs: &[],
    latches: &[Latch {
        var: 1,
        next: 3,
        reset: Reset::Zero,
    }],
    gates: &[],
    constraints: &[],
    property: &[2],
    fairness: &[],
};

// The same latch, and a property without literals.
const NOTHING: Model = Model {
    max: 1,
    inputs: &[],
    latches: &[Latch {
        var: 1,
        next: 3,
        reset: Reset::Zero,
    }],
    gates: &[],
    constraints: &[],
    property: &[],
    fairness: &[],
};

// The latch begins with either value and keeps it.
const KEPT: Model = Model {
    max: 1,
    inputs: &[],
    latches: &[Latch {
        var: 1,
        next: 2,
        reset: Reset::Free,
    }],
    gates: &[],
    constraints: &[],
    property: &[2],
    fairness: &[],
};

// Two bits that count from 0, the low one first; both are to be 1 again and again.
const COUNTER: Model = Model {
    max: 6,
    inputs: &[],
    latches: &[
        Latch {
            var: 1,
            next: 3,
            reset: Reset::Zero,
        },
        Latch {
            var: 2,
            next: 11,
            reset: Reset::Zero,
        },
    ],
    gates: &[
        Gate {
            var: 3,
            rhs0: 5,
            rhs1: 2,
        },
        Gate {
            var: 4,
            rhs0: 4,
            rhs1: 3,
        },
        Gate {
            var: 5,
            rhs0: 9,
            rhs1: 7,
        },
        Gate {
            var: 6,
            rhs0: 4,
            rhs1: 2,
        },
    ],
    constraints: &[],
    property: &[12],
    fairness: &[],
};

// The latch takes the value of the input; it is to be 1 and 0 again and again.
const BOTH: Model = Model {
    max: 2,
    inputs: &[2],
    latches: &[Latch {
        var: 1,
        next: 4,
        reset: Reset::Free,
    }],
    gates: &[],
    constraints: &[],
    property: &[2],
    fairness: &[3],
};

fn push_digits(text: &str, behind: bool, values: &mut Items<bool>) -> Result<(), AllocError> {
    let mut is_behind = false;
    for byte in text.as_bytes() {
        if *byte == b'.' {
            is_behind = true;
        } else if is_behind == behind {
            values.push(*byte == b'1')?;
        }
    }
    Ok(())
}

/// The values in front of the dot of a text, or behind it.
fn values_of(alloc: Global, text: &str, behind: bool) -> Result<Items<bool>, AllocError> {
    let mut values = Items::new(alloc);
    push_digits(text, behind, &mut values)?;
    Ok(values)
}

/// The position of a text: the values of the latches, a dot, and the values of the inputs.
fn position_of(alloc: Global, text: &str) -> Result<Position, AllocError> {
    Ok(Position {
        latches: values_of(alloc, text, false)?,
        inputs: values_of(alloc, text, true)?,
    })
}

fn push_positions(
    alloc: Global,
    texts: &[&str],
    positions: &mut Items<Position>,
) -> Result<(), AllocError> {
    for text in texts {
        positions.push(position_of(alloc, text)?)?;
    }
    Ok(())
}

fn positions_of(alloc: Global, texts: &[&str]) -> Result<Items<Position>, AllocError> {
    let mut positions = Items::new(alloc);
    push_positions(alloc, texts, &mut positions)?;
    Ok(positions)
}

fn push_pieces(
    alloc: Global,
    texts: &[&[&str]],
    pieces: &mut Items<Items<Position>>,
) -> Result<(), AllocError> {
    for piece in texts {
        pieces.push(positions_of(alloc, piece)?)?;
    }
    Ok(())
}

fn pieces_of(alloc: Global, texts: &[&[&str]]) -> Result<Items<Items<Position>>, AllocError> {
    let mut pieces = Items::new(alloc);
    push_pieces(alloc, texts, &mut pieces)?;
    Ok(pieces)
}

fn situation_of(alloc: Global, c: &Circuit, text: &str) -> Result<Situation, NoFit> {
    let position = position_of(alloc, text)?;
    let successor = successor_of(alloc, c, &position)?;
    Ok(Situation {
        position,
        successor,
    })
}

fn push_situations(
    alloc: Global,
    c: &Circuit,
    texts: &[&str],
    situations: &mut Items<Situation>,
) -> Result<(), NoFit> {
    for text in texts {
        situations.push(situation_of(alloc, c, text)?)?;
    }
    Ok(())
}

fn skeleton_of(alloc: Global, c: &Circuit, texts: &[&str]) -> Result<Skeleton, NoFit> {
    let mut situations = Items::new(alloc);
    push_situations(alloc, c, texts, &mut situations)?;
    Ok(Skeleton { situations })
}

/// The values at the start and the inputs of each position, with a dot in front of each of these, and the place.
type Spelled = (&'static str, u64);

/// A stem, the positions of a skeleton, and the pieces behind them; and what they give, joined and shortened, or nothing
/// where they do not fit.
struct Row {
    model: &'static Model,
    stem: &'static [&'static str],
    skeleton: &'static [&'static str],
    pieces: &'static [&'static [&'static str]],
    wanted: Option<(Spelled, Spelled)>,
}

const ROWS: [Row; 9] = [
    Row {
        model: &TOGGLE,
        stem: &["0."],
        skeleton: &["1."],
        pieces: &[&["0."]],
        wanted: Some((("0...", 1), ("0..", 0))),
    },
    Row {
        model: &NOTHING,
        stem: &[],
        skeleton: &["0."],
        pieces: &[&["1."]],
        wanted: Some((("0..", 0), ("0..", 0))),
    },
    Row {
        model: &KEPT,
        stem: &[],
        skeleton: &["1."],
        pieces: &[&[]],
        wanted: Some((("1.", 0), ("1.", 0))),
    },
    Row {
        model: &COUNTER,
        stem: &["00.", "10.", "01."],
        skeleton: &["11."],
        pieces: &[&["00.", "10.", "01."]],
        wanted: Some((("00.......", 3), ("00....", 0))),
    },
    Row {
        model: &BOTH,
        stem: &[],
        skeleton: &["1.0", "0.1"],
        pieces: &[&[], &[]],
        wanted: Some((("1.0.1", 0), ("1.0.1", 0))),
    },
    Row {
        model: &BOTH,
        stem: &["0.0", "0.1"],
        skeleton: &["1.1", "0.1"],
        pieces: &[&["1.0"], &["1.1"]],
        wanted: Some((("0.0.1.1.0.1.1", 2), ("0.0.1.1.0", 0))),
    },
    // The stem begins with 1, which is not initial.
    Row {
        model: &TOGGLE,
        stem: &[],
        skeleton: &["1."],
        pieces: &[&["0."]],
        wanted: None,
    },
    // The piece leads from 0 to 0.
    Row {
        model: &TOGGLE,
        stem: &["0."],
        skeleton: &["1."],
        pieces: &[&[]],
        wanted: None,
    },
    // A piece is missing.
    Row {
        model: &BOTH,
        stem: &[],
        skeleton: &["1.0", "0.1"],
        pieces: &[&[]],
        wanted: None,
    },
];

fn joined_along(
    alloc: Global,
    c: &Circuit,
    stem: &[Position],
    skeleton: &Skeleton,
    row: &Row,
) -> Result<Lasso, NoFit> {
    let pieces = pieces_of(alloc, row.pieces)?;
    checked_join(alloc, c, 0, stem, skeleton, pieces.as_slice())
}

fn joined_behind(alloc: Global, c: &Circuit, stem: &[Position], row: &Row) -> Result<Lasso, NoFit> {
    let skeleton = skeleton_of(alloc, c, row.skeleton)?;
    joined_along(alloc, c, stem, &skeleton, row)
}

fn joined(alloc: Global, c: &Circuit, row: &Row) -> Result<Lasso, NoFit> {
    let stem = positions_of(alloc, row.stem)?;
    joined_behind(alloc, c, stem.as_slice(), row)
}

fn push_values(values: &[bool], text: &mut String) -> Result<(), AllocError> {
    for value in values {
        text.push(if *value { '1' } else { '0' })?;
    }
    Ok(())
}

fn push_lasso(lasso: &Lasso, text: &mut String) -> Result<(), AllocError> {
    push_values(lasso.start.as_slice(), text)?;
    for inputs in lasso.inputs.as_slice() {
        text.push('.')?;
        push_values(inputs.as_slice(), text)?;
    }
    Ok(())
}

fn is_spelled(alloc: Global, lasso: &Lasso, wanted: Spelled) -> Result<bool, AllocError> {
    let mut text = String::new(alloc);
    push_lasso(lasso, &mut text)?;
    Ok(text.as_str() == wanted.0 && lasso.from == wanted.1)
}

/// Whether a lasso is spelled so, and so where it is shortened.
fn is_spelled_twice(
    alloc: Global,
    c: &Circuit,
    lasso: Lasso,
    wanted: (Spelled, Spelled),
) -> Result<bool, NoFit> {
    let is_whole = is_spelled(alloc, &lasso, wanted.0)?;
    let short = shortened(alloc, c, 0, lasso)?;
    Ok(is_whole && is_spelled(alloc, &short, wanted.1)?)
}

fn gives_on(alloc: Global, c: &Circuit, row: &Row) -> Result<bool, NoFit> {
    match row.wanted {
        Some(wanted) => is_spelled_twice(alloc, c, joined(alloc, c, row)?, wanted),
        None => Ok(joined(alloc, c, row).is_err()),
    }
}

/// Whether a row gives what it must.
fn gives(alloc: Global, row: &Row) -> Result<bool, Fail> {
    let c = circuit_of(alloc, row.model)?;
    let gives = gives_on(alloc, &c, row);
    drop(c);
    Ok(gives?)
}

/// The first row that gives something else.
fn first_other(alloc: Global, rows: &[Row]) -> Result<Option<usize>, Fail> {
    for (k, row) in rows.iter().enumerate() {
        if !gives(alloc, row)? {
            return Ok(Some(k));
        }
    }
    Ok(None)
}

#[test]
fn parts_are_joined_and_shortened(rt: HostRuntime) -> Result<(), Fail> {
    let other = first_other(rt.alloc(), &ROWS);
    assert_eq!(rt; other?, None);
    Ok(())
}
