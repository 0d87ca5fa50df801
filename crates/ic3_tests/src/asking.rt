//! Searches asked for by texts. The main calls are `answer` and `answer_behind`. A state is written with a digit for each
//! latch.

ghost use Rattle.entry.specs.CheckedEntries.{viewed};
ghost use Rattle.entry.specs.Laws.{IsGoodList};

use crate::searching::searched;
use circuit::{Circuit, Position};
use cnf::{Cube, Lit};
use edge::Meter;
use entry::{Checked, good_lists_grow};
use ic3::{Goal, ReachEnd, Reached, Start};
use items::Items;
use std::alloc::{AllocError, Global};
use std::sync::Arc;

/// Where a search goes to: a state, by digits; a literal; or a literal at a position whose state has 0 in the latch of a
/// number.
#[derive(Clone, Copy)]
pub(crate) enum To<'a> {
    State(&'a str),
    Literal(u64),
    LiteralAt(u64, u64),
}

/// What a search is to answer: the states of a path, a closed set, perhaps of so many clauses, or an end.
#[derive(Clone, Copy)]
pub(crate) enum Wanted {
    Path(&'static [&'static str]),
    Closed,
    /// A closed set of so many clauses.
    ClosedOf(usize),
    /// A closed set of so many clauses, with so many uses.
    ClosedBy(usize, usize),
    End(ReachEnd),
}

/// The state of digits.
pub(crate) fn state_of(alloc: Global, text: &str) -> Result<Items<bool>, AllocError> {
    let mut state = Items::new(alloc);
    for digit in text.as_bytes() {
        state.push(*digit == b'1')?;
    }
    Ok(state)
}

// What a search behind a view answers. A closed set loses what it does not need.
fn to_goal(
    alloc: Global,
    c: &Circuit,
    view: &[Arc<Checked>],
    start: &Start,
    to: To<'_>,
    meter: &mut Meter,
) -> Result<Reached, ReachEnd>
    requires view { IsGoodList c.now (viewed view.now) }
{
    match to {
        To::State(state) => to_state(alloc, c, view, start, state, meter),
        To::Literal(literal) => {
            let goal = Goal::Literal {
                literal,
                avoid: &[],
            };
            searched(alloc, c, view, start, &goal, true, meter)
        }
        To::LiteralAt(literal, var) => to_literal_at(alloc, c, view, start, (literal, var), meter),
    }
}

fn to_state(
    alloc: Global,
    c: &Circuit,
    view: &[Arc<Checked>],
    start: &Start,
    state: &str,
    meter: &mut Meter,
) -> Result<Reached, ReachEnd>
    requires view { IsGoodList c.now (viewed view.now) }
{
    let values = state_of(alloc, state)?;
    let reached = searched(
        alloc,
        c,
        view,
        start,
        &Goal::State(values.as_slice()),
        true,
        meter,
    );
    drop(values);
    reached
}

// To the literal at a position whose state has 0 in a latch.
fn to_literal_at(
    alloc: Global,
    c: &Circuit,
    view: &[Arc<Checked>],
    start: &Start,
    at: (u64, u64),
    meter: &mut Meter,
) -> Result<Reached, ReachEnd>
    requires view { IsGoodList c.now (viewed view.now) }
{
    let one = Lit {
        var: at.1,
        positive: true,
    };
    let cubes = [Cube::from_slice(alloc, &[one])?];
    let goal = Goal::Literal {
        literal: at.0,
        avoid: &cubes,
    };
    let reached = searched(alloc, c, view, start, &goal, true, meter);
    drop(cubes);
    reached
}

/// What a search behind a view answers, from a state, or from the initial states where none is written.
pub(crate) fn answer_behind(
    alloc: Global,
    c: &Circuit,
    view: &[Arc<Checked>],
    from: &str,
    to: To<'_>,
    meter: &mut Meter,
) -> Result<Reached, ReachEnd>
    requires view { IsGoodList c.now (viewed view.now) }
{
    if from.is_empty() {
        return to_goal(alloc, c, view, &Start::Initial, to, meter);
    }
    let start = Start::State(state_of(alloc, from)?);
    let reached = to_goal(alloc, c, view, &start, to, meter);
    drop(start);
    reached
}

/// The same without entries.
pub(crate) fn answer(
    alloc: Global,
    c: &Circuit,
    from: &str,
    to: To<'_>,
    meter: &mut Meter,
) -> Result<Reached, ReachEnd> {
    good_lists_grow(c);
    answer_behind(alloc, c, &[], from, to, meter)
}

fn is_state(values: &[bool], text: &[u8]) -> bool {
    if values.len() != text.len() {
        return false;
    }
    for place in 0..values.len() {
        if place >= text.len() || values[place] != (text[place] == b'1') {
            return false;
        }
    }
    true
}

fn goes_through(positions: &[Position], states: &[&str]) -> bool {
    if positions.len() != states.len() {
        return false;
    }
    for place in 0..positions.len() {
        if place >= states.len()
            || !is_state(
                positions[place].latches.as_slice(),
                states[place].as_bytes(),
            )
        {
            return false;
        }
    }
    true
}

/// Whether an answer is the one that is wanted.
pub(crate) fn is(reached: &Result<Reached, ReachEnd>, wanted: Wanted) -> bool {
    match (reached, wanted) {
        (Ok(Reached::Path(positions)), Wanted::Path(states)) => {
            goes_through(positions.as_slice(), states)
        }
        (Ok(Reached::Closed { .. }), Wanted::Closed) => true,
        (Ok(Reached::Closed { clauses, .. }), Wanted::ClosedOf(count)) => clauses.len() == count,
        (Ok(Reached::Closed { clauses, uses }), Wanted::ClosedBy(count, used)) => {
            clauses.len() == count && uses.len() == used
        }
        (Err(end), Wanted::End(other)) => *end == other,
        _ => false,
    }
}
