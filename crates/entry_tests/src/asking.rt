//! What a query answers of a circuit with one latch. The main call is `answers_are`.

ghost use Rattle.std.specs.Prelude.{◌≡◌, ◌<◌, ◌≤◌, length};
ghost use Rattle.std.specs.Arc.{arc_value};
ghost use Rattle.entry.specs.CheckedEntries.{viewed, GoesOnFrom};
ghost use Rattle.entry.specs.Laws.{IsGoodList};

use circuit::Circuit;
use edge::{Meter, SolveEnd};
use entry::{Checked, Listed, refutation_fault};
use fair_semantics::{Situation, Skeleton};
use skeleton::{First, Found, Query};
use std::alloc::{AllocError, Global};
use std::sync::Arc;

/// What is found.
#[derive(Clone, Copy)]
pub(crate) enum Wanted {
    /// A skeleton: the latch's value and its next one at each situation.
    Skeleton(&'static [(bool, bool)]),
    /// A refutation with so many uses.
    Refuted(usize),
}

fn is_situation(s: &Situation, wanted: &(bool, bool)) -> bool {
    let (now, next) = *wanted;
    s.position.latches.as_slice() == [now].as_slice() && s.successor.as_slice() == [next].as_slice()
}

fn is_skeleton(s: &Skeleton, wanted: &[(bool, bool)]) -> bool {
    let situations = s.situations.as_slice();
    situations.len() == wanted.len()
        && situations
            .iter()
            .zip(wanted)
            .all(|(s, pair)| is_situation(s, pair))
}

// A refutation is one that a reader of certificates accepts.
fn found_is(
    alloc: Global,
    c: &Circuit,
    list: &[Listed],
    found: &Found,
    wanted: Wanted,
) -> Result<bool, AllocError>
    requires { 0 < length c.now.justice }
{
    match (found, wanted) {
        (Found::Skeleton(s), Wanted::Skeleton(pairs)) => Ok(is_skeleton(s, pairs)),
        (Found::Refuted(r), Wanted::Refuted(uses)) => {
            let fault = refutation_fault(alloc, c, list, 0, r)?;
            Ok(fault.is_none() && r.uses.len() == uses)
        }
        _ => Ok(false),
    }
}

// Whether a skeleton begins there, or a cube of at most one literal was told.
fn begins(first: &First, state: bool) -> Option<bool> {
    match first {
        First::Skeleton(s) => match s.situations.as_slice().first() {
            Some(s) if s.position.latches.as_slice() == [state].as_slice() => Some(true),
            _ => None,
        },
        First::Never(cube) => {
            let holds = cube
                .as_slice()
                .iter()
                .all(|l| l.var == 0 && l.positive == state);
            if holds { Some(false) } else { None }
        }
    }
}

// Whether what the query finds next is what is wanted.
fn next_is(
    alloc: Global,
    c: &Circuit,
    query: &mut Query,
    view: &[Arc<Checked>],
    list: &[Listed],
    wanted: Wanted,
    meter: &mut Meter,
) -> Result<bool, SolveEnd>
    requires property { 0 < length c.now.justice }
    requires on { GoesOnFrom query.old.seen (viewed view.now) }
    requires good { IsGoodList query.old.circuit (viewed view.now) }
    requires few { length view.now ≤ 1 }
    ensures circuit { query.new.circuit ≡ query.old.circuit }
    ensures seen { GoesOnFrom query.new.seen (viewed view.now) }
{
    let found = query.next(alloc, view, meter)?;
    Ok(found_is(alloc, c, list, &found, wanted)?)
}

// What the query answers of the state of one latch.
fn begins_at(
    alloc: Global,
    query: &mut Query,
    view: &[Arc<Checked>],
    state: bool,
    meter: &mut Meter,
) -> Result<Option<bool>, SolveEnd>
    requires on { GoesOnFrom query.old.seen (viewed view.now) }
    requires good { IsGoodList query.old.circuit (viewed view.now) }
    requires few { length view.now ≤ 1 }
    requires one { length query.old.circuit.latches ≡ 1 }
    ensures circuit { query.new.circuit ≡ query.old.circuit }
    ensures seen { GoesOnFrom query.new.seen (viewed view.now) }
{
    let first = query.with_first(alloc, view, &[state], meter)?;
    Ok(begins(&first, state))
}

// What the query answers of both states.
fn begin_at_both(
    alloc: Global,
    query: &mut Query,
    view: &[Arc<Checked>],
    meter: &mut Meter,
) -> Result<(Option<bool>, Option<bool>), SolveEnd>
    requires on { GoesOnFrom query.old.seen (viewed view.now) }
    requires good { IsGoodList query.old.circuit (viewed view.now) }
    requires few { length view.now ≤ 1 }
    requires one { length query.old.circuit.latches ≡ 1 }
{
    let low = begins_at(alloc, query, view, false, meter)?;
    let high = begins_at(alloc, query, view, true, meter)?;
    Ok((low, high))
}

// Whether the query answers so.
fn query_answers(
    alloc: Global,
    c: &Circuit,
    query: &mut Query,
    view: &[Arc<Checked>],
    list: &[Listed],
    wanted: Wanted,
    firsts: (bool, bool),
) -> Result<bool, SolveEnd>
    requires property { 0 < length c.now.justice }
    requires on { GoesOnFrom query.old.seen (viewed view.now) }
    requires good { IsGoodList query.old.circuit (viewed view.now) }
    requires few { length view.now ≤ 1 }
    requires one { length query.old.circuit.latches ≡ 1 }
{
    let mut meter = Meter::new(u64::MAX, u64::MAX);
    let as_wanted = next_is(alloc, c, query, view, list, wanted, &mut meter)?;
    let (low, high) = begin_at_both(alloc, query, view, &mut meter)?;
    Ok(as_wanted && low == Some(firsts.0) && high == Some(firsts.1))
}

/// Whether the answers of property 0 are these: what is found, and whether a skeleton begins where the latch is 0 and
/// where it is 1.
pub(crate) fn answers_are(
    alloc: Global,
    c: &Arc<Circuit>,
    view: &[Arc<Checked>],
    list: &[Listed],
    wanted: Wanted,
    firsts: (bool, bool),
) -> Result<bool, SolveEnd>
    requires property { 0 < length (arc_value c.now).justice }
    requires good { IsGoodList (arc_value c.now) (viewed view.now) }
    requires few { length view.now ≤ 1 }
{
    if c.latches().len() != 1 {
        return Ok(false);
    }
    let mut query = Query::new(alloc, c, 0, 0)?;
    let told = query_answers(alloc, &**c, &mut query, view, list, wanted, firsts);
    drop(query);
    told
}
