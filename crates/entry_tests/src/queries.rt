//! The table of queries.

ghost use Rattle.std.specs.Prelude.{◌<◌, ◌≤◌, length};
ghost use Rattle.std.specs.Arc.{arc_value};
ghost use Rattle.entry.specs.CheckedEntries.{viewed};
ghost use Rattle.entry.specs.Laws.{IsGoodList};

use crate::asking::{Wanted, answers_are};
use crate::checked::{REACHED, Row};
use crate::tests::STUCK;
use crate::views::{list_of, view_of};
use circuit::Circuit;
use entry::Checked;
use std::alloc::Global;
use std::sync::Arc;
use std::test::Fail;

// The latch changes at each step; the property is that it is 1.
const TOGGLE: &str = "aag 1 0 1 0 0 0 0 1 0\n2 3\n1\n2\n";

// The same, and it is fair that it is 0.
const FAIR: &str = "aag 1 0 1 0 0 0 0 1 1\n2 3\n1\n2\n3\n";

// The latch changes at each step, and is 0 at each position; the property has no literals.
const NO_LITERALS: &str = "aag 1 0 1 0 0 0 1 1 0\n2 3\n3\n0\n";

// The latch changes at each step; the property is never so.
const NEVER: &str = "aag 1 0 1 0 0 0 0 1 0\n2 3\n1\n0\n";

// The latch stays at 0; the property is never so.
const NEVER_STUCK: &str = "aag 1 0 1 0 0 0 0 1 0\n2 2\n1\n0\n";

// A circuit, whether a stuck latch is known to be 0, what is found, and whether a skeleton begins where the latch is 0 and
// where it is 1.
type Asked = (&'static str, bool, Wanted, (bool, bool));

// The query with a number; the last one is for all from 6 on.
fn query(number: u8) -> Asked {
    match number {
        0 => (
            TOGGLE,
            false,
            Wanted::Skeleton(&[(true, false)]),
            (false, true),
        ),
        1 => (
            FAIR,
            false,
            Wanted::Skeleton(&[(true, false), (false, true)]),
            (false, true),
        ),
        2 => (
            STUCK,
            false,
            Wanted::Skeleton(&[(true, true)]),
            (false, true),
        ),
        3 => (STUCK, true, Wanted::Refuted(1), (false, false)),
        4 => (
            NO_LITERALS,
            false,
            Wanted::Skeleton(&[(false, true)]),
            (true, false),
        ),
        5 => (NEVER, false, Wanted::Refuted(0), (false, false)),
        _ => (NEVER_STUCK, true, Wanted::Refuted(0), (false, false)),
    }
}

// Whether the answers over a view are those of a query.
fn tells_over(
    alloc: Global,
    c: &Arc<Circuit>,
    view: &[Arc<Checked>],
    query: &Asked,
    entry: Option<&Row>,
) -> Result<bool, Fail>
    requires property { 0 < length (arc_value c.now).justice }
    requires good { IsGoodList (arc_value c.now) (viewed view.now) }
    requires few { length view.now ≤ 1 }
{
    let (_, _, wanted, firsts) = *query;
    let list = list_of(alloc, &**c, entry)?;
    Ok(answers_are(alloc, c, view, list.as_slice(), wanted, firsts)?)
}

fn tells(
    alloc: Global,
    c: &Arc<Circuit>,
    query: &Asked,
    entry: Option<&Row>,
) -> Result<bool, Fail> {
    if c.property_count() == 0 {
        return Ok(false);
    }
    let view = view_of(alloc, c, entry)?;
    tells_over(alloc, c, view.as_slice(), query, entry)
}

fn is_answered(alloc: Global, query: &Asked) -> Result<bool, Fail> {
    let model = aiger_ascii::read(alloc, query.0.as_bytes())?;
    let c = Arc::new(alloc, model.into_circuit())?;
    let entry = if query.1 { Some(&REACHED) } else { None };
    let told = tells(alloc, &c, query, entry);
    drop(c);
    told
}

#[test]
fn skeletons_of_small_circuits(rt: HostRuntime) -> Result<(), Fail> {
    for number in 0..7 {
        assert!(rt;
            is_answered(rt.alloc(), &query(number))?,
            "of query {number}"
        );
    }
    Ok(())
}
