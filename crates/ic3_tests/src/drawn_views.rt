//! Drawn circuits behind drawn entries. The main calls are `parts_of` and `view_drawn`.

ghost use Rattle.std.specs.Prelude.{IfOk};
ghost use Rattle.std.specs.Arc.{arc_value};
ghost use Rattle.entry.specs.CheckedEntries.{viewed};
ghost use Rattle.entry.specs.Laws.{IsGoodList};

use crate::closing_sets::entry_drawn;
use crate::states::{Known, Space, sets_of};
use crate::stops::Stop;
use circuit::Circuit;
use drawn_circuits::{Drawn, circuit_drawn, draw, text_of};
use entry::{Checked, Listed, good_lists_grow};
use proved_entries::extended;
use std::alloc::{AllocError, Global};
use std::sync::Arc;

/// A drawn circuit with its states.
#[derive(Drop)]
pub(crate) struct Parts {
    pub(crate) d: Drawn,
    pub(crate) shared: Arc<Circuit>,
    pub(crate) space: Space,
}

/// The circuit with a number.
pub(crate) fn parts_of(alloc: Global, number: u64) -> Result<Parts, Stop> {
    let d = circuit_drawn(alloc, number)?;
    let shared = shared_of(alloc, &d)?;
    let space = Space::new(alloc, &d)?;
    Ok(Parts { d, shared, space })
}

fn shared_of(alloc: Global, d: &Drawn) -> Result<Arc<Circuit>, Stop> {
    let text = text_of(alloc, d)?;
    match aiger_ascii::read(alloc, text.as_slice()) {
        Ok(model) => Ok(Arc::new(alloc, model.into_circuit())?),
        Err(_) => Err(Stop),
    }
}

// The view with one drawn entry more, three times of four.
fn with_drawn(
    alloc: Global,
    shared: &Arc<Circuit>,
    d: &Drawn,
    space: &Space,
    view: Vec<Arc<Checked>>,
    seed: &mut u64,
) -> Result<Vec<Arc<Checked>>, Stop>
    requires view { IsGoodList (arc_value shared.now) (viewed view.items) }
    ensures view { IfOk result (λ longer. IsGoodList (arc_value shared.now) (viewed longer.items)) }
{
    if draw(seed, 4) == 0 {
        return Ok(view);
    }
    let entry = next_entry(alloc, d, space, view.as_slice(), seed)?;
    Ok(extended(alloc, shared, view, entry)?)
}

fn next_entry(
    alloc: Global,
    d: &Drawn,
    space: &Space,
    view: &[Arc<Checked>],
    seed: &mut u64,
) -> Result<Listed, AllocError> {
    let sets = sets_of(alloc, space, view)?;
    let known = Known {
        view,
        sets: sets.as_slice(),
    };
    entry_drawn(alloc, d, space, known, seed)
}

/// Up to four drawn entries.
pub(crate) fn view_drawn(
    alloc: Global,
    shared: &Arc<Circuit>,
    d: &Drawn,
    space: &Space,
    seed: &mut u64,
) -> Result<Vec<Arc<Checked>>, Stop>
    ensures view { IfOk result (λ view. IsGoodList (arc_value shared.now) (viewed view.items)) }
{
    good_lists_grow(&**shared);
    let one = with_drawn(alloc, shared, d, space, Vec::new(alloc), seed)?;
    let two = with_drawn(alloc, shared, d, space, one, seed)?;
    let three = with_drawn(alloc, shared, d, space, two, seed)?;
    with_drawn(alloc, shared, d, space, three, seed)
}

/// A state to start in; none for the initial states.
pub(crate) fn from_drawn(space: &Space, seed: &mut u64) -> Option<u64> {
    let state = draw(seed, space.count);
    if draw(seed, 3) == 0 {
        None
    } else {
        Some(state)
    }
}
