//! Two passes of a ledger over the circuit whose latch stays at 0: what they are told, and what they read back. The main type
//! is `StuckPasses`.

ghost use Rattle.std.specs.Prelude.{◌≡◌, ◌<◌, [], true, map, length, IfOk};
ghost use Rattle.std.specs.Arc.{arc_value};
ghost use Rattle.aig_semantics.specs.Examples.{stuck};
ghost use Rattle.wall_ledger.specs.Turns.{AreOf};
ghost use Rattle.ledger_tests.specs.Boards.{IsStuckLedger};
ghost use Rattle.ledger_tests.specs.Passes.{numbers, count_up};

use crate::boards::find;
use crate::finds::{judged, refutation};
use crate::passes::meet_at;
use crate::passing::{Event, Told, hand_in, look, open};
use circuit::Circuit;
use entry::{Checked, EntryEnd};
use std::alloc::{AllocError, Global};
use std::sync::{Arc, Wait};
use wall_ledger::{Ledger, Pass};
use wall_store::{Board, Outcome, sound_lists_grow};

/// A ledger of that circuit, with two passes.
#[derive(Drop)]
pub struct StuckPasses {
    pub circuit: Arc<Circuit>,
    pub ledger: Ledger,
    pub passes: Vec<Pass>,
    ghost of: { IsStuckLedger ledger },
    ghost circuit_is: { arc_value circuit ≡ stuck },
    ghost own: { AreOf ledger passes.items },
    ghost all: { numbers passes.items ≡ count_up 0 ledger.workers },
}

fn begun(
    alloc: Global,
    circuit: &Arc<Circuit>,
    limit: u32,
) -> Result<(Ledger, Vec<Pass>), AllocError>
    requires circuit { arc_value circuit.now ≡ stuck }
    ensures of { IfOk result (λ r. IsStuckLedger r.0) }
    ensures own { IfOk result (λ r. AreOf r.0 r.1.items) }
    ensures all { IfOk result (λ r. numbers r.1.items ≡ count_up 0 r.0.workers) }
{
    sound_lists_grow(&**circuit);
    let limit = limit.min(9999);
    Ok(Ledger::new(alloc, circuit, &[0], 2, limit, &[])?)
}

/// A ledger of that circuit with room for so many entries, and its passes.
pub fn stuck_passes(
    alloc: Global,
    circuit: Arc<Circuit>,
    limit: u32,
) -> Result<StuckPasses, AllocError>
    requires circuit { arc_value circuit ≡ stuck }
{
    let (ledger, passes) = begun(alloc, &circuit, limit)?;
    Ok(StuckPasses {
        circuit,
        ledger,
        passes,
    })
}

fn is_first(turns: u32) -> bool
    ensures { result ≡ true → turns ≡ 1 }
{
    turns == 1
}

fn is_empty(view: &[Arc<Checked>]) -> bool
    ensures { result ≡ true → map arc_value view.now ≡ [] }
{
    match view {
        [] => true,
        _ => false,
    }
}

// The pass posts that the latch is 0, where it is in its turn 1 and has seen no entry.
fn post<R: Wait>(
    alloc: Global,
    ledger: &Ledger,
    rt: &R,
    pass: &mut Pass,
    shared: &Arc<Circuit>,
) -> Result<Told, EntryEnd>
    requires of { IsStuckLedger ledger.now }
    requires circuit { arc_value shared.now ≡ stuck }
    requires own { pass.old.home ≡ ledger.now.home }
    requires turns { pass.old.turns < 9999 }
    ensures home { pass.new.home ≡ pass.old.home }
    ensures number { pass.new.number ≡ pass.old.number }
{
    let first = is_first(pass.turns());
    if !first {
        return Ok(Told::Nothing);
    }
    let none = is_empty(pass.view());
    if !none {
        return Ok(Told::Nothing);
    }
    let author = pass.number();
    let found = find(alloc, shared, author)?;
    Ok(hand_in(ledger, rt, pass, &found)?)
}

// The pass finishes the property by the refutation that uses the first entry, where that is good over what it has seen.
fn finish<R: Wait>(
    alloc: Global,
    ledger: &Ledger,
    rt: &R,
    pass: &mut Pass,
    shared: &Arc<Circuit>,
) -> Result<Told, AllocError>
    requires of { IsStuckLedger ledger.now }
    requires circuit { arc_value shared.now ≡ stuck }
    requires own { pass.old.home ≡ ledger.now.home }
    requires turns { pass.old.turns < 9999 }
    ensures home { pass.new.home ≡ pass.old.home }
    ensures number { pass.new.number ≡ pass.old.number }
{
    let r = refutation(alloc, 0, "7 0 4 5 0")?;
    match judged(alloc, &**shared, pass.view(), 0, r)? {
        None => Ok(Told::Nothing),
        Some(r) => Ok(Told::Finished(ledger.finish(rt, pass, 0, Outcome::Holds(r)))),
    }
}

fn take_turn<R: Wait>(
    alloc: Global,
    ledger: &Ledger,
    rt: &R,
    pass: &mut Pass,
    shared: &Arc<Circuit>,
    event: Event,
) -> Result<Told, EntryEnd>
    requires of { IsStuckLedger ledger.now }
    requires circuit { arc_value shared.now ≡ stuck }
    requires own { pass.old.home ≡ ledger.now.home }
    ensures home { pass.new.home ≡ pass.old.home }
    ensures number { pass.new.number ≡ pass.old.number }
{
    if pass.turns() >= 9999 {
        return Ok(Told::Nothing);
    }
    match event {
        Event::Look => Ok(look(ledger, rt, pass)?),
        Event::Post(_) => post(alloc, ledger, rt, pass, shared),
        Event::Finish(_, _, _) => Ok(finish(alloc, ledger, rt, pass, shared)?),
        Event::Open(from) => Ok(open(ledger, rt, pass, from)),
        Event::Meet(_) => Ok(Told::Nothing),
    }
}

fn take_turn_at<R: Wait>(
    alloc: Global,
    ledger: &Ledger,
    rt: &R,
    passes: &mut Vec<Pass>,
    shared: &Arc<Circuit>,
    at: usize,
    event: Event,
) -> Result<Told, EntryEnd>
    requires of { IsStuckLedger ledger.now }
    requires circuit { arc_value shared.now ≡ stuck }
    requires own { AreOf ledger.now passes.old.items }
    requires inside { at < length passes.old.items }
    ensures own { AreOf ledger.now passes.new.items }
    ensures numbers { numbers passes.new.items ≡ numbers passes.old.items }
{
    take_turn(alloc, ledger, rt, &mut passes[at], shared, event)
}

impl StuckPasses {
    /// What the pass with this number is told; nothing where there is none.
    pub fn take_turn<R: Wait>(
        &mut self,
        alloc: Global,
        rt: &R,
        at: usize,
        event: Event,
    ) -> Result<Told, EntryEnd> {
        if let Event::Meet(other) = event {
            return Ok(self.meet(at.min(other), at.max(other))?);
        }
        if at >= self.passes.len() {
            return Ok(Told::Nothing);
        }
        take_turn_at(
            alloc,
            &self.ledger,
            rt,
            &mut self.passes,
            &self.circuit,
            at,
            event,
        )
    }

    /// These two passes meet, the first with the lesser number.
    fn meet(&mut self, one: usize, other: usize) -> Result<Told, AllocError> {
        if one >= other || other >= self.passes.len() {
            return Ok(Told::Nothing);
        }
        meet_at(&self.ledger, &mut self.passes, one, other)
    }
}

/// The board at the end.
pub fn stuck_closed(all: StuckPasses) -> Board {
    let StuckPasses { ledger, passes, .. } = all;
    ledger.close(passes)
}
