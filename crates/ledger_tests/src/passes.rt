//! A ledger with its passes.

ghost use Rattle.std.specs.Prelude.{◌≡◌, ◌<◌, length, IfOk};
ghost use Rattle.std.specs.Arc.{arc_value};
ghost use Rattle.wall_ledger.specs.Turns.{AreOf};
ghost use Rattle.ledger_tests.specs.Passes.{IsOf, model, numbers, count_up};

use crate::driving::Setting;
use crate::finds::front;
use crate::passing::{Event, Told, meet, take_turn};
use crate::racing::{Notes, Race, race_listed};
use circuit::Circuit;
use entry::EntryEnd;
use std::alloc::{AllocError, Global};
use std::sync::{Arc, Wait};
use std::thread::Threads;
use wall_ledger::{Ledger, Pass};
use wall_store::Board;

/// A ledger of the circuit, with its passes.
#[derive(Drop)]
pub struct Passes {
    pub circuit: Arc<Circuit>,
    pub two: bool,
    pub ledger: Ledger,
    pub passes: Vec<Pass>,
    ghost of: { IsOf two ledger },
    ghost circuit_is: { arc_value circuit ≡ model two },
    ghost own: { AreOf ledger passes.items },
    ghost all: { numbers passes.items ≡ count_up 0 ledger.workers },
}

fn begun(
    alloc: Global,
    circuit: &Arc<Circuit>,
    two: bool,
    sizes: (u32, u32),
    given: bool,
) -> Result<(Ledger, Vec<Pass>), EntryEnd>
    requires circuit { arc_value circuit.now ≡ model two }
    ensures of { IfOk result (λ r. IsOf two r.0) }
    ensures own { IfOk result (λ r. AreOf r.0 r.1.items) }
    ensures all { IfOk result (λ r. numbers r.1.items ≡ count_up 0 r.0.workers) }
{
    let (workers, limit) = sizes;
    let workers = workers.clamp(1, 64);
    let limit = limit.min(9999);
    let given = front(alloc, circuit, given)?;
    let properties: &[u32] = if two { &[0, 1] } else { &[0] };
    Ok(Ledger::new(alloc, circuit, properties, workers, limit, &given)?)
}

/// A ledger of the circuit with two properties or one, for so many workers, at least one and at most 64, with room for
/// so many entries, behind one that is given or none.
pub fn passes_of(
    alloc: Global,
    circuit: Arc<Circuit>,
    two: bool,
    sizes: (u32, u32),
    given: bool,
) -> Result<Passes, EntryEnd>
    requires circuit { arc_value circuit ≡ model two }
{
    let (ledger, passes) = begun(alloc, &circuit, two, sizes, given)?;
    Ok(Passes {
        circuit,
        two,
        ledger,
        passes,
    })
}

fn take_turn_at<R: Wait>(
    alloc: Global,
    ledger: &Ledger,
    rt: &R,
    passes: &mut Vec<Pass>,
    shared: &Arc<Circuit>,
    two: bool,
    at: usize,
    event: Event,
) -> Result<Told, EntryEnd>
    requires of { IsOf two ledger.now }
    requires circuit { arc_value shared.now ≡ model two }
    requires own { AreOf ledger.now passes.old.items }
    requires inside { at < length passes.old.items }
    ensures own { AreOf ledger.now passes.new.items }
    ensures numbers { numbers passes.new.items ≡ numbers passes.old.items }
{
    take_turn(alloc, ledger, rt, &mut passes[at], shared, two, event)
}

fn meet_of(
    ledger: &Ledger,
    front: &mut [Pass],
    one: usize,
    back: &mut [Pass],
) -> Result<Told, AllocError>
    requires front { AreOf ledger.now front.old }
    requires back { AreOf ledger.now back.old }
    requires one { one < length front.old }
    requires other { 0 < length back.old }
    ensures own { AreOf ledger.now front.new × AreOf ledger.now back.new }
    ensures front { numbers front.new ≡ numbers front.old }
    ensures back { numbers back.new ≡ numbers back.old }
{
    meet(ledger, &mut front[one], &mut back[0])
}

/// Two passes of a list meet.
pub fn meet_at(
    ledger: &Ledger,
    passes: &mut Vec<Pass>,
    one: usize,
    other: usize,
) -> Result<Told, AllocError>
    requires own { AreOf ledger.now passes.old.items }
    requires one { one < other }
    requires other { other < length passes.old.items }
    ensures own { AreOf ledger.now passes.new.items }
    ensures numbers { numbers passes.new.items ≡ numbers passes.old.items }
{
    let (front, back) = passes.split_at_mut(other);
    meet_of(ledger, front, one, back)
}

impl Passes {
    /// What the pass with this number is told; nothing where there is none.
    pub fn take_turn<R: Wait>(
        &mut self,
        alloc: Global,
        rt: &R,
        at: usize,
        event: Event,
    ) -> Result<Told, EntryEnd> {
        if let Event::Meet(other) = event {
            return Ok(self.meet(at.min(other), at.max(other))?);
        }
        if at >= self.passes.len() {
            return Ok(Told::Nothing);
        }
        take_turn_at(
            alloc,
            &self.ledger,
            rt,
            &mut self.passes,
            &self.circuit,
            self.two,
            at,
            event,
        )
    }

    /// Each pass on a thread of its own, with events that are drawn by the seed.
    pub fn race<R: Threads + Wait + Sync>(
        &mut self,
        alloc: Global,
        rt: &R,
        setting: Setting,
        notes: &Notes,
        seed: u64,
    ) {
        let race = Race {
            rt,
            alloc,
            ledger: &self.ledger,
            circuit: &self.circuit,
            setting: Setting {
                two: self.two,
                ..setting
            },
            notes,
            seed,
        };
        race_listed(&race, &mut self.passes);
    }

    /// These two passes meet, the first with the lesser number.
    fn meet(&mut self, one: usize, other: usize) -> Result<Told, AllocError> {
        if one >= other || other >= self.passes.len() {
            return Ok(Told::Nothing);
        }
        meet_at(&self.ledger, &mut self.passes, one, other)
    }
}

/// The board at the end.
pub fn closed(all: Passes) -> Board {
    let Passes { ledger, passes, .. } = all;
    ledger.close(passes)
}
