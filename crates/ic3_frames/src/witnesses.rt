//! Steps that show lemmas stuck: while one begins in the frame of its lemma, the lemma needs not be asked for. The main type
//! is `Witnesses`, and the main call `is_stuck`.
ghost use Rattle.std.specs.Prelude.{IsTrue, IfOk, OnOk};
ghost use Rattle.ic3_semantics.specs.Searching.{Question};
ghost use Rattle.ic3_frames.specs.Witnessing.{IsStuck, Breaks, EachBreaks, AreWitnesses};

use crate::frames::Frames;
use circuit::Position;
use cnf::Clause;
use edge::Held;
use indexmap::IndexMap;
use std::alloc::{AllocError, Global};

/// For lemmas a step of the arena to a state that breaks them: those that were used since the last call of `forget_unused`,
/// and those that were used between that call and the one before.
#[derive(Drop)]
pub struct Witnesses {
    recent: IndexMap<Clause, Position>,
    earlier: IndexMap<Clause, Position>,
}

/// No steps. Takes no memory.
pub fn no_witnesses(alloc: Global) -> Witnesses
    ensures { (q : Question) → AreWitnesses q result }
{
    Witnesses {
        recent: IndexMap::new(alloc),
        earlier: IndexMap::new(alloc),
    }
}

/// Forgets the steps that were not used since the last call: so many are kept as there are lemmas, or twice as many.
pub fn forget_unused(known: &mut Witnesses)
    ensures { (q : Question) → AreWitnesses q known.old → AreWitnesses q known.new }
{
    std::mem::swap(&mut known.recent, &mut known.earlier);
    known.recent.clear();
}

/// Keeps a step that breaks a lemma. The error is want of memory.
pub fn keep_witness(known: &mut Witnesses, lemma: Clause, step: Position) -> Result<(), AllocError>
    ensures { OnOk result ((q : Question) → AreWitnesses q known.old → Breaks q lemma step → AreWitnesses q known.new) }
{
    known.recent.insert(lemma, step)?;
    Ok(())
}

// Whether the step that is kept for a lemma begins in the frame of a level.
fn shows(steps: &IndexMap<Clause, Position>, frames: &Frames, level: u64, lemma: &Clause) -> bool
    ensures { (q : Question) → EachBreaks q steps.now → IsTrue result → IsStuck q frames.now level lemma.now }
{
    match steps.get(lemma) {
        Some(step) => frames.at(level).allows(step.latches.as_slice()),
        None => false,
    }
}

// Puts the step of a lemma among the recent ones.
fn use_again(known: &mut Witnesses, lemma: &Clause) -> Result<(), AllocError>
    ensures { OnOk result ((q : Question) → AreWitnesses q known.old → AreWitnesses q known.new) }
{
    match known.earlier.swap_remove(lemma) {
        Some(step) => keep_witness(known, lemma.clone()?, step),
        None => Ok(()),
    }
}

/// Whether a kept step shows that a lemma of a level is stuck. The error is want of memory.
pub fn is_stuck(
    known: &mut Witnesses,
    frames: &Frames,
    level: u64,
    lemma: &Clause,
) -> Result<bool, AllocError>
    ensures stuck { IfOk result (λ shown. (q : Question) → AreWitnesses q known.old → IsTrue shown
        → IsStuck q frames.now level lemma.now) }
    ensures known { OnOk result ((q : Question) → AreWitnesses q known.old → AreWitnesses q known.new) }
{
    if shows(&known.recent, frames, level, lemma) {
        return Ok(true);
    }
    if !shows(&known.earlier, frames, level, lemma) {
        return Ok(false);
    }
    use_again(known, lemma)?;
    Ok(true)
}
