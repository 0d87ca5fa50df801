//! Lemmas that hold after each step from their frame: the part of such a one that the solver tells goes into the next frame.
//! The main calls are `push_parts`, and `tried` for one lemma.
ghost use Rattle.std.specs.Prelude.{◌≡◌, ◌+◌, ◌<◌, ◌≤◌, true, List, map, length, IfOk, IfErr, OnOk};
ghost use Rattle.proof_semantics.specs.Clauses.{negation, is_part};
ghost use Rattle.proof_semantics.specs.declared.literals.Lit.{Lit};
ghost use Rattle.edge.specs.Ends.{CountsConflicts, IsEnd};
ghost use Rattle.ic3_semantics.specs.Stepping.{IsOver, IsMissing};
ghost use Rattle.ic3_loops.specs.Sound.{IsSearch, KeepsQuestion, Agree, has_one_of};
ghost use Rattle.ic3_generalise.specs.Cubes.{IsBased};
ghost use Rattle.ic3_loops.specs.Holding.{TellsOn};
ghost use Rattle.ic3_loops.specs.Propagating.{IsNarrower};
ghost use Rattle.ic3_frames.specs.Witnessing.{AreWitnesses};

use crate::aim::Aim;
use crate::lemmas::{LemmaPlace, has_lemma, lemma_at, one_more, put_lemma};
use crate::step_solver::StepSolver;
use cnf::{Clause, Cube};
use edge::{Meter, SolveEnd};
use ic3_frames::{Frames, Witnesses, is_stuck, keep_witness};
use ic3_generalise::based;
use ic3_semantics::{Found, Lemma};
use std::alloc::{AllocError, Global};

/// Puts the part of each lemma that holds after each step from its frame into the next frame, from level 1 up. The frames
/// up to that one may get stronger by it, so that lemmas that were tried before need not be stuck any more.
pub(crate) fn push_parts<S: StepSolver>(
    aim: &Aim<'_, '_>,
    known: &mut Witnesses,
    steps: &mut S,
    frames: &mut Frames,
    meter: &mut Meter,
) -> Result<(), SolveEnd>
    requires search { IsSearch aim.now.starts.now (S.seen steps.old) frames.old }
    requires known { AreWitnesses (S.seen steps.old).question known.old }
    ensures narrower { OnOk result (IsNarrower aim.now.starts.now (S.seen steps.old) (S.seen steps.new) frames.old frames.new) }
    ensures known { OnOk result (AreWitnesses (S.seen steps.old).question known.new) }
    ensures question { KeepsQuestion (S.seen steps.old) (S.seen steps.new) }
    ensures end { IfErr result (IsEnd meter.new) }
    ensures counted { CountsConflicts meter.old meter.new }
{
    for level in 2..frames.len() {
        push_own(aim, level - 1, known, steps, frames, meter)?;
    }
    Ok(())
}

// The same of one level, of which the lemmas that came last are tried first.
fn push_own<S: StepSolver>(
    aim: &Aim<'_, '_>,
    level: u64,
    known: &mut Witnesses,
    steps: &mut S,
    frames: &mut Frames,
    meter: &mut Meter,
) -> Result<(), SolveEnd>
    requires search { IsSearch aim.now.starts.now (S.seen steps.old) frames.old }
    requires known { AreWitnesses (S.seen steps.old).question known.old }
    requires next { level + 1 < length frames.old }
    ensures narrower { OnOk result (IsNarrower aim.now.starts.now (S.seen steps.old) (S.seen steps.new) frames.old frames.new) }
    ensures known { OnOk result (AreWitnesses (S.seen steps.old).question known.new) }
    ensures question { KeepsQuestion (S.seen steps.old) (S.seen steps.new) }
    ensures end { IfErr result (IsEnd meter.new) }
    ensures counted { CountsConflicts meter.old meter.new }
{
    let mut place = frames.count(level);
    'places: while place > 0 {
        place -= 1;
        let at = LemmaPlace { level, place };
        push_part(aim, at, known, steps, frames, meter)?;
    }
    Ok(())
}

// The same of the lemma at a place, where there is one.
fn push_part<S: StepSolver>(
    aim: &Aim<'_, '_>,
    at: LemmaPlace,
    known: &mut Witnesses,
    steps: &mut S,
    frames: &mut Frames,
    meter: &mut Meter,
) -> Result<(), SolveEnd>
    requires search { IsSearch aim.now.starts.now (S.seen steps.old) frames.old }
    requires known { AreWitnesses (S.seen steps.old).question known.old }
    requires next { at.level + 1 < length frames.old }
    ensures narrower { OnOk result (IsNarrower aim.now.starts.now (S.seen steps.old) (S.seen steps.new) frames.old frames.new) }
    ensures known { OnOk result (AreWitnesses (S.seen steps.old).question known.new) }
    ensures question { KeepsQuestion (S.seen steps.old) (S.seen steps.new) }
    ensures end { IfErr result (IsEnd meter.new) }
    ensures counted { CountsConflicts meter.old meter.new }
{
    if !has_lemma(frames, at.level, at.place) {
        return Ok(());
    }
    let clause = lemma_at(frames, at.level, at.place)?;
    let lemma = Lemma {
        level: at.level,
        clause,
    };
    match tried(aim.alloc, &lemma, known, steps, frames, meter)? {
        Some(part) => Ok(put_part(aim, at.level, &lemma.clause, part, steps, frames)?),
        None => Ok(()),
    }
}

// Puts the lemma of a part of a lemma's cube, which no step from the frame of the level enters, into the next frame: with a
// literal by which it misses the starts.
fn put_part<S: StepSolver>(
    aim: &Aim<'_, '_>,
    level: u64,
    lemma: &Clause,
    part: Cube,
    steps: &mut S,
    frames: &mut Frames,
) -> Result<(), AllocError>
    requires search { IsSearch aim.now.starts.now (S.seen steps.old) frames.old }
    requires next { level + 1 < length frames.old }
    requires over { IsOver (length (S.seen steps.old).question.circuit.latches) lemma.now }
    requires based { has_one_of aim.now.starts.now lemma.now ≡ true }
    requires missing { IsMissing (S.seen steps.old) level (map negation lemma.now) part }
    ensures narrower { OnOk result (IsNarrower aim.now.starts.now (S.seen steps.old) (S.seen steps.new) frames.old frames.new) }
    ensures question { KeepsQuestion (S.seen steps.old) (S.seen steps.new) }
{
    let next = one_more(level)?;
    let clause = longer_lemma(aim.alloc, aim.starts, lemma, part)?;
    put_lemma(aim.starts, next, clause, steps, frames)
}

// The lemma of a part of a lemma's cube, with a literal by which the part misses the starts.
fn longer_lemma(
    alloc: Global,
    starts: &Cube,
    lemma: &Clause,
    part: Cube,
) -> Result<Clause, AllocError>
    requires based { has_one_of starts.now lemma.now ≡ true }
    requires among { is_part part (map negation lemma.now) ≡ true }
    ensures { IfOk result (λ clause. (longer : List Lit) × IsBased starts.now (map negation lemma.now) part longer
        × (clause ≡ map negation longer)) }
{
    let cube = negated(alloc, lemma)?;
    let longer = based(alloc, starts, &cube, part)?;
    longer.negation()
}

// The cube of the negated literals of a lemma.
fn negated(alloc: Global, lemma: &Clause) -> Result<Cube, AllocError>
    ensures { IfOk result (λ cube. cube ≡ map negation lemma.now) }
{
    let mut cube = Cube::new(alloc);
    for literal in lemma.as_slice() {
        cube.push(literal.negation())?;
    }
    Ok(cube)
}

/// Whether a lemma of a level holds after each step from its frame: then a part of its cube that no such step leads into
/// from outside the cube; else none. A step that is kept of it, and begins in the frame, spares the question.
pub(crate) fn tried<S: StepSolver>(
    alloc: Global,
    lemma: &Lemma,
    known: &mut Witnesses,
    steps: &mut S,
    frames: &Frames,
    meter: &mut Meter,
) -> Result<Option<Cube>, SolveEnd>
    requires over { IsOver (length (S.seen steps.old).question.circuit.latches) lemma.now.clause }
    requires agree { Agree (S.seen steps.old).lemmas frames.now }
    requires known { AreWitnesses (S.seen steps.old).question known.old }
    ensures told { IfOk result (TellsOn (S.seen steps.old) frames.now lemma.now.level lemma.now.clause) }
    ensures known { OnOk result (AreWitnesses (S.seen steps.old).question known.new) }
    ensures same { (S.seen steps.new) ≡ (S.seen steps.old) }
    ensures end { IfErr result (IsEnd meter.new) }
    ensures counted { CountsConflicts meter.old meter.new }
{
    if is_stuck(known, frames, lemma.level, &lemma.clause)? {
        return Ok(None);
    }
    asked(alloc, lemma, known, steps, frames, meter)
}

// The same by a question.
fn asked<S: StepSolver>(
    alloc: Global,
    lemma: &Lemma,
    known: &mut Witnesses,
    steps: &mut S,
    _frames: &Frames,
    meter: &mut Meter,
) -> Result<Option<Cube>, SolveEnd>
    requires over { IsOver (length (S.seen steps.old).question.circuit.latches) lemma.now.clause }
    requires agree { Agree (S.seen steps.old).lemmas _frames.now }
    requires known { AreWitnesses (S.seen steps.old).question known.old }
    ensures told { IfOk result (TellsOn (S.seen steps.old) _frames.now lemma.now.level lemma.now.clause) }
    ensures known { OnOk result (AreWitnesses (S.seen steps.old).question known.new) }
    ensures same { (S.seen steps.new) ≡ (S.seen steps.old) }
    ensures end { IfErr result (IsEnd meter.new) }
    ensures counted { CountsConflicts meter.old meter.new }
{
    let cube = negated(alloc, &lemma.clause)?;
    match steps.predecessor_of_excluded(alloc, lemma.level, &cube, meter)? {
        Found::Step(step) => {
            keep_witness(known, lemma.clause.clone()?, step)?;
            Ok(None)
        }
        Found::Missing(part) => Ok(Some(part)),
    }
}
