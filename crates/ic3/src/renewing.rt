//! A solver that many questions were asked is made anew: it gets the clauses of all lemmas that no later one implies, and
//! none of those that guards of old questions switched off. The main calls are `is_old` and `renewed`.
ghost use Rattle.std.specs.Prelude.{◌≡◌, ◌+◌, ◌<◌, List, length, IfOk, OnOk};
ghost use Rattle.entry.specs.CheckedEntries.{viewed};
ghost use Rattle.proof_semantics.specs.declared.literals.Lit.{Lit};
ghost use Rattle.ic3_semantics.specs.Stepping.{Stepping, no_lemmas};
ghost use Rattle.ic3.specs.SteppingInside.{IsHeldBy, IsHeldWith};
ghost use Rattle.ic3.specs.SteppingStart.{HoldsAll, IsHeldUpTo, stepping_of};
ghost use Rattle.ic3.specs.declared.stepping_questions.Questions.{Questions};

use crate::cone::Cone;
use crate::stepping_questions::{Questions, hold_clause};
use crate::stepping_start::questions_of;
use circuit::Circuit;
use cnf::{Cube, Db};
use entry::Checked;
use ic3_frames::{implying_places, is_implied_by};
use ic3_semantics::{Lemma, Start};
use std::alloc::{AllocError, Global};
use std::sync::Arc;

/// A solver is old where its questions for steps outnumber this, the gates of its cone and half of the clauses of lemmas
/// together.
const OLD_BEHIND: u64 = 200;

/// Whether the solver is old. No contract rests on it.
pub(crate) fn is_old(s: &Questions, cone: &Cone) -> bool {
    s.asked.saturating_add(s.without_clause)
        > OLD_BEHIND
            .saturating_add(cone.gates())
            .saturating_add(s.held / 2)
}

// Adds the clause of the lemma at a place, but where the other one stands behind it and implies it.
fn hold_at(
    alloc: Global,
    lemmas: &[Lemma],
    place: usize,
    other: usize,
    s: &mut Questions,
) -> Result<(), AllocError>
    requires { place < length lemmas.now }
    ensures { OnOk result ((begun : Questions) → IsHeldUpTo lemmas.now place begun s.old
        → IsHeldUpTo lemmas.now (place + 1) begun s.new) }
{
    let lemma = &lemmas[place];
    if is_implied_by(lemmas, place, lemma, other) {
        return Ok(());
    }
    hold_clause(alloc, s, lemma.level, lemma.clause.as_slice())?;
    Ok(())
}

// Adds the clauses of lemmas, but of those that a later one implies: `others` has the place of one for each, or its own.
fn hold_all(
    alloc: Global,
    lemmas: &[Lemma],
    others: &[usize],
    s: &mut Questions,
) -> Result<(), AllocError>
    ensures { OnOk result (HoldsAll lemmas.now s.old s.new) }
{
    for place in 0..lemmas.len() {
        let other = others.get(place).copied().unwrap_or(place);
        hold_at(alloc, lemmas, place, other, s)?;
    }
    Ok(())
}

// Puts the lemmas into a new solver that holds none. The count of questions is that of the old one.
fn hold_anew(
    alloc: Global,
    lemmas: &[Lemma],
    old: &Questions,
    made: &mut Questions,
) -> Result<(), AllocError>
    ensures { OnOk result ((st : Stepping) (base : List (List Lit)) → st.lemmas ≡ lemmas.now → IsHeldWith st base old.now
        → IsHeldBy (no_lemmas st.question st.avoid) made.old → IsHeldWith st base made.new) }
{
    let others = implying_places(alloc, lemmas, made.here.len(), old.implying.as_slice())?;
    hold_all(alloc, lemmas, others.as_slice(), made)?;
    made.count = old.count;
    made.implying = others;
    Ok(())
}

/// A new solver that holds what the old one does, and a new cone with it. The count of questions goes on.
pub(crate) fn renewed(
    alloc: Global,
    c: &Circuit,
    view: &[Arc<Checked>],
    start: &Start,
    avoid: &[Cube],
    lemmas: &[Lemma],
    base: &Db,
    old: &Questions,
    cone: &mut Cone,
) -> Result<Questions, AllocError>
    requires { IsHeldWith (stepping_of c.now (viewed view.now) start.now avoid.now lemmas.now) base.now.clauses old.now }
    ensures { IfOk result (IsHeldWith (stepping_of c.now (viewed view.now) start.now avoid.now lemmas.now) base.now.clauses) }
{
    let mut made = questions_of(alloc, c, view, start, avoid, base, old.free, cone)?;
    match hold_anew(alloc, lemmas, old, &mut made) {
        Ok(()) => Ok(made),
        Err(refused) => {
            drop(made);
            Err(refused)
        }
    }
}
