//! A closed set of a monitor as an answer: an entry with its proofs, and a refutation over it. The main call is `fewer`.

ghost use Rattle.std.specs.Prelude.{◌≡◌, ◌<◌, ◌-◌, ◌++◌, ◌∷◌, [], length, IfOk, IfErr};
ghost use Rattle.proof_semantics.specs.Clauses.{IsUnsatisfiable};
ghost use Rattle.proof_semantics.specs.Proofs.{Refutes};
ghost use Rattle.edge.specs.Ends.{CountsConflicts, IsEnd};
ghost use Rattle.entry.specs.Entries.{said};
ghost use Rattle.entry.specs.Proved.{IsProved};
ghost use Rattle.k_live.specs.Deciding.{EndsSearch};
ghost use Rattle.round_answers.specs.declared.rounds.KnownRounds.TheVariants as answers;
ghost use Rattle.k_live.specs.Asking.{last_false, reach_entry, first_use, refuted_clauses, IsClaim, IsShownBySet};

use crate::ends::{RoundsEnd, end_of_solving};
use crate::states::state_cnf;
use cdcl::{Refuted, Solver};
use certify::prove_entry;
use circuit::Circuit;
use cnf::{Clause, Db, Lit, Proof};
use cnf_unroll::{ClauseSet, Used};
use edge::{Meter, SolveEnd};
use entry::{Entry, Kind, Listed, Refutation, Side, Use, good_lists_grow};
use items::Items;
use round_answers::KnownRounds;
use std::alloc::{AllocError, Global};

/// A closed set from which no position makes the last latch true, with the clause that this latch is false, as an answer.
pub(crate) fn fewer(
    alloc: Global,
    t: &Circuit,
    clauses: Items<Clause>,
    meter: &mut Meter,
) -> Result<KnownRounds, RoundsEnd>
    requires some { 0 < length t.now.latches }
    requires claim { IsClaim t.now (clauses ++ last_false t.now ∷ []) }
    ensures shown { IfOk result (IsShownBySet t.now) }
    ensures end { IfErr result (EndsSearch meter.new) }
    ensures counted { CountsConflicts meter.old meter.new }
{
    let set = with_last_false(alloc, t, clauses)?;
    match shown(alloc, t, set, meter) {
        Ok(rounds) => Ok(rounds),
        Err(end) => Err(end_of_solving(end, meter)),
    }
}

// The last latch, true or false.
fn last_latch(t: &Circuit, positive: bool) -> Lit
    requires { 0 < length t.now.latches }
    ensures { result ≡ record { var = length t.now.latches - 1; positive = positive } }
{
    Lit {
        var: t.latches().len() as u64 - 1,
        positive,
    }
}

fn with_last_false(alloc: Global, t: &Circuit, clauses: ClauseSet) -> Result<ClauseSet, AllocError>
    requires { 0 < length t.now.latches }
    ensures { IfOk result (λ all. all ≡ clauses ++ last_false t.now ∷ []) }
{
    let mut all = clauses;
    all.push(Clause::from_slice(alloc, &[last_latch(t, false)])?)?;
    Ok(all)
}

fn shown(
    alloc: Global,
    t: &Circuit,
    set: ClauseSet,
    meter: &mut Meter,
) -> Result<KnownRounds, SolveEnd>
    requires some { 0 < length t.now.latches }
    requires claim { IsClaim t.now set }
    ensures shown { IfOk result (IsShownBySet t.now) }
    ensures end { IfErr result (IsEnd meter.new) }
    ensures counted { CountsConflicts meter.old meter.new }
{
    let entry = entry_of(alloc, t, set, meter)?;
    with_refutation(alloc, t, entry, meter)
}

// The set as an entry with its proofs.
fn entry_of(
    alloc: Global,
    t: &Circuit,
    set: ClauseSet,
    meter: &mut Meter,
) -> Result<Entry, SolveEnd>
    requires { IsClaim t.now set }
    ensures said { IfOk result (λ e. said e ≡ reach_entry set) }
    ensures proved { IfOk result (λ e. IsProved t.now [] (said e) e.proofs) }
    ensures end { IfErr result (IsEnd meter.new) }
    ensures counted { CountsConflicts meter.old meter.new }
{
    good_lists_grow(t);
    let claim = Listed {
        kind: Kind::Reach,
        set,
        uses: Items::new(alloc),
    };
    prove_entry(alloc, t, &[], claim, meter)
}

// The entry, and over it a refutation of the states in which the last latch is true.
fn with_refutation(
    alloc: Global,
    t: &Circuit,
    entry: Entry,
    meter: &mut Meter,
) -> Result<KnownRounds, SolveEnd>
    requires some { 0 < length t.now.latches }
    requires claim { IsClaim t.now entry.set }
    requires said { said entry ≡ reach_entry entry.set }
    requires proved { IsProved t.now [] (said entry) entry.proofs }
    ensures shown { IfOk result (IsShownBySet t.now) }
    ensures end { IfErr result (IsEnd meter.new) }
    ensures counted { CountsConflicts meter.old meter.new }
{
    let clauses = clauses_over(alloc, t, &entry.set)?;
    let proof = proof_of(alloc, clauses, meter)?;
    Ok(answer(alloc, entry, proof)?)
}

// The clauses that a refutation over the entry of this set refutes.
fn clauses_over(alloc: Global, t: &Circuit, set: &ClauseSet) -> Result<Db, AllocError>
    requires { 0 < length t.now.latches }
    ensures { IfOk result (λ db. db.clauses ≡ refuted_clauses t.now set.now) }
{
    let used = Used {
        number: 0,
        kind: Kind::Reach,
        set,
        uses: &[],
    };
    state_cnf(alloc, t, last_latch(t, true), &[used])
}

// A proof that clauses have no model.
fn proof_of(alloc: Global, clauses: Db, meter: &mut Meter) -> Result<Proof, SolveEnd>
    requires { IsUnsatisfiable clauses.clauses }
    ensures proof { IfOk result (Refutes clauses.clauses) }
    ensures end { IfErr result (IsEnd meter.new) }
    ensures counted { CountsConflicts meter.old meter.new }
{
    let mut solver = Solver::with_clauses(alloc, clauses.into_vec())?;
    let refuted = refutation_by(alloc, &mut solver, meter);
    drop(solver);
    refuted
}

fn refutation_by(alloc: Global, solver: &mut Solver, meter: &mut Meter) -> Result<Proof, SolveEnd>
    requires { IsUnsatisfiable solver.old.added }
    ensures proof { IfOk result (Refutes solver.old.added) }
    ensures end { IfErr result (IsEnd meter.new) }
    ensures counted { CountsConflicts meter.old meter.new }
{
    match solver.refute(alloc, &[], meter)? {
        Refuted::Unsat(proof) => Ok(proof),
        Refuted::Sat => unreachable!(),
    }
}

// The answer of this entry, and of this proof over it.
fn answer(alloc: Global, entry: Entry, proof: Proof) -> Result<KnownRounds, AllocError>
    ensures { IfOk result (λ rounds. rounds ≡ answers.Fewer (entry ∷ []) (record { uses = first_use ∷ []; proof = proof })) }
{
    let mut uses = Items::new(alloc);
    uses.push(Use {
        entry: 0,
        side: Side::Any,
    })?;
    let mut entries = Items::new(alloc);
    entries.push(entry)?;
    let refutation = Refutation { uses, proof };
    Ok(KnownRounds::Fewer {
        entries,
        refutation,
    })
}
