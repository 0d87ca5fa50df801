//! A solver that is asked for one length after the other. The main call is `deepen`.

ghost use Rattle.std.specs.Prelude.{◌≡◌, ℕ, ◌+◌, ◌<◌, ◌≤◌, ◌^◌, [], ◌∷◌, length, IfOk, IfErr, IfSome, OnOk, Bool, true, ◌&&◌};
ghost use Rattle.edge.specs.Ends.{CountsConflicts, IsEnd};
ghost use Rattle.aig_semantics.specs.Stimuli.{HasLasso};
ghost use Rattle.cdcl.specs.Asking.{assigned, IsAsked};
ghost use Rattle.aig_semantics.specs.Circuits.{Circuit as CircuitOf, fair_literals};
ghost use Rattle.proof_semantics.specs.Clauses.{clauses_value};
ghost use Rattle.lasso_clauses.specs.Clauses.{positions_clauses, closing_literal};
ghost use Rattle.lasso_clauses.specs.Laws.{stimulus_in};
ghost use Rattle.lasso_bmc.specs.Searching.{HasNoneWithin, IsSearched, IsShortest};
ghost use Rattle.lasso_bmc.specs.Growing.{positions_in, IsGrown, IsCompleted};

use crate::ends::Searched;
use crate::parting::{Choice, part};
use crate::reading::stimulus_in;
use crate::replaying::replayed;
use cdcl::{Asked, FirstValues, Solver};
use circuit::{Circuit, Lasso};
use cnf::Clause;
use cone::cone_of;
use edge::{Meter, SolveEnd};
use lasso_clauses::{closing_literal, lasso_clauses_tell, moment_base, position_cnf};
use std::alloc::{AllocError, Global};
use std::mem;
use stimulus::{ReplayEnd, replay};

/// A solver with clauses of all lengths up to one, those of the property's cone or all; that length; and the clauses that
/// it has not.
#[derive(Drop)]
pub struct Deepening {
    pub(crate) solver: Solver,
    pub(crate) rest: Vec<Clause>,
    pub(crate) is_whole: bool,
    pub(crate) positions: u32,
}

impl Deepening {
    /// A solver without clauses, for no positions. `worker` is the number of whoever asks; it changes with which values
    /// variables are decided first, of which no clause says anything. The error is want of memory.
    pub fn new(alloc: Global, worker: u32) -> Result<Deepening, AllocError>
        ensures clauses { IfOk result (λ d. d.solver.added ≡ []) }
        ensures positions { IfOk result (λ d. positions_in d ≡ 0) }
        ensures grown { IfOk result (λ d. (c : CircuitOf) (j : ℕ) → IsGrown c j d) }
    {
        Ok(Deepening {
            solver: Solver::deciding(alloc, first_values(worker))?,
            rest: Vec::new(alloc),
            is_whole: false,
            positions: 0,
        })
    }

    // Which clauses of the next position come into the solver.
    fn choice(&self, alloc: Global, c: &Circuit, j: u32) -> Result<Choice, AllocError>
        requires { j < length c.now.justice }
    {
        Ok(Choice {
            cone: cone_of(alloc, c, j)?,
            base: moment_base(c, j, self.positions),
            max: c.max(),
            is_all: self.is_whole,
        })
    }

    // Adds the rest of the clauses.
    fn complete(&mut self, alloc: Global) -> Result<(), AllocError>
        ensures { OnOk result (IsCompleted self.old self.new) }
    {
        let rest = mem::replace(&mut self.rest, Vec::new(alloc));
        self.solver.add_all(rest)?;
        self.is_whole = true;
        Ok(())
    }
}

// The values that a worker's solver decides variables with first: another search for each number but 0 and 1, so that the
// lasso worker of two workers searches as `search` does.
fn first_values(worker: u32) -> FirstValues {
    match worker {
        0 | 1 => FirstValues::AllFalse,
        2 => FirstValues::AllTrue,
        _ => FirstValues::Seeded(u64::from(worker)),
    }
}

// Puts the clauses of the position that comes next into the two parts.
fn add(
    alloc: Global,
    choice: &Choice,
    clauses: Vec<Clause>,
    d: &mut Deepening,
) -> Result<(), AllocError>
    ensures added { OnOk result ((v : ℕ → Bool) → ((clauses_value v d.old.solver.added && clauses_value v d.old.rest.items) && clauses_value v clauses.items)
        ≡ (clauses_value v d.new.solver.added && clauses_value v d.new.rest.items)) }
    ensures positions { d.new.positions ≡ d.old.positions }
{
    let taken = part(alloc, choice, clauses, &mut d.rest)?;
    d.solver.add_all(taken)?;
    Ok(())
}

/// The clauses of one position more, and the condition of the length that is reached. The error is want of memory.
pub(crate) fn grow(alloc: Global, c: &Circuit, j: u32, d: &mut Deepening) -> Result<(), AllocError>
    requires property { j < length c.now.justice }
    requires room { d.old.positions + 1 < 2 ^ 32 }
    requires grown { IsGrown c.now j d.old }
    ensures grown { OnOk result (IsGrown c.now j d.new) }
    ensures positions { OnOk result (d.new.positions ≡ d.old.positions + 1) }
{
    let choice = d.choice(alloc, c, j)?;
    let clauses = position_cnf(alloc, c, j, d.positions)?;
    add(alloc, &choice, clauses.into_vec(), d)?;
    d.positions += 1;
    Ok(())
}

// The lasso that the solver's values tell, whose last position is `last`.
fn lasso_in(
    alloc: Global,
    c: &Circuit,
    j: u32,
    last: u32,
    solver: &Solver,
) -> Result<Lasso, AllocError>
    requires property { j < length c.now.justice }
    requires room { last + 1 < 2 ^ 32 }
    requires some { (from : ℕ) × HasLasso c.now j (stimulus_in c.now j (last + 1) (assigned solver.now.values)) (last + 1) from }
    requires none { HasNoneWithin c.now j last }
    ensures shortest { IfOk result (IsShortest c.now j) }
    ensures within { IfOk result (λ lasso. length lasso.inputs ≤ last + 1) }
{
    let stimulus = stimulus_in(alloc, c, j, last + 1, solver)?;
    Ok(replayed(alloc, c, j, &stimulus)?)
}

// What the answer says of lassos whose last position is `last`, where the solver has all clauses.
fn told(
    alloc: Global,
    c: &Circuit,
    j: u32,
    last: u32,
    solver: &Solver,
    answer: Asked,
) -> Result<Searched, AllocError>
    requires property { j < length c.now.justice }
    requires room { last + 1 < 2 ^ 32 }
    requires none { HasNoneWithin c.now j last }
    requires answer { IsAsked (positions_clauses c.now (fair_literals c.now j) (last + 1)) (closing_literal c.now j last ∷ []) solver.now.values answer }
    ensures { IfOk result (IsSearched c.now j (last + 1)) }
{
    lasso_clauses_tell(c);
    match answer {
        Asked::Sat => Ok(Searched::Found(lasso_in(alloc, c, j, last, solver)?)),
        Asked::Unsat(_core) => Ok(Searched::NoneWithin),
    }
}

// What the lasso says, if it has at most `last + 1` positions.
fn if_within(lasso: Lasso, last: u32) -> Option<Searched>
    ensures some { IfSome result (λ told. (told ≡ Searched.Found lasso) × (length lasso.inputs ≤ last + 1)) }
{
    if lasso.inputs.len() as u64 > last as u64 + 1 {
        return None;
    }
    Some(Searched::Found(lasso))
}

// The lasso that the solver's values tell, if they tell one of at most `last + 1` positions.
fn judged(
    alloc: Global,
    c: &Circuit,
    j: u32,
    last: u32,
    solver: &Solver,
) -> Result<Option<Searched>, AllocError>
    requires property { j < length c.now.justice }
    requires room { last + 1 < 2 ^ 32 }
    requires none { HasNoneWithin c.now j last }
    ensures { IfOk result (λ told. IfSome told (IsSearched c.now j (last + 1))) }
{
    let stimulus = stimulus_in(alloc, c, j, last + 1, solver)?;
    match replay(alloc, c, j, &stimulus) {
        Ok(lasso) => Ok(if_within(lasso, last)),
        Err(ReplayEnd::Memory) => Err(AllocError),
        Err(ReplayEnd::Fault(_fault)) => Ok(None),
    }
}

// What the answer says of lassos whose last position is `last`, where the solver has a part of the clauses, if it says
// anything.
fn told_in_part(
    alloc: Global,
    c: &Circuit,
    j: u32,
    last: u32,
    solver: &Solver,
    answer: Asked,
) -> Result<Option<Searched>, AllocError>
    requires property { j < length c.now.justice }
    requires room { last + 1 < 2 ^ 32 }
    requires none { HasNoneWithin c.now j last }
    requires answer { IsAsked solver.now.added (closing_literal c.now j last ∷ []) solver.now.values answer }
    requires part { (v : ℕ → Bool) → clauses_value v (positions_clauses c.now (fair_literals c.now j) (last + 1)) ≡ true → clauses_value v solver.now.added ≡ true }
    ensures { IfOk result (λ told. IfSome told (IsSearched c.now j (last + 1))) }
{
    lasso_clauses_tell(c);
    match answer {
        Asked::Sat => judged(alloc, c, j, last, solver),
        Asked::Unsat(_core) => Ok(Some(Searched::NoneWithin)),
    }
}

// The question whether position `last` is the last one, with all clauses.
fn ask_whole(
    alloc: Global,
    c: &Circuit,
    j: u32,
    last: u32,
    d: &mut Deepening,
    meter: &mut Meter,
) -> Result<Searched, SolveEnd>
    requires property { j < length c.now.justice }
    requires room { last + 1 < 2 ^ 32 }
    requires grown { IsGrown c.now j d.old }
    requires positions { d.old.positions ≡ last + 1 }
    requires none { HasNoneWithin c.now j last }
    ensures searched { IfOk result (IsSearched c.now j (last + 1)) }
    ensures grown { OnOk result (IsGrown c.now j d.new) }
    ensures positions { OnOk result (d.new.positions ≡ d.old.positions) }
    ensures end { IfErr result (IsEnd meter.new) }
    ensures counted { CountsConflicts meter.old meter.new }
{
    d.complete(alloc)?;
    let closing = closing_literal(c, j, last);
    let answer = d.solver.ask(alloc, &[closing], meter)?;
    Ok(told(alloc, c, j, last, &d.solver, answer)?)
}

// The question whether position `last` is the last one.
fn ask(
    alloc: Global,
    c: &Circuit,
    j: u32,
    last: u32,
    d: &mut Deepening,
    meter: &mut Meter,
) -> Result<Searched, SolveEnd>
    requires property { j < length c.now.justice }
    requires room { last + 1 < 2 ^ 32 }
    requires grown { IsGrown c.now j d.old }
    requires positions { d.old.positions ≡ last + 1 }
    requires none { HasNoneWithin c.now j last }
    ensures searched { IfOk result (IsSearched c.now j (last + 1)) }
    ensures grown { OnOk result (IsGrown c.now j d.new) }
    ensures positions { OnOk result (d.new.positions ≡ d.old.positions) }
    ensures end { IfErr result (IsEnd meter.new) }
    ensures counted { CountsConflicts meter.old meter.new }
{
    let closing = closing_literal(c, j, last);
    let answer = d.solver.ask(alloc, &[closing], meter)?;
    if let Some(searched) = told_in_part(alloc, c, j, last, &d.solver, answer)? {
        return Ok(searched);
    }
    ask_whole(alloc, c, j, last, d, meter)
}

/// The question for one position more: a fair lasso of property `j`, counted from 0, of so many positions, or there is
/// none. The meter counts conflicts alone. `Spent` comes where the count of conflicts is at its limit. After an error
/// nothing is said of the solver.
pub fn deepen(
    alloc: Global,
    c: &Circuit,
    j: u32,
    d: &mut Deepening,
    meter: &mut Meter,
) -> Result<Searched, SolveEnd>
    requires property { j < length c.now.justice }
    requires room { positions_in d.old + 1 < 2 ^ 32 }
    requires grown { IsGrown c.now j d.old }
    requires none { HasNoneWithin c.now j (positions_in d.old) }
    ensures searched { IfOk result (IsSearched c.now j (positions_in d.old + 1)) }
    ensures grown { OnOk result (IsGrown c.now j d.new) }
    ensures positions { OnOk result (positions_in d.new ≡ positions_in d.old + 1) }
    ensures end { IfErr result (IsEnd meter.new) }
    ensures counted { CountsConflicts meter.old meter.new }
{
    let last = d.positions;
    grow(alloc, c, j, d)?;
    ask(alloc, c, j, last, d, meter)
}
