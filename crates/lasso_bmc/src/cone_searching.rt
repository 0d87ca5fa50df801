//! The search over a cone, which is asked for one position more at a time. The main call is `deepen_cone`.
ghost use Rattle.std.specs.Prelude.{◌≡◌, ◌+◌, ◌<◌, ◌≤◌, ◌^◌, length, None, IfOk, IfErr, IfSome, OnOk};
ghost use Rattle.aig_semantics.specs.Stimuli.{IsFairLassoOf};
ghost use Rattle.edge.specs.Ends.{CountsConflicts, IsEnd};
ghost use Rattle.lasso_bmc.specs.Searching.{IsSearched};
ghost use Rattle.lasso_bmc.specs.Growing.{IsGrown, positions_in};
ghost use Rattle.lasso_bmc.specs.ConeSearches.{IsUpTo};

use crate::cone_circuits::cone_circuit;
use crate::deepening::{Deepening, deepen};
use crate::ends::Searched;
use crate::spreading::stimulus_of;
use circuit::{Circuit, Lasso};
use edge::{Meter, SolveEnd};
use simulation::repeated_lasso;
use std::alloc::{AllocError, Global};
use std::marker::Model;

/// How many positions are asked for, at most.
const MOST_POSITIONS: u32 = 1_000_000;

/// A bounded search over the cone of a property: the circuit of the cone, how many positions are done, and a solver with
/// their clauses, unless the search is over. Contracts see how many positions are done.
#[derive(Drop)]
pub struct ConeSearch {
    circuit: Circuit,
    solver: Option<Deepening>,
    done: u32,
}

impl Model for ConeSearch {
    ghost use Rattle.std.specs.Prelude.{ℕ};

    ghost Value = { ℕ };

    ghost use Rattle.lasso_bmc.specs.ConeSearches.{IsSearching};

    ghost view = { λ s. s.done };

    ghost invariant = { IsSearching };
}

impl ConeSearch {
    /// A search over the cone of property `j`, counted from 0, for no positions; none where there is no such property. No
    /// clause says that there is one where there is. The error is want of memory.
    pub fn new(alloc: Global, c: &Circuit, j: u32) -> Result<Option<ConeSearch>, AllocError>
        ensures new { IfOk result (λ made. IfSome made (λ search. search ≡ 0)) }
        ensures property { IfOk result (λ made. IfSome made (λ search. j < length c.now.justice)) }
    {
        match cone_circuit(alloc, c, j)? {
            Some(circuit) => Ok(Some(ConeSearch {
                circuit,
                solver: Some(Deepening::new(alloc, 0)?),
                done: 0,
            })),
            None => Ok(None),
        }
    }

    /// Whether nothing more is asked.
    pub fn is_over(&self) -> bool {
        self.solver.is_none()
    }

    /// How many positions are done.
    pub fn done(&self) -> u32
        ensures { result ≡ self.now }
    {
        self.done
    }

    /// How many latches the cone has.
    pub fn latch_count(&self) -> u64 {
        self.circuit.latches().len() as u64
    }

    /// How many gates the cone has.
    pub fn gate_count(&self) -> u64 {
        self.circuit.gates().len() as u64
    }
}

// What the solver answers. Where there is no lasso it is put back.
fn told(
    answer: Result<Searched, SolveEnd>,
    _part: &Circuit,
    asked: Deepening,
    solver: &mut Option<Deepening>,
    done: &mut u32,
    _meter: &Meter,
) -> Result<Option<Lasso>, SolveEnd>
    requires room { done.old + 1 < 2 ^ 32 }
    requires none { solver.old ≡ None }
    requires searched { IfOk answer (IsSearched _part.now 0 (done.old + 1)) }
    requires grown { OnOk answer (IsGrown _part.now 0 asked) }
    requires positions { OnOk answer (positions_in asked ≡ done.old + 1) }
    requires end { IfErr answer (IsEnd _meter.now) }
    ensures solver { IfSome solver.new (IsUpTo _part.now done.new) }
    ensures done { (done.old ≤ done.new) × (done.new ≤ done.old + 1) }
    ensures end { IfErr result (IsEnd _meter.now) }
{
    match answer {
        Ok(Searched::Found(lasso)) => {
            drop(asked);
            Ok(Some(lasso))
        }
        Ok(Searched::NoneWithin) => {
            *done += 1;
            drop(solver.replace(asked));
            Ok(None)
        }
        Err(end) => {
            drop(asked);
            Err(end)
        }
    }
}

// The question for one position more, to a solver that is put back where there is no lasso.
fn asked_of(
    alloc: Global,
    part: &Circuit,
    taken: Deepening,
    solver: &mut Option<Deepening>,
    done: &mut u32,
    meter: &mut Meter,
) -> Result<Option<Lasso>, SolveEnd>
    requires property { 0 < length part.now.justice }
    requires room { done.old + 1 < 2 ^ 32 }
    requires taken { IsUpTo part.now done.old taken }
    requires none { solver.old ≡ None }
    ensures solver { IfSome solver.new (IsUpTo part.now done.new) }
    ensures done { (done.old ≤ done.new) × (done.new ≤ done.old + 1) }
    ensures end { IfErr result (IsEnd meter.new) }
    ensures counted { CountsConflicts meter.old meter.new }
{
    let mut taken = taken;
    let answer = deepen(alloc, part, 0, &mut taken, meter);
    told(answer, part, taken, solver, done, meter)
}

// The same, unless the search is over. It is over behind a lasso and behind an error.
fn asked(
    alloc: Global,
    part: &Circuit,
    solver: &mut Option<Deepening>,
    done: &mut u32,
    meter: &mut Meter,
) -> Result<Option<Lasso>, SolveEnd>
    requires property { 0 < length part.now.justice }
    requires solver { IfSome solver.old (IsUpTo part.now done.old) }
    ensures solver { IfSome solver.new (IsUpTo part.now done.new) }
    ensures done { (done.old ≤ done.new) × (done.new ≤ done.old + 1) }
    ensures end { IfErr result (IsEnd meter.new) }
    ensures counted { CountsConflicts meter.old meter.new }
{
    if *done >= MOST_POSITIONS {
        drop(solver.take());
        return Ok(None);
    }
    match solver.take() {
        Some(taken) => asked_of(alloc, part, taken, solver, done, meter),
        None => Ok(None),
    }
}

// The lasso of the whole circuit that a lasso of the part leads to, where it is a fair one.
fn whole_of(
    alloc: Global,
    c: &Circuit,
    j: u32,
    part: &Circuit,
    lasso: &Lasso,
    meter: &Meter,
) -> Result<Option<Lasso>, AllocError>
    ensures { IfOk result (λ found. IfSome found (IsFairLassoOf c.now j)) }
{
    let stimulus = stimulus_of(alloc, c, part, lasso)?;
    repeated_lasso(alloc, c, j, &stimulus, lasso.from as usize, meter)
}

/// The question for one position more. Where the cone has a fair lasso of so many positions, its inputs are those of a run
/// of the whole circuit, with 0 outside the cone, and those of its loop are repeated until the state is back: the lasso of
/// property `j` that this is, or none where it is not back within the bounds of `repeated_lasso`, or `c` and `j` are not those of
/// the search. Behind this, and behind an error, the search is over, and nothing more is asked. The meter counts conflicts
/// alone; `Spent` comes where their count is at its limit. It is done with one position more at most. What is asked, and
/// whether the search is over, no clause says.
pub fn deepen_cone(
    alloc: Global,
    c: &Circuit,
    j: u32,
    search: &mut ConeSearch,
    meter: &mut Meter,
) -> Result<Option<Lasso>, SolveEnd>
    ensures lasso { IfOk result (λ found. IfSome found (IsFairLassoOf c.now j)) }
    ensures done { (search.old ≤ search.new) × (search.new ≤ search.old + 1) }
    ensures end { IfErr result (IsEnd meter.new) }
    ensures counted { CountsConflicts meter.old meter.new }
{
    let found = asked(
        alloc,
        &search.circuit,
        &mut search.solver,
        &mut search.done,
        meter,
    )?;
    match found {
        Some(lasso) => Ok(whole_of(alloc, c, j, &search.circuit, &lasso, meter)?),
        None => Ok(None),
    }
}
