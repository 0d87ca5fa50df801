//! Clauses of public calls, said again as clauses of this crate's own: where such a call comes to say less, the function
//! here that makes it is not proved.
ghost use Rattle.std.specs.Prelude.{◌<◌, length, IfOk, IfErr, ◌≡◌, ◌+◌, ◌^◌, OnOk};
ghost use Rattle.std.specs.Prelude.{ℕ, ◌≤◌, ◌↔◌, Err, IfSome};
ghost use Rattle.aig_semantics.specs.Stimuli.{IsFairLassoOf};
ghost use Rattle.edge.specs.Ends.{CountsConflicts, IsEnd};
ghost use Rattle.cnf_unroll.specs.Laws.{IsSatisfiable};
ghost use Rattle.lasso_clauses.specs.Clauses.{lasso_clauses};
ghost use Rattle.lasso_clauses.specs.Laws.{HasLassoOf};
ghost use Rattle.lasso_bmc.specs.Searching.{HasNoneWithin, IsSearched, IsSearchEnd};
ghost use Rattle.lasso_bmc.specs.Growing.{positions_in, IsGrown};
ghost use Rattle.k_live.specs.Deciding.{Settles, SettlesNothing};

use circuit::{Circuit, Lasso};
use cnf::Db;
use edge::{Meter, SolveEnd};
use k_live::{KnownRounds, RoundsEnd};
use lasso_bmc::{ConeSearch, Deepening, SearchEnd, Searched};
use std::alloc::{AllocError, Global};

/// A run with so many rounds, or why there is none. Where there is no monitor nothing is counted.
fn decided(
    alloc: Global,
    c: &Circuit,
    j: u32,
    k: u32,
    meter: &mut Meter,
) -> Result<KnownRounds, RoundsEnd>
    requires property { j < length c.now.justice }
    requires some { 1 ≤ k }
    ensures decided { IfOk result (Settles c.now j k) }
    ensures end { IfErr result (SettlesNothing c.now j k meter.new) }
    ensures untouched { (n : ℕ) → result ≡ Err (RoundsEnd.TooLarge n) → meter.new ≡ meter.old }
{
    k_live::decide(alloc, c, j, k, meter)
}

/// Clauses that are satisfiable exactly where some fair lasso has so many positions.
fn listed(alloc: Global, c: &Circuit, j: u32, k: u32) -> Result<Db, AllocError>
    requires { j < length c.now.justice }
    ensures clauses { IfOk result (λ db. db.clauses ≡ lasso_clauses c.now j k) }
    ensures exact { IfOk result (λ db. IsSatisfiable db.clauses ↔ HasLassoOf c.now j k) }
{
    lasso_bmc::lasso_cnf(alloc, c, j, k)
}

/// A shortest lasso, or how far there is none; at the limit what was asked.
fn searched(
    alloc: Global,
    c: &Circuit,
    j: u32,
    done: u32,
    depth: u32,
    meter: &mut Meter,
) -> Result<Searched, SearchEnd>
    requires property { j < length c.now.justice }
    requires none { HasNoneWithin c.now j done }
    ensures searched { IfOk result (IsSearched c.now j depth) }
    ensures end { IfErr result (IsSearchEnd c.now j done depth meter.new) }
    ensures counted { CountsConflicts meter.old meter.new }
{
    lasso_bmc::search(alloc, c, j, done, depth, meter)
}

/// One length more.
fn deepened(
    alloc: Global,
    c: &Circuit,
    j: u32,
    d: &mut Deepening,
    meter: &mut Meter,
) -> Result<Searched, SolveEnd>
    requires property { j < length c.now.justice }
    requires room { positions_in d.old + 1 < 2 ^ 32 }
    requires grown { IsGrown c.now j d.old }
    requires none { HasNoneWithin c.now j (positions_in d.old) }
    ensures searched { IfOk result (IsSearched c.now j (positions_in d.old + 1)) }
    ensures grown { OnOk result (IsGrown c.now j d.new) }
    ensures positions { OnOk result (positions_in d.new ≡ positions_in d.old + 1) }
    ensures end { IfErr result (IsEnd meter.new) }
    ensures counted { CountsConflicts meter.old meter.new }
{
    lasso_bmc::deepen(alloc, c, j, d, meter)
}

/// A search over a cone is of a property, and has done no length.
fn cone_search(alloc: Global, c: &Circuit, j: u32) -> Result<Option<ConeSearch>, AllocError>
    ensures new { IfOk result (λ made. IfSome made (λ search. search ≡ 0)) }
    ensures property { IfOk result (λ made. IfSome made (λ search. j < length c.now.justice)) }
{
    ConeSearch::new(alloc, c, j)
}

/// How many lengths are done.
fn done_by(search: &ConeSearch) -> u32
    ensures { result ≡ search.now }
{
    search.done()
}

/// One length more at most; a lasso is one of the whole circuit.
fn cone_deepened(
    alloc: Global,
    c: &Circuit,
    j: u32,
    search: &mut ConeSearch,
    meter: &mut Meter,
) -> Result<Option<Lasso>, SolveEnd>
    ensures lasso { IfOk result (λ found. IfSome found (IsFairLassoOf c.now j)) }
    ensures done { (search.old ≤ search.new) × (search.new ≤ search.old + 1) }
    ensures end { IfErr result (IsEnd meter.new) }
    ensures counted { CountsConflicts meter.old meter.new }
{
    lasso_bmc::deepen_cone(alloc, c, j, search, meter)
}
