//! The search. The main call is `search`.

ghost use Rattle.std.specs.Prelude.{◌≡◌, ◌+◌, ◌<◌, ◌≤◌, ◌^◌, length, IfOk, IfErr, OnOk};
ghost use Rattle.edge.specs.Ends.{CountsConflicts, IsEnd};
ghost use Rattle.lasso_bmc.specs.Searching.{HasNoneWithin, IsSearched, IsSearchEnd};
ghost use Rattle.lasso_bmc.specs.Growing.{IsGrown};

use crate::deepening::{Deepening, deepen, grow};
use crate::ends::{SearchEnd, Searched};
use circuit::Circuit;
use edge::{Meter, SolveEnd};
use std::alloc::{AllocError, Global};

/// Whether a fair lasso of property `j`, counted from 0, has from `done + 1` to `depth` positions: one with the fewest, or
/// that there is none. None is to have at most `done` positions, which is so of 0. The meter counts conflicts alone.
/// `Spent` comes where the count of conflicts is at its limit.
pub fn search(
    alloc: Global,
    c: &Circuit,
    j: u32,
    done: u32,
    depth: u32,
    meter: &mut Meter,
) -> Result<Searched, SearchEnd>
    requires property { j < length c.now.justice }
    requires none { HasNoneWithin c.now j done }
    ensures searched { IfOk result (IsSearched c.now j depth) }
    ensures end { IfErr result (IsSearchEnd c.now j done depth meter.new) }
    ensures counted { CountsConflicts meter.old meter.new }
{
    if depth <= done {
        return Ok(Searched::NoneWithin);
    }
    let mut d = Deepening::new(alloc, 0)?;
    let searched = searched(alloc, c, j, &mut d, done, depth, meter);
    drop(d);
    searched
}

// The same with a solver without clauses.
fn searched(
    alloc: Global,
    c: &Circuit,
    j: u32,
    d: &mut Deepening,
    done: u32,
    depth: u32,
    meter: &mut Meter,
) -> Result<Searched, SearchEnd>
    requires property { j < length c.now.justice }
    requires none { HasNoneWithin c.now j done }
    requires more { done ≤ depth }
    requires grown { IsGrown c.now j d.old }
    requires positions { d.old.positions ≡ 0 }
    ensures searched { IfOk result (IsSearched c.now j depth) }
    ensures end { IfErr result (IsSearchEnd c.now j done depth meter.new) }
    ensures counted { CountsConflicts meter.old meter.new }
{
    grow_to(alloc, c, j, d, done)?;
    for last in done..depth {
        match deepen(alloc, c, j, d, meter) {
            Ok(Searched::Found(lasso)) => return Ok(Searched::Found(lasso)),
            Ok(Searched::NoneWithin) => {}
            Err(SolveEnd::Spent(spent)) => return Err(SearchEnd::Spent(spent, last)),
            Err(SolveEnd::Memory) => return Err(SearchEnd::Memory),
        }
    }
    Ok(Searched::NoneWithin)
}

// The clauses of the lengths that are done.
fn grow_to(
    alloc: Global,
    c: &Circuit,
    j: u32,
    d: &mut Deepening,
    done: u32,
) -> Result<(), AllocError>
    requires property { j < length c.now.justice }
    requires grown { IsGrown c.now j d.old }
    requires positions { d.old.positions ≡ 0 }
    ensures grown { OnOk result (IsGrown c.now j d.new) }
    ensures positions { OnOk result (d.new.positions ≡ done) }
{
    for _length in 0..done {
        grow(alloc, c, j, d)?;
    }
    Ok(())
}
