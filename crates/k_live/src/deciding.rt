//! One search of a monitor, and what it tells. The main call is `decide`.

ghost use Rattle.std.specs.Prelude.{◌≡◌, ℕ, ◌≤◌, ◌<◌, length, map, All, Err, IfOk, IfErr, OnOk};
ghost use Rattle.edge.specs.Ends.{CountsConflicts};
ghost use Rattle.ic3_semantics.specs.Searching.{CountsSearch};
ghost use Rattle.round_monitor.specs.Counting.{own_position};
ghost use Rattle.round_monitor.specs.Ends.{IsMonitorable};
ghost use Rattle.round_monitor.specs.Monitor.{monitor_circuit};
ghost use Rattle.round_answers.specs.declared.rounds.KnownRounds.TheVariants as rounds;
ghost use Rattle.k_live.specs.declared.ends.RoundsEnd.TheVariants as ends;
ghost use Rattle.round_answers.specs.Writing.{IsSo};
ghost use Rattle.k_live.specs.Deciding.{Settles, SettlesNothing, EndsSearch};
ghost use Rattle.k_live.specs.Asking.{IsMonitorOf, AnswersSearch};

use crate::closing::fewer;
use crate::ends::{RoundsEnd, end_of_search};
use crate::running::own_run;
use crate::searching::searched;
use crate::watched::Watched;
use circuit::{Circuit, Position};
use edge::Meter;
use fair_semantics::steps_and_initial_states;
use ic3::Reached;
use live_to_safe::TranslateEnd;
use round_answers::KnownRounds;
use round_monitor::monitor;
use std::alloc::Global;

/// Whether some initial run has `k` rounds of property `j`, counted from 0. It asks one search of the monitor, from the
/// initial states, for a position at which the next literal of the last counter is true: behind exactly such positions that
/// counter is true, and no constraint is asked of the state behind them. Where there is none, the closed set, with the
/// clause that the last counter is false, is a reach entry of the monitor with its proofs, and a refutation over it.
///
/// `Unsettled` comes where the meter's count of conflicts or that of steps is at its limit; `TooLarge` with the monitor's
/// greatest variable where that is above the limit on variables; else `Memory` where memory is wanted.
pub fn decide(
    alloc: Global,
    c: &Circuit,
    j: u32,
    k: u32,
    meter: &mut Meter,
) -> Result<KnownRounds, RoundsEnd>
    requires property { j < length c.now.justice }
    requires some { 1 ≤ k }
    ensures so { IfOk result (IsSo c.now j k) }
    ensures decided { IfOk result (Settles c.now j k) }
    ensures able { OnOk result (IsMonitorable c.now j k) }
    ensures end { IfErr result (SettlesNothing c.now j k meter.new) }
    ensures counted { CountsSearch (length (monitor_circuit c.now j k).latches) meter.old meter.new }
    // Where there is no monitor nothing is counted.
    ensures untouched { (n : ℕ) → result ≡ Err (ends.TooLarge n) → meter.new ≡ meter.old }
{
    match monitor(alloc, c, j, k) {
        Ok(model) => {
            let watched = Watched {
                c,
                j,
                k,
                t: model.circuit(),
            };
            let rounds = decided(alloc, &watched, meter);
            drop(model);
            rounds
        }
        Err(TranslateEnd::TooLarge(most)) => Err(RoundsEnd::TooLarge(most)),
        Err(TranslateEnd::NoProperty(_)) => unreachable!(),
        Err(TranslateEnd::Memory) => Err(RoundsEnd::Memory),
    }
}

// What a search of the monitor tells.
fn decided(alloc: Global, w: &Watched<'_>, meter: &mut Meter) -> Result<KnownRounds, RoundsEnd>
    requires { IsMonitorOf w.now.c.now w.now.j w.now.k w.now.t.now }
    ensures so { IfOk result (IsSo w.now.c.now w.now.j w.now.k) }
    ensures decided { IfOk result (Settles w.now.c.now w.now.j w.now.k) }
    ensures end { IfErr result (EndsSearch meter.new) }
    ensures counted { CountsSearch (length w.now.t.now.latches) meter.old meter.new }
{
    match searched(alloc, w.t, meter) {
        Ok(found) => told(alloc, w, found, meter),
        Err(end) => Err(end_of_search(end, meter)),
    }
}

// What was found, as an answer.
fn told(
    alloc: Global,
    w: &Watched<'_>,
    found: Reached,
    meter: &mut Meter,
) -> Result<KnownRounds, RoundsEnd>
    requires monitor { IsMonitorOf w.now.c.now w.now.j w.now.k w.now.t.now }
    requires answered { AnswersSearch w.now.t.now found }
    ensures so { IfOk result (IsSo w.now.c.now w.now.j w.now.k) }
    ensures decided { IfOk result (Settles w.now.c.now w.now.j w.now.k) }
    ensures end { IfErr result (EndsSearch meter.new) }
    ensures counted { CountsConflicts meter.old meter.new }
{
    steps_and_initial_states();
    match found {
        Reached::Path(positions) => reached(alloc, w.c, positions.as_slice()),
        Reached::Closed {
            clauses,
            uses: _uses,
        } => fewer(alloc, w.t, clauses, meter),
    }
}

// The run of the circuit that these positions of the monitor are.
fn reached(alloc: Global, c: &Circuit, positions: &[Position]) -> Result<KnownRounds, RoundsEnd>
    requires { All (λ p. length c.now.latches ≤ length p.latches) positions.now }
    ensures answer { IfOk result (λ answer. answer ≡ rounds.Reached (map (own_position c.now) positions.now)) }
    ensures end { IfErr result (λ end. end ≡ ends.Memory) }
{
    let run = own_run(alloc, c, positions)?;
    Ok(KnownRounds::Reached { run })
}
