//! Events of one pass of a ledger.

ghost use Rattle.std.specs.Prelude.{◌≡◌, ◌<◌, Bool, Contains};
ghost use Rattle.std.specs.Arc.{arc_value};
ghost use Rattle.ledger_tests.specs.Passes.{IsOf, model};
ghost use Rattle.wall_ledger.specs.Passes.{MayPassPost};

use crate::finds::{allows_at, find, refuted};
use circuit::Circuit;
use entry::{Checked, EntryEnd};
use std::alloc::{AllocError, Global};
use std::sync::{Arc, Wait};
use wall_ledger::{Ledger, Pass};
use wall_store::{Finished, Outcome, Posted};

/// What a pass does: it looks; it posts that a latch stays at 0; it finishes a property by a refutation that uses an
/// entry, with the one proof or the other; it asks for an open property from a number on; it meets a pass.
#[derive(Clone, Copy)]
pub enum Event {
    Look,
    Post(u32),
    Finish(u32, u32, bool),
    Open(u32),
    Meet(usize),
}

/// What it is told; nothing where it may not do so.
#[derive(Clone, Copy, PartialEq, Eq)]
pub enum Told {
    Seen(usize),
    Posted(Posted),
    Finished(Finished),
    Opened(Option<u32>),
    Met,
    Nothing,
}

/// It looks.
pub fn look<R: Wait>(ledger: &Ledger, rt: &R, pass: &mut Pass) -> Result<Told, AllocError>
    requires own { pass.old.home ≡ ledger.now.home }
    requires turns { pass.old.turns < 9999 }
    ensures home { pass.new.home ≡ pass.old.home }
    ensures number { pass.new.number ≡ pass.old.number }
{
    ledger.look(rt, pass)?;
    Ok(Told::Seen(pass.view().len()))
}

/// It posts this entry.
pub fn hand_in<R: Wait>(
    ledger: &Ledger,
    rt: &R,
    pass: &mut Pass,
    found: &Arc<Checked>,
) -> Result<Told, AllocError>
    requires own { pass.old.home ≡ ledger.now.home }
    requires turns { pass.old.turns < 9999 }
    requires may { MayPassPost ledger.now pass.old (arc_value found.now) }
    ensures home { pass.new.home ≡ pass.old.home }
    ensures number { pass.new.number ≡ pass.old.number }
{
    Ok(Told::Posted(ledger.post(rt, pass, found)?))
}

fn post<R: Wait>(
    alloc: Global,
    ledger: &Ledger,
    rt: &R,
    pass: &mut Pass,
    shared: &Arc<Circuit>,
    k: u32,
) -> Result<Told, EntryEnd>
    requires of { (two : Bool) × IsOf two ledger.now × (arc_value shared.now ≡ model two) }
    requires latch { k < 6 }
    requires own { pass.old.home ≡ ledger.now.home }
    requires turns { pass.old.turns < 9999 }
    ensures home { pass.new.home ≡ pass.old.home }
    ensures number { pass.new.number ≡ pass.old.number }
{
    let number = pass.number();
    let turn = pass.turns();
    let free = allows_at(alloc, pass.view(), k)?;
    if !free {
        return Ok(Told::Nothing);
    }
    let found = find(alloc, shared, number, turn, k)?;
    let told = hand_in(ledger, rt, pass, &found);
    drop(found);
    Ok(told?)
}

fn finish<R: Wait>(
    alloc: Global,
    ledger: &Ledger,
    rt: &R,
    pass: &mut Pass,
    shared: &Arc<Circuit>,
    property: u32,
    by: (u32, bool),
) -> Result<Told, AllocError>
    requires of { (two : Bool) × IsOf two ledger.now × (arc_value shared.now ≡ model two) }
    requires served { Contains ledger.now.properties property }
    requires own { pass.old.home ≡ ledger.now.home }
    requires turns { pass.old.turns < 9999 }
    ensures home { pass.new.home ≡ pass.old.home }
    ensures number { pass.new.number ≡ pass.old.number }
{
    match refuted(alloc, &**shared, pass.view(), property, by)? {
        None => Ok(Told::Nothing),
        Some(r) => Ok(Told::Finished(ledger.finish(rt, pass, property, Outcome::Holds(r)))),
    }
}

/// It asks for an open property.
pub fn open<R: Wait>(ledger: &Ledger, rt: &R, pass: &mut Pass, from: u32) -> Told
    requires own { pass.old.home ≡ ledger.now.home }
    requires turns { pass.old.turns < 9999 }
    ensures home { pass.new.home ≡ pass.old.home }
    ensures number { pass.new.number ≡ pass.old.number }
{
    Told::Opened(ledger.next_open(rt, pass, from))
}

/// The event. A pass that has had very many turns is told nothing.
pub fn take_turn<R: Wait>(
    alloc: Global,
    ledger: &Ledger,
    rt: &R,
    pass: &mut Pass,
    shared: &Arc<Circuit>,
    two: bool,
    event: Event,
) -> Result<Told, EntryEnd>
    requires of { IsOf two ledger.now }
    requires circuit { arc_value shared.now ≡ model two }
    requires own { pass.old.home ≡ ledger.now.home }
    ensures home { pass.new.home ≡ pass.old.home }
    ensures number { pass.new.number ≡ pass.old.number }
{
    if pass.turns() >= 9999 {
        return Ok(Told::Nothing);
    }
    match event {
        Event::Look => Ok(look(ledger, rt, pass)?),
        Event::Post(k) => {
            if k >= 6 {
                return Ok(Told::Nothing);
            }
            post(alloc, ledger, rt, pass, shared, k)
        }
        Event::Finish(property, entry, other) => {
            if property > u32::from(two) {
                return Ok(Told::Nothing);
            }
            Ok(finish(alloc, ledger, rt, pass, shared, property, (entry, other))?)
        }
        Event::Open(from) => Ok(open(ledger, rt, pass, from)),
        Event::Meet(_) => Ok(Told::Nothing),
    }
}

/// Two passes meet.
pub fn meet(ledger: &Ledger, one: &mut Pass, other: &mut Pass) -> Result<Told, AllocError>
    requires one { one.old.home ≡ ledger.now.home }
    requires other { other.old.home ≡ ledger.now.home }
    ensures homes { (one.new.home ≡ one.old.home) × (other.new.home ≡ other.old.home) }
    ensures numbers { (one.new.number ≡ one.old.number) × (other.new.number ≡ other.old.number) }
{
    ledger.meet(one, other)?;
    Ok(Told::Met)
}
