//! The subcommand `certify`: certifies that all latches of a model stay 0, and measures it beside the check of what comes
//! of it. The main call is `run_certify`.

ghost use Rattle.std.specs.Prelude.{◌≡◌, [], IfOk};
ghost use Rattle.std.specs.Arc.{arc_value};
ghost use Rattle.entry.specs.Listing.{entry_of};
ghost use Rattle.entry.specs.Proved.{IsProved};
ghost use Rattle.certify.specs.Claims.{claimed};

use crate::failure::Failure;
use crate::models::circuit_in;
use crate::outside::print_text;
use crate::sat_run::NO_LIMIT;
use crate::stamps::{Stamp, print_time};
use aig_semantics::Position;
use certify::Claim;
use circuit::Circuit;
use cnf::{Clause, Lit};
use cnf_unroll::ClauseSet;
use edge::Meter;
use entry::{Checked, Entry, Kind, Listed, good_lists_grow};
use fair_semantics::{Situation, Skeleton};
use items::Items;
use proved_entries::{ProvingEnd, certified, claim_of, entry_again, judge, proved};
use std::alloc::{AllocError, Global};
use std::sync::Arc;

/// Certifies the reach entry that each latch of the model in this file is 0, which no step may leave, and checks the
/// entry that comes of it. Writes how many clauses it has and after how many conflicts; what both took goes to standard
/// error. Gives 0, the number with which the program ends.
pub(crate) fn run_certify(rt: &HostRuntime, name: &str) -> Result<u8, Failure> {
    let shared = circuit_in(rt, name)?;
    let number = certify_model(rt, &shared);
    drop(shared);
    number
}

fn certify_model(rt: &HostRuntime, shared: &Arc<Circuit>) -> Result<u8, Failure> {
    let known = known_of(rt.alloc(), shared)?;
    certify_known(rt, shared, known)
}

// The entry, checked behind no entries, with proofs of a solver of its own.
fn known_of(alloc: Global, shared: &Arc<Circuit>) -> Result<Checked, Failure>
    ensures { IfOk result (λ e. IsProved (arc_value shared.now) [] e.entry e.proofs) }
{
    let entry = entry_at_zero(alloc, &**shared)?;
    good_lists_grow(&**shared);
    Ok(proved(alloc, shared, &[], entry)?)
}

// The reach entry that each latch is 0.
fn entry_at_zero(alloc: Global, c: &Circuit) -> Result<Listed, AllocError> {
    let set = zeros(alloc, c.latches().len() as u64)?;
    Ok(reach_entry(alloc, set))
}

// A reach entry without uses.
fn reach_entry(alloc: Global, set: ClauseSet) -> Listed {
    Listed {
        kind: Kind::Reach,
        set,
        uses: Items::new(alloc),
    }
}

// For each of so many latches the clause that it is 0.
fn zeros(alloc: Global, count: u64) -> Result<ClauseSet, AllocError> {
    let mut set = Items::new(alloc);
    add_zeros(alloc, count, &mut set)?;
    Ok(set)
}

fn add_zeros(alloc: Global, count: u64, set: &mut ClauseSet) -> Result<(), AllocError> {
    for latch in 0..count {
        set.push(zero(alloc, latch)?)?;
    }
    Ok(())
}

fn zero(alloc: Global, latch: u64) -> Result<Clause, AllocError> {
    let literal = Lit {
        var: latch,
        positive: false,
    };
    Clause::from_slice(alloc, &[literal])
}

// A skeleton in which the latches are 0 and then 1.
fn rising(alloc: Global, c: &Circuit) -> Result<Skeleton, AllocError> {
    let situation = rise(alloc, c)?;
    skeleton_of(alloc, situation)
}

// A skeleton of one situation.
fn skeleton_of(alloc: Global, situation: Situation) -> Result<Skeleton, AllocError> {
    let mut situations = Items::new(alloc);
    situations.push(situation)?;
    Ok(Skeleton { situations })
}

fn rise(alloc: Global, c: &Circuit) -> Result<Situation, AllocError> {
    let position = zero_position(alloc, c)?;
    let successor = values(alloc, c.latches().len(), true)?;
    Ok(Situation {
        position,
        successor,
    })
}

fn zero_position(alloc: Global, c: &Circuit) -> Result<Position, AllocError> {
    let latches = values(alloc, c.latches().len(), false)?;
    let inputs = values(alloc, c.inputs().len(), false)?;
    Ok(Position { latches, inputs })
}

fn values(alloc: Global, count: usize, value: bool) -> Result<Items<bool>, AllocError> {
    let mut values = Items::new(alloc);
    add_values(count, value, &mut values)?;
    Ok(values)
}

fn add_values(count: usize, value: bool, values: &mut Items<bool>) -> Result<(), AllocError> {
    for _place in 0..count {
        values.push(value)?;
    }
    Ok(())
}

fn certify_known(rt: &HostRuntime, shared: &Arc<Circuit>, known: Checked) -> Result<u8, Failure>
    requires { IsProved (arc_value shared.now) [] known.entry known.proofs }
{
    match rising_claim(rt.alloc(), &**shared, known.listed()) {
        Ok(claim) => certify_timed(rt, shared, known, claim),
        Err(refused) => {
            drop(known);
            Err(Failure::from(refused))
        }
    }
}

// The claim of an entry for a skeleton in which the latches rise.
fn rising_claim(alloc: Global, c: &Circuit, listed: &Listed) -> Result<Claim, AllocError>
    ensures { IfOk result (λ claim. claimed claim ≡ entry_of listed.now) }
{
    let skeleton = rising(alloc, c)?;
    claim_of(alloc, listed, skeleton)
}

fn certify_timed(
    rt: &HostRuntime,
    shared: &Arc<Circuit>,
    known: Checked,
    claim: Claim,
) -> Result<u8, Failure>
    requires proved { IsProved (arc_value shared.now) [] known.entry known.proofs }
    requires same { claimed claim ≡ known.entry }
{
    match Stamp::now(rt) {
        Ok(start) => certify_since(rt, shared, known, claim, start),
        Err(failed) => {
            drop(known);
            drop(claim);
            Err(Failure::from(failed))
        }
    }
}

fn certify_since(
    rt: &HostRuntime,
    shared: &Arc<Circuit>,
    known: Checked,
    claim: Claim,
    start: Stamp,
) -> Result<u8, Failure>
    requires proved { IsProved (arc_value shared.now) [] known.entry known.proofs }
    requires same { claimed claim ≡ known.entry }
{
    let mut meter = Meter::new(NO_LIMIT, 0);
    let checked = certified_alone(rt.alloc(), shared, known, claim, &mut meter)?;
    let conflicts = meter.spending().conflicts();
    let number = check_certified(rt, &**shared, &checked, start, conflicts);
    drop(checked);
    number
}

// The claim certified, behind no entries.
fn certified_alone(
    alloc: Global,
    shared: &Arc<Circuit>,
    known: Checked,
    claim: Claim,
    meter: &mut Meter,
) -> Result<Checked, ProvingEnd>
    requires proved { IsProved (arc_value shared.now) [] known.entry known.proofs }
    requires same { claimed claim ≡ known.entry }
{
    good_lists_grow(&**shared);
    certified(alloc, shared, &[], known, claim, meter)
}

// Tells what certifying took, and checks the entry as it could be read from a certificate.
fn check_certified(
    rt: &HostRuntime,
    c: &Circuit,
    checked: &Checked,
    start: Stamp,
    conflicts: u64,
) -> Result<u8, Failure> {
    print_time(rt, "certifying", start)?;
    check_again(rt, c, checked, conflicts)
}

fn check_again(
    rt: &HostRuntime,
    c: &Circuit,
    checked: &Checked,
    conflicts: u64,
) -> Result<u8, Failure> {
    let e = entry_again(rt.alloc(), checked)?;
    let number = judge_timed(rt, c, &e, conflicts);
    drop(e);
    number
}

fn judge_timed(rt: &HostRuntime, c: &Circuit, e: &Entry, conflicts: u64) -> Result<u8, Failure> {
    let start = Stamp::now(rt)?;
    judge(rt.alloc(), c, &[], e)?;
    print_time(rt, "checking", start)?;
    say_accepted(rt, e.set.len(), conflicts)
}

fn say_accepted(rt: &HostRuntime, clauses: usize, conflicts: u64) -> Result<u8, Failure> {
    let text = format!(in rt.alloc(); "clauses {clauses} conflicts {conflicts} accepted\n")?;
    print_text(rt, text.as_str())?;
    Ok(0)
}
