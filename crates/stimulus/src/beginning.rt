//! What can be wrong with a stimulus before its first position is laid out. The main call is `fault_before`.
ghost use Rattle.std.specs.Prelude.{◌≡◌, IfSome, IfNone, length};
ghost use Rattle.aig_semantics.specs.Runs.{IsInitial};
ghost use Rattle.aig_semantics.specs.Stimuli.{FitsCircuit};
ghost use Rattle.stimulus.specs.Faults.{IsFirstMisfit, IsFirstWrong, CanBegin, HasReplayFault};

use crate::ends::ReplayFault;
use aig_semantics::Stimulus;
use circuit::Circuit;

/// The first fault that shows before the positions: no such property, a wrong width, or a latch that may not begin
/// with its value.
pub(crate) fn fault_before(c: &Circuit, j: u32, s: &Stimulus) -> Option<ReplayFault>
    ensures found { IfSome result (HasReplayFault c.now j s.now) }
    ensures none { IfNone result (CanBegin c.now j s.now) }
{
    if j as usize >= c.property_count() {
        return Some(ReplayFault::NoProperty);
    }
    if let Some(item) = first_misfit(c, s) {
        return Some(ReplayFault::Width(item));
    }
    match first_wrong(c, s.latches.as_slice()) {
        Some(latch) => Some(ReplayFault::NotInitial(latch)),
        None => None,
    }
}

// The first item with another number of values than there are latches or inputs.
fn first_misfit(c: &Circuit, s: &Stimulus) -> Option<u64>
    ensures found { IfSome result (IsFirstMisfit c.now s.now) }
    ensures none { IfNone result (FitsCircuit c.now s.now) }
{
    if s.latches.len() != c.latches().len() {
        return Some(0);
    }
    let width = c.inputs().len();
    for (k, values) in s.inputs.as_slice().iter().enumerate() {
        if values.len() != width {
            return Some(k as u64 + 1);
        }
    }
    None
}

// The first latch that may not begin with its value.
fn first_wrong(c: &Circuit, latches: &[bool]) -> Option<u64>
    requires { length latches.now ≡ length c.now.latches }
    ensures found { IfSome result (IsFirstWrong c.now latches.now) }
    ensures none { IfNone result (IsInitial c.now latches.now) }
{
    for (i, latch) in c.latches().iter().enumerate() {
        if !latch.reset.agrees_with(latches[i]) {
            return Some(i as u64);
        }
    }
    None
}
