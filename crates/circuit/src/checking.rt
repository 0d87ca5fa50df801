//! Which circuits have a meaning. The main calls are `check_circuit` and `keep_circuit`, the only ones that
//! make a `Circuit`.

ghost use Rattle.std.specs.Prelude.{◌≡◌, ◌≤◌, ℕ, IfOk, OnOk, MatchOption};
ghost use Rattle.aig_semantics.specs.Circuits.{IsChecked, IsWithinLimits, AreDefined};
ghost use Rattle.circuit.specs.declared.faults.ModelFault.{ModelFault};
ghost use Rattle.circuit.specs.Sections.{circuit_of, used_by, AreInRange};
ghost use Rattle.circuit.specs.Marks.{first_marks};
ghost use Rattle.circuit.specs.Faults.{IsDefined, HasFault, IsFirstTwice, IsFirstUndefined, IsOnlyOnCycle, AnswersNoOther};
ghost use Rattle.circuit.specs.Keeping.{IsKeptOf, HasCircuitOf, TellsOrder};
ghost use Rattle.circuit.specs.Orders.{IsEvaluationOrder};
ghost use Rattle.circuit.specs.Ordering.{gates_in};
ghost use Rattle.unless_memory.specs.Answers.{GivesExactlyWhere, GivesOneExactlyWhere};

use crate::circuits::Circuit;
use crate::faults::{ModelEnd, ModelFault};
use crate::marks::{Mark, first_marked, mark_definitions, mark_uses};
use crate::ordering::{Order, Ordered, order_gates};
use crate::parts::Parts;
use aig_semantics::{Gate, Latch, MAX_VARIABLE};
use items::Items;
use std::alloc::{AllocError, Global};

/// A mark for each variable from 0 to `max`.
fn make_marks(alloc: Global, max: u64) -> Result<Vec<Mark>, AllocError>
    requires { max ≤ MAX_VARIABLE }
    ensures { IfOk result (λ marks. marks.items ≡ first_marks max) }
{
    let mut marks = vec![in alloc; Mark::Nowhere; max as usize + 1]?;
    marks[0] = Mark::Once;
    Ok(marks)
}

/// What is wrong with the definitions and uses of a model.
fn fault_of(parts: &Parts, marks: &mut [Mark]) -> Option<ModelFault>
    requires in_range { AreInRange parts.now }
    requires first { marks.old ≡ first_marks parts.now.max }
    ensures { MatchOption result (IsDefined parts.now) (HasFault parts.now) }
{
    mark_definitions(parts, marks);
    if let Some(v) = first_marked(marks, Mark::Twice) {
        return Some(ModelFault::Twice(v));
    }
    mark_uses(parts, marks);
    if let Some(v) = first_marked(marks, Mark::Missing) {
        return Some(ModelFault::Undefined(v));
    }
    None
}

fn copy_lists(alloc: Global, lists: &Items<Items<u64>>) -> Result<Items<Items<u64>>, AllocError>
    ensures { IfOk result (λ copy. copy ≡ lists.now) }
{
    let mut copy = Items::new(alloc);
    for list in lists.as_slice() {
        copy.push(list.try_copy(alloc)?)?;
    }
    Ok(copy)
}

fn copy_signals(
    alloc: Global,
    parts: &Parts,
) -> Result<(Items<u64>, Items<Latch>, Items<Gate>), AllocError>
    ensures { IfOk result (λ copy. copy ≡ (parts.now.inputs, parts.now.latches, parts.now.gates)) }
{
    let inputs = parts.inputs.try_copy(alloc)?;
    let latches = parts.latches.try_copy(alloc)?;
    let gates = parts.gates.try_copy(alloc)?;
    Ok((inputs, latches, gates))
}

fn copy_literals(
    alloc: Global,
    parts: &Parts,
) -> Result<(Items<u64>, Items<u64>, Items<u64>), AllocError>
    ensures { IfOk result (λ copy. copy ≡ (parts.now.outputs, parts.now.bad, parts.now.constraints)) }
{
    let outputs = parts.outputs.try_copy(alloc)?;
    let bad = parts.bad.try_copy(alloc)?;
    let constraints = parts.constraints.try_copy(alloc)?;
    Ok((outputs, bad, constraints))
}

fn copy_properties(
    alloc: Global,
    parts: &Parts,
) -> Result<(Items<Items<u64>>, Items<u64>), AllocError>
    ensures { IfOk result (λ copy. copy ≡ (parts.now.justice, parts.now.fairness)) }
{
    let justice = copy_lists(alloc, &parts.justice)?;
    let fairness = parts.fairness.try_copy(alloc)?;
    Ok((justice, fairness))
}

fn copy_parts(alloc: Global, parts: &Parts) -> Result<Parts, AllocError>
    ensures { IfOk result (λ copy. copy ≡ parts.now) }
{
    let (inputs, latches, gates) = copy_signals(alloc, parts)?;
    let (outputs, bad, constraints) = copy_literals(alloc, parts)?;
    let (justice, fairness) = copy_properties(alloc, parts)?;
    Ok(Parts {
        max: parts.max,
        inputs,
        latches,
        gates,
        outputs,
        bad,
        constraints,
        justice,
        fairness,
    })
}

/// What is kept of the sections of a model: its circuit, and the two lists that are no part of one.
#[derive(Drop)]
pub struct Kept {
    pub circuit: Circuit,
    pub outputs: Items<u64>,
    pub bad: Items<u64>,
}

// Keeps the circuit of a model that was checked.
fn keep(parts: Parts, order: Order) -> Kept
    requires checked { IsChecked (circuit_of parts) }
    requires limits { IsWithinLimits (circuit_of parts) }
    requires order { IsEvaluationOrder parts.gates (gates_in parts.gates order) }
    ensures { IsKeptOf parts result }
{
    let circuit = Circuit {
        greatest: parts.max,
        inputs: parts.inputs,
        latches: parts.latches,
        gates: parts.gates,
        constraints: parts.constraints,
        justice: parts.justice,
        fairness: parts.fairness,
        order,
    };
    Kept {
        circuit,
        outputs: parts.outputs,
        bad: parts.bad,
    }
}

// What is wrong with the definitions and uses of a model, over marks of its own.
fn fault_in(alloc: Global, parts: &Parts) -> Result<Option<ModelFault>, AllocError>
    requires { AreInRange parts.now }
    ensures { IfOk result (λ fault. MatchOption fault (IsDefined parts.now) (HasFault parts.now)) }
{
    let mut marks = make_marks(alloc, parts.max)?;
    Ok(fault_of(parts, &mut marks))
}

// An order of the gates of a model in which nothing is wrong, or what is wrong.
fn order_in(alloc: Global, parts: &Parts) -> Result<Order, ModelEnd>
    requires { AreInRange parts.now }
    ensures { TellsOrder parts.now result }
{
    if let Some(fault) = fault_in(alloc, parts)? {
        return Err(ModelEnd::Fault(fault));
    }
    match order_gates(alloc, parts)? {
        Ordered::Order(order) => Ok(order),
        Ordered::Cycle(v) => Err(ModelEnd::Fault(ModelFault::Cycle(v))),
    }
}

/// Checks the circuit of a model, and keeps it with the model's outputs and bad state literals; the lists are not
/// copied. The faults are those of `check_circuit`.
pub fn keep_circuit(alloc: Global, parts: Parts) -> Result<Kept, ModelEnd>
    requires { AreInRange parts }

    ensures ok { IfOk result (IsKeptOf parts) }
    ensures checked { OnOk result (IsChecked (circuit_of parts)) }
    ensures defined { OnOk result (AreDefined (circuit_of parts) (used_by parts)) }

    ensures faulty { (fault : ModelFault) → result ≡ Err (ModelEnd.Fault fault)
        → IsChecked (circuit_of parts) → AreDefined (circuit_of parts) (used_by parts) → ⊥ }

    ensures twice { (v : ℕ) → GivesExactlyWhere (Err ModelEnd.Memory) (Err (ModelEnd.Fault (ModelFault.Twice v)))
        (IsFirstTwice parts v) result }
    ensures undefined { (v : ℕ) → GivesExactlyWhere (Err ModelEnd.Memory)
        (Err (ModelEnd.Fault (ModelFault.Undefined v))) (IsFirstUndefined parts v) result }
    ensures cycle { GivesOneExactlyWhere (Err ModelEnd.Memory) (λ v. Err (ModelEnd.Fault (ModelFault.Cycle v)))
        (IsOnlyOnCycle parts) result }
    ensures no_other { AnswersNoOther result }
{
    match order_in(alloc, &parts) {
        Ok(order) => Ok(keep(parts, order)),
        Err(end) => Err(end),
    }
}

/// Checks the circuit of a model, and keeps a copy of it. Its faults are `Twice`, then `Undefined`, each with the least
/// such variable, then `Cycle` with a variable of a gate on a cycle. The work is in proportion to the lists and `max`.
pub fn check_circuit(alloc: Global, parts: &Parts) -> Result<Circuit, ModelEnd>
    requires { AreInRange parts.now }

    ensures ok { IfOk result (λ c. c ≡ circuit_of parts.now) }
    ensures checked { OnOk result (IsChecked (circuit_of parts.now)) }
    ensures defined { OnOk result (AreDefined (circuit_of parts.now) (used_by parts.now)) }

    ensures faulty { (fault : ModelFault) → result ≡ Err (ModelEnd.Fault fault)
        → IsChecked (circuit_of parts.now) → AreDefined (circuit_of parts.now) (used_by parts.now) → ⊥ }

    ensures twice { (v : ℕ) → GivesExactlyWhere (Err ModelEnd.Memory) (Err (ModelEnd.Fault (ModelFault.Twice v)))
        (IsFirstTwice parts.now v) result }
    ensures undefined { (v : ℕ) → GivesExactlyWhere (Err ModelEnd.Memory)
        (Err (ModelEnd.Fault (ModelFault.Undefined v))) (IsFirstUndefined parts.now v) result }
    ensures cycle { GivesOneExactlyWhere (Err ModelEnd.Memory) (λ v. Err (ModelEnd.Fault (ModelFault.Cycle v)))
        (IsOnlyOnCycle parts.now) result }
    ensures no_other { AnswersNoOther result }
{
    let copy = copy_parts(alloc, parts)?;
    circuit_in(keep_circuit(alloc, copy))
}

// The circuit that was kept.
fn circuit_in(kept: Result<Kept, ModelEnd>) -> Result<Circuit, ModelEnd>
    ensures { HasCircuitOf kept result }
{
    Ok(kept?.circuit)
}
