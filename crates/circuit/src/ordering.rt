//! An order in which the gates of a model can be evaluated, or a variable on a cycle. The main call is `order_gates`:
//! where each gate reads lower variables alone, and the gates stand in the order of their variables, they are in order as
//! they stand. Else it goes from gate to gate that is read, keeps the path on a stack, and puts a gate into the order once
//! all that it reads is there. Each gate is begun and closed once, so the work is in proportion to the gates.

ghost use Rattle.std.specs.Prelude.{◌≡◌, ◌-◌, ◌<◌, ◌∷◌, ◌++◌, [], length, OnOk, IfOk, IfNone, IfSome, slice_set, vec_len, take, false, Contains};
ghost use Rattle.circuit.specs.declared.ordering.Progress.TheVariants.{Open, Done};
ghost use Rattle.aig_semantics.specs.Circuits.{IsOnCycle};
ghost use Rattle.circuit.specs.Sections.{circuit_of, AreInRange};
ghost use Rattle.circuit.specs.Faults.{IsOnce};
ghost use Rattle.circuit.specs.Ordering.{IsNext, IsSearch, KeepsBegun, IsOrdered, ascend_from, is_waiting, progress_at, reads_below};

use crate::parts::Parts;
use aig_semantics::Gate;
use std::alloc::{AllocError, Global};

/// How far the search is at a variable.
#[derive(Clone, Copy)]
enum Progress {
    /// The variable is no gate's.
    NoGate,
    /// The gate with this number, counted from 0, was not begun.
    Waiting(usize),
    /// The gate is on the path.
    Open,
    /// The gate is in the order.
    Done,
}

/// What comes next at the gate at the end of the path.
enum Next {
    /// It reads the gate with this number, which was not begun.
    Begin(usize),
    /// All that it reads is in the order.
    Close,
    /// It reads this variable, whose gate is on the path.
    Cycle(u64),
}

/// A search for an order: what is known of each variable, the path, and the order so far.
#[derive(Drop)]
struct Search {
    progress: Vec<Progress>,
    path: Vec<Gate>,
    order: Vec<Gate>,
}

impl Search {
    fn look(&self, variable: u64) -> Progress
        ensures { result ≡ progress_at self.now.progress.items variable }
    {
        self.progress
            .get(variable as usize)
            .copied()
            .unwrap_or(Progress::NoGate)
    }

    fn next_at(&self, gate: Gate) -> Next
        ensures { IsNext self.now.progress.items gate result }
    {
        match self.look(gate.rhs0 / 2) {
            Progress::Waiting(k) => return Next::Begin(k),
            Progress::Open => return Next::Cycle(gate.rhs0 / 2),
            Progress::NoGate | Progress::Done => {}
        }
        match self.look(gate.rhs1 / 2) {
            Progress::Waiting(k) => Next::Begin(k),
            Progress::Open => Next::Cycle(gate.rhs1 / 2),
            Progress::NoGate | Progress::Done => Next::Close,
        }
    }

    fn begin(&mut self, gate: Gate) -> Result<(), AllocError>
        requires { gate.var < vec_len self.old.progress }
        ensures progress { OnOk result (self.new.progress.items ≡ slice_set self.old.progress.items gate.var Open) }
        ensures path { OnOk result (self.new.path.items ≡ self.old.path.items ++ gate ∷ []) }
        ensures order { OnOk result (self.new.order.items ≡ self.old.order.items) }
    {
        self.path.push(gate)?;
        self.progress[gate.var as usize] = Progress::Open;
        Ok(())
    }

    fn close(&mut self, gate: Gate) -> Result<(), AllocError>
        requires { gate.var < vec_len self.old.progress }
        ensures progress { OnOk result (self.new.progress.items ≡ slice_set self.old.progress.items gate.var Done) }
        ensures path { OnOk result (self.new.path.items ≡ take (length self.old.path.items - 1) self.old.path.items) }
        ensures order { OnOk result (self.new.order.items ≡ self.old.order.items ++ gate ∷ []) }
    {
        self.order.push(gate)?;
        let _ = self.path.pop();
        self.progress[gate.var as usize] = Progress::Done;
        Ok(())
    }

    /// Goes on until the path is empty. Answers a variable on a cycle, if it meets one.
    fn finish(&mut self, parts: &Parts) -> Result<Option<u64>, AllocError>
        requires search { IsSearch (circuit_of parts.now) self.old.progress.items self.old.path.items self.old.order.items }
        ensures search { IfOk result (λ cycle. IfNone cycle
            (IsSearch (circuit_of parts.now) self.new.progress.items [] self.new.order.items)) }
        ensures path { IfOk result (λ cycle. IfNone cycle (self.new.path.items ≡ [])) }
        ensures begun { OnOk result (KeepsBegun self.old.progress.items self.new.progress.items) }
        ensures cycle { IfOk result (λ cycle. IfSome cycle (IsOnCycle (circuit_of parts.now))) }
    {
        let gates = parts.gates.as_slice();
        while let Some(gate) = self.path.last().copied() {
            match self.next_at(gate) {
                Next::Begin(k) => self.begin(gates[k])?,
                Next::Close => self.close(gate)?,
                Next::Cycle(v) => return Ok(Some(v)),
            }
        }
        Ok(None)
    }

    /// Puts a gate into the order, and all that it reads before it. Answers a variable on a cycle, if it meets one.
    fn visit(&mut self, parts: &Parts, gate: Gate) -> Result<Option<u64>, AllocError>
        requires search { IsSearch (circuit_of parts.now) self.old.progress.items [] self.old.order.items }
        requires path { self.old.path.items ≡ [] }
        requires member { Contains parts.now.gates gate }
        ensures search { IfOk result (λ cycle. IfNone cycle
            (IsSearch (circuit_of parts.now) self.new.progress.items [] self.new.order.items)) }
        ensures path { IfOk result (λ cycle. IfNone cycle (self.new.path.items ≡ [])) }
        ensures begun { OnOk result (KeepsBegun self.old.progress.items self.new.progress.items) }
        ensures visited { OnOk result (is_waiting (progress_at self.new.progress.items gate.var) ≡ false) }
        ensures cycle { IfOk result (λ cycle. IfSome cycle (IsOnCycle (circuit_of parts.now))) }
    {
        if let Progress::Waiting(_) = self.look(gate.var) {
            self.begin(gate)?;
            return self.finish(parts);
        }
        Ok(None)
    }
}

/// The numbers of the gates at the places of their variables.
fn table_of(alloc: Global, parts: &Parts) -> Result<Vec<Progress>, AllocError>
    requires in_range { AreInRange parts.now }
    requires once { IsOnce parts.now }
    ensures { IfOk result (λ table. IsSearch (circuit_of parts.now) table.items [] []) }
{
    let mut table = vec![in alloc; Progress::NoGate; parts.max as usize + 1]?;
    for (k, gate) in parts.gates.as_slice().iter().enumerate() {
        table[gate.var as usize] = Progress::Waiting(k);
    }
    Ok(table)
}

/// An order of the gates of a model.
#[derive(Drop)]
pub(crate) enum Order {
    /// As they stand.
    Given,
    /// This one.
    Listed(Vec<Gate>),
}

/// What the search comes to.
#[derive(Drop)]
pub(crate) enum Ordered {
    /// An order in which they can be evaluated.
    Order(Order),
    /// A variable of a gate that depends on itself.
    Cycle(u64),
}

/// Whether the gate reads lower variables alone.
fn reads_below(gate: &Gate) -> bool
    ensures { result ≡ reads_below gate.now }
{
    gate.rhs0 / 2 < gate.var && gate.rhs1 / 2 < gate.var
}

/// Whether the variables of the gates ascend, and each gate reads lower ones alone.
fn ascend(gates: &[Gate]) -> bool
    ensures { result ≡ ascend_from 0 gates.now }
{
    let mut last = 0;
    for gate in gates {
        if gate.var <= last || !reads_below(gate) {
            return false;
        }
        last = gate.var;
    }
    true
}

/// An order in which the gates can be evaluated, or a variable on a cycle.
pub(crate) fn order_gates(alloc: Global, parts: &Parts) -> Result<Ordered, AllocError>
    requires in_range { AreInRange parts.now }
    requires once { IsOnce parts.now }
    ensures { IfOk result (IsOrdered parts.now) }
{
    if ascend(parts.gates.as_slice()) {
        return Ok(Ordered::Order(Order::Given));
    }
    search_order(alloc, parts)
}

fn search_order(alloc: Global, parts: &Parts) -> Result<Ordered, AllocError>
    requires in_range { AreInRange parts.now }
    requires once { IsOnce parts.now }
    ensures { IfOk result (IsOrdered parts.now) }
{
    let mut search = Search {
        progress: table_of(alloc, parts)?,
        path: Vec::new(alloc),
        order: Vec::new(alloc),
    };
    for gate in parts.gates.as_slice() {
        if let Some(v) = search.visit(parts, *gate)? {
            return Ok(Ordered::Cycle(v));
        }
    }
    let Search {
        progress,
        path,
        order,
    } = search;
    drop(progress);
    drop(path);
    Ok(Ordered::Order(Order::Listed(order)))
}
