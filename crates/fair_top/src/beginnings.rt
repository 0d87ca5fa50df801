//! What a search is asked: MODEL is read, the property that is asked for is tested, and the lists are made of the properties to be
//! served and of the entries with which the search begins. The main call is `beginning_of`. Writes nothing.

ghost use Rattle.std.specs.Prelude.{◌≡◌, ◌⊎◌, ◌∷◌, ℕ, List, Option, Some, Err, option_map, IfOk, IfErr, IsTrue, IsFalse};
ghost use Rattle.std.specs.Arc.{arc_value};
ghost use Rattle.edge.specs.Faults.{Rose, NoneFell};
ghost use Rattle.edge.specs.Reads.{KeepsTexts};
ghost use Rattle.entry.specs.CheckedEntries.{CheckedEntry};
ghost use Rattle.sheet_answers.specs.Ends.{has_unread, read_failed, refused_memory, IsUnended};
ghost use Rattle.fair_workers.specs.Runs.{AreServed};
ghost use Rattle.given_entries.specs.Beginning.{told_of, OfClaimed, IsClaimed, BeginsWith};
ghost use Rattle.given_entries.specs.Beginning.{HasNoList, IsRefusedWith, ReadsIfNamed, shared_list};
ghost use Rattle.command_lines.specs.Commands.{name_in};
ghost use Rattle.plain_commands.specs.Answering.{IsSilent, FailedOf, ReadsModelFirst};
ghost use Rattle.fair_top.specs.Headline.{FailedFor};
ghost use Rattle.plain_commands.specs.Check.{status_of_end};
ghost use Rattle.fair_top.specs.Solve.{asked_in, HasProperty, LacksProperty};
ghost use Rattle.fair_top.specs.Beginnings.{IsAskedOf, EndsUnasked, IsEndedWith, beginning_of_end, IsBeginning};
ghost use Rattle.fair_top.specs.Beginnings.{EndsBefore, circuit_in, served_in, given_in};
ghost use Rattle.fair_top.specs.Solved.{MayBegin};
ghost use Rattle.plain_commands.specs.Statuses.{has_read_fault};

use crate::commands::status_of_end;
use circuit::Circuit;
use command_lines::SolveRequest;
use edge::Shelf;
use entry::Checked;
use given_entries::load_list;
use plain_commands::{Status, model_of};
use sheet_answers::JudgeEnd;
use sheet_commands::each_property;
use std::alloc::{AllocError, Global};
use std::sync::Arc;

/// A circuit, the properties of it that are asked for, and the list with which a search begins.
#[derive(Drop)]
pub(crate) struct Beginning {
    pub(crate) circuit: Arc<Circuit>,
    pub(crate) served: Vec<u32>,
    pub(crate) given: Vec<Arc<Checked>>,
}

/// Reads the texts under the names, that of the answer only where one is named and the model has what is asked for.
pub(crate) fn beginning_of<H: Shelf>(
    alloc: Global,
    shelf: &mut H,
    model: &str,
    resume: Option<&str>,
    request: &SolveRequest,
) -> Result<Beginning, Status>
    ensures asked { IfOk result (IsBeginning (H.held shelf.old model.now)
        (told_of (H.held shelf.old) (option_map (λ name. name.now) resume.entry)) request.now) }
    ensures ended { IfErr result (EndsBefore (H.held shelf.old model.now)
        (told_of (H.held shelf.old) (option_map (λ name. name.now) resume.entry)) request.now) }
    ensures read { result ≡ Err Status.ReadFault
        → FailedOf (H.held shelf.old) (model.now ∷ name_in (option_map (λ name. name.now) resume.entry)) (H.faults shelf.old)
        (H.faults shelf.new) }
    ensures there { result ≡ Err Status.ReadFault
        → FailedFor (H.held shelf.old) model.now request.now (H.faults shelf.old) (H.faults shelf.new) }
    ensures reads { ReadsModelFirst H.reads (H.held shelf.old) (model.now ∷ name_in (option_map (λ name. name.now) resume.entry))
        (has_read_fault result) shelf.old shelf.new }
    ensures counts { NoneFell (H.faults shelf.old) (H.faults shelf.new) }
    ensures kept { KeepsTexts (H.held shelf.old) (H.held shelf.new) }
{
    match model_of(alloc, shelf, model) {
        Ok(found) => beginning_about(alloc, shelf, found.into_circuit(), resume, request),
        Err(status) => Err(status),
    }
}

// The same for the circuit of the model.
fn beginning_about<H: Shelf>(
    alloc: Global,
    shelf: &mut H,
    circuit: Circuit,
    resume: Option<&str>,
    request: &SolveRequest,
) -> Result<Beginning, Status>
    ensures asked { IfOk result (IsAskedOf circuit (told_of (H.held shelf.old) (option_map (λ name. name.now) resume.entry)) request.now) }
    ensures ended { IfErr result (EndsUnasked circuit
        (told_of (H.held shelf.old) (option_map (λ name. name.now) resume.entry)) request.now) }
    ensures refused { (claimed : Option (List ℕ)) (end : JudgeEnd)
        → IsClaimed (told_of (H.held shelf.old) (option_map (λ name. name.now) resume.entry)) claimed → HasNoList circuit claimed end
        → HasProperty circuit request.now → IsEndedWith (status_of_end end) result }
    ensures accepted { (claimed : Option (List ℕ)) (given : List CheckedEntry)
        → IsClaimed (told_of (H.held shelf.old) (option_map (λ name. name.now) resume.entry)) claimed → BeginsWith circuit claimed given
        → HasProperty circuit request.now → IfErr result IsSilent }
    ensures read { result ≡ Err Status.ReadFault
        → (name : List ℕ) × (option_map (λ name. name.now) resume.entry ≡ Some name)
        × Rose (H.faults shelf.old name) (H.faults shelf.new name) }
    ensures reads { ReadsIfNamed H.reads (option_map (λ name. name.now) resume.entry) (has_read_fault result) shelf.old shelf.new }
    ensures counts { NoneFell (H.faults shelf.old) (H.faults shelf.new) }
    ensures kept { KeepsTexts (H.held shelf.old) (H.held shelf.new) }
{
    if lacks_property(&circuit, request) {
        return Err(Status::NoProperty(request.property));
    }
    beginning_on(alloc, shelf, circuit, resume, request)
}

// Whether a property is asked for that the circuit does not have.
fn lacks_property(circuit: &Circuit, request: &SolveRequest) -> bool
    ensures yes { IsTrue result → LacksProperty circuit.now request.now }
    ensures no { IsFalse result → HasProperty circuit.now request.now }
{
    if request.all {
        return false;
    }
    request.property as usize >= circuit.property_count()
}

// The same where what is asked for is there.
fn beginning_on<H: Shelf>(
    alloc: Global,
    shelf: &mut H,
    circuit: Circuit,
    resume: Option<&str>,
    request: &SolveRequest,
) -> Result<Beginning, Status>
    requires property { HasProperty circuit request.now }
    ensures asked { IfOk result (IsAskedOf circuit (told_of (H.held shelf.old) (option_map (λ name. name.now) resume.entry)) request.now) }
    ensures ended { IfErr result (EndsUnasked circuit
        (told_of (H.held shelf.old) (option_map (λ name. name.now) resume.entry)) request.now) }
    ensures refused { (claimed : Option (List ℕ)) (end : JudgeEnd)
        → IsClaimed (told_of (H.held shelf.old) (option_map (λ name. name.now) resume.entry)) claimed → HasNoList circuit claimed end
        → IsEndedWith (status_of_end end) result }
    ensures accepted { (claimed : Option (List ℕ)) (given : List CheckedEntry)
        → IsClaimed (told_of (H.held shelf.old) (option_map (λ name. name.now) resume.entry)) claimed → BeginsWith circuit claimed given
        → IfErr result IsSilent }
    ensures read { result ≡ Err Status.ReadFault
        → (name : List ℕ) × (option_map (λ name. name.now) resume.entry ≡ Some name)
        × Rose (H.faults shelf.old name) (H.faults shelf.new name) }
    ensures reads { ReadsIfNamed H.reads (option_map (λ name. name.now) resume.entry) (has_read_fault result) shelf.old shelf.new }
    ensures counts { NoneFell (H.faults shelf.old) (H.faults shelf.new) }
    ensures kept { KeepsTexts (H.held shelf.old) (H.held shelf.new) }
{
    match Arc::new(alloc, circuit) {
        Ok(circuit) => asked_as(begun(alloc, shelf, circuit, resume, request)),
        Err(_) => Err(Status::Memory),
    }
}

// A beginning, or the status with which a run ends that has none.
fn asked_as(end: Result<Beginning, JudgeEnd>) -> Result<Beginning, Status>
    ensures { result ≡ beginning_of_end end }
{
    match end {
        Ok(beginning) => Ok(beginning),
        Err(end) => Err(status_of_end(end)),
    }
}

// The circuit with what is asked for of it, and the list that is loaded for it.
fn begun<H: Shelf>(
    alloc: Global,
    shelf: &mut H,
    circuit: Arc<Circuit>,
    resume: Option<&str>,
    request: &SolveRequest,
) -> Result<Beginning, JudgeEnd>
    requires property { HasProperty (arc_value circuit) request.now }
    ensures circuit { IfOk result (λ q. circuit_in q ≡ arc_value circuit) }
    ensures served { IfOk result (λ q. served_in q ≡ asked_in request.now.all (arc_value circuit) request.now.property) }
    ensures serves { IfOk result (λ q. AreServed (arc_value circuit) (served_in q)) }
    ensures list { IfOk result (λ q. OfClaimed (told_of (H.held shelf.old) (option_map (λ name. name.now) resume.entry))
        (λ claimed. BeginsWith (arc_value circuit) claimed (given_in q))) }
    ensures begins { IfOk result (λ q. MayBegin (arc_value circuit) (given_in q)) }
    ensures fault { IfErr result (λ end. IsUnended end
        ⊎ OfClaimed (told_of (H.held shelf.old) (option_map (λ name. name.now) resume.entry)) (λ claimed.
        HasNoList (arc_value circuit) claimed end)) }
    ensures refused { (claimed : Option (List ℕ)) (end : JudgeEnd)
        → IsClaimed (told_of (H.held shelf.old) (option_map (λ name. name.now) resume.entry)) claimed
        → HasNoList (arc_value circuit) claimed end → IsRefusedWith end result }
    ensures accepted { (claimed : Option (List ℕ)) (given : List CheckedEntry)
        → IsClaimed (told_of (H.held shelf.old) (option_map (λ name. name.now) resume.entry)) claimed
        → BeginsWith (arc_value circuit) claimed given → IfErr result IsUnended }
    ensures read { result ≡ Err read_failed
        → (name : List ℕ) × (option_map (λ name. name.now) resume.entry ≡ Some name)
        × Rose (H.faults shelf.old name) (H.faults shelf.new name) }
    ensures reads { ReadsIfNamed H.reads (option_map (λ name. name.now) resume.entry) (has_unread result) shelf.old shelf.new }
    ensures counts { NoneFell (H.faults shelf.old) (H.faults shelf.new) }
    ensures kept { KeepsTexts (H.held shelf.old) (H.held shelf.new) }
{
    match load_list(alloc, &circuit, shelf, resume) {
        Ok(given) => with_served(alloc, circuit, given, request),
        Err(end) => Err(end),
    }
}

// The same where the list is there.
fn with_served(
    alloc: Global,
    circuit: Arc<Circuit>,
    given: Vec<Arc<Checked>>,
    request: &SolveRequest,
) -> Result<Beginning, JudgeEnd>
    requires property { HasProperty (arc_value circuit) request.now }
    ensures circuit { IfOk result (λ q. circuit_in q ≡ arc_value circuit) }
    ensures served { IfOk result (λ q. served_in q ≡ asked_in request.now.all (arc_value circuit) request.now.property) }
    ensures serves { IfOk result (λ q. AreServed (arc_value circuit) (served_in q)) }
    ensures given { IfOk result (λ q. given_in q ≡ shared_list given.items) }
    ensures ended { IfErr result (λ end. end ≡ refused_memory) }
{
    let served = served(alloc, &circuit, request)?;
    Ok(Beginning {
        circuit,
        served,
        given,
    })
}

// The properties that are asked for.
fn served(alloc: Global, circuit: &Circuit, request: &SolveRequest) -> Result<Vec<u32>, AllocError>
    requires property { HasProperty circuit.now request.now }
    ensures asked { IfOk result (λ served. served.items ≡ asked_in request.now.all circuit.now request.now.property) }
    ensures serves { IfOk result (λ served. AreServed circuit.now served.items) }
{
    if request.all {
        return each_property(alloc, circuit);
    }
    Vec::from_slice(alloc, &[request.property])
}
