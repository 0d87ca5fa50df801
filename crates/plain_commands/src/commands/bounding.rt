//! The command `shortest`: reads MODEL, looks for a lasso of a property with the fewest positions, and makes the text of what is
//! known. The main call is `find_shortest`. Writes nothing.

ghost use Rattle.std.specs.Prelude.{◌≡◌, ◌<◌, ◌≤◌, ◌∷◌, [], length, false, IfOk, IfErr};
ghost use Rattle.edge.specs.Faults.{NoneFell};
ghost use Rattle.edge.specs.Reads.{KeepsTexts};
ghost use Rattle.sheet_answers.specs.declared.ends.Judged.{Judged as JudgedOf};
ghost use Rattle.lasso_bmc.specs.Searching.{IsShortest, IsSearched, IsSearchEnd};
ghost use Rattle.edge.specs.Units.{limit_of};
ghost use Rattle.plain_commands.specs.Check.{done_by};
ghost use Rattle.plain_commands.specs.Shortest.{EndsShortest, GivesShortest, DecidesShortest, ShownByShortest};
ghost use Rattle.plain_commands.specs.Answering.{IsSilent, GivesVerdict, FailedOf, ReadsModelFirst};
ghost use Rattle.plain_commands.specs.Statuses.{status_in, is_read_fault};
ghost use Rattle.plain_commands.specs.Texts.{depth_text};

use crate::models::model_of;
use crate::reports::text_of_depth;
use crate::status::{Done, Status};
use crate::texts::{Ending, with_text};
use aig_semantics::Lasso;
use certificate::{good_answers_are_true, written_stimuli_are_good};
use circuit::Circuit;
use command_lines::ShortestRequest;
use edge::{Meter, Shelf};
use lasso_bmc::{SearchEnd, Searched, search};
use lasso_join::shortest_prefix;
use std::alloc::{AllocError, Global};
use stimulus::Stimulus;

/// Steps are not counted, so they have no limit.
const NO_LIMIT: u64 = 4_294_967_295;

/// Reads the model and looks for a shortest lasso of its property: the status with which the command ends and the text that it
/// writes, but for its writing; or the status of a run that writes nothing, `ReadFault` or `Memory`.
pub fn find_shortest<H: Shelf>(
    alloc: Global,
    shelf: &mut H,
    model: &str,
    request: &ShortestRequest,
) -> Result<Ending, Status>
    ensures found { IfOk result (λ ending. GivesShortest (H.held shelf.old model.now) request.now ending.status ending.text.items) }
    ensures silent { IfErr result IsSilent }
    ensures aloud { IfOk result (λ ending. is_read_fault ending.status ≡ false) }
    ensures exactly { (verdict : Status) → DecidesShortest (H.held shelf.old model.now) request.now verdict
        → GivesVerdict verdict (status_in result) }
    ensures shown { (accepted : JudgedOf) → status_in result ≡ Status.Done (done_by accepted)
        → ShownByShortest (H.held shelf.old model.now) accepted }
    ensures read { status_in result ≡ Status.ReadFault
        → FailedOf (H.held shelf.old) (model.now ∷ []) (H.faults shelf.old) (H.faults shelf.new) }
    ensures reads { ReadsModelFirst H.reads (H.held shelf.old) (model.now ∷ []) (is_read_fault (status_in result)) shelf.old shelf.new }
    ensures counts { NoneFell (H.faults shelf.old) (H.faults shelf.new) }
    ensures kept { KeepsTexts (H.held shelf.old) (H.held shelf.new) }
{
    match model_of(alloc, shelf, model) {
        Ok(found) => {
            let ending = bounded(alloc, found.circuit(), request);
            drop(found);
            ending
        }
        Err(status) => with_text(alloc, status),
    }
}

// The same for a circuit.
fn bounded(alloc: Global, circuit: &Circuit, request: &ShortestRequest) -> Result<Ending, Status>
    ensures found { IfOk result (λ ending. EndsShortest circuit.now request.now ending.status ending.text.items) }
    ensures ended { IfErr result (λ status. status ≡ Status.Memory) }
{
    if request.property as usize >= circuit.property_count() {
        return with_text(alloc, Status::NoProperty(request.property));
    }
    searched(alloc, circuit, request)
}

// The same for a property that is there.
fn searched(alloc: Global, circuit: &Circuit, request: &ShortestRequest) -> Result<Ending, Status>
    requires { request.now.property < length circuit.now.justice }
    ensures found { IfOk result (λ ending. EndsShortest circuit.now request.now ending.status ending.text.items) }
    ensures ended { IfErr result (λ status. status ≡ Status.Memory) }
{
    let mut meter = Meter::new(request.conflicts, NO_LIMIT);
    match search(
        alloc,
        circuit,
        request.property,
        0,
        request.depth,
        &mut meter,
    ) {
        Ok(found) => told(alloc, circuit, request, found),
        Err(end) => cut_short(alloc, circuit, request, end, &meter),
    }
}

// What was found, as a text.
fn told(
    alloc: Global,
    circuit: &Circuit,
    request: &ShortestRequest,
    found: Searched,
) -> Result<Ending, Status>
    requires property { request.now.property < length circuit.now.justice }
    requires searched { IsSearched circuit.now request.now.property request.now.depth found }
    ensures found { IfOk result (λ ending. EndsShortest circuit.now request.now ending.status ending.text.items) }
    ensures ended { IfErr result (λ status. status ≡ Status.Memory) }
{
    match found {
        Searched::Found(lasso) => printed(alloc, circuit, request, lasso),
        Searched::NoneWithin => with_text(
            alloc,
            Status::Done(Done::NoneWithin {
                property: request.property,
                depth: request.depth,
            }),
        ),
    }
}

// What a search that is cut short has done.
fn cut_short(
    alloc: Global,
    circuit: &Circuit,
    request: &ShortestRequest,
    end: SearchEnd,
    meter: &Meter,
) -> Result<Ending, Status>
    requires property { request.now.property < length circuit.now.justice }
    requires end { IsSearchEnd circuit.now request.now.property 0 request.now.depth meter.now end }
    requires limit { meter.now.conflict_limit ≡ limit_of request.now.conflicts }
    ensures found { IfOk result (λ ending. EndsShortest circuit.now request.now ending.status ending.text.items) }
    ensures ended { IfErr result (λ status. status ≡ Status.Memory) }
{
    match end {
        SearchEnd::Spent(_, done) => open_at(alloc, request, done, meter),
        SearchEnd::Memory => Err(Status::Memory),
    }
}

fn open_at(
    alloc: Global,
    request: &ShortestRequest,
    done: u32,
    meter: &Meter,
) -> Result<Ending, Status>
    ensures status { IfOk result (λ ending. ending.status ≡ Status.OpenDepth done meter.now) }
    ensures text { IfOk result (λ ending. ending.text.items ≡ depth_text request.now.property done request.now.depth meter.now) }
    ensures ended { IfErr result (λ status. status ≡ Status.Memory) }
{
    let spent = meter.spending();
    match text_of_depth(alloc, request, done, &spent) {
        Ok(text) => Ok(Ending {
            status: Status::OpenDepth { done, spent },
            text,
        }),
        Err(_) => Err(Status::Memory),
    }
}

// The answer with the stimulus of a shortest lasso.
fn printed(
    alloc: Global,
    circuit: &Circuit,
    request: &ShortestRequest,
    lasso: Lasso,
) -> Result<Ending, Status>
    requires property { request.now.property < length circuit.now.justice }
    requires shortest { IsShortest circuit.now request.now.property lasso }
    requires within { length lasso.inputs ≤ request.now.depth }
    ensures found { IfOk result (λ ending. EndsShortest circuit.now request.now ending.status ending.text.items) }
    ensures ended { IfErr result (λ status. status ≡ Status.Memory) }
{
    match stimulus_text(alloc, circuit, request, lasso) {
        Ok(ending) => Ok(ending),
        Err(_) => Err(Status::Memory),
    }
}

fn stimulus_text(
    alloc: Global,
    circuit: &Circuit,
    request: &ShortestRequest,
    lasso: Lasso,
) -> Result<Ending, AllocError>
    requires property { request.now.property < length circuit.now.justice }
    requires shortest { IsShortest circuit.now request.now.property lasso }
    requires within { length lasso.inputs ≤ request.now.depth }
    ensures { IfOk result (λ ending. EndsShortest circuit.now request.now ending.status ending.text.items) }
{
    written_stimuli_are_good(circuit);
    good_answers_are_true(circuit);
    let j = request.property;
    let short = shortest_prefix(alloc, circuit, j, lasso)?;
    let Lasso {
        start,
        inputs,
        from,
    } = short;
    let positions = inputs.len() as u64;
    let stimulus = Stimulus {
        latches: start,
        inputs,
    };
    let text = stimulus::write(alloc, j, &stimulus)?;
    Ok(Ending {
        status: Status::Done(Done::Lasso {
            property: j,
            positions,
            from,
        }),
        text,
    })
}
