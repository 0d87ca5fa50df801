//! The command `gen`: the text of a generated model. The main call is `generate`. Writes nothing.

ghost use Rattle.std.specs.Prelude.{◌≡◌, ◌≤◌, IfOk, IfErr};
ghost use Rattle.aiger_grammar.specs.Ordered.{IsOrdered};
ghost use Rattle.plain_commands.specs.Gen.{asked_model, IsTextOfRequest};
ghost use Rattle.plain_commands.specs.declared.status.Done.TheVariants.{Printed};

use crate::status::{Done, Status};
use crate::texts::Ending;
use aiger_names::Model;
use command_lines::{GenKind, GenRequest};
use model_gen::{ring, scramble};
use std::alloc::{AllocError, Global};

/// The text of the model that is asked for. The error is `Memory`.
pub fn generate(alloc: Global, request: &GenRequest) -> Result<Ending, Status>
    requires some { 1 ≤ request.now.size }
    requires few { request.now.size ≤ 256 }
    ensures done { IfOk result (λ ending. ending.status ≡ Status.Done Printed) }
    ensures text { IfOk result (λ ending. IsTextOfRequest request.now ending.text.items) }
    ensures ended { IfErr result (λ status. status ≡ Status.Memory) }
{
    match generated_text(alloc, request) {
        Ok(text) => Ok(Ending {
            status: Status::Done(Done::Printed),
            text,
        }),
        Err(_) => Err(Status::Memory),
    }
}

fn generated_text(alloc: Global, request: &GenRequest) -> Result<Vec<u8>, AllocError>
    requires some { 1 ≤ request.now.size }
    requires few { request.now.size ≤ 256 }
    ensures { IfOk result (λ text. IsTextOfRequest request.now text.items) }
{
    let model = asked_model(alloc, request)?;
    let text = written(alloc, request, &model);
    drop(model);
    text
}

// The text of the model that is asked for, in the form that is asked for.
fn written(alloc: Global, request: &GenRequest, model: &Model) -> Result<Vec<u8>, AllocError>
    requires model { model.now ≡ asked_model request.now }
    requires ordered { IsOrdered model.now }
    ensures { IfOk result (λ text. IsTextOfRequest request.now text.items) }
{
    if request.binary {
        aiger_binary::write(alloc, model)
    } else {
        aiger_ascii::write(alloc, model)
    }
}

fn asked_model(alloc: Global, request: &GenRequest) -> Result<Model, AllocError>
    requires some { 1 ≤ request.now.size }
    requires few { request.now.size ≤ 256 }
    ensures model { IfOk result (λ model. model ≡ asked_model request.now) }
    ensures ordered { IfOk result IsOrdered }
{
    match request.kind {
        GenKind::Ring => ring(alloc, request.seed, request.size),
        GenKind::Scramble => scramble(alloc, request.seed, request.size),
    }
}
