//! The text of MODEL, read. The main call is `model_of`.

ghost use Rattle.std.specs.Prelude.{◌≡◌, ◌⊎◌, ◌↔◌, Ok, Err, IsTrue, IfOk, IfErr};
ghost use Rattle.edge.specs.Faults.{Rose, NoneFell};
ghost use Rattle.edge.specs.Reads.{KeepsTexts};
ghost use Rattle.circuit.specs.declared.faults.ModelFault.{ModelFault as FaultOf};
ghost use Rattle.aiger_grammar.specs.Models.{Model as ModelOf};
ghost use Rattle.aiger_grammar.specs.BothForms.{SameFault};
ghost use Rattle.plain_commands.specs.ModelTexts.{is_binary, IsTextIn, HasFaultIn, IsModelText, IsBadModel};
ghost use Rattle.plain_commands.specs.Judged.{IsModelOf, EndsWithoutModel};
ghost use Rattle.plain_commands.specs.Answering.{ReadsModel};
ghost use Rattle.plain_commands.specs.Statuses.{has_read_fault};

use crate::status::Status;
use aig_semantics::MAX_MODEL_BYTES;
use aiger_names::Model;
use circuit::ModelEnd;
use edge::{Shelf, read_text};
use std::alloc::Global;

/// The model whose text the shelf holds under the name. It is read to the limit on a model's text and one byte more.
pub fn model_of<H: Shelf>(alloc: Global, shelf: &mut H, name: &str) -> Result<Model, Status>
    ensures found { IfOk result (IsModelOf (H.held shelf.old name.now)) }
    ensures ended { IfErr result (EndsWithoutModel (H.held shelf.old name.now)) }
    ensures read { result ≡ Err Status.ReadFault → Rose (H.faults shelf.old name.now) (H.faults shelf.new name.now) }
    ensures reads { ReadsModel H.reads name.now (has_read_fault result) shelf.old shelf.new }
    ensures counts { NoneFell (H.faults shelf.old) (H.faults shelf.new) }
    ensures kept { KeepsTexts (H.held shelf.old) (H.held shelf.new) }
{
    let bytes = read_text(alloc, shelf, name, MAX_MODEL_BYTES)?;
    match read_model(alloc, &bytes) {
        Ok(model) => Ok(model),
        Err(ModelEnd::Fault(fault)) => Err(Status::BadModel(fault)),
        Err(ModelEnd::Memory) => Err(Status::Memory),
    }
}

/// The model of a text, whose first bytes tell its form.
fn read_model(alloc: Global, bytes: &[u8]) -> Result<Model, ModelEnd>
    ensures found { IfOk result (λ m. IsModelText m bytes.now) }
    ensures every { (m : ModelOf) → IsModelText m bytes.now → (result ≡ Ok m) ⊎ (result ≡ Err ModelEnd.Memory) }
    ensures fault { (fault : FaultOf) → result ≡ Err (ModelEnd.Fault fault) → IsBadModel bytes.now fault }
    ensures first { (fault : FaultOf) → IsBadModel bytes.now fault
        → ((found : FaultOf) × (result ≡ Err (ModelEnd.Fault found)) × SameFault found fault) ⊎ (result ≡ Err ModelEnd.Memory) }
{
    read_in(alloc, is_binary(bytes), bytes)
}

/// The model of a text in this form.
fn read_in(alloc: Global, binary: bool, bytes: &[u8]) -> Result<Model, ModelEnd>
    ensures found { IfOk result (λ m. IsTextIn binary m bytes.now) }
    ensures every { (m : ModelOf) → IsTextIn binary m bytes.now → (result ≡ Ok m) ⊎ (result ≡ Err ModelEnd.Memory) }
    ensures fault { (fault : FaultOf) → result ≡ Err (ModelEnd.Fault fault) → HasFaultIn binary bytes.now fault }
    ensures first { (fault : FaultOf) → HasFaultIn binary bytes.now fault
        → ((found : FaultOf) × (result ≡ Err (ModelEnd.Fault found)) × SameFault found fault) ⊎ (result ≡ Err ModelEnd.Memory) }
{
    if binary {
        aiger_binary::read(alloc, bytes)
    } else {
        aiger_ascii::read(alloc, bytes)
    }
}

/// Whether the text begins as a binary one does.
fn is_binary(bytes: &[u8]) -> bool
    ensures { result ≡ is_binary bytes.now }
{
    if bytes.len() < 2 {
        return false;
    }
    is_word(&bytes[..2], b"ai")
}

/// Whether the bytes are this word.
fn is_word(bytes: &[u8], word: &[u8]) -> bool
    ensures { IsTrue result ↔ (bytes.now ≡ word.now) }
{
    bytes == word
}
