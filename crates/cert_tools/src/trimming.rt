//! An answer that loses what it does not need. The main call is `trim`.

ghost use Rattle.std.specs.Prelude.{◌≡◌, ◌≤◌, ℕ, List, Some, length, IfOk};
ghost use Rattle.answer_lines.specs.Left.{most_bytes};
ghost use Rattle.certificate.specs.Loading.{IsHeld, HoldsAnswer, printed_text};
ghost use Rattle.certificate.specs.Certificates.{IsGoodCertificate};
ghost use Rattle.certificate.specs.declared.loaded.Loaded.TheVariants.{Lasso as LassoOf, Holds as HoldsOf};
ghost use Rattle.cert_tools.specs.Trimmed.{IsTrimmed};

use crate::entries::{needed, trimmed_entries};
use crate::laws::trimmed_answers_are_good;
use crate::shortening::kept_proof;
use crate::uses::{renumbered, uses_empty};
use aig_semantics::{Lasso, Stimulus};
use certificate::{Certificate, Loaded};
use certificate_lines::Version;
use circuit::Circuit;
use items::Items;
use std::alloc::{AllocError, Global};

/// Of a certificate what its refutation needs: the entries that it reaches through uses, in their order and renumbered, and
/// of each proof the additions that its first empty addition reaches through hints, and none where an empty clause was
/// given. Of a stimulus the lasso that it stands for. The answer is one of the circuit's, as `load` gives it. The error is
/// want of memory.
pub fn trim(alloc: Global, circuit: &Circuit, loaded: &Loaded) -> Result<Loaded, AllocError>
    requires { IsHeld circuit.now loaded.now }
    ensures trimmed { IfOk result (IsTrimmed circuit.now loaded.now) }
    // What is printed of it is a good answer that has it, where it is within the limit on its length,
    ensures good { IfOk result (λ trimmed. length (printed_text trimmed) ≤ most_bytes
        → HoldsAnswer circuit.now (printed_text trimmed) trimmed) }
    // and it is what it is trimmed to.
    ensures again { IfOk result (λ trimmed. IsTrimmed circuit.now trimmed trimmed) }
{
    trimmed_answers_are_good(circuit);
    trimmed_of(alloc, circuit, loaded)
}

fn trimmed_of(alloc: Global, circuit: &Circuit, loaded: &Loaded) -> Result<Loaded, AllocError>
    requires { IsHeld circuit.now loaded.now }
    ensures { IfOk result (IsTrimmed circuit.now loaded.now) }
{
    match loaded {
        Loaded::Lasso {
            property,
            lasso,
            ..
        } => trimmed_lasso(alloc, *property, lasso),
        Loaded::Holds {
            property,
            certificate,
        } => trimmed_holds(alloc, circuit, *property, certificate),
    }
}

fn copied_rows(alloc: Global, rows: &[Items<bool>]) -> Result<Items<Items<bool>>, AllocError>
    ensures { IfOk result (λ copy. copy ≡ rows.now) }
{
    let mut copy = Items::new(alloc);
    for row in rows {
        copy.push(row.try_copy(alloc)?)?;
    }
    Ok(copy)
}

fn copied(alloc: Global, lasso: &Lasso) -> Result<Lasso, AllocError>
    ensures { IfOk result (λ copy. copy ≡ lasso.now) }
{
    let inputs = copied_rows(alloc, lasso.inputs.as_slice())?;
    let start = lasso.start.try_copy(alloc)?;
    Ok(Lasso {
        start,
        inputs,
        from: lasso.from,
    })
}

// The lasso, with its own stimulus.
fn trimmed_lasso(alloc: Global, property: u32, lasso: &Lasso) -> Result<Loaded, AllocError>
    ensures { IfOk result (λ trimmed. trimmed
        ≡ LassoOf property (record { latches = lasso.now.start; inputs = lasso.now.inputs }) lasso.now) }
{
    let inputs = copied_rows(alloc, lasso.inputs.as_slice())?;
    let latches = lasso.start.try_copy(alloc)?;
    let lasso = copied(alloc, lasso)?;
    Ok(Loaded::Lasso {
        property,
        stimulus: Stimulus { latches, inputs },
        lasso,
    })
}

fn trimmed_holds(
    alloc: Global,
    _circuit: &Circuit,
    property: u32,
    whole: &Certificate,
) -> Result<Loaded, AllocError>
    requires { IsGoodCertificate _circuit.now property whole.now }
    ensures { IfOk result (IsTrimmed _circuit.now (HoldsOf property whole.now)) }
{
    let entries = whole.entries.as_slice();
    let needed = needed(alloc, whole)?;
    let uses = renumbered(alloc, whole.uses.as_slice(), needed.places.as_slice())?;
    let given_empty = uses_empty(entries, whole.uses.as_slice());
    let proof = kept_proof(alloc, given_empty, &whole.proof)?;
    let entries = trimmed_entries(alloc, entries, &needed)?;
    Ok(Loaded::Holds {
        property,
        certificate: Certificate {
            version: Version::Two,
            entries,
            uses,
            proof,
        },
    })
}
