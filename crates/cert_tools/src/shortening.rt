//! Proofs that lose what their first empty addition does not need. The main calls are `kept_proof` and `kept_proofs`.

ghost use Rattle.std.specs.Prelude.{◌≡◌, ◌++◌, ◌∷◌, [], ℕ, List, Some, false, true, IfOk, OnOk, map};
ghost use Rattle.std.specs.List.{list_any};
ghost use Rattle.proof_semantics.specs.declared.literals.Lit.{Lit as LitOf};
ghost use Rattle.proof_semantics.specs.Lines.{line_of};
ghost use Rattle.proof_semantics.specs.Proofs.{is_empty, ids_of, Refutes};
ghost use Rattle.cert_tools.specs.TrimmedProofs.{IsTrimmedProof, AreTrimmedProofs};
ghost use Rattle.cert_tools.specs.TrimmingProofs.{AreRefuted, node_in, nodes_of, empty_in, first_empty, is_needed, needed_lines, GetsLine};

use crate::reaching::{Node, Numbers, reached};
use cnf::{Proof, ProofLine};
use items::Items;
use lrat::{Kind as LineKind, read_line};
use proof_semantics::Lit;
use std::alloc::{AllocError, Global};

// What trimming keeps of an accepted proof, of clauses of which none is empty.
fn trimmed_proof(alloc: Global, lines: &[ProofLine]) -> Result<Proof, AllocError>
    requires { (given : List (List LitOf)) × Refutes given lines.now × (list_any is_empty given ≡ false) }
    ensures { IfOk result (λ kept. (given : List (List LitOf)) → Refutes given lines.now → list_any is_empty given ≡ false
        → IsTrimmedProof given lines.now kept) }
{
    let nodes = nodes_of(alloc, lines)?;
    let last = last_of(alloc, lines)?;
    let numbers = reached(alloc, nodes.as_slice(), &[last])?;
    needed_lines(alloc, lines, &numbers)
}

// The id of the first empty addition.
fn last_of(alloc: Global, lines: &[ProofLine]) -> Result<u64, AllocError>
    requires { (given : List (List LitOf)) × Refutes given lines.now × (list_any is_empty given ≡ false) }
    ensures { IfOk result (λ last. first_empty lines.now ≡ Some last) }
{
    match first_empty(alloc, lines)? {
        Some(last) => Ok(last),
        None => unreachable!(),
    }
}

fn nodes_of(alloc: Global, lines: &[ProofLine]) -> Result<Vec<Node>, AllocError>
    ensures { IfOk result (λ nodes. nodes.items ≡ nodes_of lines.now) }
{
    let mut nodes = Vec::new(alloc);
    for line in lines {
        push_node(alloc, &mut nodes, line.as_slice())?;
    }
    Ok(nodes)
}

fn push_node(alloc: Global, nodes: &mut Vec<Node>, line: &[u8]) -> Result<(), AllocError>
    ensures { OnOk result (nodes.new.items ≡ nodes.old.items ++ node_in (line_of line.now)) }
{
    let mut literals = Vec::new(alloc);
    let mut hints = Vec::new(alloc);
    match read_line(line, &mut literals, &mut hints)? {
        Some(LineKind::Addition(number)) => {
            let further = ids_of(alloc, hints.as_slice())?;
            nodes.push(Node { number, further })?;
            Ok(())
        }
        _ => Ok(()),
    }
}

fn ids_of(alloc: Global, hints: &[Lit]) -> Result<Items<u64>, AllocError>
    ensures { IfOk result (λ ids. ids ≡ ids_of hints.now) }
{
    let mut ids = Items::new(alloc);
    for hint in hints {
        ids.push(hint.var)?;
    }
    Ok(ids)
}

fn first_empty(alloc: Global, lines: &[ProofLine]) -> Result<Option<u64>, AllocError>
    ensures { IfOk result (λ last. last ≡ first_empty lines.now) }
{
    for line in lines {
        match empty_in(alloc, line.as_slice())? {
            Some(id) => return Ok(Some(id)),
            None => (),
        }
    }
    Ok(None)
}

fn empty_in(alloc: Global, line: &[u8]) -> Result<Option<u64>, AllocError>
    ensures { IfOk result (λ id. id ≡ empty_in (line_of line.now)) }
{
    let mut literals = Vec::new(alloc);
    let mut hints = Vec::new(alloc);
    match read_line(line, &mut literals, &mut hints)? {
        Some(LineKind::Addition(id)) => Ok(if literals.as_slice().is_empty() {
            Some(id)
        } else {
            None
        }),
        _ => Ok(None),
    }
}

/// What trimming keeps of an accepted proof, where it is known whether an empty clause was given.
pub(crate) fn kept_proof(
    alloc: Global,
    given_empty: bool,
    proof: &Proof,
) -> Result<Proof, AllocError>
    requires { (given : List (List LitOf)) × Refutes given proof.now × (list_any is_empty given ≡ given_empty) }
    ensures { IfOk result (λ kept. (given : List (List LitOf)) → Refutes given proof.now → list_any is_empty given ≡ given_empty
        → IsTrimmedProof given proof.now kept) }
{
    if given_empty {
        return Ok(Items::new(alloc));
    }
    trimmed_proof(alloc, proof.as_slice())
}

/// The same of the proofs of an entry's clauses, whose obligations all have an empty clause or none has.
pub(crate) fn kept_proofs(
    alloc: Global,
    given_empty: bool,
    proofs: &[Proof],
) -> Result<Items<Proof>, AllocError>
    requires { (obligation : ℕ → List (List LitOf)) × AreRefuted obligation 0 proofs.now
        × ((i : ℕ) → list_any is_empty (obligation i) ≡ given_empty) }
    ensures { IfOk result (λ kept. (obligation : ℕ → List (List LitOf)) → AreRefuted obligation 0 proofs.now
        → ((i : ℕ) → list_any is_empty (obligation i) ≡ given_empty) → AreTrimmedProofs obligation 0 proofs.now kept) }
{
    let mut kept = Items::new(alloc);
    for proof in proofs {
        kept.push(kept_proof(alloc, given_empty, proof)?)?;
    }
    Ok(kept)
}

fn needed_lines(alloc: Global, lines: &[ProofLine], numbers: &Numbers) -> Result<Proof, AllocError>
    ensures { IfOk result (λ kept. kept ≡ needed_lines numbers.now lines.now) }
{
    let mut kept = Items::new(alloc);
    for line in lines {
        let is_kept = is_needed(alloc, line.as_slice(), numbers)?;
        keep_if(alloc, &mut kept, is_kept, line)?;
    }
    Ok(kept)
}

fn keep_if(
    alloc: Global,
    kept: &mut Items<ProofLine>,
    is_kept: bool,
    line: &ProofLine,
) -> Result<(), AllocError>
    ensures { OnOk result (GetsLine is_kept line.now kept.old kept.new) }
{
    if !is_kept {
        return Ok(());
    }
    kept.push(line.try_copy(alloc)?)
}

#[tactic(auto, unfolding(crate::specs::TrimmingProofs::is_needed))]
fn is_needed(alloc: Global, line: &[u8], numbers: &Numbers) -> Result<bool, AllocError>
    ensures { IfOk result (λ needed. needed ≡ is_needed numbers.now line.now) }
{
    let mut literals = Vec::new(alloc);
    let mut hints = Vec::new(alloc);
    match read_line(line, &mut literals, &mut hints)? {
        Some(LineKind::Addition(id)) => Ok(numbers.has(id)),
        _ => Ok(false),
    }
}
