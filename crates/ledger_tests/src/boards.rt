//! A board of the circuit whose latch stays at 0, and what two workers find of it.

ghost use Rattle.std.specs.Prelude.{◌≡◌, ℕ, ◌<◌, ◌≤◌, ◌∷◌, [], true, false, length, OnOk, IfOk, IfSome};
ghost use Rattle.std.specs.Arc.{arc_value};
ghost use Rattle.aig_semantics.specs.Examples.{stuck};
ghost use Rattle.circuit.specs.Sections.{circuit_of};
ghost use Rattle.aig_semantics.specs.Stimuli.{IsFairLassoOf};
ghost use Rattle.fair_semantics.specs.Examples.{latch_entry, one_situation};
ghost use Rattle.entry.specs.Entries.{said};
ghost use Rattle.entry.specs.Proved.{IsProved};
ghost use Rattle.wall_store.specs.Boards.{most_entries, properties_of};
ghost use Rattle.wall_store.specs.Events.{Posts};
ghost use Rattle.ledger_tests.specs.Boards.{IsFindOf, IsUnseen};

use aig_semantics::{Lasso, Latch, Position, Reset};
use circuit::{Circuit, ModelEnd, Parts, check_circuit, is_fair_lasso};
use cnf::{Clause, Lit};
use cnf_unroll::ClauseSet;
use entry::{
    Checked, Entry, EntryEnd, Kind, check_entry, good_lists_grow, proved_entries_are_valid,
};
use fair_semantics::{Situation, Skeleton};
use items::Items;
use std::alloc::{AllocError, Global};
use std::sync::Arc;
use wall_store::{Board, Finished, Outcome, Posted, sound_lists_grow};

fn stuck_parts(alloc: Global) -> Result<Parts, AllocError>
    ensures { IfOk result (λ parts. circuit_of parts ≡ stuck) }
{
    let mut justice = Items::new(alloc);
    justice.push(Items::from_slice(alloc, &[2])?)?;
    let latch = Latch {
        var: 1,
        next: 2,
        reset: Reset::Zero,
    };
    let latches = Items::from_slice(alloc, &[latch])?;
    Ok(Parts {
        max: 1,
        inputs: Items::new(alloc),
        latches,
        gates: Items::new(alloc),
        outputs: Items::new(alloc),
        bad: Items::new(alloc),
        constraints: Items::new(alloc),
        justice,
        fairness: Items::new(alloc),
    })
}

/// The circuit of these parts.
pub fn circuit_of(alloc: Global, parts: &Parts) -> Result<Circuit, ModelEnd>
    ensures { IfOk result (λ c. c ≡ circuit_of parts.now) }
{
    if !parts.is_in_range() {
        return Err(ModelEnd::Memory);
    }
    check_circuit(alloc, parts)
}

/// The circuit whose latch stays at 0; its property is that the latch is 1.
pub fn stuck(alloc: Global) -> Result<Circuit, ModelEnd>
    ensures { IfOk result (λ c. c ≡ stuck) }
{
    let parts = stuck_parts(alloc)?;
    let c = circuit_of(alloc, &parts);
    drop(parts);
    c
}

/// The skeleton of one position with this state, and its successor.
pub fn skeleton_of(
    alloc: Global,
    latches: Items<bool>,
    successor: Items<bool>,
) -> Result<Skeleton, AllocError>
    ensures { IfOk result (λ s. s ≡ record {
      situations = record { position = record { latches = latches; inputs = [] }; successor = successor } ∷ [];
    }) }
{
    let position = Position {
        latches,
        inputs: Items::new(alloc),
    };
    let situation = Situation {
        position,
        successor,
    };
    let mut situations = Items::new(alloc);
    situations.push(situation)?;
    Ok(Skeleton { situations })
}

// The skeleton in which the latch is 1.
fn skeleton(alloc: Global) -> Result<Skeleton, AllocError>
    ensures { IfOk result (λ s. s ≡ one_situation true true) }
{
    let latches = Items::from_slice(alloc, &[true])?;
    let successor = Items::from_slice(alloc, &[true])?;
    skeleton_of(alloc, latches, successor)
}

// The set of the clause of this literal.
fn set_of(alloc: Global, literal: Lit) -> Result<ClauseSet, AllocError>
    ensures { IfOk result (λ set. set ≡ (literal ∷ []) ∷ []) }
{
    let clause = Clause::from_slice(alloc, &[literal])?;
    let mut set = Items::new(alloc);
    set.push(clause)?;
    Ok(set)
}

/// The proof of this line.
pub fn proof_of(alloc: Global, line: &str) -> Result<Items<Items<u8>>, AllocError> {
    let line = Items::from_slice(alloc, line.as_bytes())?;
    let mut proof = Items::new(alloc);
    proof.push(line)?;
    Ok(proof)
}

// One proof, of this line.
fn proofs_of(alloc: Global, line: &str) -> Result<Items<Items<Items<u8>>>, AllocError>
    ensures { IfOk result (λ proofs. length proofs ≡ 1) }
{
    let proof = proof_of(alloc, line)?;
    let mut proofs = Items::new(alloc);
    proofs.push(proof)?;
    Ok(proofs)
}

/// The entry that a literal is true in each state that is reached, with a proof of this line.
pub fn entry_of(alloc: Global, literal: Lit, line: &str) -> Result<Entry, AllocError>
    ensures said { IfOk result (λ e. said e ≡ record { kind = Kind.Reach; clauses = (literal ∷ []) ∷ []; uses = [] }) }
    ensures count { IfOk result (λ e. length e.proofs ≡ 1) }
{
    let set = set_of(alloc, literal)?;
    match proofs_of(alloc, line) {
        Ok(proofs) => Ok(Entry {
            kind: Kind::Reach,
            set,
            uses: Items::new(alloc),
            proofs,
        }),
        Err(failed) => {
            drop(set);
            Err(failed)
        }
    }
}

// The entry that the latch is 0 in each state that is reached, with its proof.
fn at_0(alloc: Global) -> Result<Entry, AllocError>
    ensures said { IfOk result (λ e. said e ≡ latch_entry Kind.Reach false []) }
    ensures count { IfOk result (λ e. length e.proofs ≡ 1) }
{
    let literal = Lit {
        var: 0,
        positive: false,
    };
    entry_of(alloc, literal, "6 0 4 2 5 0")
}

fn judge(alloc: Global, c: &Circuit, e: &Entry) -> Result<(), EntryEnd>
    requires circuit { c.now ≡ stuck }
    requires said { said e.now ≡ latch_entry Kind.Reach false [] }
    requires count { length e.now.proofs ≡ 1 }
    ensures { OnOk result (IsProved c.now [] (said e.now) e.now.proofs) }
{
    check_entry(alloc, c, &[], e)?;
    Ok(())
}

fn checked(alloc: Global, shared: &Arc<Circuit>, author: u32, e: Entry) -> Result<Checked, EntryEnd>
    requires circuit { arc_value shared.now ≡ stuck }
    requires said { said e ≡ latch_entry Kind.Reach false [] }
    requires count { length e.proofs ≡ 1 }
    ensures { IfOk result (λ found. IsFindOf author found) }
{
    let c: &Circuit = &**shared;
    judge(alloc, c, &e)?;
    proved_entries_are_valid(c);
    good_lists_grow(c);
    let skeleton = skeleton(alloc)?;
    Ok(Checked::new(alloc, shared, &[], e, author, 1, skeleton)?)
}

/// What this worker finds in its turn 1, where it has seen no entry.
pub fn find(alloc: Global, shared: &Arc<Circuit>, author: u32) -> Result<Arc<Checked>, EntryEnd>
    requires { arc_value shared.now ≡ stuck }
    ensures { IfOk result (λ found. IsFindOf author (arc_value found)) }
{
    let e = at_0(alloc)?;
    Ok(Arc::new(alloc, checked(alloc, shared, author, e)?)?)
}

/// A board of that circuit for two workers.
pub fn board_of_stuck(alloc: Global, shared: &Arc<Circuit>, limit: u32) -> Result<Board, AllocError>
    requires circuit { arc_value shared.now ≡ stuck }
    requires limit { limit ≤ most_entries }
    ensures { IfOk result (λ b. (worker : ℕ) → worker < 2 → IsUnseen b worker) }
{
    sound_lists_grow(&**shared);
    Board::new(alloc, shared, &[0], 2, limit, &[])
}

/// A worker that has seen no entry posts what it found.
pub fn post_unseen(board: &mut Board, worker: u32, found: Arc<Checked>) -> Posted
    requires unseen { IsUnseen board.old worker }
    requires found { IsFindOf worker (arc_value found) }
    ensures posts { Posts board.old worker (arc_value found) result board.new }
    ensures others { (v : ℕ) → (v ≡ worker → ⊥) → IsUnseen board.old v → IsUnseen board.new v }
{
    board.post(worker, found)
}

/// Two workers that have seen no entry post what they found, one after the other.
pub fn both_post(board: &mut Board, one: Arc<Checked>, other: Arc<Checked>) -> (Posted, Posted)
    requires first { IsUnseen board.old 0 }
    requires second { IsUnseen board.old 1 }
    requires one { IsFindOf 0 (arc_value one) }
    requires other { IsFindOf 1 (arc_value other) }
{
    let first = post_unseen(board, 0, one);
    let second = post_unseen(board, 1, other);
    (first, second)
}

fn push_two(alloc: Global, inputs: &mut Items<Items<bool>>) -> Result<(), AllocError> {
    inputs.push(Items::new(alloc))?;
    inputs.push(Items::new(alloc))?;
    Ok(())
}

fn no_inputs_twice(alloc: Global) -> Result<Items<Items<bool>>, AllocError> {
    let mut inputs = Items::new(alloc);
    push_two(alloc, &mut inputs)?;
    Ok(inputs)
}

// A lasso of two positions that go back to the first: the latch begins with 0.
fn lasso(alloc: Global) -> Result<Lasso, AllocError> {
    let start = Items::from_slice(alloc, &[false])?;
    let inputs = no_inputs_twice(alloc)?;
    Ok(Lasso {
        start,
        inputs,
        from: 0,
    })
}

/// That lasso, where it is a fair lasso of property 0.
pub fn fair_lasso(alloc: Global, c: &Circuit) -> Result<Option<Lasso>, AllocError>
    ensures { IfOk result (λ found. IfSome found (λ l. IsFairLassoOf c.now 0 l)) }
{
    let lasso = lasso(alloc)?;
    match is_fair_lasso(alloc, c, 0, &lasso) {
        Ok(true) => Ok(Some(lasso)),
        Ok(false) => {
            drop(lasso);
            Ok(None)
        }
        Err(failed) => {
            drop(lasso);
            Err(failed)
        }
    }
}

/// A board of any circuit with a property, for one worker.
pub fn board_of(alloc: Global, c: &Arc<Circuit>) -> Result<Board, AllocError>
    requires { 0 < length (arc_value c.now).justice }
    ensures circuit { IfOk result (λ b. b.circuit ≡ arc_value c.now) }
    ensures served { IfOk result (λ b. properties_of b.served ≡ 0 ∷ []) }
    ensures workers { IfOk result (λ b. b.workers ≡ 1) }
{
    sound_lists_grow(&**c);
    Board::new(alloc, c, &[0], 1, 1, &[])
}

/// Worker 0 hands in a lasso.
pub fn hand_in(board: &mut Board, lasso: Lasso) -> Finished
    requires worker { 0 < board.old.workers }
    requires served { properties_of board.old.served ≡ 0 ∷ [] }
    requires fair { IsFairLassoOf board.old.circuit 0 lasso }
    ensures circuit { board.new.circuit ≡ board.old.circuit }
    ensures served { properties_of board.new.served ≡ 0 ∷ [] }
    ensures workers { board.new.workers ≡ board.old.workers }
{
    board.finish(0, 0, Outcome::Lasso(lasso))
}

/// Worker 0 hands in that lasso, where it is fair.
pub fn hand_in_fair(
    alloc: Global,
    c: &Circuit,
    board: &mut Board,
) -> Result<Option<Finished>, AllocError>
    requires circuit { board.old.circuit ≡ c.now }
    requires worker { 0 < board.old.workers }
    requires served { properties_of board.old.served ≡ 0 ∷ [] }
    ensures circuit { board.new.circuit ≡ board.old.circuit }
    ensures served { properties_of board.new.served ≡ 0 ∷ [] }
    ensures workers { board.new.workers ≡ board.old.workers }
{
    match fair_lasso(alloc, c)? {
        Some(lasso) => Ok(Some(hand_in(board, lasso))),
        None => Ok(None),
    }
}
