//! The sheet of a board: what it has of each property of the circuit, over its entries. The main call is `board_sheet`.

ghost use Rattle.std.specs.Prelude.{◌≡◌, ◌≤◌, ◌<◌, ◌+◌, length, take, Some, IfOk, OnOk};
ghost use Rattle.aig_semantics.specs.Stimuli.{IsFairLassoOf, StandsFor};
ghost use Rattle.lasso_join.specs.Prefixes.{stimulus_of};
ghost use Rattle.wall_store.specs.Boards.{outcome_of};
ghost use Rattle.wall_store.specs.declared.outcomes.Outcome.TheVariants.{Lasso as LassoFound};
ghost use Rattle.sheet_answers.specs.Sheets.{none, and_one, and_all, total, IsSheetWith, ShowsSheet};
ghost use Rattle.sheet_commands.specs.Boards.{IsBlockOf, AreBlocksOf, IsSheetOf};

use aig_semantics::{Lasso, Stimulus};
use circuit::Circuit;
use cnf::Proof;
use entry::Refutation;
use items::Items;
use lasso_join::shortest_prefix;
use sheet_answers::{Block, Counts, good_sheets_are_true, write, written_sheets_are_good};
use std::alloc::{AllocError, Global};
use wall_store::{Board, Outcome};

/// The text of a sheet, and how many blocks of each kind it has.
#[derive(Drop)]
pub struct BoardSheet {
    pub counts: Counts,
    pub text: Vec<u8>,
}

/// Writes the sheet of a board of the circuit: its entries, and a block for each property of the circuit, with the stimulus of
/// a lasso cut where it first stands for one, with a refutation, or open where the board has no outcome. The error is want of
/// memory.
pub fn board_sheet(
    alloc: Global,
    circuit: &Circuit,
    board: &Board,
) -> Result<BoardSheet, AllocError>
    requires { board.now.circuit ≡ circuit.now }
    ensures text { IfOk result (λ sheet. IsSheetOf circuit.now board.now sheet.counts sheet.text.items) }
    // It is a good sheet, and true.
    ensures good { IfOk result (λ sheet. IsSheetWith circuit.now sheet.text.items sheet.counts (length board.now.entries)) }
    ensures shown { IfOk result (λ sheet. ShowsSheet circuit.now sheet.counts) }
{
    written_sheets_are_good(circuit);
    good_sheets_are_true(circuit);
    board.holds();
    let blocks = blocks_of(alloc, circuit, board)?;
    let counts = counted(blocks.as_slice());
    let text = write(alloc, board.entries(), blocks.as_slice())?;
    Ok(BoardSheet { counts, text })
}

// A block for each property.
fn blocks_of(alloc: Global, circuit: &Circuit, board: &Board) -> Result<Vec<Block>, AllocError>
    requires { board.now.circuit ≡ circuit.now }
    ensures each { IfOk result (λ blocks. length blocks.items ≡ length circuit.now.justice) }
    ensures few { IfOk result (λ blocks. length blocks.items ≤ 4294967295) }
    ensures told { IfOk result (λ blocks. AreBlocksOf circuit.now board.now.served 0 blocks.items) }
{
    let _limits = circuit.max();
    let count = circuit.property_count();
    let mut blocks = Vec::new(alloc);
    for n in 0..count {
        push_block(alloc, circuit, board, n as u32, &mut blocks)?;
    }
    Ok(blocks)
}

// The block of one behind those before it.
fn push_block(
    alloc: Global,
    circuit: &Circuit,
    board: &Board,
    n: u32,
    blocks: &mut Vec<Block>,
) -> Result<(), AllocError>
    requires circuit { board.now.circuit ≡ circuit.now }
    requires before { length blocks.old.items ≡ n }
    requires told { AreBlocksOf circuit.now board.now.served 0 blocks.old.items }
    ensures one { OnOk result (length blocks.new.items ≡ n + 1) }
    ensures told { OnOk result (AreBlocksOf circuit.now board.now.served 0 blocks.new.items) }
{
    let block = block_of(alloc, circuit, board, n)?;
    blocks.push(block)?;
    Ok(())
}

fn block_of(alloc: Global, circuit: &Circuit, board: &Board, n: u32) -> Result<Block, AllocError>
    requires { board.now.circuit ≡ circuit.now }
    ensures { IfOk result (IsBlockOf circuit.now n (outcome_of board.now.served n)) }
{
    board.holds();
    match board.outcome(n) {
        Some(Outcome::Lasso(lasso)) => lasso_block(alloc, circuit, n, lasso),
        Some(Outcome::Holds(refutation)) => holds_block(alloc, refutation),
        None => Ok(Block::Open),
    }
}

// The first positions of a fair lasso, as many as its stimulus needs.
fn lasso_block(alloc: Global, circuit: &Circuit, n: u32, lasso: &Lasso) -> Result<Block, AllocError>
    requires { IsFairLassoOf circuit.now n lasso.now }
    ensures { IfOk result (IsBlockOf circuit.now n (Some (LassoFound lasso.now))) }
{
    let short = first_lasso(alloc, circuit, n, lasso)?;
    let Lasso {
        start,
        inputs,
        from: _,
    } = short;
    Ok(Block::Lasso(Stimulus {
        latches: start,
        inputs,
    }))
}

/// The fair lasso once more, cut where its stimulus first stands for one. The error is want of memory.
pub fn first_lasso(
    alloc: Global,
    circuit: &Circuit,
    j: u32,
    lasso: &Lasso,
) -> Result<Lasso, AllocError>
    requires { IsFairLassoOf circuit.now j lasso.now }
    ensures shortest { IfOk result (λ short. StandsFor circuit.now j (stimulus_of lasso.now) (length short.inputs) short.from) }
    ensures start { IfOk result (λ short. short.start ≡ lasso.now.start) }
    ensures inputs { IfOk result (λ short. short.inputs ≡ take (length short.inputs) lasso.now.inputs) }
    ensures whole { IfOk result (λ short. StandsFor circuit.now j (stimulus_of short) (length short.inputs) short.from) }
    ensures fair { IfOk result (λ short. IsFairLassoOf circuit.now j short) }
{
    shortest_prefix(alloc, circuit, j, copied(alloc, lasso)?)
}

fn copied(alloc: Global, lasso: &Lasso) -> Result<Lasso, AllocError>
    ensures { IfOk result (λ copy. copy ≡ lasso.now) }
{
    let inputs = copied_rows(alloc, lasso.inputs.as_slice())?;
    Ok(Lasso {
        start: lasso.start.try_copy(alloc)?,
        inputs,
        from: lasso.from,
    })
}

fn copied_rows(alloc: Global, rows: &[Items<bool>]) -> Result<Items<Items<bool>>, AllocError>
    ensures { IfOk result (λ copy. copy ≡ rows.now) }
{
    let mut copy = Items::new(alloc);
    for row in rows {
        copy.push(row.try_copy(alloc)?)?;
    }
    Ok(copy)
}

fn holds_block(alloc: Global, r: &Refutation) -> Result<Block, AllocError>
    ensures { IfOk result (λ block. block ≡ Block.Holds r.now) }
{
    let proof = copied_lines(alloc, &r.proof)?;
    let uses = r.uses.try_copy(alloc)?;
    Ok(Block::Holds(Refutation { uses, proof }))
}

fn copied_lines(alloc: Global, lines: &Proof) -> Result<Proof, AllocError>
    ensures { IfOk result (λ copy. copy ≡ lines.now) }
{
    let mut copy = Items::new(alloc);
    for line in lines.as_slice() {
        copy.push(line.try_copy(alloc)?)?;
    }
    Ok(copy)
}

// How many blocks of each kind there are.
fn counted(blocks: &[Block]) -> Counts
    requires { length blocks.now ≤ 4294967295 }
    ensures { result ≡ and_all none blocks.now }
{
    let mut counts = Counts {
        lassos: 0,
        holds: 0,
        unknown: 0,
    };
    for block in blocks {
        counts = and_one(counts, block);
    }
    counts
}

fn and_one(counts: Counts, block: &Block) -> Counts
    requires { total counts < 4294967295 }
    ensures { result ≡ and_one counts block.now }
{
    match block {
        Block::Lasso(_) => Counts {
            lassos: counts.lassos + 1,
            ..counts
        },
        Block::Holds(_) => Counts {
            holds: counts.holds + 1,
            ..counts
        },
        Block::Open => Counts {
            unknown: counts.unknown + 1,
            ..counts
        },
    }
}
