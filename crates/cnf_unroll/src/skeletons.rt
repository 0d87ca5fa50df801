//! Skeletons as clauses. The main calls are `skeleton_cnf` and `unrolled_skeleton`.

ghost use Rattle.std.specs.Prelude.{◌≡◌, ◌+◌, ◌^◌, ◌<◌, ◌++◌, length, OnOk, IfOk};
ghost use Rattle.aig_semantics.specs.Circuits.{fair_literals};
ghost use Rattle.cnf_unroll.specs.Obligations.{blocks_clauses, blocks_places, literals_clauses, after_blocks, skeleton_clauses};
ghost use Rattle.cnf_unroll.specs.Lending.{lent_all};
ghost use Rattle.cnf_unroll.specs.Layout.{AreUseEnds};

use crate::blocks::push_block;
use crate::numbers::{literal_in_block, push_clause};
use crate::obligations::push_places;
use crate::places::Place;
use crate::used::Used;
use crate::uses::push_uses;
use circuit::Circuit;
use cnf::Db;
use items::Items;
use std::alloc::{AllocError, Global};

/// Clauses, and how many of them stand up to the end of those of the first k uses, for each k from 0 to the number of uses.
#[derive(Drop)]
pub struct Unrolled {
    pub clauses: Db,
    pub ends: Items<u64>,
}

fn fair_literals(alloc: Global, c: &Circuit, j: usize) -> Result<Items<u64>, AllocError>
    requires { j < length c.now.justice }
    ensures { IfOk result (λ literals. literals ≡ fair_literals c.now j) }
{
    let mut literals = Items::from_slice(alloc, c.property(j))?;
    for literal in c.fairness() {
        literals.push(*literal)?;
    }
    Ok(literals)
}

fn push_blocks<'a>(
    alloc: Global,
    db: &mut Db,
    places: &mut Items<Place<'a>>,
    c: &'a Circuit,
    count: u64,
) -> Result<u64, AllocError>
    requires { count < 2 ^ 32 }
    ensures clauses { OnOk result (db.new.clauses ≡ db.old.clauses ++ blocks_clauses c.now 0 count) }
    ensures places { OnOk result (places.new ≡ places.old ++ blocks_places c.now 0 count) }
    ensures base { IfOk result (λ base. base ≡ after_blocks c.now 0 count) }
    ensures small { IfOk result (λ base. base < 2 ^ 62) }
{
    let size = 2 * c.max() + 2;
    let mut base = 0;
    for _block in 0..count {
        push_block(alloc, db, c, base)?;
        push_places(places, c, base)?;
        base += size;
    }
    Ok(base)
}

fn push_literals(
    alloc: Global,
    db: &mut Db,
    c: &Circuit,
    literals: &[u64],
) -> Result<(), AllocError>
    requires { length literals.now < 2 ^ 32 }
    ensures { OnOk result (db.new.clauses ≡ db.old.clauses ++ literals_clauses c.now 0 literals.now) }
{
    let size = 2 * c.max() + 2;
    let mut base = 0;
    for literal in literals {
        push_clause(alloc, db, &[literal_in_block(base, *literal)])?;
        base += size;
    }
    Ok(())
}

/// The skeleton clauses of property `j`, counted from 0: exactly where they hold, the blocks' numbers have the values of
/// a skeleton of the property that the used entries allow. There is a block for each literal of the property and each
/// fairness literal, and one where there is none.
pub fn skeleton_cnf(alloc: Global, c: &Circuit, j: u32, uses: &[Used]) -> Result<Db, AllocError>
    requires { j < length c.now.justice }
    ensures { IfOk result (λ db. db.clauses ≡ skeleton_clauses c.now j (lent_all uses.now)) }
{
    let unrolled = unrolled_skeleton(alloc, c, j, uses)?;
    Ok(unrolled.clauses)
}

/// The same clauses, and where those of each use end.
pub fn unrolled_skeleton(
    alloc: Global,
    c: &Circuit,
    j: u32,
    uses: &[Used],
) -> Result<Unrolled, AllocError>
    requires { j < length c.now.justice }
    ensures clauses { IfOk result (λ unrolled. unrolled.clauses.clauses ≡ skeleton_clauses c.now j (lent_all uses.now)) }
    ensures ends { IfOk result (λ unrolled.
        AreUseEnds (skeleton_clauses c.now j) (lent_all uses.now) unrolled.clauses.clauses unrolled.ends) }
{
    let _limits = c.max();
    let literals = fair_literals(alloc, c, j as usize)?;
    let count = literals.len().max(1) as u64;
    let mut db = Db::new(alloc);
    let mut places = Items::new(alloc);
    let base = push_blocks(alloc, &mut db, &mut places, c, count)?;
    push_literals(alloc, &mut db, c, literals.as_slice())?;
    let numbering = push_uses(alloc, &mut db, places.as_slice(), base + 1, uses)?;
    Ok(Unrolled {
        clauses: db,
        ends: numbering.ends,
    })
}
