//! The entries of a view that restrict the steps of a search, and the sides of its start.
ghost use Rattle.std.specs.Prelude.{◌≡◌, ◌<◌, length, map, IfOk};
ghost use Rattle.fair_semantics.specs.Entries.{set_at};
ghost use Rattle.cnf_unroll.specs.Lending.{lent, lent_all};
ghost use Rattle.entry.specs.CheckedEntries.{entry_in, viewed};
ghost use Rattle.ic3_semantics.specs.Arenas.{restricts, restricting};
ghost use Rattle.ic3_questions.specs.SteppingClauses.{start_side, own_use, own_uses};

use cnf_unroll::Used;
use entry::{Checked, side};
use fair_semantics::{Kind, Side, Use};
use ic3_semantics::Start;
use items::Items;
use std::alloc::{AllocError, Global};
use std::sync::Arc;

/// Whether entries of this kind restrict the steps.
fn restricts(start: &Start, kind: Kind) -> bool
    ensures { result ≡ restricts start.now kind }
{
    match start {
        Start::Initial => matches!(kind, Kind::Reach),
        Start::State(_) => true,
    }
}

fn kind_of(entry: &Arc<Checked>) -> Kind
    ensures { result ≡ (entry_in entry.now).kind }
{
    entry.listed().kind
}

/// The number of an entry. Numbers from 2^32 on are want of memory.
fn number_of(i: usize) -> Result<u32, AllocError>
    ensures { IfOk result (λ number. number ≡ i) }
{
    u32::try_from(i).map_err(|_| AllocError)
}

/// The entry, lent with its number.
fn lend(i: usize, entry: &Arc<Checked>) -> Result<Used<'_>, AllocError>
    ensures { IfOk result (λ used. lent used ≡ record { number = i; entry = entry_in entry.now }) }
{
    let listed = entry.listed();
    Ok(Used {
        number: number_of(i)?,
        kind: listed.kind,
        set: &listed.set,
        uses: listed.uses.as_slice(),
    })
}

/// The entries that restrict the steps, as clauses take them. The error is want of memory.
pub fn used<'a>(
    alloc: Global,
    view: &'a [Arc<Checked>],
    start: &Start,
) -> Result<Items<Used<'a>>, AllocError>
    ensures { IfOk result (λ used. lent_all used ≡ restricting start.now (viewed view.now)) }
{
    let mut used = Items::new(alloc);
    for (i, entry) in view.iter().enumerate() {
        if restricts(start, kind_of(entry)) {
            used.push(lend(i, entry)?)?;
        }
    }
    Ok(used)
}

/// The side of the start that is named of entry k of the view.
fn start_side(
    view: &[Arc<Checked>],
    start: &Start,
    k: u32,
    kind: Kind,
    scratch: &mut [bool],
) -> Side
    requires entry { k < length view.now }
    requires room { k < length scratch.old }
    ensures { result ≡ start_side start.now kind (set_at (viewed view.now) k) }
{
    match start {
        Start::Initial => Side::Any,
        Start::State(from) => match kind {
            Kind::Reach => Side::Any,
            Kind::Wall => {
                if side(view, k, from.as_slice(), scratch) {
                    Side::In
                } else {
                    Side::Out
                }
            }
        },
    }
}

/// The use of entry i of the view that names the side of the start.
fn own_use(
    view: &[Arc<Checked>],
    start: &Start,
    i: usize,
    kind: Kind,
    scratch: &mut [bool],
) -> Result<Use, AllocError>
    requires entry { i < length view.now }
    requires room { i < length scratch.old }
    ensures { IfOk result (λ u.
        u ≡ record { entry = i; side = start_side start.now kind (set_at (viewed view.now) i) }) }
{
    let entry = number_of(i)?;
    Ok(Use {
        entry,
        side: start_side(view, start, entry, kind, scratch),
    })
}

/// The uses of the entries that restrict the steps, which name the sides of the start. The error is want of memory.
pub fn own_uses(
    alloc: Global,
    view: &[Arc<Checked>],
    start: &Start,
) -> Result<Items<Use>, AllocError>
    ensures { IfOk result (λ uses. uses ≡ own_uses (viewed view.now) start.now) }
{
    let mut scratch = vec![in alloc; false; view.len()]?;
    let mut uses = Items::new(alloc);
    for (i, entry) in view.iter().enumerate() {
        let kind = kind_of(entry);
        if restricts(start, kind) {
            uses.push(own_use(view, start, i, kind, scratch.as_mut_slice())?)?;
        }
    }
    Ok(uses)
}
