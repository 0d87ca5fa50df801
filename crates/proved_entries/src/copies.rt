//! The same entries, proofs and views once more. The main call is `entry_again`.

ghost use Rattle.std.specs.Prelude.{◌≡◌, IfOk};
ghost use Rattle.entry.specs.CheckedEntries.{viewed};
ghost use Rattle.entry.specs.Entries.{said};
ghost use Rattle.entry.specs.Listing.{entry_of};

use cnf::Proof;
use entry::{Checked, Entry, Listed, share};
use items::Items;
use std::alloc::{AllocError, Global};
use std::sync::Arc;

/// The same view once more.
pub(crate) fn copied(alloc: Global, view: &[Arc<Checked>]) -> Result<Vec<Arc<Checked>>, AllocError>
    ensures { IfOk result (λ copy. viewed copy.items ≡ viewed view.now) }
{
    Ok(share(alloc, view)?.into_vec())
}

fn add_lines(alloc: Global, proof: &Proof, lines: &mut Proof) -> Result<(), AllocError> {
    for line in proof.as_slice() {
        lines.push(line.try_copy(alloc)?)?;
    }
    Ok(())
}

fn proof_again(alloc: Global, proof: &Proof) -> Result<Proof, AllocError> {
    let mut lines = Items::new(alloc);
    add_lines(alloc, proof, &mut lines)?;
    Ok(lines)
}

fn add_proofs(alloc: Global, proofs: &[Proof], copy: &mut Items<Proof>) -> Result<(), AllocError> {
    for proof in proofs {
        copy.push(proof_again(alloc, proof)?)?;
    }
    Ok(())
}

fn proofs_again(alloc: Global, proofs: &[Proof]) -> Result<Items<Proof>, AllocError> {
    let mut copy = Items::new(alloc);
    add_proofs(alloc, proofs, &mut copy)?;
    Ok(copy)
}

/// A checked entry as it could be read from a certificate.
pub fn entry_again(alloc: Global, checked: &Checked) -> Result<Entry, AllocError>
    ensures { IfOk result (λ e. said e ≡ checked.now.entry) }
{
    let listed = checked.listed().try_copy(alloc)?;
    let proofs = proofs_again(alloc, checked.proofs())?;
    Ok(with_proofs(listed, proofs))
}

/// The entry with these proofs.
pub(crate) fn with_proofs(listed: Listed, proofs: Items<Proof>) -> Entry
    ensures said { said result ≡ entry_of listed }
    ensures proofs { result.proofs ≡ proofs }
{
    let Listed { kind, set, uses } = listed;
    Entry {
        kind,
        set,
        uses,
        proofs,
    }
}
