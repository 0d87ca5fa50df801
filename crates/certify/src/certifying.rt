//! Proofs for claims. The main call is `certify`.
ghost use Rattle.std.specs.Prelude.{◌≡◌, ◌++◌, [], ◌∷◌, true, length, All, IfOk, IfErr};
ghost use Rattle.std.specs.Arc.{arc_value};
ghost use Rattle.edge.specs.Ends.{CountsConflicts, IsEnd};
ghost use Rattle.cnf_unroll.specs.Laws.{AreOver};
ghost use Rattle.fair_semantics.specs.declared.entries.Kind.TheVariants.{Reach};
ghost use Rattle.fair_semantics.specs.Skeletons.{excludes};
ghost use Rattle.fair_semantics.specs.Validity.{IsValid};
ghost use Rattle.entry.specs.CheckedEntries.{viewed};
ghost use Rattle.entry.specs.Laws.{IsGoodList};
ghost use Rattle.entry.specs.Proved.{holds_initial, AreProofs, IsProved};
ghost use Rattle.certify.specs.Claims.{claimed, IsCertified};

use crate::claims::Claim;
use crate::proving::proofs_by;
use crate::sharing::solver_of;
use circuit::Circuit;
use cnf::Proof;
use cnf_unroll::obligations_tell;
use edge::{Meter, SolveEnd};
use entry::{Checked, Entry};
use items::Items;
use std::alloc::Global;
use std::sync::Arc;

// A proof for each clause of the claim, in their order.
fn proofs_of(
    alloc: Global,
    c: &Circuit,
    view: &[Arc<Checked>],
    claim: &Claim,
    meter: &mut Meter,
) -> Result<Items<Proof>, SolveEnd>
    requires view { IsGoodList c.now (viewed view.now) }
    requires valid { IsValid c.now (viewed view.now) (claimed claim.now) }
    requires over { AreOver (length c.now.latches) claim.now.clauses }
    ensures proofs { IfOk result (AreProofs c.now (viewed view.now) (claimed claim.now)) }
    ensures end { IfErr result (IsEnd meter.new) }
    ensures counted { CountsConflicts meter.old meter.new }
{
    obligations_tell(c);
    let mut solver = solver_of(alloc, c, view, claim)?;
    let proofs = proofs_by(alloc, c, &claim.clauses, &mut solver, meter);
    drop(solver);
    proofs
}

/// The claim as an entry that was checked behind those of the view, with a proof for each of its clauses. What is
/// asked of it is that no step which its uses allow leaves its set, so a proof is always found. `Spent` comes only
/// where the meter's count of conflicts is at its limit; the other error is want of memory.
pub fn certify(
    alloc: Global,
    circuit: &Arc<Circuit>,
    view: &[Arc<Checked>],
    claim: Claim,
    meter: &mut Meter,
) -> Result<Checked, SolveEnd>
    requires view { IsGoodList (arc_value circuit.now) (viewed view.now) }
    requires valid { IsValid (arc_value circuit.now) (viewed view.now) (claimed claim) }
    requires over { AreOver (length (arc_value circuit.now).latches) claim.clauses }
    requires base { claim.kind ≡ Reach → All (holds_initial (arc_value circuit.now)) claim.clauses }
    requires apart { excludes (viewed view.now ++ claimed claim ∷ []) (length (viewed view.now)) claim.skeleton ≡ true }
    ensures certified { IfOk result (IsCertified (arc_value circuit.now) (viewed view.now) claim) }
    ensures proved { IfOk result (λ e. IsProved (arc_value circuit.now) (viewed view.now) (claimed claim) e.proofs) }
    ensures end { IfErr result (IsEnd meter.new) }
    ensures counted { CountsConflicts meter.old meter.new }
{
    let proofs = proofs_of(alloc, &**circuit, view, &claim, meter)?;
    let Claim {
        kind,
        clauses,
        uses,
        author,
        turn,
        skeleton,
    } = claim;
    let entry = Entry {
        kind,
        set: clauses,
        uses,
        proofs,
    };
    let checked = Checked::new(alloc, circuit, view, entry, author, turn, skeleton)?;
    Ok(checked)
}
