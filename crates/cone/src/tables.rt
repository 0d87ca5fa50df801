//! What each variable of a circuit reads. The main call is `table_of`.
ghost use Rattle.std.specs.Prelude.{◌≡◌, ℕ, ◌<◌, ◌+◌, All, IfOk, None, length, replicate};
ghost use Rattle.cone.specs.Finding.{with_gates, with_latches, IsTable};

use circuit::{Circuit, Gate, Latch};
use std::alloc::{AllocError, Global};

/// The two literals that a variable reads: the right sides of a gate, or twice the next literal of a latch.
#[derive(Clone, Copy)]
pub(crate) struct Reads {
    pub first: u64,
    pub second: u64,
}

#[tactic(auto, unfolding(crate::specs::Finding::with_latches))]
fn put_latches(latches: &[Latch], table: &mut [Option<Reads>])
    requires { All (λ latch. latch.var < length table.old) latches.now }
    ensures { table.new ≡ with_latches table.old latches.now }
{
    for latch in latches {
        table[latch.var as usize] = Some(Reads {
            first: latch.next,
            second: latch.next,
        });
    }
}

#[tactic(auto, unfolding(crate::specs::Finding::with_gates))]
fn put_gates(gates: &[Gate], table: &mut [Option<Reads>])
    requires { All (λ gate. gate.var < length table.old) gates.now }
    ensures { table.new ≡ with_gates table.old gates.now }
{
    for gate in gates {
        table[gate.var as usize] = Some(Reads {
            first: gate.rhs0,
            second: gate.rhs1,
        });
    }
}

fn fill(c: &Circuit, table: &mut [Option<Reads>])
    requires { table.old ≡ replicate (c.now.max + 1) None }
    ensures table { (j : ℕ) → IsTable c.now j table.new }
    ensures size { length table.new ≡ c.now.max + 1 }
{
    let _limits = c.max();
    put_latches(c.latches(), table);
    put_gates(c.gates(), table);
}

/// What stands at the place of each variable.
pub(crate) fn table_of(alloc: Global, c: &Circuit) -> Result<Vec<Option<Reads>>, AllocError>
    ensures { IfOk result (λ table. (j : ℕ) → IsTable c.now j table.items) }
{
    let mut table = vec![in alloc; None; c.max() as usize + 1]?;
    fill(c, &mut table);
    Ok(table)
}
