//! Where the parts of a block's clauses stand: first the clause of variable 0, then those of the gates, of the constraints
//! and of the latches, each in the order of the file. The main calls are `before_gate` and `before_latch`.

ghost use Rattle.std.specs.Prelude.{◌≡◌, ◌≤◌, length};
ghost use Rattle.cnf_unroll.specs.Blocks.{step_clauses};
ghost use Rattle.cnf_unroll.specs.Layout.{BeginWith, before_gate, before_constraints, before_latch};

use circuit::Circuit;

/// How many clauses of the first block stand before those of the gate with the number `i`, counted from 0: all of the
/// gates' where there are `i` gates.
pub fn before_gate(c: &Circuit, i: usize) -> usize
    requires { i ≤ length c.now.gates }
    ensures { BeginWith (step_clauses c.now) (before_gate c.now i) result }
{
    let _limits = c.max();
    3 * i + 1
}

/// How many stand before those of the constraints.
pub fn before_constraints(c: &Circuit) -> usize
    ensures { BeginWith (step_clauses c.now) (before_constraints c.now) result }
{
    let _limits = c.max();
    3 * c.gates().len() + 1
}

/// How many stand before those of the latch with the number `i`, counted from 0: all where there are `i` latches.
pub fn before_latch(c: &Circuit, i: usize) -> usize
    requires { i ≤ length c.now.latches }
    ensures { BeginWith (step_clauses c.now) (before_latch c.now i) result }
{
    let _limits = c.max();
    3 * c.gates().len() + 1 + c.constraints().len() + 2 * i
}
