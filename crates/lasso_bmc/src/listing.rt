//! The clauses of lassos of one length. The main call is `lasso_cnf`.

ghost use Rattle.std.specs.Prelude.{◌≡◌, ◌↔◌, ◌<◌, ◌≤◌, length, IfOk};
ghost use Rattle.cnf_unroll.specs.Laws.{IsSatisfiable};
ghost use Rattle.lasso_clauses.specs.Clauses.{lasso_clauses};
ghost use Rattle.lasso_clauses.specs.Laws.{HasLassoOf};

use circuit::Circuit;
use cnf::Db;
use std::alloc::{AllocError, Global};

/// The lasso clauses of property `j`, counted from 0, for `k` positions: satisfiable exactly where a fair lasso of the
/// property has `k` positions. The error is want of memory.
pub fn lasso_cnf(alloc: Global, c: &Circuit, j: u32, k: u32) -> Result<Db, AllocError>
    requires { j < length c.now.justice }
    ensures clauses { IfOk result (λ db. db.clauses ≡ lasso_clauses c.now j k) }
    ensures exact { IfOk result (λ db. IsSatisfiable db.clauses ↔ HasLassoOf c.now j k) }
{
    lasso_clauses::lasso_cnf(alloc, c, j, k)
}
