//! What the clauses say. The call does nothing; its contract is the law.

ghost use Rattle.lasso_clauses.specs.Laws.{LassoClausesTell, ModelsAreLassos};

use circuit::{Circuit, one_valuation};

/// The lasso clauses of a property for k positions are satisfiable exactly where it has a fair lasso of k positions; and
/// an assignment that makes them true gives the values of one to the blocks.
pub fn lasso_clauses_tell(c: &Circuit)
    ensures tell { LassoClausesTell c.now }
    ensures models { ModelsAreLassos c.now }
{
    let _limits = c.max();
    one_valuation(c);
}
