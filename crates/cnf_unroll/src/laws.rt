//! What the clauses say. Each call does nothing; its contract is the law.

ghost use Rattle.cnf_unroll.specs.Laws.{ModelsAreSituations, SituationsAreModels, ObligationsTell, SkeletonClausesTell, ClosedUsesAreUnderstood};

use circuit::{Circuit, one_valuation};

/// An assignment that makes the clauses of a block true gives its numbers the values of a position at which every
/// constraint is true, and of its successor; and each such position is given by one.
pub fn blocks_are_situations(c: &Circuit)
    ensures read { ModelsAreSituations c.now }
    ensures written { SituationsAreModels c.now }
{
    let _limits = c.max();
    one_valuation(c);
}

/// An obligation is satisfiable exactly where the uses allow a step from the entry's set to a state that breaks the
/// clause.
pub fn obligations_tell(c: &Circuit)
    ensures { ObligationsTell c.now }
{
    let _limits = c.max();
    one_valuation(c);
}

/// The skeleton clauses of a property are satisfiable exactly where the uses allow a skeleton of it.
pub fn skeleton_clauses_tell(c: &Circuit)
    ensures { SkeletonClausesTell c.now }
{
    let _limits = c.max();
    one_valuation(c);
}

/// Closed uses of a list can be understood by themselves: what the laws on obligations and skeleton clauses ask of the
/// used entries is so.
pub fn closed_uses_are_understood(c: &Circuit)
    ensures { ClosedUsesAreUnderstood c.now }
{
    let _limits = c.max();
}
