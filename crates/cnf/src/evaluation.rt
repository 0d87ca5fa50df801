//! Whether clauses hold under a list of values. The main calls are `holds` and `eval`.
ghost use Rattle.std.specs.Prelude.{◌≡◌};
ghost use Rattle.proof_semantics.specs.Clauses.{clause_value, clauses_value, values_of, is_part};

use crate::clause::Clause;
use crate::db::Db;

/// Whether the clause is true where variable v has the value at place v. A variable past the end
/// is false. Takes no memory.
pub fn holds(clause: &Clause, values: &[bool]) -> bool
    ensures { result ≡ clause_value (values_of values.now) clause.now }
{
    clause
        .as_slice()
        .iter()
        .any(|literal| literal.holds(values))
}

/// Whether each literal of `part` is one of `whole`. Takes no memory.
pub fn subset(part: &Clause, whole: &Clause) -> bool
    ensures { result ≡ is_part part.now whole.now }
{
    part.as_slice()
        .iter()
        .all(|literal| whole.contains(*literal))
}

/// Whether every clause is true where variable v has the value at place v. A variable past the end
/// is false. Takes no memory.
pub fn eval(db: &Db, values: &[bool]) -> bool
    ensures { result ≡ clauses_value (values_of values.now) db.now.clauses }
{
    db.as_slice().iter().all(|clause| holds(clause, values))
}
