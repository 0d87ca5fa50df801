//! The law of clauses that one question alone brings. The call does nothing; its contract is the law.
ghost use Rattle.cdcl.specs.Retiring.{RetiredChangeNothing};

/// Clauses that all hold one literal, whose negation stands in no added clause, change no answer of
/// a question that does not assume its variable. So a question may bring clauses of its own, each
/// with the negation of a new variable that the question assumes, and retires them by the unit
/// clause of that negation.
pub fn retired_clauses_change_nothing()
    ensures { RetiredChangeNothing }
{}
