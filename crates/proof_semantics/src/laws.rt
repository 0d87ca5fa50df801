//! The laws of the definitions. Each call does nothing; its contract is the law.
ghost use Rattle.proof_semantics.specs.Acceptance.{JudgesAccepted};
ghost use Rattle.proof_semantics.specs.Lines.{ReadsSpelled};
ghost use Rattle.proof_semantics.specs.Proofs.{KeepsSound, RefutedHasNoModel};

/// Every clause that accepted lines leave is implied by the given clauses, and these have no model
/// once an empty clause was given or added.
pub fn accepted_lines_are_implied()
    ensures { KeepsSound }
{}

/// Clauses that a proof refutes have no model.
pub fn refuted_clauses_have_no_model()
    ensures { RefutedHasNoModel }
{}

/// What is read of a line is what its bytes spell, and every line that is spelled is read.
pub fn lines_are_read_as_spelled()
    ensures { ReadsSpelled }
{}

/// A line is judged `Ok` exactly where the relation of accepted lines has it, by what its bytes
/// spell.
pub fn lines_are_judged_as_accepted()
    ensures { JudgesAccepted }
{}
