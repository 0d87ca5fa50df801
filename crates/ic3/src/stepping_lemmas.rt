//! How a lemma comes into the solver of a search.
ghost use Rattle.std.specs.Prelude.{◌≡◌, [], ◌∷◌, ◌++◌, OnOk, OnErr};
ghost use Rattle.ic3.specs.SteppingInside.{MayHold};

use crate::stepping_questions::{Questions, hold_clause};
use cnf::Clause;
use ic3_semantics::Lemma;
use std::alloc::{AllocError, Global};

/// Puts a lemma behind the others, and its clause into the solver. The error is want of memory, and changes nothing.
pub(crate) fn hold_lemma(
    alloc: Global,
    lemmas: &mut Vec<Lemma>,
    s: &mut Questions,
    level: u64,
    clause: &Clause,
) -> Result<(), AllocError>
    ensures ok { OnOk result (lemmas.new.items
        ≡ lemmas.old.items ++ record { level = level; clause = clause.now } ∷ []) }
    ensures err { OnErr result (lemmas.new.items ≡ lemmas.old.items) }
    ensures kept { MayHold level clause.now lemmas.old.items lemmas.new.items s.old s.new }
{
    let lemma = Lemma {
        level,
        clause: clause.clone()?,
    };
    lemmas.reserve(1)?;
    hold_clause(alloc, s, level, clause.as_slice())?;
    lemmas.push_reserved(lemma);
    Ok(())
}
