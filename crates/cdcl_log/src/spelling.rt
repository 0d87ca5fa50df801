//! The text of a proof line. The main call is `line_of`.
ghost use Rattle.std.specs.Prelude.{◌≡◌, ◌∷◌, [], ◌++◌, IfOk, OnOk, map};
ghost use Rattle.proof_semantics.specs.Lines.{signed_text, text_of};
ghost use Rattle.cdcl_log.specs.IdsOf.{id_in};
ghost use Rattle.cdcl_log.specs.Writing.{hint_by, line_by, spaced_fields};

use crate::ids::Ids;
use cnf::{Lit, ProofLine};
use items::Items;
use std::alloc::{AllocError, Global};
use text_grammar::push_number;

/// The line that adds a clause. Hints are numbers of clauses, and `ids` has the id of each.
pub(crate) fn line_of(
    alloc: Global,
    id: u64,
    clause: &[Lit],
    hints: &[u64],
    ids: &Ids<'_>,
) -> Result<ProofLine, AllocError>
    ensures { IfOk result (λ line. line ≡ text_of (line_by (id_in ids.now) id clause.now hints.now)) }
{
    let mut out = Vec::new(alloc);
    write_line(&mut out, id, clause, hints, ids)?;
    Ok(Items::from_vec(out))
}

// Writes the line where nothing is written.
fn write_line(
    out: &mut Vec<u8>,
    id: u64,
    clause: &[Lit],
    hints: &[u64],
    ids: &Ids<'_>,
) -> Result<(), AllocError>
    requires { out.old.items ≡ [] }
    ensures { OnOk result (out.new.items ≡ text_of (line_by (id_in ids.now) id clause.now hints.now)) }
{
    push_number(out, id)?;
    out.push(b' ')?;
    push_literals(out, clause)?;
    out.push(b'0')?;
    out.push(b' ')?;
    push_hints(out, hints, ids)?;
    out.push(b'0')?;
    Ok(())
}

// Writes literals, and a space behind each.
fn push_literals(out: &mut Vec<u8>, literals: &[Lit]) -> Result<(), AllocError>
    ensures { OnOk result (out.new.items ≡ out.old.items ++ spaced_fields (map signed_text literals.now)) }
{
    for literal in literals {
        push_literal(out, *literal)?;
    }
    Ok(())
}

// Writes a literal and a space.
fn push_literal(out: &mut Vec<u8>, literal: Lit) -> Result<(), AllocError>
    ensures { OnOk result (out.new.items ≡ out.old.items ++ signed_text literal ++ 32 ∷ []) }
{
    if !literal.positive {
        out.push(b'-')?;
    }
    push_number(out, literal.var)?;
    out.push(b' ')?;
    Ok(())
}

// Writes the ids of the clauses with these numbers, and a space behind each.
fn push_hints(out: &mut Vec<u8>, hints: &[u64], ids: &Ids<'_>) -> Result<(), AllocError>
    ensures { OnOk result (out.new.items ≡ out.old.items ++ spaced_fields (map signed_text (map (hint_by (id_in ids.now)) hints.now))) }
{
    for hint in hints {
        push_literal(out, hint_of(ids, *hint))?;
    }
    Ok(())
}

// The hint that names the clause with a number.
fn hint_of(ids: &Ids<'_>, number: u64) -> Lit
    ensures { result ≡ hint_by (id_in ids.now) number }
{
    Lit {
        var: ids.get(number),
        positive: true,
    }
}
