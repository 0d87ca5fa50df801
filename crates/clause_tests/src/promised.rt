//! Clauses of public calls, said again as clauses of this crate's own: where such a call comes to say less, the function
//! here that makes it is not proved.
ghost use Rattle.std.specs.Prelude.{◌≡◌, ℕ, List, OnOk, OnErr, Some, ◌≤◌, ◌++◌, take, length, IsTrue};
ghost use Rattle.std.specs.Prelude.{◌↔◌, ◌<◌, ◌&&◌, [], Bool, true, IfOk, IsOk, vec_capacity};
ghost use Rattle.std.specs.Int.Bits.{bit_or};
ghost use Rattle.cdcl_trail.specs.Trails.{reason_of};
ghost use Rattle.cdcl_trail.specs.Watched.{IsWatchable, IsWatchedAt};
ghost use Rattle.ic3_frames.specs.Frames.{frame_at, with_lemma};
ghost use Rattle.ic3_frames.specs.Signatures.{signature_of};
ghost use Rattle.proof_semantics.specs.Clauses.{IsImplied, IsUnsatisfiable, clause_value, clauses_value, is_part};
ghost use Rattle.proof_semantics.specs.Lines.{addition, line_of};
ghost use Rattle.proof_semantics.specs.Proofs.{judge, start};
ghost use Rattle.proof_semantics.specs.declared.literals.Lit.{Lit as LitOf};
ghost use Rattle.lrat.specs.Judging.{Judges};

use cdcl_trail::Trail;
use cnf::{Clause, Cube, Db, Lit, Var};
use ic3_frames::Frames;
use lrat::{Checker, LratEnd};
use std::alloc::{AllocError, Global};

/// A line is accepted exactly where its definition says so, and what is added is implied.
fn judged(checker: &mut Checker, line: &[u8]) -> Result<(), LratEnd>
    ensures judged { Judges result (judge checker.old line.now) checker.new }
    ensures err { OnErr result (checker.new ≡ checker.old) }
    ensures given { checker.new.given ≡ checker.old.given }
    ensures implied { OnOk result ((id : ℕ) (clause hints : List LitOf) → line_of line.now ≡ Some (addition id clause hints)
        → IsImplied checker.old.given clause) }
{
    checker.step(line)
}

/// A restart leaves a new checker of the clauses that are kept and of more.
fn restarted(checker: &mut Checker, kept: usize, more: &[Clause]) -> Result<(), AllocError>
    requires { kept ≤ length checker.old.given }
    ensures ok { OnOk result (checker.new ≡ start (take kept checker.old.given ++ more.now)) }
    ensures err { OnErr result (checker.new ≡ checker.old) }
{
    checker.restart(kept, more)
}

/// A proof is finished exactly behind an empty clause.
fn is_refuted(checker: &Checker) -> bool
    ensures finished { result ≡ checker.now.finished }
    ensures refuted { IsTrue result → IsUnsatisfiable checker.now.given }
{
    checker.proved_empty()
}

/// A cube of up to four literals takes no memory.
fn cube_of(alloc: Global, literals: &[Lit]) -> Result<Cube, AllocError>
    ensures literals { IfOk result (λ cube. cube ≡ literals.now) }
    ensures small { length literals.now ≤ 4 → IsOk result }
{
    Cube::from_slice(alloc, literals)
}

/// A list of clauses keeps them and their room.
fn list_of(clauses: Vec<Clause>) -> Db
    ensures clauses { result.clauses ≡ clauses.items }
    ensures room { result.room ≡ vec_capacity clauses }
{
    Db::from_vec(clauses)
}

/// Whether each literal of a clause is one of another.
fn is_part(part: &Clause, whole: &Clause) -> bool
    ensures { result ≡ is_part part.now whole.now }
{
    cnf::subset(part, whole)
}

/// A cube is empty exactly where it has no literal.
fn is_empty_cube(cube: &Cube) -> bool
    ensures { IsTrue result ↔ (cube.now ≡ []) }
{
    cube.is_empty()
}

/// So is a list of clauses.
fn is_empty_list(db: &Db) -> bool
    ensures { IsTrue result ↔ (db.now.clauses ≡ []) }
{
    db.is_empty()
}

/// Which clause forced a variable.
fn reason_of(trail: &Trail, var: Var) -> Option<u64>
    ensures { result ≡ reason_of trail.now.steps var }
{
    trail.reason(var)
}

/// The two watched literals of a clause.
fn watched(trail: &Trail, number: u64) -> (Lit, Lit)
    requires { IsWatchable trail.now number }
    ensures { IsWatchedAt trail.now number result.0 result.1 }
{
    trail.watched(number)
}

/// A lemma comes into the frame of its level and those below, and an error changes nothing.
fn added(frames: &mut Frames, level: u64, lemma: Clause) -> Result<(), AllocError>
    requires { level < length frames.old }
    ensures ok { OnOk result (frames.new ≡ with_lemma frames.old level lemma) }
    ensures within { OnOk result ((v : ℕ → Bool) (k : ℕ) → k ≤ level
        → clauses_value v (frame_at frames.new k) ≡ (clauses_value v (frame_at frames.old k) && clause_value v lemma)) }
    ensures above { OnOk result ((k : ℕ) → level < k → frame_at frames.new k ≡ frame_at frames.old k) }
    ensures err { OnErr result (frames.new ≡ frames.old) }
{
    frames.add(level, lemma)
}

/// A signature is that of its definition, and has the bits of each part.
fn signature_of(literals: &[Lit]) -> u64
    ensures signature { result ≡ signature_of literals.now }
    ensures parts { (part : List LitOf) → is_part part literals.now ≡ true → bit_or (signature_of part) result ≡ result }
{
    ic3_frames::signature_of(literals)
}
