//! The numbers of latches by their variables. The main type is `LatchNumbers`.

ghost use Rattle.std.specs.Prelude.{◌≡◌, ◌<◌, ◌^◌, length, IfOk, vec_len};
ghost use Rattle.std.specs.List.{All};
ghost use Rattle.entry.specs.Clauses.{latch_literal, clause_of};
ghost use Rattle.entry.specs.LatchTables.{number_in, AreNumbersOf, with_latch};
ghost use Rattle.entry.specs.Answers.{Tells};

use crate::faults::{EntryEnd, EntryFault};
use circuit::Circuit;
use cnf::Clause;
use proof_semantics::Lit;
use std::alloc::{AllocError, Global};
use std::marker::Model;

/// For each variable of a circuit the number of the latch that has it, in a table that takes eight bytes a variable: with
/// it a clause is read in the time that its literals take.
#[derive(Drop)]
pub struct LatchNumbers {
    // One more than the latch's number, and 0 where a variable is no latch's.
    table: Vec<u64>,
}

impl Model for LatchNumbers {
    ghost use Rattle.std.specs.Prelude.{ℕ, List};

    ghost Value = { List ℕ };

    ghost view = { λ s. s.table.items };
}

impl LatchNumbers {
    /// Those of a circuit. The error is want of memory.
    pub fn new(alloc: Global, c: &Circuit) -> Result<LatchNumbers, AllocError>
        ensures { IfOk result (AreNumbersOf c.now) }
    {
        let table = table_of(alloc, c)?;
        Ok(LatchNumbers { table })
    }

    /// The number, from 0, of the latch with this variable. Takes no memory.
    pub fn number(&self, variable: u64) -> Option<u64>
        ensures { result ≡ number_in self.now variable }
    {
        number_at(&self.table, variable)
    }

    /// The clause of these literals of the model, as `clause_from_aiger` gives it.
    pub fn clause(&self, alloc: Global, _c: &Circuit, literals: &[u64]) -> Result<Clause, EntryEnd>
        requires { AreNumbersOf _c.now self.now }
        ensures clause { Tells result (clause_of _c.now literals.now) }
        ensures over { IfOk result (λ clause. All (λ l. l.var < length _c.now.latches) clause) }
    {
        read_clause(alloc, _c, &self.table, literals)
    }
}

fn table_of(alloc: Global, c: &Circuit) -> Result<Vec<u64>, AllocError>
    ensures { IfOk result (λ table. AreNumbersOf c.now table.items) }
{
    let mut table = vec![in alloc; 0u64; c.max() as usize + 1]?;
    for (n, latch) in c.latches().iter().enumerate() {
        note(&mut table, latch.var, n as u64);
    }
    Ok(table)
}

// Puts the number of a latch under its variable, unless one stands there.
fn note(table: &mut Vec<u64>, variable: u64, n: u64)
    requires room { variable < vec_len table.old }
    requires small { n < 2 ^ 63 }
    ensures { table.new.items ≡ with_latch table.old.items variable n }
{
    if table[variable as usize] == 0 {
        table[variable as usize] = n + 1;
    }
}

fn number_at(table: &[u64], variable: u64) -> Option<u64>
    ensures { result ≡ number_in table.now variable }
{
    let stands = *table.get(variable as usize)?;
    stands.checked_sub(1)
}

// The literal over the number of its latch. `None` where its variable is no latch.
fn latch_literal(table: &[u64], _c: &Circuit, literal: u64) -> Option<Lit>
    requires { AreNumbersOf _c.now table.now }
    ensures { result ≡ latch_literal _c.now literal }
{
    let positive = literal % 2 != 1;
    match number_at(table, literal / 2) {
        Some(var) => Some(Lit { var, positive }),
        None => None,
    }
}

fn read_clause(
    alloc: Global,
    c: &Circuit,
    table: &[u64],
    literals: &[u64],
) -> Result<Clause, EntryEnd>
    requires { AreNumbersOf c.now table.now }
    ensures { Tells result (clause_of c.now literals.now) }
{
    let mut clause = Clause::new(alloc);
    for literal in literals {
        match latch_literal(table, c, *literal) {
            Some(found) => clause.push(found)?,
            None => return Err(EntryEnd::Fault(EntryFault::NotLatch(*literal))),
        }
    }
    Ok(clause)
}
