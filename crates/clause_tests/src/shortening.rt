//! Cubes shortened under tests that are lists of cubes. A literal is written as twice its variable, and one more where
//! it is negated.
ghost use Rattle.std.specs.Prelude.{List, ◌≡◌, ◌↔◌, true, refl, IfOk, IfSome};
ghost use Rattle.std.specs.List.{list_any};
ghost use Rattle.std.proofs.Common.{◌∙◌};
ghost use Rattle.proof_semantics.specs.declared.literals.Lit.{Lit};
ghost use Rattle.proof_semantics.specs.Clauses.{is_part};
ghost use Rattle.edge.specs.Ends.{IsEnd};
ghost use Rattle.ic3_generalise.specs.Generalising.{EachIsNeeded};

use cnf::{Clause, Cube, Lit, subset};
use edge::{Counted, Meter, SolveEnd, Spent};
use ic3_generalise::{Asker, generalise};
use std::alloc::{AllocError, Global};
use std::test::Fail;

fn holds_one(own: &[Clause], cube: &Clause) -> bool
    ensures { result ≡ list_any (λ part. is_part part cube.now) own.now }
{
    own.iter().any(|part| subset(part, cube))
}

fn end_of(meter: &Meter) -> Option<SolveEnd>
    ensures { IfSome result (IsEnd meter.now) }
{
    let spending = meter.spending();
    let conflicts = spending.conflicts();
    if spending.conflict_limit() == Some(conflicts) {
        return Some(SolveEnd::Spent(Spent {
            kind: Counted::Conflicts,
            limit: conflicts,
        }));
    }
    None
}

/// Passes each cube that holds one of its own, and answers the whole cube that was asked for. It has no answer where
/// the meter is at its limit.
#[derive(Drop)]
struct Listed {
    own: Vec<Clause>,
    asked: u64,
}

impl Asker for Listed {
    ghost passes = { λ s cube. list_any (λ part. is_part part cube) s.own.items ≡ true };

    ghost leaves = { λ s t. t.own.items ≡ s.own.items };

    fn excluded(
        &mut self,
        alloc: Global,
        cube: &Cube,
        meter: &mut Meter,
    ) -> Result<Option<Cube>, SolveEnd> {
        if let Some(end) = end_of(meter) {
            return Err(end);
        }
        self.asked = self.asked.saturating_add(1);
        let asked = Clause::from_slice(alloc, cube.as_slice())?;
        if holds_one(&self.own, &asked) {
            Ok(Some(cube.clone()?))
        } else {
            Ok(None)
        }
    }

    ghost leaves_itself = { λ s. refl };

    ghost leaves_on = { λ s t u first second. second ∙ first };
}

/// Passes each cube that holds its own, and answers that.
#[derive(Drop)]
struct Core {
    own: Clause,
    asked: u64,
}

impl Asker for Core {
    ghost passes = { λ s cube. is_part s.own cube ≡ true };

    ghost leaves = { λ s t. t.own ≡ s.own };

    fn excluded(
        &mut self,
        alloc: Global,
        cube: &Cube,
        _meter: &mut Meter,
    ) -> Result<Option<Cube>, SolveEnd> {
        self.asked = self.asked.saturating_add(1);
        let asked = Clause::from_slice(alloc, cube.as_slice())?;
        if subset(&self.own, &asked) {
            Ok(Some(Cube::from_slice(alloc, self.own.as_slice())?))
        } else {
            Ok(None)
        }
    }

    ghost leaves_itself = { λ s. refl };

    ghost leaves_on = { λ s t u first second. second ∙ first };
}

fn push_literals(codes: &[u64], literals: &mut Vec<Lit>) -> Result<(), AllocError> {
    for code in codes {
        literals.push(Lit {
            var: *code / 2,
            positive: *code % 2 == 0,
        })?;
    }
    Ok(())
}

fn literals_of(alloc: Global, codes: &[u64]) -> Result<Vec<Lit>, AllocError> {
    let mut literals = Vec::new(alloc);
    push_literals(codes, &mut literals)?;
    Ok(literals)
}

fn cube_of(alloc: Global, codes: &[u64]) -> Result<Cube, AllocError> {
    let literals = literals_of(alloc, codes)?;
    Cube::from_slice(alloc, literals.as_slice())
}

fn clause_of(alloc: Global, codes: &[u64]) -> Result<Clause, AllocError> {
    let literals = literals_of(alloc, codes)?;
    Clause::from_slice(alloc, literals.as_slice())
}

fn code_of(literal: &Lit) -> u64 {
    let sign = if literal.positive { 0 } else { 1 };
    literal.var.saturating_mul(2).saturating_add(sign)
}

fn has_codes(cube: &Cube, codes: &[u64]) -> bool {
    let literals = cube.as_slice();
    literals.len() == codes.len()
        && literals
            .iter()
            .zip(codes)
            .all(|(literal, code)| code_of(literal) == *code)
}

/// What is left of a cube that the asker passes: each literal of the order that is left is needed.
fn rest_of<A: Asker>(
    alloc: Global,
    cube: Cube,
    order: &[Lit],
    asker: &mut A,
    meter: &mut Meter,
) -> Result<Cube, SolveEnd>
    requires { A.passes asker.old cube }
    ensures { IfOk result (EachIsNeeded (A.passes asker.old) cube order.now) }
{
    generalise(alloc, cube, order, asker, meter)
}

/// Whether these literals are left of a cube that the asker passes, where its literals are dropped in an order.
fn leaves<A: Asker>(
    alloc: Global,
    cube: Cube,
    order: &[u64],
    wanted: &[u64],
    asker: &mut A,
    meter: &mut Meter,
) -> Result<bool, SolveEnd>
    requires { A.passes asker.old cube }
{
    let order = literals_of(alloc, order)?;
    let left = rest_of(alloc, cube, order.as_slice(), asker, meter)?;
    Ok(has_codes(&left, wanted))
}

/// The same of a cube that the asker is asked for first.
fn is_left<A: Asker>(
    alloc: Global,
    codes: &[u64],
    order: &[u64],
    wanted: &[u64],
    asker: &mut A,
    meter: &mut Meter,
) -> Result<bool, SolveEnd> {
    let cube = cube_of(alloc, codes)?;
    match asker.excluded(alloc, &cube, meter)? {
        Some(_) => leaves(alloc, cube, order, wanted, asker, meter),
        None => Ok(false),
    }
}

/// An asker's own cubes, a cube, the order of its literals, what is left of it, and how many questions that takes after
/// the first.
type Row = (
    &'static [&'static [u64]],
    &'static [u64],
    &'static [u64],
    &'static [u64],
    u64,
);

fn push_own(alloc: Global, lists: &[&[u64]], own: &mut Vec<Clause>) -> Result<(), AllocError> {
    for codes in lists {
        own.push(clause_of(alloc, codes)?)?;
    }
    Ok(())
}

fn asker_of(alloc: Global, lists: &[&[u64]]) -> Result<Listed, AllocError> {
    let mut own = Vec::new(alloc);
    push_own(alloc, lists, &mut own)?;
    Ok(Listed { own, asked: 0 })
}

fn by_list(alloc: Global, row: &Row, meter: &mut Meter) -> Result<bool, SolveEnd> {
    let (own, cube, order, wanted, questions) = *row;
    let mut asker = asker_of(alloc, own)?;
    let is_same = is_left(alloc, cube, order, wanted, &mut asker, meter);
    let asked = asker.asked;
    drop(asker);
    Ok(is_same? && asked == questions.saturating_add(1))
}

fn core_asker_of(alloc: Global, lists: &[&[u64]]) -> Result<Core, AllocError> {
    Ok(Core {
        own: clause_of(alloc, lists.first().unwrap_or(&[].as_slice()))?,
        asked: 0,
    })
}

fn by_core(alloc: Global, row: &Row) -> Result<bool, SolveEnd> {
    let (own, cube, order, wanted, questions) = *row;
    let mut meter = Meter::new(0, 0);
    let mut asker = core_asker_of(alloc, own)?;
    let is_same = is_left(alloc, cube, order, wanted, &mut asker, &mut meter);
    let asked = asker.asked;
    drop(asker);
    Ok(is_same? && asked == questions.saturating_add(1))
}

// The one literal that an asker has is left.
const ONE: Row = (&[&[2]], &[2, 4, 6], &[2, 4, 6], &[2], 3);

// The order of the literals decides where two cubes pass, and of a literal that is not in it nothing is asked.
const LISTED: [Row; 8] = [
    ONE,
    (&[&[2], &[4, 6]], &[2, 4, 6], &[2, 4, 6], &[4, 6], 3),
    (&[&[2], &[4, 6]], &[2, 4, 6], &[4, 6, 2], &[2], 3),
    (&[&[2], &[4, 6]], &[2, 4, 6], &[8, 4], &[2, 6], 1),
    (&[&[2], &[4, 6]], &[2, 4, 6], &[], &[2, 4, 6], 0),
    (&[&[5]], &[4, 5, 2], &[4, 5, 2], &[5], 3),
    (&[&[2, 5]], &[2, 5], &[2, 5], &[2, 5], 2),
    (&[&[]], &[2, 4], &[2, 4], &[], 2),
];

fn listed_rows() -> &'static [Row] {
    &LISTED
}

// Nothing is asked of a literal that an answer left out.
const CORES: [Row; 4] = [
    (&[&[6]], &[2, 4, 6, 8], &[2, 4, 6, 8], &[6], 2),
    (&[&[2]], &[2, 4, 6], &[2, 4, 6], &[2], 2),
    (&[&[8, 2]], &[2, 4, 6, 8], &[2, 4, 6, 8], &[8, 2], 3),
    (&[&[]], &[2, 4, 6], &[2, 4, 6], &[], 1),
];

fn core_rows() -> &'static [Row] {
    &CORES
}

// The place of the first row of which something else is left, from 0.
fn wrong_listed(alloc: Global) -> Result<Option<usize>, SolveEnd> {
    for (k, row) in listed_rows().iter().enumerate() {
        if !by_list(alloc, row, &mut Meter::new(7, 0))? {
            return Ok(Some(k));
        }
    }
    Ok(None)
}

fn wrong_core(alloc: Global) -> Result<Option<usize>, SolveEnd> {
    for (k, row) in core_rows().iter().enumerate() {
        if !by_core(alloc, row)? {
            return Ok(Some(k));
        }
    }
    Ok(None)
}

fn is_spent(alloc: Global) -> bool {
    let end = by_list(alloc, &ONE, &mut Meter::new(0, 7));
    matches!(end, Err(SolveEnd::Spent(_)))
}

#[test]
fn literals_are_dropped_in_order(rt: HostRuntime) -> Result<(), Fail> {
    let wrong = [wrong_listed(rt.alloc())?, wrong_core(rt.alloc())?];
    assert_eq!(rt; wrong, [None; 2]);
    Ok(())
}

#[test]
fn spent_where_the_meter_is(rt: HostRuntime) {
    assert!(rt; is_spent(rt.alloc()));
}
