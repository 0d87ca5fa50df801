//! The sections of literals. The main call is `read_properties`.
ghost use Rattle.std.specs.Prelude.{◌≡◌};
ghost use Rattle.aiger_grammar.specs.Answered.{GivesRead};
ghost use Rattle.aiger_grammar.specs.Sections.{literals_at, sizes_at, justice_at, properties_at};

use crate::lines::read_lines;
use crate::sections::{LiteralLine, SizeLine};
use aiger_grammar::{Heading, Properties};
use circuit::ModelEnd;
use items::Items;
use std::alloc::Global;

/// The sections from the outputs to fairness, and the bytes behind them.
#[tactic(auto, unfolding(aiger_grammar::specs::Sections::properties_at))]
pub fn read_properties(
    alloc: Global,
    heading: Heading,
    total: u64,
    bytes: &[u8],
) -> Result<(Properties, &[u8]), ModelEnd>
    ensures { GivesRead (λ x. (x.0, x.1.now)) result (properties_at heading total bytes.now) }
{
    let max = heading.max;
    let (outputs, rest) = literals(alloc, max, total, heading.outputs, bytes)?;
    let (bad, rest) = literals(alloc, max, total, heading.bad, rest)?;
    let (constraints, rest) = literals(alloc, max, total, heading.constraints, rest)?;
    let (sizes, rest) = sizes(alloc, heading, total, rest)?;
    let (justice, rest) = justice(alloc, max, total, sizes.as_slice(), rest)?;
    let (fairness, rest) = literals(alloc, max, total, heading.fairness, rest)?;
    let properties = Properties {
        outputs,
        bad,
        constraints,
        justice,
        fairness,
    };
    Ok((properties, rest))
}

// As many literals.
fn literals(
    alloc: Global,
    max: u64,
    total: u64,
    count: u64,
    bytes: &[u8],
) -> Result<(Items<u64>, &[u8]), ModelEnd>
    ensures { GivesRead (λ x. (x.0, x.1.now)) result (literals_at max total count bytes.now) }
{
    read_lines(alloc, &LiteralLine { max }, count, total, bytes)
}

// The size of each property.
fn sizes(
    alloc: Global,
    heading: Heading,
    total: u64,
    bytes: &[u8],
) -> Result<(Items<u64>, &[u8]), ModelEnd>
    ensures { GivesRead (λ x. (x.0, x.1.now)) result (sizes_at heading total bytes.now) }
{
    let line = SizeLine {
        fairness: heading.fairness,
    };
    read_lines(alloc, &line, heading.justice, total, bytes)
}

// The literals of properties of these sizes.
fn justice<'a>(
    alloc: Global,
    max: u64,
    total: u64,
    sizes: &[u64],
    bytes: &'a [u8],
) -> Result<(Items<Items<u64>>, &'a [u8]), ModelEnd>
    ensures { GivesRead (λ x. (x.0, x.1.now)) result (justice_at max total sizes.now bytes.now) }
{
    let mut properties = Items::new(alloc);
    let mut rest = bytes;
    for size in sizes {
        let (property, after) = literals(alloc, max, total, *size, rest)?;
        properties.push(property)?;
        rest = after;
    }
    Ok((properties, rest))
}
