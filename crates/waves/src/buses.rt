//! Groups as variables. The main call is `variables_of`.

ghost use Rattle.std.specs.Prelude.{◌≡◌, ◌<◌, ◌^◌, ◌++◌, ◌∷◌, [], map, length, Some, option_map, IfOk, OnOk};
ghost use Rattle.std.specs.List.{flat_map};
ghost use Rattle.waves.specs.Buses.{lowest, bus_of, single, by_bus, of_group};
ghost use Rattle.waves.specs.Kept.{GetsMember, AreIndexed, IsRowOf};

use crate::groups::{Group, Member};
use crate::wires::Wire;
use items::Items;
use std::alloc::{AllocError, Global};
use std::collections::BTreeMap;

/// A variable of a dump: a bus, or one wire.
#[derive(Drop)]
pub struct Variable {
    /// Of a bus the one of the highest index first.
    pub wires: Items<Wire>,
    /// The lowest index of a bus, and of one wire 0.
    pub low: u32,
    /// Of a bus what stands in front of its indices.
    pub name: Items<u8>,
}

fn lowest(members: &[Member]) -> u32
    ensures { result ≡ lowest members.now }
{
    let mut low = u32::MAX;
    for member in members {
        low = low.min(member.index);
    }
    low
}

// The wires by their indices, of two with one index the last.
type Indexed = BTreeMap<u64, Wire>;

fn keep_member(indexed: &mut Indexed, member: &Member) -> Result<(), AllocError>
    ensures { OnOk result (GetsMember indexed.old member.now indexed.new) }
{
    indexed.insert(u64::from(member.index), member.wire)?;
    Ok(())
}

fn indexed(alloc: Global, members: &[Member]) -> Result<Indexed, AllocError>
    ensures { IfOk result (λ indexed. AreIndexed members.now indexed) }
{
    let mut indexed = Indexed::new(alloc);
    for member in members {
        keep_member(&mut indexed, member)?;
    }
    Ok(indexed)
}

// The wires of `count` indices from `low` on, the highest first, and none where one of them has no wire.
fn row_of(
    alloc: Global,
    indexed: &Indexed,
    low: u32,
    count: usize,
) -> Result<Option<Vec<Wire>>, AllocError>
    requires { count < 2 ^ 63 }
    ensures { IfOk result (λ row. IsRowOf indexed.now low count (option_map (λ wires. wires.items) row)) }
{
    let mut row = Vec::new(alloc);
    let mut left = count;
    while left > 0 {
        left -= 1;
        let Some(wire) = indexed.get(&(u64::from(low) + left as u64)) else {
            return Ok(None);
        };
        row.push(*wire)?;
    }
    Ok(Some(row))
}

// The wires of a bus, where the members are one.
fn bus_of(alloc: Global, members: &[Member]) -> Result<Option<Vec<Wire>>, AllocError>
    ensures { IfOk result (λ row. option_map (λ wires. wires.items) row ≡ bus_of members.now) }
{
    if members.len() < 2 {
        return Ok(None);
    }
    let indexed = indexed(alloc, members)?;
    row_of(alloc, &indexed, lowest(members), members.len())
}

fn push_single(
    alloc: Global,
    variables: &mut Vec<Variable>,
    member: &Member,
) -> Result<(), AllocError>
    ensures { OnOk result (variables.new.items ≡ variables.old.items ++ single member.now ∷ []) }
{
    variables.push(Variable {
        wires: Items::from_slice(alloc, &[member.wire])?,
        low: 0,
        name: member.name.try_copy(alloc)?,
    })?;
    Ok(())
}

fn push_singles(
    alloc: Global,
    variables: &mut Vec<Variable>,
    members: &[Member],
) -> Result<(), AllocError>
    ensures { OnOk result (variables.new.items ≡ variables.old.items ++ map single members.now) }
{
    for member in members {
        push_single(alloc, variables, member)?;
    }
    Ok(())
}

fn push_bus(
    alloc: Global,
    variables: &mut Vec<Variable>,
    group: &Group,
    wires: Vec<Wire>,
) -> Result<(), AllocError>
    ensures { OnOk result (variables.new.items ≡ variables.old.items ++ by_bus group.now (Some wires.items)) }
{
    variables.push(Variable {
        wires: Items::from_vec(wires),
        low: lowest(group.members.as_slice()),
        name: group.base.try_copy(alloc)?,
    })?;
    Ok(())
}

fn push_group(alloc: Global, variables: &mut Vec<Variable>, group: &Group) -> Result<(), AllocError>
    ensures { OnOk result (variables.new.items ≡ variables.old.items ++ of_group group.now) }
{
    match bus_of(alloc, group.members.as_slice())? {
        Some(wires) => push_bus(alloc, variables, group, wires),
        None => push_singles(alloc, variables, group.members.as_slice()),
    }
}

/// The variables of groups.
pub(crate) fn variables_of(alloc: Global, groups: &[Group]) -> Result<Vec<Variable>, AllocError>
    ensures { IfOk result (λ variables. variables.items ≡ flat_map of_group groups.now) }
{
    let mut variables = Vec::new(alloc);
    for group in groups {
        push_group(alloc, &mut variables, group)?;
    }
    Ok(variables)
}
