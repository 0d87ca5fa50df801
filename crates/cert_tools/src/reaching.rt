//! Which numbers are reached through nodes, each of which leads to smaller ones: lines of a proof lead to the ids of their
//! hints, entries to those that they use. The main call is `reached`.

ghost use Rattle.std.specs.Prelude.{◌≡◌, ◌↔◌, ◌||◌, ◌==◌, ℕ, List, [], true, false, IfOk, OnOk};
ghost use Rattle.cert_tools.specs.Reaching.{is_in, HasMore, Follows, LeadDown, IsReachedFrom, IsMarked};

use items::Items;
use std::alloc::{AllocError, Global};
use std::collections::BTreeSet;

/// A number, and those that it leads to.
#[derive(Drop)]
pub(crate) struct Node {
    pub(crate) number: u64,
    pub(crate) further: Items<u64>,
}

/// A set of numbers.
#[derive(Drop)]
pub(crate) struct Numbers {
    set: BTreeSet<u64>,
}

impl Numbers {
    fn none(alloc: Global) -> Numbers
        ensures { (n : ℕ) → is_in result n ≡ false }
    {
        Numbers {
            set: BTreeSet::new(alloc),
        }
    }

    /// Whether the number is one of them.
    pub(crate) fn has(&self, number: u64) -> bool
        ensures { result ≡ is_in self.now number }
    {
        self.set.contains(&number)
    }

    fn put(&mut self, number: u64) -> Result<(), AllocError>
        ensures { OnOk result ((n : ℕ) → is_in self.new n ≡ (n == number || is_in self.old n)) }
    {
        self.set.insert(number)?;
        Ok(())
    }
}

fn put_all(numbers: &mut Numbers, more: &[u64]) -> Result<(), AllocError>
    ensures { OnOk result (HasMore numbers.old more.now numbers.new) }
{
    for number in more {
        numbers.put(*number)?;
    }
    Ok(())
}

// Puts what the node leads to into the set, where the node's number is in it.
fn follow(numbers: &mut Numbers, node: &Node) -> Result<(), AllocError>
    ensures { OnOk result (Follows numbers.old node.now numbers.new) }
{
    if !numbers.has(node.number) {
        return Ok(());
    }
    put_all(numbers, node.further.as_slice())
}

/// The numbers that are reached from these.
pub(crate) fn reached(alloc: Global, nodes: &[Node], from: &[u64]) -> Result<Numbers, AllocError>
    requires { (least : ℕ) × LeadDown least nodes.now }
    ensures { IfOk result (λ numbers. (n : ℕ) → (is_in numbers n ≡ true) ↔ IsReachedFrom nodes.now from.now n) }
{
    let mut numbers = Numbers::none(alloc);
    put_all(&mut numbers, from)?;
    mark(&mut numbers, nodes)?;
    Ok(numbers)
}

// Follows the nodes, from the last one on.
fn mark(numbers: &mut Numbers, nodes: &[Node]) -> Result<(), AllocError>
    requires { (least : ℕ) × LeadDown least nodes.now }
    ensures { OnOk result ((from : List ℕ) → IsMarked nodes.now from numbers.old [] → IsMarked nodes.now from numbers.new nodes.now) }
{
    for k in 0..nodes.len() {
        follow(numbers, &nodes[nodes.len() - 1 - k])?;
    }
    Ok(())
}
