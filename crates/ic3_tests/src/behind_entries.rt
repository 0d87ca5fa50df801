//! Searches of drawn circuits behind drawn entries.

use crate::entered::agrees_behind_entries;
use crate::limits::{Limits, added, limits_behind_entries};
use std::test::Fail;

#[test]
fn drawn_circuits_are_searched_behind_entries(rt: HostRuntime) -> Result<(), Fail> {
    for number in 0..200 {
        assert!(rt; agrees_behind_entries(rt.alloc(), number), "{}", number);
    }
    Ok(())
}

// Limits from 0 up are spent one by one until the answer comes, and of each kind some are.
#[test]
fn limits_rise_until_the_answer(rt: HostRuntime) -> Result<(), Fail> {
    let mut spent: Limits = [0, 0];
    for number in 0..200 {
        let limits = limits_behind_entries(rt.alloc(), number);
        assert!(rt; limits.is_some(), "{}", number);
        spent = added(spent, limits.unwrap_or([0, 0]));
    }
    let [steps, conflicts] = spent;
    assert!(rt; steps >= 100 && conflicts >= 20, "{steps} {conflicts}");
    Ok(())
}
