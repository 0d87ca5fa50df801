//! Who uses entries, and which of a line of uses is the first that may not stand. The main call is `first_bad_use`.

ghost use Rattle.std.specs.Prelude.{◌≡◌, ◌<◌, ◌==◌, ◌||◌, not, [], ◌∷◌, ◌++◌};
ghost use Rattle.std.specs.List.{AllPairs, list_any};
ghost use Rattle.entry.specs.Listing.{entries_of};
ghost use Rattle.entry.specs.Faults.{is_signed, may_use, are_known, may_stand, first_bad_use};

use crate::list::Listed;
use fair_semantics::{Kind, Side, Use};

/// Who uses entries: an entry of a kind, or a refutation.
#[derive(Clone, Copy, Debug, PartialEq, Eq)]
pub enum User {
    Entry(Kind),
    Refutation,
}

fn is_signed(side: Side) -> bool
    ensures { result ≡ is_signed side }
{
    match side {
        Side::Any => false,
        Side::In => true,
        Side::Out => true,
    }
}

fn may_use(user: User, kind: Kind, side: Side) -> bool
    ensures { result ≡ may_use user kind side }
{
    match (user, kind) {
        (User::Entry(Kind::Reach), Kind::Wall) => false,
        (User::Entry(Kind::Wall), Kind::Wall) => true,
        _ => !is_signed(side),
    }
}

// Whether these uses, which ascend, have one of entry n.
fn has_use(uses: &[Use], n: u32) -> bool
    requires { AllPairs (λ u v. u.entry < v.entry) uses.now }
    ensures { result ≡ list_any (λ v. v.entry == n) uses.now }
{
    uses.binary_search_by_key(&n, |v| v.entry).is_ok()
}

fn is_known(earlier: &[Use], u: Use) -> bool
    requires { AllPairs (λ u v. u.entry < v.entry) earlier.now }
    ensures { result ≡ (not (is_signed u.side) || list_any (λ v. v.entry == u.entry) earlier.now) }
{
    !is_signed(u.side) || has_use(earlier, u.entry)
}

fn are_known(earlier: &[Use], named: &[Use]) -> bool
    requires { AllPairs (λ u v. u.entry < v.entry) earlier.now }
    ensures { result ≡ are_known earlier.now named.now }
{
    for u in named {
        if !is_known(earlier, *u) {
            return false;
        }
    }
    true
}

// Whether the use may stand behind these, its number being from `least` on.
fn may_stand(user: User, list: &[Listed], least: u64, earlier: &[Use], u: Use) -> bool
    requires { AllPairs (λ u v. u.entry < v.entry) earlier.now }
    ensures { result ≡ may_stand user (entries_of list.now) least earlier.now u }
{
    if u64::from(u.entry) < least {
        return false;
    }
    let Some(entry) = list.get(u.entry as usize) else {
        return false;
    };
    may_use(user, entry.kind, u.side) && are_known(earlier, entry.uses.as_slice())
}

/// The number of the first use that may not stand where it does: numbers ascend, and each is that of an entry of the
/// list; a reach entry uses reach entries alone; only a use of a wall has a side named, and a refutation names none; and
/// each wall of which a used wall names a side is used before it. `None` where each may stand. Takes no memory.
pub fn first_bad_use(user: User, list: &[Listed], uses: &[Use]) -> Option<u64>
    ensures { result ≡ first_bad_use user (entries_of list.now) uses.now }
{
    let mut least: u64 = 0;
    for (i, u) in uses.iter().enumerate() {
        if !may_stand(user, list, least, &uses[..i], *u) {
            return Some(u64::from(u.entry));
        }
        least = u64::from(u.entry) + 1;
    }
    None
}
