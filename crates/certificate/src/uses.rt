//! Lines of uses. The main call is `read_uses`.

ghost use Rattle.std.specs.Prelude.{◌≡◌, ◌<◌, ◌≤◌, map, length, IfOk};
ghost use Rattle.std.specs.List.{All};
ghost use Rattle.certificate_lines.specs.Uses.{uses_of};
ghost use Rattle.entry.specs.Faults.{first_bad_use};
ghost use Rattle.entry.specs.Listing.{entries_of};
ghost use Rattle.fair_semantics.specs.declared.entries.Use.{Use as UseOf};
ghost use Rattle.std.specs.Prelude.{List};
ghost use Rattle.certificate.specs.declared.limits.TheConstants.{MAX_ENTRIES};
ghost use Rattle.certificate_texts.specs.Certificates.{as_use};
ghost use Rattle.certificate.specs.Seen.{seen_body};
ghost use Rattle.certificate.specs.Steps.{Stands, IsCut, TellsUses};

use crate::state::Body;
use certificate_lines::{WrittenUse, uses_of};
use entry::{Listed, User, first_bad_use};
use fair_semantics::Use;
use items::Items;
use std::alloc::{AllocError, Global};

/// Why a line of uses is refused.
#[derive(Clone, Copy)]
pub(crate) enum UsesEnd {
    /// It spells no uses, or not so many.
    Shape,
    /// The first that may not stand where it does is of the entry with this number.
    Bad(u64),
    Memory,
}

// The uses in front of the first whose number has more than 32 bits, and that number.
fn cut_uses(alloc: Global, written: &[WrittenUse]) -> Result<(Items<Use>, Option<u64>), AllocError>
    ensures { IfOk result (λ cut. IsCut (map as_use written.now) cut.0 cut.1) }
{
    let mut uses = Items::new(alloc);
    for u in written {
        match u.as_use() {
            Some(named) => uses.push(named)?,
            None => return Ok((uses, Some(u.number))),
        }
    }
    Ok((uses, None))
}

// The number of the first of all these uses that may not stand where it does: there is no entry with one of more than
// 32 bits.
fn bad_use(user: User, list: &[Listed], uses: &[Use], beyond: Option<u64>) -> Option<u64>
    requires { length list.now ≤ MAX_ENTRIES }
    ensures { (all : List UseOf) → IsCut all uses.now beyond → result ≡ first_bad_use user (entries_of list.now) all }
{
    match first_bad_use(user, list, uses) {
        Some(number) => Some(number),
        None => beyond,
    }
}

// The uses as they are written, where each may stand where it does.
fn standing_uses(
    alloc: Global,
    user: User,
    list: &[Listed],
    written: &[WrittenUse],
) -> Result<Items<Use>, UsesEnd>
    requires { length list.now ≤ MAX_ENTRIES }
    ensures { Stands user (entries_of list.now) (map as_use written.now) result }
{
    let Ok((uses, beyond)) = cut_uses(alloc, written) else {
        return Err(UsesEnd::Memory);
    };
    match bad_use(user, list, uses.as_slice(), beyond) {
        Some(number) => Err(UsesEnd::Bad(number)),
        None => Ok(uses),
    }
}

/// The uses of a line, as many as were said, where each may stand where it does.
pub(crate) fn read_uses(
    alloc: Global,
    body: &Body,
    user: User,
    count: u64,
    line: &[u8],
) -> Result<Items<Use>, UsesEnd>
    requires { length body.now.list ≤ MAX_ENTRIES }
    ensures uses { TellsUses (seen_body body.now) user count (uses_of body.now.version line.now) result }
    ensures present { IfOk result (λ uses. All (λ u. u.entry < length body.now.list) uses) }
{
    let Ok(written) = uses_of(alloc, body.version, line) else {
        return Err(UsesEnd::Memory);
    };
    let Some(written) = written else {
        return Err(UsesEnd::Shape);
    };
    if written.len() as u64 != count {
        return Err(UsesEnd::Shape);
    }
    standing_uses(alloc, user, body.list.as_slice(), written.as_slice())
}
