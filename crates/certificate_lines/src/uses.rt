//! Lines of uses. The main calls are `uses_of` and `push_uses`.
ghost use Rattle.std.specs.Prelude.{◌≡◌, ◌<◌, ◌≤◌, ◌^◌, ◌++◌, map, option_map, IfOk, OnOk, IfSome, IfNone};
ghost use Rattle.std.specs.List.{join_with_byte};
ghost use Rattle.text_grammar.specs.Pieces.{fields};
ghost use Rattle.certificate_lines.specs.Fields.{read_each};
ghost use Rattle.certificate_lines.specs.Uses.{sign_text, use_text, uses_text, AreUses, SpellsNoUses, written, sign_in, side_in, use_in, uses_of};
ghost use Rattle.certificate_lines.specs.Reading.{fields_behind};

use crate::fields::{GREATEST, first_field};
use crate::words::Version;
use fair_semantics::{Side, Use};
use items::Items;
use std::alloc::{AllocError, Global};
use text_grammar::{push_number, read_number};

/// A use as it stands in a text. Its number may be too great for that of an entry.
#[derive(Clone, Copy)]
pub struct WrittenUse {
    /// The number of the used entry, from 0. Below 2^63.
    pub number: u64,
    /// The side that its sign names.
    pub side: Side,
}

impl WrittenUse {
    /// The use of an entry. `None` where the number is 2^32 or more: a list has no entry with that number.
    pub fn as_use(self) -> Option<Use>
        ensures found { IfSome result (λ u. written u ≡ self) }
        ensures none { IfNone result (2 ^ 32 ≤ self.number) }
    {
        let entry = u32::try_from(self.number).ok()?;
        Some(Use {
            entry,
            side: self.side,
        })
    }
}

/// The uses that a line spells in a certificate of this version, the empty line none. `Ok(None)` where it spells no
/// uses: in version 1 a sign is in no form. Numbers up to 2^63 - 1 are read, in any order. The error is want of memory.
pub fn uses_of(
    alloc: Global,
    version: Version,
    line: &[u8],
) -> Result<Option<Items<WrittenUse>>, AllocError>
    ensures value { IfOk result (λ uses. uses ≡ uses_of version line.now) }
    ensures found { IfOk result (λ uses. IfSome uses (λ us. AreUses version line.now us)) }
    ensures none { IfOk result (λ uses. IfNone uses (SpellsNoUses version line.now)) }
{
    read_uses(alloc, version, line)
}

// The same, without what follows of it.
#[tactic(auto, using(crate::proofs::UseLaws::some_use))]
fn read_uses(
    alloc: Global,
    version: Version,
    line: &[u8],
) -> Result<Option<Items<WrittenUse>>, AllocError>
    ensures { IfOk result (λ uses. uses ≡ uses_of version line.now) }
{
    if line.is_empty() {
        return Ok(Some(Items::new(alloc)));
    }
    fields_of(alloc, version, line)
}

// The use that each field of the line is.
fn fields_of(
    alloc: Global,
    version: Version,
    line: &[u8],
) -> Result<Option<Items<WrittenUse>>, AllocError>
    ensures { IfOk result (λ uses. uses ≡ read_each (use_in version) (fields line.now)) }
{
    let mut uses = Items::new(alloc);
    let mut left = Some(line);
    while let Some(rest) = left {
        let (field, more) = first_field(rest);
        let Some(u) = use_in(version, field) else {
            return Ok(None);
        };
        uses.push(u)?;
        left = more;
    }
    Ok(Some(uses))
}

fn use_in(version: Version, field: &[u8]) -> Option<WrittenUse>
    ensures { result ≡ use_in version field.now }
{
    let (number, rest) = read_number(field, GREATEST)?;
    let side = side_in(version, rest)?;
    Some(WrittenUse { number, side })
}

// The side that what follows a number names.
fn side_in(version: Version, rest: &[u8]) -> Option<Side>
    ensures { result ≡ side_in version rest.now }
{
    let Some((byte, behind)) = rest.split_first() else {
        return Some(Side::Any);
    };
    match version {
        Version::One => None,
        Version::Two => {
            if !behind.is_empty() {
                return None;
            }
            sign_in(*byte)
        }
    }
}

fn sign_in(byte: u8) -> Option<Side>
    ensures { result ≡ sign_in byte }
{
    if byte == b'+' {
        return Some(Side::In);
    }
    if byte == b'-' {
        return Some(Side::Out);
    }
    None
}

/// Writes the line of uses at the end, without a line feed. The error is want of memory.
pub fn push_uses(out: &mut Vec<u8>, uses: &[Use]) -> Result<(), AllocError>
    ensures { OnOk result (out.new.items ≡ out.old.items ++ uses_text (map written uses.now)) }
{
    let Some((first, more)) = uses.split_first() else {
        return Ok(());
    };
    push_use(out, *first)?;
    for u in more {
        out.push(b' ')?;
        push_use(out, *u)?;
    }
    Ok(())
}

fn push_use(out: &mut Vec<u8>, u: Use) -> Result<(), AllocError>
    ensures { OnOk result (out.new.items ≡ out.old.items ++ use_text (written u)) }
{
    push_number(out, u64::from(u.entry))?;
    match u.side {
        Side::Any => {}
        Side::In => out.push(b'+')?,
        Side::Out => out.push(b'-')?,
    }
    Ok(())
}
