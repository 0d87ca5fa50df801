//! Wires put together by section and base. The main call is `gather`.

ghost use Rattle.std.specs.Prelude.{◌≡◌, ◌<◌, ◌++◌, ◌∷◌, [], fold, length, IfOk, OnOk, OnErr};
ghost use Rattle.waves.specs.Buses.{bracket_in, member, first_of, alone, joined, with_bit, with_named};
ghost use Rattle.waves.specs.Kept.{GrowsAt};

use crate::bits::{bit_letter, bracket_in};
use crate::named::Named;
use crate::wires::Wire;
use items::Items;
use std::alloc::{AllocError, Global};
use std::collections::BTreeMap;

/// A wire of a group.
#[derive(Drop)]
pub struct Member {
    pub wire: Wire,
    pub name: Items<u8>,
    /// Of a wire that is no bit 0.
    pub index: u32,
}

/// The bits of one section and base, or one wire that is no bit.
#[derive(Drop)]
pub struct Group {
    /// The letter of the section's symbols, 0 for a wire that is no bit.
    pub letter: u8,
    /// What stands in front of the indices, empty for a wire that is no bit.
    pub base: Items<u8>,
    pub members: Items<Member>,
}

// Groups with their places by letter and base.
#[derive(Drop)]
struct Groups {
    list: Vec<Group>,
    places: BTreeMap<(u64, Vec<u8>), usize>,
}

impl std::marker::Model for Groups {
    ghost use Rattle.std.specs.Prelude.{List};
    ghost use Rattle.waves.specs.declared.groups.Group.{Group as OneGroup};

    ghost Value = { List OneGroup };

    ghost use Rattle.waves.specs.Kept.{ArePlaces};

    ghost view = { λ s. s.list.items };

    ghost invariant = { λ s. ArePlaces s.list.items s.places };
}

// Puts the member into the group at this place.
fn grow(groups: &mut Vec<Group>, place: usize, member: Member) -> Result<(), AllocError>
    requires { place < length groups.old.items }
    ensures ok { OnOk result (GrowsAt place member groups.old.items groups.new.items) }
    ensures err { OnErr result (groups.new.items ≡ groups.old.items) }
{
    groups[place].members.push(member)
}

fn group_of(alloc: Global, letter: u8, base: &[u8], member: Member) -> Result<Group, AllocError>
    ensures { IfOk result (λ g. g ≡ first_of letter base.now member) }
{
    let base = Items::from_slice(alloc, base)?;
    let mut members = Items::new(alloc);
    members.push(member)?;
    Ok(Group {
        letter,
        base,
        members,
    })
}

fn member_of(alloc: Global, named: &Named, index: u32) -> Result<Member, AllocError>
    ensures { IfOk result (λ m. m ≡ member named.now index) }
{
    Ok(Member {
        wire: named.wire,
        name: named.name.try_copy(alloc)?,
        index,
    })
}

impl Groups {
    fn new(alloc: Global) -> Groups
        ensures { result ≡ [] }
    {
        Groups {
            list: Vec::new(alloc),
            places: BTreeMap::new(alloc),
        }
    }

    // The wire, which is no bit, behind the others.
    fn push_alone(&mut self, alloc: Global, named: &Named) -> Result<(), AllocError>
        ensures { OnOk result (self.new ≡ self.old ++ alone named.now ∷ []) }
    {
        let member = member_of(alloc, named, 0)?;
        let group = group_of(alloc, 0, b"", member)?;
        self.list.push(group)?;
        Ok(())
    }

    // The member in the group of this letter and base.
    fn push_bit(
        &mut self,
        alloc: Global,
        letter: u8,
        base: &[u8],
        member: Member,
    ) -> Result<(), AllocError>
        requires { 0 < length base.now }
        ensures { OnOk result (self.new ≡ joined letter base.now member self.old) }
    {
        let key = (u64::from(letter), Vec::from_slice(alloc, base)?);
        if let Some(place) = self.places.get(&key) {
            return grow(&mut self.list, *place, member);
        }
        let group = group_of(alloc, letter, base, member)?;
        self.list.reserve(1)?;
        self.places.insert(key, self.list.len())?;
        self.list.push_reserved(group);
        Ok(())
    }

    fn into_vec(self) -> Vec<Group>
        ensures { result.items ≡ self }
    {
        let Groups { list, places } = self;
        drop(places);
        list
    }
}

// The wire, which is one of the section with this letter.
fn push_element(
    alloc: Global,
    groups: &mut Groups,
    named: &Named,
    letter: u8,
) -> Result<(), AllocError>
    ensures { OnOk result (groups.new ≡ with_bit groups.old named.now letter (bracket_in named.now.name)) }
{
    let name = named.name.as_slice();
    let Some((place, index)) = bracket_in(name) else {
        return groups.push_alone(alloc, named);
    };
    let member = member_of(alloc, named, index)?;
    groups.push_bit(alloc, letter, &name[..place], member)
}

fn push_named(alloc: Global, groups: &mut Groups, named: &Named) -> Result<(), AllocError>
    ensures { OnOk result (groups.new ≡ with_named groups.old named.now) }
{
    match bit_letter(named.wire) {
        Some(letter) => push_element(alloc, groups, named, letter),
        None => groups.push_alone(alloc, named),
    }
}

/// The wires put together.
pub(crate) fn gather(alloc: Global, wires: &[Named]) -> Result<Vec<Group>, AllocError>
    ensures { IfOk result (λ groups. groups.items ≡ fold with_named [] wires.now) }
{
    let mut groups = Groups::new(alloc);
    for named in wires {
        push_named(alloc, &mut groups, named)?;
    }
    Ok(groups.into_vec())
}
