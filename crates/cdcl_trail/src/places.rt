//! Where variables stand among the literals of a trail. The main type is `Places`.
ghost use Rattle.std.specs.Prelude.{◌≡◌};
ghost use Rattle.cdcl_trail.specs.Places.{told};

use cnf::Var;
use packed_literals::{Dense, Names};

/// Where variables stand among the literals of a trail, as a trail lends it.
#[derive(Clone, Copy)]
pub struct Places<'a> {
    names: &'a Names,
    numbered: &'a Dense<u32>,
}

impl<'a> Places<'a> {
    /// The places of variables, by those of their numbers.
    pub(crate) fn new(names: &'a Names, numbered: &'a Dense<u32>) -> Places<'a>
        ensures names { result.names.now ≡ names.now }
        ensures numbered { result.numbered.now ≡ numbered.now }
    {
        Places { names, numbered }
    }

    /// The place of a variable. `None` where it has no value. Takes no memory.
    pub fn get(&self, var: Var) -> Option<usize>
        ensures { result ≡ told self.now var }
    {
        match self.names.get(var) {
            None => None,
            Some(number) => widened(self.numbered.get(number)),
        }
    }
}

// The same place.
fn widened(place: Option<u32>) -> Option<usize>
    ensures { result ≡ place }
{
    match place {
        None => None,
        Some(place) => Some(place as usize),
    }
}
