//! The laws of dumps, as the contract of a function that does nothing.

ghost use Rattle.waves.specs.Laws.{NamesAreApart, IdentifiersAreApart, AreSpelled, BusesAreNamed, ValuesAreRead, LoopsAreUnrolled};

/// Does nothing. Its contract: no two variables of a dump have one name or one identifier, and none has a space in it;
/// each wire of a bus has its name and an index, from the highest to the lowest; the values that a dump gives at a
/// position's time are those of the position; and of a fair lasso the positions are its own and then those of its
/// loop once more.
pub fn dump_laws()
    ensures names { NamesAreApart }
    ensures identifiers { IdentifiersAreApart }
    ensures spelled { AreSpelled }
    ensures buses { BusesAreNamed }
    ensures values { ValuesAreRead }
    ensures unrolled { LoopsAreUnrolled }
{}
