//! The law of the definitions. The call does nothing; its contract is the law.
ghost use Rattle.skeleton.specs.Laws.{NeverStays};

/// A cube in whose states no allowed skeleton begins is one under more entries too.
pub fn never_stays()
    ensures { NeverStays }
{}
