//! The laws of the definitions. Each call does nothing; its contract is the law.
ghost use Rattle.ic3_semantics.specs.Laws.{StepsKeepToArena, SeparatedIsNotReached};

/// From a state of the arena the entries allow the steps that stay in it, and no others.
pub fn steps_keep_to_the_arena()
    ensures { StepsKeepToArena }
{}

/// Where an entry separates the start from the goal, no path leads there.
pub fn separated_goals_are_not_reached()
    ensures { SeparatedIsNotReached }
{}
