//! Worked rows: facts about monitors, computed from the definitions. No function here does anything.
ghost use Rattle.std.specs.Prelude.{◌≡◌};
ghost use Rattle.aig_semantics.specs.Examples.{toggle, toggle_of_nothing};
ghost use Rattle.round_monitor.specs.Counting.{IsFullRun};
ghost use Rattle.round_monitor.specs.Numbers.{greatest};
ghost use Rattle.round_monitor.specs.Monitor.{monitor_model};
ghost use Rattle.round_monitor.specs.Examples.{toggle_counted, positions_counted, two_rounds};

/// A latch that toggles, with its monitor for two rounds, and a run behind which the second counter is true.
pub fn toggling_latch()
    ensures model { monitor_model toggle 0 2 ≡ toggle_counted }
    ensures full { IsFullRun (monitor_model toggle 0 2).circuit two_rounds }
{}

/// A property without literals: the position before this one ended a round, whatever it was.
pub fn property_without_literals()
    ensures { monitor_model toggle_of_nothing 0 1 ≡ positions_counted }
{}

/// A circuit with as many variables as there may be, and a property without literals.
pub fn largest_circuit()
    ensures { greatest (record { variables = 16777216; literals = 0; counters = 1 }) ≡ 16777218 }
{}
