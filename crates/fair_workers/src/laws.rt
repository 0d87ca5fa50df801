//! When workers leave no report. The call does nothing; its contract is the law.

ghost use Rattle.fair_workers.specs.Laws.{NoReportWithoutLimits};

/// Workers without limits on conflicts and steps leave no report where their list may have, behind the given entries, one
/// for each list of latch and input values that could be a skeleton of a property, of each property by itself.
pub fn no_report_without_limits()
    ensures { NoReportWithoutLimits }
{}
