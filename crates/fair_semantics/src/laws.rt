//! The laws of the definitions. Each call does nothing; its contract is the law.
ghost use Rattle.fair_semantics.specs.Laws.{AllowsSteps, InitialIsInCube, HoldsInitialStates, SetsStandBehind, UsesStandAlone, UsesAllow, StaysValid, FrontAllows, ReachHoldsRuns, LoopsKeepSides, CertifiesNoLasso, UsesCertifyNoLasso, NoLassoMeansFewRounds};

/// What allowing a step means, which states are initial, and which clauses hold in all of these.
pub fn steps_and_initial_states()
    ensures steps { AllowsSteps }
    ensures initial { InitialIsInCube }
    ensures clauses { HoldsInitialStates }
{}

/// The set of an entry depends on the entries before it alone, and of these on the closed uses that lead to it; so an
/// entry stays valid in every list in which the numbers that it uses stand for entries that say the same.
pub fn sets_over_uses()
    ensures sets { SetsStandBehind }
    ensures alone { UsesStandAlone }
    ensures allowed { UsesAllow }
    ensures valid { StaysValid }
    ensures front { FrontAllows }
{}

/// In a list of valid entries each reach entry holds the latches and the successor of every position of every initial
/// run.
pub fn reach_holds_runs()
    ensures { ReachHoldsRuns }
{}

/// In a list of valid entries the loop of every fair lasso lies on one side of each wall.
pub fn loops_keep_sides()
    ensures { LoopsKeepSides }
{}

/// Where a list of valid entries, or closed uses of it, allow no skeleton of a property, no initial run and place form
/// a fair lasso of that property.
pub fn certificates_leave_no_lasso()
    ensures list { CertifiesNoLasso }
    ensures uses { UsesCertifyNoLasso }
{}

/// Where there is no fair lasso of a property, no initial run has more rounds of it than there are states: 2 to the
/// number of latches. Each round is a segment of the run in which the property's literals and those of fairness are true.
pub fn no_lasso_means_few_rounds()
    ensures { NoLassoMeansFewRounds }
{}
