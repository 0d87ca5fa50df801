//! The laws of runs. Each call does nothing; its contract is the law.

ghost use Rattle.fair_top.specs.Solve.{RunsAgree};
ghost use Rattle.fair_top.specs.Laws.{OpenRoundsAreAsked, OpenDepthsAreAsked, ReportsAreAsked, CertificatesAreAsked};
ghost use Rattle.fair_top.specs.Laws.{SheetsAreAsked, ReportsBeginAsAsked, CertificatesBeginAsAsked, WavesAreAsked};
ghost use Rattle.fair_top.specs.Laws.{SummariesAreTrue, VerdictsAreAccepted, OpenSheetsAreAccepted};

use aiger_ascii::ascii_laws;
use aiger_binary::binary_laws;
use certificate::good_answers_agree;
use circuit::Circuit;

/// Two runs of `solve` for one property of a model with this circuit, whatever their workers and budgets, agree: where
/// both print an answer they print the same status line.
pub fn runs_agree(c: &Circuit)
    ensures { RunsAgree c.now }
{
    ascii_laws();
    binary_laws();
    good_answers_agree(c);
}

/// What a command answers is of what was asked for: the limits of a search that is cut short; the workers, lasso workers, depth
/// and list of a report; the property of a certificate, and, where no answer is named, the number of entries of it and of a sheet;
/// the entries of a named answer; the property of a dump. And the verdict that `demo` sums up is true.
pub fn answers_are_as_asked()
    ensures rounds { OpenRoundsAreAsked }
    ensures shortest { OpenDepthsAreAsked }
    ensures reports { ReportsAreAsked }
    ensures certificates { CertificatesAreAsked }
    ensures sheets { SheetsAreAsked }
    ensures reports_begin { ReportsBeginAsAsked }
    ensures certificates_begin { CertificatesBeginAsAsked }
    ensures waves { WavesAreAsked }
    ensures summaries { SummariesAreTrue }
{}

/// `check` accepts what `solve` prints: with a verdict, of which it says the same, and of all properties with a report, too.
pub fn printed_answers_are_accepted()
    ensures verdicts { VerdictsAreAccepted }
    ensures open_sheets { OpenSheetsAreAccepted }
{}
