//! The laws of answers. Each call does nothing; its contract is the law.

ghost use Rattle.certificate.specs.Laws.{ReadsGood, GoodIsTrue, VerdictsAgree, EachHasEnd, OneIsGood, GoodHasNoFault, OneFault, FaultsStay, JudgedBefore, WrittenIsGood, WrittenCertificatesAreGood, HeldIsGood, PrintedHoldsTheSame};

use circuit::Circuit;
use entry::{good_lists_grow, refutations_leave_no_lasso};
use fair_semantics::no_lasso_means_few_rounds;

/// A text is read as a good answer, line by line, exactly where it is one.
pub fn answers_are_read_as_good(c: &Circuit)
    ensures { ReadsGood c.now }
{}

/// A good answer is true: there is such a fair lasso of the property; or none at all, and no initial run has more rounds
/// of the property than 2 to the number of latches.
pub fn good_answers_are_true(c: &Circuit)
    ensures { GoodIsTrue c.now }
{
    good_lists_grow(c);
    refutations_leave_no_lasso(c);
    no_lasso_means_few_rounds();
}

/// No property has both a good stimulus and a good certificate: whatever decided it, two good answers agree.
pub fn good_answers_agree(c: &Circuit)
    ensures { VerdictsAgree c.now }
{
    good_answers_are_true(c);
}

/// Any text is good for something or is refused for a fault; it is good for one thing at most, and then it is not
/// refused, and it is refused for one fault at most.
pub fn answers_have_one_end(c: &Circuit)
    ensures each { EachHasEnd c.now }
    ensures good { OneIsGood c.now }
    ensures apart { GoodHasNoFault c.now }
    ensures refused { OneFault c.now }
{}

/// A fault depends on the lines up to it: where lines have one that is not of their end, each text that begins with them
/// has the same; so none such is good. A stimulus is never refused for its form or its property, which are judged before.
pub fn first_faults_stay(c: &Circuit)
    ensures stay { FaultsStay c.now }
    ensures before { JudgedBefore c.now }
{}

/// What `stimulus::write` writes for property `n` of a stimulus that stands for a lasso of it, of so many positions and
/// with this place, is a good answer that shows that lasso. Asked for is that the stimulus stands for it by the
/// definition (so it has a value for each latch, and for each input at each position), that `n` is below 2^63, and that
/// the text has at most 9,223,372,036,854,775,807 bytes.
pub fn written_stimuli_are_good(c: &Circuit)
    ensures { WrittenIsGood c.now }
{}

/// What `write` writes of entries and a refutation that refute a property of the circuit is a good answer, where the text
/// is within the limit on its length.
pub fn written_certificates_are_good(c: &Circuit)
    ensures { WrittenCertificatesAreGood c.now }
{
    let _limits = c.max();
}

/// What `load` holds of an answer, and what `print` writes of it: the text is good for what is accepted where this is held;
/// and what is printed has the same, but for the version of a certificate, where the text is within the limit on its
/// length.
pub fn printed_answers_hold_the_same(c: &Circuit)
    ensures good { HeldIsGood c.now }
    ensures same { PrintedHoldsTheSame c.now }
{}
