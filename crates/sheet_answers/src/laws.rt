//! The laws of sheets. Each call does nothing; its contract is the law.

ghost use Rattle.sheet_answers.specs.Laws.{GoodSheetsAreTrue, SheetsAreTrue, WrittenSheetsAreGood};

use circuit::Circuit;
use entry::{good_lists_grow, refutations_leave_no_lasso};
use fair_semantics::no_lasso_means_few_rounds;

/// A good sheet is true: a property with a stimulus has a fair lasso; one with a refutation has none, and no initial run has
/// more rounds of it than 2 to the number of latches.
pub fn good_sheets_are_true(c: &Circuit)
    ensures each { GoodSheetsAreTrue c.now }
    ensures shown { SheetsAreTrue c.now }
{
    good_lists_grow(c);
    refutations_leave_no_lasso(c);
    no_lasso_means_few_rounds();
}

/// What `write` writes is a good sheet, where its blocks are true over the entries, each of which is proved behind those before
/// it, and the text is within the limit on its length.
pub fn written_sheets_are_good(c: &Circuit)
    ensures { WrittenSheetsAreGood c.now }
{
    let _limits = c.max();
}
