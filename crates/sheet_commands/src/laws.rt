//! The law of verdicts. Its call does nothing; its contract is the law.

ghost use Rattle.sheet_commands.specs.Verdicts.{TextsAgree};

use certificate::good_answers_are_true;
use circuit::Circuit;
use sheet_answers::good_sheets_are_true;

/// No property has a fair lasso by one good text, an answer or a block of a sheet, and none by another.
pub fn verdicts_agree(c: &Circuit)
    ensures { TextsAgree c.now }
{
    good_answers_are_true(c);
    good_sheets_are_true(c);
}
