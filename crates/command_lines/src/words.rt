//! The words of the command line: the options that commands share, and the values that `clap` found for them.

ghost use Rattle.std.specs.Prelude.{◌≡◌, ◌≤◌, ℕ, Some, codes, option_map, IfOk, IfSome, IfNone, false};
ghost use Rattle.clap.specs.Simple.{App, app_of, new_app, with_rule, with_subcommand};
ghost use Rattle.clap.specs.Walk.{rows_of, rule_of, first_of};
ghost use Rattle.clap.specs.Matches.{found_of};
ghost use Rattle.command_lines.specs.Making.{MakesCommand, TakesMore};
ghost use Rattle.command_lines.specs.Words.{flag, flag_in, number_option, text_option, wanted};
ghost use Rattle.command_lines.specs.Words.{wanted_number, IsNumberIn, IsNumberGiven, IsNumberOr};

use clap::builder::ValueParser;
use clap::{Arg, ArgAction, ArgMatches, Command};
use std::alloc::{AllocError, Global};

/// A command with one more argument, where it was made and takes it.
fn with_argument<'a>(
    made: Result<Command<'a>, AllocError>,
    argument: Arg<'a>,
) -> Result<Command<'a>, AllocError>
    requires { argument.global ≡ false }
    ensures { TakesMore made.entry (rule_of argument.entry) result }
{
    match made {
        Ok(command) => command.arg(argument),
        Err(error) => {
            drop(argument);
            Err(error)
        }
    }
}

/// A command with a value that has to be given.
pub(crate) fn with_wanted<'a>(
    alloc: Global,
    made: Result<Command<'a>, AllocError>,
    name: &'a str,
) -> Result<Command<'a>, AllocError>
    ensures { TakesMore made.entry (wanted name.now) result }
{
    with_argument(made, Arg::new(alloc, name).required(true))
}

/// A command with a number that has to be given.
pub(crate) fn with_wanted_number<'a>(
    alloc: Global,
    made: Result<Command<'a>, AllocError>,
    name: &'a str,
    low: u64,
    high: u64,
) -> Result<Command<'a>, AllocError>
    ensures { TakesMore made.entry (wanted_number name.now low high) result }
{
    let argument = Arg::new(alloc, name)
        .required(true)
        .value_parser(ValueParser::unsigned(low, high));
    with_argument(made, argument)
}

/// A command with an option without a value.
pub(crate) fn with_flag<'a>(
    alloc: Global,
    made: Result<Command<'a>, AllocError>,
    name: &'a str,
) -> Result<Command<'a>, AllocError>
    ensures { TakesMore made.entry (flag name.now) result }
{
    let argument = Arg::new(alloc, name).long(name).action(ArgAction::SetTrue);
    with_argument(made, argument)
}

/// A command with an option that has a number.
pub(crate) fn with_number_option<'a>(
    alloc: Global,
    made: Result<Command<'a>, AllocError>,
    name: &'a str,
    low: u64,
    high: u64,
) -> Result<Command<'a>, AllocError>
    ensures { TakesMore made.entry (number_option name.now low high) result }
{
    let argument = Arg::new(alloc, name)
        .long(name)
        .value_parser(ValueParser::unsigned(low, high));
    with_argument(made, argument)
}

/// A command with an option that has a text.
pub(crate) fn with_text_option<'a>(
    alloc: Global,
    made: Result<Command<'a>, AllocError>,
    name: &'a str,
) -> Result<Command<'a>, AllocError>
    ensures { TakesMore made.entry (text_option name.now) result }
{
    with_argument(made, Arg::new(alloc, name).long(name))
}

/// A command of this name that wants a value.
pub(crate) fn for_value<'a>(
    alloc: Global,
    name: &'a str,
    value: &'a str,
) -> Result<Command<'a>, AllocError>
    ensures { MakesCommand (with_rule (new_app name.now) (wanted value.now)) result }
{
    with_wanted(alloc, Ok(Command::new(alloc, name)), value)
}

/// A command of this name that wants the names of a model and of an answer.
pub(crate) fn for_model_and_answer<'a>(
    alloc: Global,
    name: &'a str,
) -> Result<Command<'a>, AllocError>
    ensures { MakesCommand (with_rule (with_rule (new_app name.now) (wanted (codes "MODEL"))) (wanted (codes "ANSWER"))) result }
{
    with_wanted(alloc, for_value(alloc, name, "MODEL"), "ANSWER")
}

/// A command of this name that wants the name of a model, and takes the number of a property.
pub(crate) fn for_property<'a>(alloc: Global, name: &'a str) -> Result<Command<'a>, AllocError>
    ensures { MakesCommand
        (with_rule (with_rule (new_app name.now) (wanted (codes "MODEL"))) (number_option (codes "property") 0 4294967295)) result }
{
    let command = for_value(alloc, name, "MODEL");
    with_number_option(alloc, command, "property", 0, 4_294_967_295)
}

/// The program with one more command, where both were made.
pub(crate) fn attached<'a>(
    program: Result<Command<'a>, AllocError>,
    made: Result<Command<'a>, AllocError>,
) -> Result<Command<'a>, AllocError>
    ensures { (before app : App) → IfOk program.entry (λ command. app_of command ≡ before) → MakesCommand app made.entry
        → IfOk result (λ more. app_of more ≡ with_subcommand before app.top) }
{
    match program {
        Ok(program) => with_made(program, made),
        Err(error) => {
            drop(made);
            Err(error)
        }
    }
}

fn with_made<'a>(
    program: Command<'a>,
    made: Result<Command<'a>, AllocError>,
) -> Result<Command<'a>, AllocError>
    ensures { (app : App) → MakesCommand app made.entry
        → IfOk result (λ more. app_of more ≡ with_subcommand (app_of program.entry) app.top) }
{
    match made {
        Ok(command) => program.subcommand(command),
        Err(error) => {
            drop(program);
            Err(error)
        }
    }
}

/// The number that is given for a name, if it is from the low one to the high one, or the default where none is given.
pub(crate) fn number_or(
    given: &ArgMatches,
    name: &str,
    low: u64,
    high: u64,
    default: u64,
) -> Option<u64>
    ensures found { IfSome result (IsNumberOr (rows_of (found_of given.now)) name.now low high default) }
    ensures none { IfNone result ((n : ℕ) → IsNumberOr (rows_of (found_of given.now)) name.now low high default n → ⊥) }
{
    match value_of(given, name) {
        Some(text) => number_in(text, low, high),
        None => Some(default),
    }
}

/// The number that is given for a name, if it is from the low one to the high one.
pub(crate) fn number_of(given: &ArgMatches, name: &str, low: u64, high: u64) -> Option<u64>
    ensures found { IfSome result (IsNumberGiven (rows_of (found_of given.now)) name.now low high) }
    ensures none { IfNone result ((n : ℕ) → IsNumberGiven (rows_of (found_of given.now)) name.now low high n → ⊥) }
{
    number_in(value_of(given, name)?, low, high)
}

/// The number that the text is, if it is from the low one to the high one.
fn number_in(text: &str, low: u64, high: u64) -> Option<u64>
    ensures found { IfSome result (IsNumberIn low high text.now) }
    ensures exactly { (n : ℕ) → IsNumberIn low high text.now n → result ≡ Some n }
{
    match text.parse::<u64>() {
        Ok(number) => within(number, low, high),
        Err(_) => None,
    }
}

fn within(number: u64, low: u64, high: u64) -> Option<u64>
    ensures found { IfSome result (λ n. (n ≡ number) × (low ≤ n) × (n ≤ high)) }
    ensures exactly { low ≤ number → number ≤ high → result ≡ Some number }
{
    if low <= number && number <= high {
        Some(number)
    } else {
        None
    }
}

/// Whether the flag was given.
pub(crate) fn flag_of(given: &ArgMatches, name: &str) -> bool
    ensures { result ≡ flag_in (rows_of (found_of given.now)) name.now }
{
    match value_of(given, name) {
        Some(text) => text == "true",
        None => false,
    }
}

/// The text that was given for a name.
pub(crate) fn value_of<'a>(given: &ArgMatches<'a>, name: &str) -> Option<&'a str>
    ensures { option_map (λ text. text.now) result ≡ first_of name.now (rows_of (found_of given.now)) }
{
    given.get_str(name)
}
