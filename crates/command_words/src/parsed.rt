//! The parse of the words by clap.
ghost use Rattle.std.specs.Prelude.{◌≡◌, ◌≢◌, [], IfOk, Err, false};
ghost use Rattle.clap.specs.Words.{app_of, fault_of, found_of, matches_of, rows_of, rule_of};
ghost use Rattle.command_words.specs.inside.Parsed.{app, asked, names};
ghost use Rattle.command_words.specs.inside.Split.{texts};

use crate::command::WordsError;
use crate::table::{CommandText, OptionText};
use clap::error::ErrorKind;
use clap::{Arg, ArgAction, ArgMatches, Command};
use std::alloc::{AllocError, Global};

/// What help says of the options together.
const HOW: &str =
    "Each option is given once, in any order, as --option VALUE or --option=VALUE. A value is not{n}empty, does not begin with - and has no line feed in it. The files that are written have different{n}names.";

/// The argument of clap for an option: it is required, with one value.
fn arg_for<'a>(alloc: Global, option: &OptionText) -> Arg<'a>
    ensures rule { rule_of result ≡ asked option.now.name.now }
    ensures local { result.global ≡ false }
{
    Arg::new(alloc, option.name)
        .long(option.name)
        .value_name(option.value)
        .help(option.help)
        .required(true)
        .action(ArgAction::Set)
}

/// The command of clap with these options.
pub(crate) fn command_for<'a>(alloc: Global, text: &CommandText) -> Result<Command<'a>, AllocError>
    ensures { IfOk result (λ command. app_of command ≡ app text.now.name.now (names text.now.options.now)) }
{
    let mut command = Command::new(alloc, text.name)
        .about(text.about)
        .after_help(HOW)
        .no_binary_name(true)
        .disable_help_flag(true);
    for option in text.options {
        command = command.arg(arg_for(alloc, option))?;
    }
    Ok(command)
}

/// What the parse of the words matches.
pub(crate) fn matches_for<'a>(
    alloc: Global,
    text: &CommandText,
    words: &'a [&'a str],
) -> Result<ArgMatches<'a>, WordsError>
    ensures taken { IfOk result (λ matches. fault_of (app text.now.name.now (names text.now.options.now)) (texts words.now) ≡ []) }
    ensures rows { IfOk result (λ matches. rows_of (found_of matches) ≡ matches_of (app text.now.name.now (names text.now.options.now)) (texts words.now)) }
    ensures usage { result ≡ Err WordsError.Usage → fault_of (app text.now.name.now (names text.now.options.now)) (texts words.now) ≢ [] }
{
    let Ok(command) = command_for(alloc, text) else {
        return Err(WordsError::Want);
    };
    match command.try_get_matches_from(words) {
        Ok(matches) => Ok(matches),
        Err(error) => {
            if error.kind() == ErrorKind::OutOfMemory {
                Err(WordsError::Want)
            } else {
                Err(WordsError::Usage)
            }
        }
    }
}
