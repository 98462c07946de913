//! The values of options among the words.
ghost use Rattle.std.specs.Prelude.{◌≡◌, ◌↔◌, ℕ, List, All, Contains, IfNone, IfSome, IfOk, IsTrue, Some, Err, true, length};
ghost use Rattle.clap.specs.Words.{first_value, found_of};
ghost use Rattle.command_words.specs.Setting.{IsValue, SetsEach};
ghost use Rattle.command_words.specs.inside.Parsed.{are_names, dashed_all, names, values_by};
ghost use Rattle.command_words.specs.inside.Split.{texts};

use crate::command::WordsError;
use crate::parsed::matches_for;
use crate::table::{CommandText, OptionText};
use clap::ArgMatches;
use std::alloc::Global;

/// Whether the word may be the value of an option: it is not empty, does not begin with `-` and has no line feed in it.
fn is_value(word: &str) -> bool
    ensures { IsTrue result ↔ IsValue word.now }
{
    let bytes = word.as_bytes();
    match bytes {
        [] => false,
        [first, ..] => *first != b'-' && !bytes.contains(&b'\n'),
    }
}

/// Whether the word is one of these.
pub(crate) fn is_among(words: &[&str], word: &str) -> bool
    ensures { IsTrue result ↔ Contains (texts words.now) word.now }
{
    for other in words {
        if *other == word {
            return true;
        }
    }
    false
}

/// The value that the parse gave the option, if it may be one.
fn value_of<'a>(matches: &ArgMatches<'a>, name: &str) -> Option<&'a str>
    ensures none { IfNone result
        ((value : List ℕ) → first_value (found_of matches.now) name.now ≡ Some value → ¬ IsValue value) }
    ensures some { IfSome result (λ value. first_value (found_of matches.now) name.now ≡ Some value.now) }
    ensures is_value { IfSome result (λ value. IsValue value.now) }
{
    let value = matches.get_str(name)?;
    if is_value(value) { Some(value) } else { None }
}

/// The values that the parse gave the options, in their order, if each may be one.
fn values_of<'a>(
    alloc: Global,
    matches: &ArgMatches<'a>,
    options: &[OptionText],
) -> Result<Vec<&'a str>, WordsError>
    ensures values { IfOk result (λ values. values_by (first_value (found_of matches.now)) (names options.now)
        ≡ Some (texts values.items)) }
    ensures are_values { IfOk result (λ values. All IsValue (texts values.items)) }
    ensures count { IfOk result (λ values. length values.items ≡ length options.now) }
    ensures usage { result ≡ Err WordsError.Usage → (values : List (List ℕ)) →
        values_by (first_value (found_of matches.now)) (names options.now) ≡ Some values → ¬ All IsValue values }
{
    let mut values = Vec::new(alloc);
    for option in options {
        let Some(value) = value_of(matches, option.name) else {
            return Err(WordsError::Usage);
        };
        let Ok(()) = values.push(value) else {
            return Err(WordsError::Want);
        };
    }
    Ok(values)
}

/// The values of the options, in their order, where the words set each of them once and nothing else.
///
/// The parse takes `--` at the end, and a value that is empty or begins with `-`, which no command has.
pub(crate) fn option_values<'a>(
    alloc: Global,
    text: &CommandText,
    words: &'a [&'a str],
) -> Result<Vec<&'a str>, WordsError>
    requires { are_names (names text.now.options.now) ≡ true }
    ensures values { IfOk result
        (λ values. SetsEach (dashed_all (names text.now.options.now)) (texts words.now) (texts values.items)) }
    ensures count { IfOk result (λ values. length values.items ≡ length text.now.options.now) }
    ensures usage { result ≡ Err WordsError.Usage → (values : List (List ℕ)) →
        ¬ SetsEach (dashed_all (names text.now.options.now)) (texts words.now) values }
{
    if is_among(words, "--") {
        return Err(WordsError::Usage);
    }
    let matches = match matches_for(alloc, text, words) {
        Ok(matches) => matches,
        Err(error) => return Err(error),
    };
    values_of(alloc, &matches, text.options)
}
