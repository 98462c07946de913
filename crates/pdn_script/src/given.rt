//! The options that the words of a command give.
ghost use Rattle.std.specs.Prelude.{◌≡◌, ◌<◌, IfSome, length, map};
ghost use Rattle.pdn_script.specs.Given.{option_of as named_by, waits_after as after, value as given_value, stands as standing, value_at as value_place, macro_at as macro_place, is_of_macro_grids as of_macro, macro_need, is_waiting, is_named};
ghost use Rattle.reading.specs.Word.{token, heard_token};
ghost use Rattle.pdn_script.specs.inside.Value.{last_waits, number_in};

use crate::sort::takes_value;
use crate::text::Bytes;
use crate::value::Value;
use reading::{Heard, Word};
use script_options::{Command, Need, ScriptOption, need_of, option_named};

/// The option of this name.
pub(crate) fn option_of(word: &Word<'_>) -> ScriptOption
    ensures { result ≡ named_by (token word.now) }
{
    option_named(word.text)
}

/// The option that waits for its value after one more word.
fn waits_after(waits: Option<ScriptOption>, word: &Word<'_>) -> Option<ScriptOption>
    ensures { result ≡ after waits (token word.now) }
{
    match waits {
        Some(_) => None,
        None => {
            let option = option_of(word);
            if takes_value(option) {
                Some(option)
            } else {
                None
            }
        }
    }
}

/// The option that waits for its value after these words, as the last of them says.
pub(crate) fn waiting(words: &[Heard<'_, Value>]) -> Option<ScriptOption>
    ensures { result ≡ last_waits words.now }
{
    match words.split_last() {
        None => None,
        Some((last, _)) => last.value.waits(),
    }
}

/// Whether it is the value of the option that waits.
fn is_for(waits: Option<ScriptOption>, option: ScriptOption) -> bool
    ensures { result ≡ is_waiting option waits }
{
    match waits {
        Some(other) => other.is(option),
        None => false,
    }
}

/// Whether the option stands in this word, where nothing waits for a value.
fn names(waits: Option<ScriptOption>, option: ScriptOption, word: &Word<'_>) -> bool
    ensures { result ≡ is_named option waits (token word.now) }
{
    match waits {
        Some(_) => false,
        None => option_of(word).is(option),
    }
}

/// The value of the option.
pub(crate) fn value<'a>(option: ScriptOption, words: &[Heard<'a, Value>]) -> Option<Bytes<'a>>
    ensures { result ≡ given_value option (map heard_token words.now) }
{
    let mut waits = None;
    for word in words {
        if is_for(waits, option) {
            return Some(Bytes::new(word.word.text));
        }
        waits = waits_after(waits, &word.word);
    }
    None
}

/// The number that the value of the option says.
pub(crate) fn number(option: ScriptOption, words: &[Heard<'_, Value>]) -> Option<u64>
    ensures { result ≡ number_in option words.now }
{
    let mut waits = None;
    for word in words {
        if is_for(waits, option) {
            return Some(word.value.number());
        }
        waits = waits_after(waits, &word.word);
    }
    None
}

/// Whether the option stands among the words.
pub(crate) fn stands(option: ScriptOption, words: &[Heard<'_, Value>]) -> bool
    ensures { result ≡ standing option (map heard_token words.now) }
{
    let mut waits = None;
    for word in words {
        if names(waits, option, &word.word) {
            return true;
        }
        waits = waits_after(waits, &word.word);
    }
    false
}

/// How many words stand before the value of the option.
pub(crate) fn value_at(option: ScriptOption, words: &[Heard<'_, Value>]) -> Option<usize>
    ensures is { result ≡ value_place option (map heard_token words.now) }
    ensures within { IfSome result (λ at. at < length words.now) }
{
    let mut waits = None;
    for (at, word) in words.iter().enumerate() {
        if is_for(waits, option) {
            return Some(at);
        }
        waits = waits_after(waits, &word.word);
    }
    None
}

/// Whether the need is that of macro grids.
fn is_macro_need(need: Option<Need>) -> bool
    ensures { result ≡ macro_need need }
{
    match need {
        Some(Need::OfMacroGrids) => true,
        _ => false,
    }
}

/// Whether the word is an option of macro grids, where nothing waits for a value.
fn is_of_macro_grids(waits: Option<ScriptOption>, word: &Word<'_>) -> bool
    ensures { result ≡ of_macro waits (token word.now) }
{
    match waits {
        Some(_) => false,
        None => is_macro_need(need_of(Command::DefinePdnGrid, option_of(word))),
    }
}

/// How many words stand before the first option of macro grids.
pub(crate) fn macro_at(words: &[Heard<'_, Value>]) -> Option<usize>
    ensures is { result ≡ macro_place (map heard_token words.now) }
    ensures within { IfSome result (λ at. at < length words.now) }
{
    let mut waits = None;
    for (at, word) in words.iter().enumerate() {
        if is_of_macro_grids(waits, &word.word) {
            return Some(at);
        }
        waits = waits_after(waits, &word.word);
    }
    None
}
