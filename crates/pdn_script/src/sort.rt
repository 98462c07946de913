ghost use Rattle.std.specs.Prelude.{◌≡◌};
ghost use Rattle.pdn_script.specs.Sort.{number_of, all_sorts, takes, takes_value, is_end as end_word, sort_of, sort_of_text, listed, few};
ghost use Rattle.reading.specs.Word.{token};

use reading::{Form, Numbered, Word};
use script_options::{Command, ScriptOption, ValueForm, command_named, form_of, option_named};

/// What a word of a script is, wherever it stands.
#[derive(Clone, Copy, Debug)]
pub(crate) enum Sort {
    /// `add_global_connection` or `global_connect`.
    Passed,
    /// The name of an option with a value.
    Valued,
    /// Any other word.
    Other,
    /// A line feed or a `;`.
    CommandEnd,
    TextEnd,
}

impl Numbered for Sort {
    ghost number = { number_of };

    ghost all = { all_sorts };

    fn number(self) -> usize {
        self as usize
    }

    ghost listed = { listed };

    ghost few = { few };
}

/// Whether something stands after an option whose value has this form.
fn takes(form: ValueForm) -> bool
    ensures { result ≡ takes form }
{
    match form {
        ValueForm::Nothing => false,
        _ => true,
    }
}

/// Whether the option has a value.
pub(crate) fn takes_value(option: ScriptOption) -> bool
    ensures { result ≡ takes_value option }
{
    takes(form_of(option))
}

/// The sort of a word that ends no command.
fn sort_of_text(text: &[u8]) -> Sort
    ensures { result ≡ sort_of_text text.now }
{
    if takes_value(option_named(text)) {
        return Sort::Valued;
    }
    match command_named(text) {
        Command::PassedOver => Sort::Passed,
        _ => Sort::Other,
    }
}

/// The sort of a word.
pub(crate) fn sort_of(word: &Word<'_>) -> Sort
    ensures { result ≡ sort_of (token word.now) }
{
    match word.form {
        Form::Break => Sort::CommandEnd,
        Form::Semicolon => Sort::CommandEnd,
        Form::End => Sort::TextEnd,
        _ => sort_of_text(word.text),
    }
}

/// Whether the word ends a command.
pub(crate) fn is_end(word: &Word<'_>) -> bool
    ensures { result ≡ end_word (token word.now) }
{
    match word.form {
        Form::Break => true,
        Form::Semicolon => true,
        Form::End => true,
        _ => false,
    }
}
