//! What the words of a command say.
ghost use Rattle.std.specs.Prelude.{◌≡◌};
ghost use Rattle.pdn_script.specs.inside.Value.{command_of, waits_of, number_of};

use script_options::{Command, ScriptOption};

/// What a word of a command says.
#[derive(Clone, Copy, Debug)]
pub(crate) enum Value {
    /// The first word: which command it is.
    Command(Command),
    /// The name of an option, for which the next word is the value.
    Waits(ScriptOption),
    /// The value of an option: its number, and 0 of a value that is no number.
    Number(u64),
    /// Any other word says nothing.
    Nothing,
}

impl Value {
    /// The command that the first word names.
    pub(crate) fn command(self) -> Command
        ensures { result ≡ command_of self }
    {
        match self {
            Value::Command(command) => command,
            _ => Command::Unknown,
        }
    }

    /// The option for which the next word is the value.
    pub(crate) fn waits(self) -> Option<ScriptOption>
        ensures { result ≡ waits_of self }
    {
        match self {
            Value::Waits(option) => Some(option),
            _ => None,
        }
    }

    /// The number, or 0 of another word.
    pub(crate) fn number(self) -> u64
        ensures { result ≡ number_of self }
    {
        match self {
            Value::Number(number) => number,
            _ => 0,
        }
    }
}
