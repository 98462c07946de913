ghost use Rattle.pdn_script.specs.Kinds.{kinds};

use fixed_decimal::DecimalError;
use reading::{ErrorKind, ReadError};
use text_lex::LexKind;

/// Why a script is refused, and at which word.
pub type ScriptError = ReadError<ScriptKind>;

/// What is wrong with the word. Of two kinds at one word the one that stands earlier here is told.
#[derive(Clone, Copy, Debug, PartialEq, Eq)]
pub enum ScriptKind {
    /// With this word the words so far begin no script, or it is a value that may not stand there for its sign, its range,
    /// the number of its words or a word that is no name.
    Syntax,
    /// A quote or a brace is not closed by the end of the text.
    BadString,
    /// A `$`, a `[` or a backslash that joins no lines stands outside braces and comments.
    Substitution,
    /// A command follows `pdngen`.
    AfterPdngen,
    /// The command is not known.
    UnknownCommand,
    /// The option is one of the manual that is left out.
    OutOfProfile,
    /// The command has no such option, or has it on grids with `-macro` alone.
    UnknownOption,
    /// The option stands again in its command, the name of a domain or a grid stands again, or the grid has a ring already.
    Twice,
    /// The value is no number, a number other than 0 that rounds to 0, or one beyond the limit.
    Number(DecimalError),
    /// No command before has defined the grid, or any grid.
    UnknownGrid,
    /// No command before has defined the domain, or any domain.
    UnknownDomain,
    /// The command ends without an option that it needs.
    MissingOption,
    /// The net is named as power and as ground.
    NetUse,
    /// There was not enough memory.
    Want,
}

impl ErrorKind for ScriptKind {
    ghost kinds = { kinds };

    fn syntax() -> ScriptKind {
        ScriptKind::Syntax
    }

    fn want() -> ScriptKind {
        ScriptKind::Want
    }

    fn word(kind: LexKind) -> ScriptKind {
        match kind {
            LexKind::BadString => ScriptKind::BadString,
            LexKind::Substitution => ScriptKind::Substitution,
        }
    }
}
