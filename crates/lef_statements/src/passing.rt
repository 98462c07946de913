//! What is passed over, one word after the other.
ghost use Rattle.std.specs.Prelude.{◌≡◌};
ghost use Rattle.lef_statements.specs.Passing.{passing_after, section_after, unless};
ghost use Rattle.reading.specs.Word.{token};

use crate::open_name::OpenName;
use crate::word::is_word;
use reading::Word;

/// What is being passed over.
#[derive(Debug, Drop)]
pub enum Passing<'a> {
    /// A statement, to its `;`.
    Statement,
    /// A section, to the first `END` with its name after it.
    Section(OpenName<'a>),
    /// The same, right after an `END`.
    SectionEnd(OpenName<'a>),
    /// A group without a name, as `OBS`, to its `END`.
    Group,
    /// What another tool has added, from `BEGINEXT` to `ENDEXT`.
    Extension,
}

impl<'a> Passing<'a> {
    /// What is passed over after one more word of it, or None where it ends with the word.
    pub fn after(self, word: &Word<'_>) -> Option<Passing<'a>>
        ensures { result ≡ passing_after self.entry (token word.now) }
    {
        match self {
            Passing::Statement => unless(is_word(b";", word), Passing::Statement),
            Passing::Section(name) => Some(section_after(name, word)),
            Passing::SectionEnd(name) => {
                if name.is(word) {
                    None
                } else {
                    Some(section_after(name, word))
                }
            }
            Passing::Group => unless(is_word(b"END", word), Passing::Group),
            Passing::Extension => unless(is_word(b"ENDEXT", word), Passing::Extension),
        }
    }
}

/// The same as before, unless this ends it.
fn unless(ends: bool, passing: Passing<'_>) -> Option<Passing<'_>>
    ensures { result ≡ unless ends passing.entry }
{
    if ends { None } else { Some(passing) }
}

/// A section after one more word that does not end it.
fn section_after<'a>(name: OpenName<'a>, word: &Word<'_>) -> Passing<'a>
    ensures { result ≡ section_after name.entry (token word.now) }
{
    if is_word(b"END", word) {
        Passing::SectionEnd(name)
    } else {
        Passing::Section(name)
    }
}
