//! The sorts of the words.
ghost use Rattle.std.specs.Prelude.{◌≡◌};
ghost use Rattle.reading.specs.Word.{token};
ghost use Rattle.statements.specs.Sort.{number_of, all_sorts, sort_of_text, sort_of, listed, few};

use reading::{Form, Numbered, Word, keyword_or};

/// What a word is, wherever it stands.
#[derive(Clone, Copy, Debug, PartialEq, Eq)]
pub enum Sort {
    /// The keyword `SET`.
    Set,
    /// `;`.
    Semicolon,
    /// `(` or `)`.
    Bracket,
    /// Any other word.
    Other,
    /// The end of the text.
    TextEnd,
}

impl Numbered for Sort {
    ghost number = { number_of };

    ghost all = { all_sorts };

    fn number(self) -> usize {
        self as usize
    }

    ghost listed = { listed };

    ghost few = { few };
}

/// The sort of a bare word.
fn sort_of_text(text: &[u8]) -> Sort
    ensures { result ≡ sort_of_text text.now }
{
    keyword_or!(text;
        b"SET" => Sort::Set, b";" => Sort::Semicolon, b"(" => Sort::Bracket, b")" => Sort::Bracket;
        Sort::Other)
}

/// The sort of a word, wherever it stands.
pub(crate) fn sort_of(word: &Word<'_>) -> Sort
    ensures { result ≡ sort_of (token word.now) }
{
    match word.form {
        Form::Bare => sort_of_text(word.text),
        Form::End => Sort::TextEnd,
        _ => Sort::Other,
    }
}
