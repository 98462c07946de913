ghost use Rattle.std.specs.Prelude.{◌≡◌};
ghost use Rattle.wave_file.specs.Sort.{number_of, all_sorts, sort_of_text, sort_of, listed, few};
ghost use Rattle.reading.specs.Word.{token};

use reading::{Form, Numbered, Word, keyword_or};

/// What a word of a wave file is, wherever it stands.
#[derive(Clone, Copy, Debug)]
pub(crate) enum Sort {
    /// `at`
    At,
    /// `;`, `(` or `)`, which never stand for a number.
    Mark,
    /// Any other word.
    Other,
    LineEnd,
    TextEnd,
}

/// The sort of a word that stands within a line.
fn sort_of_text(text: &[u8]) -> Sort
    ensures { result ≡ sort_of_text text.now }
{
    keyword_or!(text;
        b"at" => Sort::At, b";" => Sort::Mark, b"(" => Sort::Mark, b")" => Sort::Mark;
        Sort::Other)
}

/// The sort of a word.
pub(crate) fn sort_of(word: &Word<'_>) -> Sort
    ensures { result ≡ sort_of (token word.now) }
{
    match word.form {
        Form::Break => Sort::LineEnd,
        Form::End => Sort::TextEnd,
        _ => sort_of_text(word.text),
    }
}

impl Numbered for Sort {
    ghost number = { number_of };

    ghost all = { all_sorts };

    fn number(self) -> usize {
        self as usize
    }

    ghost listed = { listed };

    ghost few = { few };
}
