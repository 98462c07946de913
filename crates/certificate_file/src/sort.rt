ghost use Rattle.std.specs.Prelude.{◌≡◌};
ghost use Rattle.certificate_file.specs.Sort.{number_of, all_sorts, sort_of_text, sort_of, listed, few};
ghost use Rattle.reading.specs.Word.{token};

use reading::{Form, Numbered, Word, keyword_or};

/// What a word of a certificate is, wherever it stands.
#[derive(Clone, Copy, Debug)]
pub(crate) enum Sort {
    /// `pdn`
    Pdn,
    /// `certificate`
    Certificate,
    /// `1`, the version of the form, and also a number.
    Version,
    /// `end`
    Last,
    /// `;`, `(` or `)`, which never stand for a number.
    Mark,
    /// Any other word.
    Other,
    LineEnd,
    TextEnd,
}

impl Numbered for Sort {
    ghost number = { number_of };

    ghost all = { all_sorts };

    fn number(self) -> usize {
        self as usize
    }

    ghost listed = { listed };

    ghost few = { few };
}

/// The sort of a word that stands within a line.
fn sort_of_text(text: &[u8]) -> Sort
    ensures { result ≡ sort_of_text text.now }
{
    keyword_or!(text;
        b"pdn" => Sort::Pdn, b"certificate" => Sort::Certificate, b"1" => Sort::Version, b"end" => Sort::Last,
        b";" => Sort::Mark, b"(" => Sort::Mark, b")" => Sort::Mark;
        Sort::Other)
}

/// The sort of a word.
pub(crate) fn sort_of(word: &Word<'_>) -> Sort
    ensures { result ≡ sort_of (token word.now) }
{
    match word.form {
        Form::Break => Sort::LineEnd,
        Form::End => Sort::TextEnd,
        _ => sort_of_text(word.text),
    }
}
