ghost use Rattle.std.specs.Prelude.{◌≡◌};
ghost use Rattle.bias_file.specs.Sort.{number_of, all_sorts, sort_of_text, sort_of, begins_comment, listed, few};
ghost use Rattle.reading.specs.Word.{token};

use reading::{Form, Numbered, Word, keyword_or};

/// What a word of a bias file is, wherever it stands.
#[derive(Clone, Copy, Debug)]
pub(crate) enum Sort {
    /// `supply`
    Supply,
    /// `droplimit`
    DropLimit,
    /// `pad`
    Pad,
    /// `cell`
    Cell,
    /// `instance`
    Instance,
    /// `;`, `(` or `)`, which never stand for a number.
    Mark,
    /// A word that begins with `#`.
    Comment,
    /// Any other word.
    Other,
    LineEnd,
    TextEnd,
}

impl Numbered for Sort {
    ghost number = { number_of };

    ghost all = { all_sorts };

    fn number(self) -> usize {
        self as usize
    }

    ghost listed = { listed };

    ghost few = { few };
}

/// The sort of a word that stands within a line.
fn sort_of_text(text: &[u8]) -> Sort
    ensures { result ≡ sort_of_text text.now }
{
    let other = if begins_comment(text) {
        Sort::Comment
    } else {
        Sort::Other
    };
    keyword_or!(text;
        b"supply" => Sort::Supply, b"droplimit" => Sort::DropLimit, b"pad" => Sort::Pad, b"cell" => Sort::Cell,
        b"instance" => Sort::Instance, b";" => Sort::Mark, b"(" => Sort::Mark, b")" => Sort::Mark;
        other)
}

/// Whether the word makes a comment.
fn begins_comment(text: &[u8]) -> bool
    ensures { result ≡ begins_comment text.now }
{
    match text.first() {
        Some(first) => *first == b'#',
        None => false,
    }
}

/// The sort of a word.
pub(crate) fn sort_of(word: &Word<'_>) -> Sort
    ensures { result ≡ sort_of (token word.now) }
{
    match word.form {
        Form::Break => Sort::LineEnd,
        Form::End => Sort::TextEnd,
        _ => sort_of_text(word.text),
    }
}
