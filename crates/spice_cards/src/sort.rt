ghost use Rattle.std.specs.Prelude.{◌≡◌};
ghost use Rattle.spice_cards.specs.Sort.{number_of, all_sorts, the, sort_of_letter, sort_of_text, sort_of_end, sort_of, listed, few};
ghost use Rattle.spice_cards.specs.inside.Keyword.{begins_keyword};
ghost use Rattle.reading.specs.Word.{token};

use netlist_words::{Letter, letter_of};
use reading::{Form, Numbered, Word, keyword_or};

/// What a word of a netlist is, wherever it stands.
#[derive(Clone, Copy, Debug)]
pub(crate) enum Sort {
    /// It begins with `R` or `r`.
    Resistor,
    /// It begins with `V` or `v`.
    Source,
    /// It begins with `I` or `i`.
    Load,
    /// It begins with `C` or `c`.
    Capacitor,
    /// `DC`
    Dc,
    /// `;`, `(` or `)`, which never stand for a value.
    Mark,
    /// `.op`, `.option`, `.options`, `.print`, `.plot`, `.title` or `.width`, whose lines are passed over.
    Dot,
    /// `.end`
    End,
    /// Any other word.
    Other,
    /// The end of a card.
    CardEnd,
    /// The `*range` of the line after a load.
    Range,
    /// The first word of a `+` line with no card before it.
    Stray,
    TextEnd,
}

impl Numbered for Sort {
    ghost number = { number_of };

    ghost all = { all_sorts };

    fn number(self) -> usize {
        self as usize
    }

    ghost listed = { listed };

    ghost few = { few };
}

/// The sort of a word with this letter that is no keyword.
fn sort_of_letter(letter: Letter) -> Sort
    ensures { result ≡ sort_of_letter letter }
{
    match letter {
        Letter::Resistor => Sort::Resistor,
        Letter::Source => Sort::Source,
        Letter::Load => Sort::Load,
        Letter::Capacitor => Sort::Capacitor,
        Letter::Other => Sort::Other,
    }
}

/// Whether the word begins as a keyword does.
fn begins_keyword(text: &[u8]) -> bool
    ensures { result ≡ begins_keyword text.now }
{
    match text.first() {
        Some(byte) => {
            *byte == b'D' || *byte == b'.' || *byte == b';' || *byte == b'(' || *byte == b')'
        }
        None => false,
    }
}

/// The sort of a word within a card or a dot line. Most words are told from keywords by their first byte.
fn sort_of_text(text: &[u8]) -> Sort
    ensures { result ≡ sort_of_text text.now }
{
    if !begins_keyword(text) {
        return sort_of_letter(letter_of(text));
    }
    keyword_or!(text;
        b"DC" => Sort::Dc, b";" => Sort::Mark, b"(" => Sort::Mark, b")" => Sort::Mark, b".end" => Sort::End,
        b".op" => Sort::Dot, b".option" => Sort::Dot, b".options" => Sort::Dot, b".print" => Sort::Dot,
        b".plot" => Sort::Dot, b".title" => Sort::Dot, b".width" => Sort::Dot;
        sort_of_letter(letter_of(text)))
}

/// The sort of a word that ends what stands before it.
fn sort_of_end(text: &[u8]) -> Sort
    ensures { result ≡ sort_of_end text.now }
{
    if text.is_empty() {
        return Sort::CardEnd;
    }
    keyword_or!(text; b"*range" => Sort::Range; Sort::Stray)
}

/// The sort of a word.
pub(crate) fn sort_of(word: &Word<'_>) -> Sort
    ensures { result ≡ sort_of (token word.now) }
{
    match word.form {
        Form::Break => sort_of_end(word.text),
        Form::End => Sort::TextEnd,
        _ => sort_of_text(word.text),
    }
}

/// Whether the sort is this one.
pub(crate) fn is(this: Sort, sort: Sort) -> bool
    ensures { result ≡ the this sort }
{
    this.number() == sort.number()
}
