//! The letters of cards, and the words that never stand for a value.
ghost use Rattle.std.specs.Prelude.{◌≡◌};
ghost use Rattle.netlist_words.specs.Letter.{letter_of as letter_in, letter_of_byte, is_mark as mark_text, is_dc as dc_text, may_have_dc, may_be_value};

/// What a card is by its first letter, in either case.
#[derive(Clone, Copy, Debug, PartialEq, Eq)]
pub enum Letter {
    /// `R`
    Resistor,
    /// `V`
    Source,
    /// `I`
    Load,
    /// `C`
    Capacitor,
    /// Any other byte, or none.
    Other,
}

fn letter_of_byte(byte: u8) -> Letter
    ensures { result ≡ letter_of_byte byte }
{
    match byte {
        b'R' | b'r' => Letter::Resistor,
        b'V' | b'v' => Letter::Source,
        b'I' | b'i' => Letter::Load,
        b'C' | b'c' => Letter::Capacitor,
        _ => Letter::Other,
    }
}

/// The letter with which a word begins.
pub fn letter_of(text: &[u8]) -> Letter
    ensures { result ≡ letter_in text.now }
{
    match text.first() {
        Some(byte) => letter_of_byte(*byte),
        None => Letter::Other,
    }
}

/// Whether the word is `;`, `(` or `)`, which never stand for a value.
pub fn is_mark(text: &[u8]) -> bool
    ensures { result ≡ mark_text text.now }
{
    text == b";".as_slice() || text == b"(".as_slice() || text == b")".as_slice()
}

/// Whether the word is `DC`, which may stand before the value of a source or a load.
pub fn is_dc(text: &[u8]) -> bool
    ensures { result ≡ dc_text text.now }
{
    text == b"DC".as_slice()
}

/// Whether a card with this letter may have `DC`.
pub(crate) fn may_have_dc(letter: Letter) -> bool
    ensures { result ≡ may_have_dc letter }
{
    match letter {
        Letter::Source | Letter::Load => true,
        Letter::Resistor | Letter::Capacitor | Letter::Other => false,
    }
}

/// Whether a card with this letter may have this word as its value.
pub(crate) fn may_be_value(letter: Letter, text: &[u8]) -> bool
    ensures { result ≡ may_be_value letter text.now }
{
    match letter {
        Letter::Resistor | Letter::Capacitor => !is_mark(text),
        Letter::Source | Letter::Load => !is_mark(text) && !is_dc(text),
        Letter::Other => false,
    }
}
