ghost use Rattle.std.specs.Prelude.{◌≡◌, [], map, Some, IfNone, IfSome};
ghost use Rattle.reading.specs.Word.{token, heard_token, last_of};

use outside::Place;

/// How a word stands in its text.
#[derive(Clone, Copy, Debug, PartialEq, Eq)]
pub enum Form {
    /// A word without quotes or braces around it.
    Bare,
    /// A word that stood between two `"`.
    Quoted,
    /// A word that stood between a `{` and its `}`.
    Braced,
    /// The line feed that ends a line or a command.
    Break,
    /// The `;` that ends a command of a script.
    Semicolon,
    /// The end of the text, which counts as its last word.
    End,
}

/// A word of a text, as a format sees it.
#[derive(Clone, Copy, Debug)]
pub struct Word<'a> {
    /// The word's bytes, without its quotes or braces. The end of the text has none.
    pub text: &'a [u8],
    /// Where the word begins.
    pub place: Place,
    /// How it stands there.
    pub form: Form,
}

/// A word of the open unit, and what the format has made of it.
#[derive(Clone, Copy, Debug)]
pub struct Heard<'a, V> {
    pub word: Word<'a>,
    /// What the word says, as the number that it stands for.
    pub value: V,
}

/// The last word of a unit.
pub fn last_word<'a, 'b>(unit: &'b [Word<'a>]) -> Option<&'b Word<'a>>
    ensures none { IfNone result (map token unit.now ≡ []) }
    ensures some { IfSome result (λ word. last_of (map token unit.now) ≡ Some (token word.now)) }
{
    unit.last()
}

/// The last word of a unit, with what it says.
pub fn last_heard<'a, 'b, V>(unit: &'b [Heard<'a, V>]) -> Option<&'b Heard<'a, V>>
    ensures none { IfNone result (map heard_token unit.now ≡ []) }
    ensures some { IfSome result (λ last. last_of (map heard_token unit.now) ≡ Some (heard_token last.now)) }
{
    unit.last()
}
