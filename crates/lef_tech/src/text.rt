//! The texts of words.
ghost use Rattle.std.specs.Prelude.{◌≡◌, map};
ghost use Rattle.lef_tech.specs.Shape.{text_at};
ghost use Rattle.reading.specs.Word.{heard_token};

use crate::value::Value;
use lef_statements::OpenName;
use reading::Heard;
use std::marker::Model;

/// A slice of the text: a name, or a number.
///
/// A contract sees it as its bytes.
#[derive(Debug, Drop)]
pub(crate) struct Bytes<'a> {
    bytes: &'a [u8],
}

impl<'a> Model for Bytes<'a> {
    ghost use Rattle.std.specs.Prelude.{ℕ, List};

    ghost Value = { List ℕ };

    ghost view = { λ text. text.bytes.now };
}

impl<'a> Bytes<'a> {
    pub(crate) fn new(bytes: &'a [u8]) -> Bytes<'a>
        ensures { result ≡ bytes.now }
    {
        Bytes { bytes }
    }

    pub(crate) fn bytes(&self) -> &'a [u8]
        ensures { result.now ≡ self.now }
    {
        self.bytes
    }

    /// The name, as lef_statements has it.
    pub(crate) fn open(&self) -> OpenName<'a>
        ensures { result ≡ self.now }
    {
        OpenName::new(self.bytes)
    }
}

/// The text of the word that has so many words of its unit before it, and none where there is no such word.
pub(crate) fn text_at<'a>(unit: &[Heard<'a, Value>], at: usize) -> &'a [u8]
    ensures { result.now ≡ text_at (map heard_token unit.now) at }
{
    match unit.get(at) {
        Some(heard) => heard.word.text,
        None => &[],
    }
}
