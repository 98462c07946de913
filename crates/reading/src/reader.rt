//! Readers that are written by hand, for formats that the engine is too slow for. They meet the same theorem.
ghost use Rattle.std.specs.Prelude.{◌≡◌, List, [], false};
ghost use Rattle.reading.specs.Reading.{Format, IsOrderly};
ghost use Rattle.reading.specs.Word.{Token, token};
ghost use Rattle.reading.specs.Source.{IsWhole};
ghost use Rattle.reading.specs.Reader.{Takes};
ghost use Rattle.reading.specs.Outcome.{Gives};

use crate::refusal::{Cause, Refusal};
use crate::source::Source;
use crate::stop::{Step, Stop, refused};
use crate::word::Word;

/// What reads the words of a format one after the other, whose texts end with their bytes.
pub trait Reader<'a> {
    /// The sorts of the words.
    type Sort;
    /// The kinds of refusal besides Syntax.
    type Kind: Drop;

    ghost format: { Format Token Self.Sort Self.Kind };
    // These whole units and the words of the open one have led here.
    ghost stands: { Self → List (List Token) → List Token → Type 0 };

    /// Takes one more word: the open unit goes on after it, or is whole with it, or the text is refused.
    fn take(&mut self, word: &Word<'a>) -> Result<Step, Stop<Self::Kind>>
        ensures { (units : List (List Token)) (part : List Token) → stands self.old units part →
            Takes format (stands self.new) units part (token word.now) result };

    /// The laws that the format owes: its faults are in order, and its texts end with their bytes. It does nothing.
    fn orderly(&self)
        ensures orderly { IsOrderly format }
        ensures never_ends { (units : List (List Token)) → format.ends units ≡ false };
}

/// Reads the words of a text, or says at which word the text is refused, and why.
pub fn read_by_hand<'a, R: Reader<'a>, I: Source<'a>>(
    reader: &mut R,
    source: &mut I,
) -> Result<(), Refusal<R::Kind>>
    requires start { R.stands reader.old [] [] }
    requires whole { IsWhole (I.left source.old) }
    ensures { Gives R.format (λ units. R.stands reader.new units []) (I.left source.old) result }
{
    reader.orderly();
    loop {
        let word = match source.next() {
            Ok(Some(word)) => word,
            Ok(None) => return Ok(()),
            Err(error) => return Err(Refusal::At(error.place, Cause::Lex(error.kind))),
        };
        match reader.take(&word) {
            Ok(_) => {}
            Err(stop) => return Err(refused(word.place, stop)),
        }
    }
}
