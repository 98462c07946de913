ghost use Rattle.reading.specs.Reading.{Text};
ghost use Rattle.reading.specs.Word.{Token};
ghost use Rattle.reading.specs.Source.{Steps};

use crate::word::Word;
use text_lex::LexError;

/// The words of a text that are still to come, of which the end of the text is the last.
pub trait Source<'a> {
    ghost left: { Self → Text Token };

    /// The next word, None after the end of the text, or the refusal of the next word.
    fn next(&mut self) -> Result<Option<Word<'a>>, LexError>
        ensures { Steps (left self.old) result (left self.new) };
}
