ghost use Rattle.std.specs.Prelude.{◌≡◌};
ghost use Rattle.lef_statements.specs.Word.{is_word};
ghost use Rattle.reading.specs.Word.{token};

use reading::{Form, Word};

/// Whether this is the bare word of these bytes: a keyword, `;`, or a name. A word in quotes is none of them.
pub fn is_word(text: &[u8], word: &Word<'_>) -> bool
    ensures { result ≡ is_word text.now (token word.now) }
{
    match word.form {
        Form::Bare => word.text == text,
        _ => false,
    }
}
