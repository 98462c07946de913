//! Texts with the names of their files.
ghost use Rattle.std.specs.Prelude.{◌≡◌};
ghost use Rattle.building.specs.Inputs.{file_text};

use building::Input;

/// A text with the name of its file.
pub(crate) fn input<'a>(file: &'a str, text: &'a [u8]) -> Input<'a>
    ensures { file_text result ≡ record { file = file.now; text = text.now } }
{
    Input { file, text }
}
