//! Names that differ.
ghost use Rattle.std.specs.Prelude.{◌↔◌, IsTrue};
ghost use Rattle.command_words.specs.Words.{AreApart};
ghost use Rattle.command_words.specs.inside.Split.{texts};

use crate::settings::is_among;

/// Whether no two of the names are the same.
pub(crate) fn are_apart(names: &[&str]) -> bool
    ensures { IsTrue result ↔ AreApart (texts names.now) }
{
    for at in 0..names.len() {
        if is_among(&names[..at], names[at]) {
            return false;
        }
    }
    true
}
