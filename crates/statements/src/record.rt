//! What a unit adds to the count of the statements.
ghost use Rattle.std.specs.Prelude.{◌≡◌, map};
ghost use Rattle.reading.specs.Word.{heard_token};
ghost use Rattle.statements.specs.Record.{count_in};

use reading::Heard;

/// One for a statement, and none for the end of the text.
pub(crate) fn count_in(unit: &[Heard<'_, ()>]) -> u64
    ensures { result ≡ count_in (map heard_token unit.now) }
{
    match unit {
        [_, _, _, _] => 1,
        _ => 0,
    }
}
