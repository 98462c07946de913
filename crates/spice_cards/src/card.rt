//! The words after the nodes of a card.
ghost use Rattle.std.specs.Prelude.{◌≡◌};
ghost use Rattle.spice_cards.specs.Card.{is_ground as ground_name};
ghost use Rattle.spice_cards.specs.inside.Value.{heard_without_dc, heard_value_at};

use crate::value::Value;
use reading::Heard;

/// Whether the name is `0`, against which sources and loads are given.
pub(crate) fn is_ground(name: &[u8]) -> bool
    ensures { result ≡ ground_name name.now }
{
    name == b"0".as_slice()
}

/// The words after the nodes of a source or a load, without `DC`.
pub(crate) fn without_dc<'a, 'b>(words: &'b [Heard<'a, Value>]) -> &'b [Heard<'a, Value>]
    ensures { result.now ≡ heard_without_dc words.now }
{
    match words {
        [first, more @ ..] if first.value.is_dc() => more,
        _ => words,
    }
}

/// How many words stand before the value of a source or a load.
pub(crate) fn value_at(words: &[Heard<'_, Value>]) -> usize
    ensures { result ≡ heard_value_at words.now }
{
    match words {
        [first, ..] if first.value.is_dc() => 4,
        _ => 3,
    }
}
