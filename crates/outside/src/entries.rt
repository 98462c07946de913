// Lists of names with a value each, of which the first entry of a name counts.
ghost use Rattle.std.specs.Prelude.{IfSome, IfNone};
ghost use Rattle.outside.specs.inside.Entries.{IsFirstPlace, IsAbsent};

use crate::Name;

/// The place of the first entry of a name.
pub(crate) fn place_of<V>(entries: &[(Name, V)], name: &[u8]) -> Option<usize>
    ensures found { IfSome result (IsFirstPlace entries.now name.now) }
    ensures absent { IfNone result (IsAbsent entries.now name.now) }
{
    for (place, entry) in entries.iter().enumerate() {
        if entry.0.bytes() == name {
            return Some(place);
        }
    }
    None
}
