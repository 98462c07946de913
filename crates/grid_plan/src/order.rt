ghost use Rattle.std.specs.Prelude.{◌≡◌};
ghost use Rattle.grid_plan.specs.Order.{is_before, placed, earlier, unplaced};

use grid_stacks::Connect;
use outside::Place;

/// A connect, and the place of the command that says it.
#[derive(Clone, Copy, Debug)]
pub struct PlacedConnect {
    pub place: Place,
    pub connect: Connect,
}

// Whether a place in a text is before another.
pub(crate) fn is_before(a: Place, b: Place) -> bool
    ensures { result ≡ is_before a b }
{
    a.line < b.line || (a.line == b.line && a.word < b.word)
}

// What was found, with the place of its command.
pub(crate) fn placed<T>(place: Place, found: Option<T>) -> Option<(Place, T)>
    ensures { result ≡ placed place found }
{
    match found {
        Some(found) => Some((place, found)),
        None => None,
    }
}

// The one of an earlier command.
pub(crate) fn earlier<T: Drop>(a: Option<(Place, T)>, b: Option<(Place, T)>) -> Option<(Place, T)>
    ensures { result ≡ earlier a b }
{
    match (a, b) {
        (None, b) => b,
        (a, None) => a,
        (Some(a), Some(b)) => Some(if is_before(b.0, a.0) { b } else { a }),
    }
}

// What was found, without its place.
pub(crate) fn unplaced<T: Drop>(found: Option<(Place, T)>) -> Option<T>
    ensures { result ≡ unplaced found }
{
    match found {
        Some((_, found)) => Some(found),
        None => None,
    }
}
