//! The sorts of a unit's words.
ghost use Rattle.std.specs.Prelude.{◌≡◌, ◌∷◌, ◌++◌, [], map};
ghost use Rattle.lef_tech.specs.Shape.{shape_of};
ghost use Rattle.lef_tech.specs.inside.Value.{value_sort};

use crate::sort::Sort;
use crate::value::Value;
use reading::Heard;

/// The sorts of a unit's words, by how many there are. No unit has more than six.
#[derive(Clone, Copy, Debug)]
pub(crate) enum Shape {
    One(Sort),
    Two(Sort, Sort),
    Three(Sort, Sort, Sort),
    Four(Sort, Sort, Sort, Sort),
    Five(Sort, Sort, Sort, Sort, Sort),
    Six(Sort, Sort, Sort, Sort, Sort, Sort),
    Other,
}

/// The sorts of the words of a unit.
pub(crate) fn shape_of(unit: &[Heard<'_, Value>]) -> Shape
    ensures { result ≡ shape_of (map value_sort unit.now) }
{
    match unit {
        [a] => Shape::One(a.value.sort),
        [a, b] => Shape::Two(a.value.sort, b.value.sort),
        [a, b, c] => Shape::Three(a.value.sort, b.value.sort, c.value.sort),
        [a, b, c, d] => Shape::Four(a.value.sort, b.value.sort, c.value.sort, d.value.sort),
        [a, b, c, d, e] => Shape::Five(
            a.value.sort,
            b.value.sort,
            c.value.sort,
            d.value.sort,
            e.value.sort,
        ),
        [a, b, c, d, e, f] => Shape::Six(
            a.value.sort,
            b.value.sort,
            c.value.sort,
            d.value.sort,
            e.value.sort,
            f.value.sort,
        ),
        _ => Shape::Other,
    }
}

/// The sorts of these words and of the next one.
pub(crate) fn shape_with(before: &[Heard<'_, Value>], last: Sort) -> Shape
    ensures { result ≡ shape_of (map value_sort before.now ++ last ∷ []) }
{
    match before {
        [] => Shape::One(last),
        [a] => Shape::Two(a.value.sort, last),
        [a, b] => Shape::Three(a.value.sort, b.value.sort, last),
        [a, b, c] => Shape::Four(a.value.sort, b.value.sort, c.value.sort, last),
        [a, b, c, d] => Shape::Five(a.value.sort, b.value.sort, c.value.sort, d.value.sort, last),
        [a, b, c, d, e] => Shape::Six(
            a.value.sort,
            b.value.sort,
            c.value.sort,
            d.value.sort,
            e.value.sort,
            last,
        ),
        _ => Shape::Other,
    }
}
