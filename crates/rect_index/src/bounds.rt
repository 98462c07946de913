ghost use Rattle.std.specs.Prelude.{◌<◌, ◌<ℤ◌, ◌⊎◌, IsTrue};
ghost use Rattle.rect_index.specs.declared.entry.Entry.{Entry};
ghost use Rattle.rect_index.specs.inside.Tree.{IsWithin, AreWithin, Misses};

use crate::entry::Entry;
use geom_rect::Rect;

// Between which groups entries lie, and between which coordinates.
#[derive(Clone, Copy)]
pub(crate) struct Bounds {
    pub(crate) least: u32,
    pub(crate) greatest: u32,
    pub(crate) x1: i64,
    pub(crate) y1: i64,
    pub(crate) x2: i64,
    pub(crate) y2: i64,
}

// Bounds of all these entries.
pub(crate) fn bounds_of<T: Copy>(entries: &[Entry<T>]) -> Bounds
    ensures { AreWithin result entries.now }
{
    let mut bounds = Bounds {
        least: u32::MAX,
        greatest: 0,
        x1: i64::MAX,
        y1: i64::MAX,
        x2: i64::MIN,
        y2: i64::MIN,
    };
    for entry in entries {
        bounds = with(bounds, *entry);
    }
    bounds
}

// The bounds with one more entry in them.
fn with<T: Copy>(bounds: Bounds, entry: Entry<T>) -> Bounds
    ensures one { IsWithin result entry }
    ensures others { (other : Entry T) → IsWithin bounds other → IsWithin result other }
{
    Bounds {
        least: bounds.least.min(entry.group),
        greatest: bounds.greatest.max(entry.group),
        x1: bounds.x1.min(entry.rect.x1),
        y1: bounds.y1.min(entry.rect.y1),
        x2: bounds.x2.max(entry.rect.x2),
        y2: bounds.y2.max(entry.rect.y2),
    }
}

// Whether the bounds keep each entry from being of the group with a point of the window.
pub(crate) fn misses(bounds: Bounds, group: u32, window: Rect) -> bool
    ensures { IsTrue result → Misses bounds group window }
{
    misses_group(bounds, group) || misses_x(bounds, window) || misses_y(bounds, window)
}

fn misses_group(bounds: Bounds, group: u32) -> bool
    ensures { IsTrue result → (group < bounds.least) ⊎ (bounds.greatest < group) }
{
    group < bounds.least || bounds.greatest < group
}

fn misses_x(bounds: Bounds, window: Rect) -> bool
    ensures { IsTrue result → (window.x2 <ℤ bounds.x1) ⊎ (bounds.x2 <ℤ window.x1) }
{
    window.x2 < bounds.x1 || bounds.x2 < window.x1
}

fn misses_y(bounds: Bounds, window: Rect) -> bool
    ensures { IsTrue result → (window.y2 <ℤ bounds.y1) ⊎ (bounds.y2 <ℤ window.y1) }
{
    window.y2 < bounds.y1 || bounds.y2 < window.y1
}
