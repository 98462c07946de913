ghost use Rattle.std.specs.Prelude.{◌≡◌};
ghost use Rattle.rect_index.specs.Entry.{share, touches, is_at};

use geom_rect::Rect;

/// A rectangle of a group, edges included, with what it stands for.
#[derive(Clone, Copy, Debug, PartialEq, Eq)]
pub struct Entry<T> {
    /// Entries of different groups are never found together.
    pub group: u32,
    /// In units of a drawing.
    pub rect: Rect,
    /// What is found by it.
    pub item: T,
}

// Whether the entry is of the group and has a point of the window.
pub(crate) fn is_at<T: Copy>(group: u32, window: Rect, entry: Entry<T>) -> bool
    ensures { result ≡ is_at group window entry }
{
    entry.group == group && touches(window, entry.rect)
}

// Whether the two rectangles share a point.
fn touches(window: Rect, rect: Rect) -> bool
    ensures { result ≡ touches window rect }
{
    share(window.x1, window.x2, rect.x1, rect.x2) && share(window.y1, window.y2, rect.y1, rect.y2)
}

// Whether two closed intervals share a point.
fn share(low: i64, high: i64, from: i64, to: i64) -> bool
    ensures { result ≡ share low high from to }
{
    from <= high && low <= to
}
