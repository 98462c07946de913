use geom_rect::Orient;

/// No length and no coordinate of a macro and no place of it is farther from 0 than this many units.
pub const MOST_LENGTH: i64 = 1_099_511_627_776;

/// A point, in units.
#[derive(Clone, Copy, Debug, PartialEq, Eq)]
pub struct Point {
    pub x: i64,
    pub y: i64,
}

/// A macro that is placed, in units: the lower left corner of its box, its orientation, and its size in orientation N.
#[derive(Clone, Copy, Debug, PartialEq, Eq)]
pub struct Placed {
    pub corner: Point,
    pub orient: Orient,
    pub width: i64,
    pub height: i64,
}
