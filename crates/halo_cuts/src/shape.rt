use geom_rect::Drawn;

/// A shape, and the grid that drew it, by its place from 0 in the script.
#[derive(Clone, Copy, Debug, PartialEq, Eq)]
pub struct GridShape {
    pub grid: u32,
    pub shape: Drawn,
}
