use geom_rect::Rect;

/// A row of cells: its box, and whether it is flipped, so that its power edge is the lower one. Rows in N and FN are
/// not flipped, and those in S and FS are (LEF/DEF 5.8 Language Reference, ROW).
#[derive(Clone, Copy, Debug, PartialEq, Eq)]
pub struct RowBox {
    pub rect: Rect,
    pub flipped: bool,
}
