use geom_rect::Orient;

/// A block: a placed component whose macro is of CLASS BLOCK (LEF/DEF 5.8 Language Reference, "MACRO" and "COMPONENTS").
/// Components, macros and grids are named by their places from 0 in the lists of design, library and script.
#[derive(Clone, Copy, Debug, PartialEq, Eq)]
pub struct BlockAt {
    pub component: u32,
    /// Its macro.
    pub cell: u32,
    /// The lower left corner of its box, in units of the design.
    pub x: i64,
    pub y: i64,
    pub orient: Orient,
    /// The grid that it has. None where no grid over macros is for it.
    pub grid: Option<u32>,
}
