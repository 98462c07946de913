use block_rects::{Obstruction, PinPart};
use entry_list::Entries;
use geom_rect::Rect;

/// A block in its place, in units of the drawing (LEF/DEF 5.8 Language Reference, "MACRO" and "COMPONENTS"). Components, domains,
/// grids and layers are named by their places from 0.
#[derive(Debug, Drop)]
pub struct PlacedBlock {
    pub component: u32,
    /// The box of its macro.
    pub outline: Rect,
    /// The outline, grown by the halo of the block's grid: shapes of other grids are cut in it (OpenROAD PDN manual,
    /// define_pdn_grid: -halo).
    pub grown: Rect,
    /// The voltage domain that owns it, if one does.
    pub domain: Option<u32>,
    /// The grid over macros that it has, if there is one for it.
    pub grid: Option<u32>,
    /// What its pins of power and ground have on routing layers.
    pub pins: Entries<PinPart>,
    /// Where it lets no metal lie and no cuts stand.
    pub obstructions: Entries<Obstruction>,
    /// For each routing layer in turn whether it cuts shapes of other grids there.
    pub cuts: Entries<bool>,
}
