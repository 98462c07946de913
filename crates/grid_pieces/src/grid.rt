use crate::piece::{Piece, StackAt};
use entry_list::Entries;
use geom_rect::Rect;
use outside::Name;

/// A voltage domain of a grid (OpenROAD PDN manual, set_voltage_domain): the rectangle of its region, in units of the
/// drawing, none where it has the rest of the core; and the places of its ground and of its power net in the list of
/// nets.
#[derive(Clone, Copy, Debug, PartialEq, Eq)]
pub struct DomainAt {
    pub region: Option<Rect>,
    pub ground: u32,
    pub power: u32,
}

/// A power grid as it is drawn, in units of the drawing.
#[derive(Debug, Drop)]
pub struct Grid {
    /// How many units a micrometre has.
    pub units: u32,
    /// The nets, in byte order of their names, each once.
    pub nets: Entries<Name>,
    /// For each net in turn whether it is a power net.
    pub power: Entries<bool>,
    /// The voltage domains, in the order of the script.
    pub domains: Entries<DomainAt>,
    /// The pieces of metal, in the order of net, layer, centre, start and width.
    pub pieces: Entries<Piece>,
    /// The stacks, in the order of net, x, y, lowest layer, highest layer and crossing.
    pub stacks: Entries<StackAt>,
}
