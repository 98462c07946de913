use entry_list::Entries;
use geom_rect::Rect;
use grid_pieces::{Block, DomainAt};
use grid_stacks::Connect;
use outside::Name;
use rail_layout::RowBox;
use ring_layout::RingRule;
use strap_layout::StrapRule;

/// What is to be drawn, in units of the drawing. Nets, domains, grids and routing layers are named by their places from 0.
#[derive(Debug, Drop)]
pub struct Plan {
    /// How many units a micrometre has.
    pub units: u32,
    /// The die.
    pub die: Rect,
    /// The nets of all domains, in byte order of their names, each once.
    pub nets: Entries<Name>,
    /// For each net in turn whether a domain has it as its power.
    pub power: Entries<bool>,
    /// The voltage domains, in the order of the script.
    pub domains: Entries<DomainAt>,
    /// The grids, in the order of the script.
    pub grids: Entries<GridAt>,
    /// The rows of the design.
    pub rows: Entries<RowBox>,
    /// The straps of all grids, in the order of the script.
    pub straps: Entries<Straps>,
    /// The rails of all grids, in the order of the script.
    pub rails: Entries<Rails>,
    /// The rings of all grids, in the order of the script.
    pub rings: Entries<RingAt>,
    /// The connects of all grids, those that rings add at the places of the rings, in the order of the script.
    pub connects: Entries<Connect>,
    /// The blockages of layers of the technology.
    pub blocks: Entries<Block>,
}

/// A grid: the domain that it names, and whether it is one over macros, whose stripes and rings draw nothing.
#[derive(Clone, Copy, Debug, PartialEq, Eq)]
pub struct GridAt {
    pub domain: u32,
    pub over_macros: bool,
}

/// How far straps or rails go (OpenROAD PDN manual, add_pdn_stripe: -extend_to_core_ring, -extend_to_boundary).
#[derive(Clone, Copy, Debug, PartialEq, Eq)]
pub enum Reach {
    /// Over the core, or along the rows.
    Core,
    /// Between the outer edges of the ring of their net and grid, where there is one.
    Ring,
    /// Over the die.
    Die,
}

/// Straps of a grid.
#[derive(Debug, Drop)]
pub struct Straps {
    /// The grid.
    pub grid: u32,
    pub reach: Reach,
    /// How far metal of the layer keeps from metal.
    pub spacing: i64,
    pub rule: StrapRule,
}

/// Rails of a grid, of both nets of its domain.
#[derive(Clone, Copy, Debug, PartialEq, Eq)]
pub struct Rails {
    /// The grid.
    pub grid: u32,
    pub reach: Reach,
    /// How far metal of the layer keeps from metal.
    pub spacing: i64,
    /// The routing layer.
    pub layer: u32,
    /// Even and positive.
    pub width: i64,
}

/// The ring of a grid.
#[derive(Debug, Drop)]
pub struct RingAt {
    /// The grid.
    pub grid: u32,
    pub rule: RingRule,
}
