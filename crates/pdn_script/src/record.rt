use entry_list::Entries;
use outside::{Name, Place};

/// What a script says, in the order of its commands.
#[derive(Debug, Drop)]
pub struct Script {
    /// The voltage domains, with distinct names. At most one has no region.
    pub domains: Entries<Domain>,
    /// The grids, with distinct names.
    pub grids: Entries<GridRule>,
    /// The stripes of the grids: straps and rails.
    pub stripes: Entries<Stripe>,
    /// The rings, at most one of each grid.
    pub rings: Entries<Ring>,
    /// Which layers of a grid are connected.
    pub connects: Entries<Connect>,
}

/// Which of the two nets of a domain is drawn first.
#[derive(Clone, Copy, Debug, PartialEq, Eq)]
pub enum Start {
    Power,
    Ground,
}

/// `set_voltage_domain`: a voltage domain.
#[derive(Debug, Drop)]
pub struct Domain {
    /// The domain's name. Absent, it is the region's, or else `Core`.
    pub name: Name,
    /// The net that supplies its power.
    pub power: Name,
    /// The net that is its ground.
    pub ground: Name,
    /// The region of the design that it fills; without one it is all that other domains leave.
    pub region: Option<Name>,
    /// The place of the command's first word.
    pub place: Place,
}

/// `define_pdn_grid`: a grid.
#[derive(Debug, Drop)]
pub struct GridRule {
    pub name: Name,
    /// The domain of the grid. Absent, it is the last one defined before.
    pub voltage_domains: Name,
    /// Absent, it is the ground.
    pub starts_with: Start,
    /// Layers whose shapes are pins.
    pub pins: Option<Entries<Name>>,
    /// It is a grid over macros.
    pub macro_: bool,
    /// The orientations of macros that it is for.
    pub orient: Option<Entries<Name>>,
    /// How far it keeps other grids away, in pm.
    pub halo: Option<Entries<u64>>,
    /// The cells that it is for.
    pub cells: Option<Entries<Name>>,
    /// The components that it is for.
    pub instances: Option<Entries<Name>>,
    pub default: bool,
    pub grid_over_boundary: bool,
    pub grid_over_pg_pins: bool,
    /// The place of the command's first word.
    pub place: Place,
}

/// `add_pdn_stripe`: straps, or with `followpins` rails.
#[derive(Debug, Drop)]
pub struct Stripe {
    pub layer: Name,
    /// The width in pm, from 1 to 10^11.
    pub width: u64,
    /// From a strap of a net to its next one in pm, from 1 to 10^11. Every strap rule has one.
    pub pitch: Option<u64>,
    /// The grid of the stripe. Absent, it is the last one defined before.
    pub grid: Name,
    /// Between straps of two nets in pm, to 10^11.
    pub spacing: Option<u64>,
    /// From the core's edge to the first strap in pm, to 10^11. Absent, it is 0.
    pub offset: u64,
    pub followpins: bool,
    pub extend_to_core_ring: bool,
    pub extend_to_boundary: bool,
    /// How many straps of each net are drawn at most, from 1 to 10^6.
    pub number_of_straps: Option<u32>,
    /// Absent, it is that of the grid.
    pub starts_with: Option<Start>,
    /// The nets that are drawn. Absent, they are the domain's two.
    pub nets: Option<Entries<Name>>,
    /// The place of the command's first word.
    pub place: Place,
}

/// `add_pdn_ring`: a ring around the core.
#[derive(Debug, Drop)]
pub struct Ring {
    /// The two layers.
    pub layers: Entries<Name>,
    /// The width on both layers or on each in pm, from 1 to 10^11.
    pub widths: Entries<u64>,
    /// The spacing on both layers or on each in pm, to 10^11.
    pub spacings: Entries<u64>,
    /// From the core to the ring in pm, to 10^11: on all sides, on left and right and on bottom and top, or on left, bottom,
    /// right, top.
    pub core_offsets: Entries<u64>,
    /// The grid of the ring. Absent, it is the last one defined before.
    pub grid: Name,
    /// Absent, it is that of the grid.
    pub starts_with: Option<Start>,
    /// The nets that are drawn. Absent, they are the domain's two.
    pub nets: Option<Entries<Name>>,
    pub add_connect: bool,
    /// The place of the command's first word.
    pub place: Place,
}

/// `add_pdn_connect`: two layers that are connected where stripes cross.
#[derive(Debug, Drop)]
pub struct Connect {
    /// The two layers.
    pub layers: Entries<Name>,
    /// The grid of the connect. Absent, it is the last one defined before.
    pub grid: Name,
    /// How many rows of cuts there are at most, from 1 to 10^6.
    pub max_rows: Option<u32>,
    /// How many columns of cuts there are at most, from 1 to 10^6.
    pub max_columns: Option<u32>,
    /// The place of the command's first word.
    pub place: Place,
}
