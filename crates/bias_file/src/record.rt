use entry_list::Entries;
use outside::Name;

/// What a bias file says, in the order of its lines.
#[derive(Debug, Drop)]
pub struct Bias {
    /// The potentials of the nets, each net at most once.
    pub supplies: Entries<Supply>,
    /// How far the nodes of a net may be from its supply, each net at most once.
    pub drops: Entries<DropLimit>,
    /// The pads.
    pub pads: Entries<PadAt>,
    /// What each component of a macro draws that has no line of its own, each macro at most once.
    pub cells: Entries<Amps>,
    /// What a component draws, each component at most once.
    pub instances: Entries<Amps>,
}

/// The line `supply NET V`.
#[derive(Debug, Drop)]
pub struct Supply {
    /// The number of the line, from 1.
    pub line: u64,
    pub net: Name,
    /// The potential of the net's pads in yV, within ±10^25.
    pub volts: i128,
}

/// The line `droplimit NET V`.
#[derive(Debug, Drop)]
pub struct DropLimit {
    /// The number of the line, from 1.
    pub line: u64,
    pub net: Name,
    /// How far the net's nodes may be from its supply in yV, from 0 to 10^25.
    pub volts: i128,
}

/// The line `pad NET LAYER x y`.
#[derive(Debug, Drop)]
pub struct PadAt {
    /// The number of the line, from 1.
    pub line: u64,
    pub net: Name,
    pub layer: Name,
    /// The place in pm, within ±10^11.
    pub x: i64,
    /// The place in pm, within ±10^11.
    pub y: i64,
}

/// The line `cell MACRO LOW HIGH`, for each component of a macro that has no line of its own, or `instance NAME LOW
/// HIGH`, for one component. A line with one number gives both ends.
#[derive(Debug, Drop)]
pub struct Amps {
    /// The number of the line, from 1.
    pub line: u64,
    /// The macro or the component.
    pub name: Name,
    /// The least current that it draws in fA, from 0 to 10^18.
    pub low: i64,
    /// The greatest current that it draws in fA, from `low` to 10^18.
    pub high: i64,
}
