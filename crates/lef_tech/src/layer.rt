use entry_list::Entries;
use geom_rect::Axis;
use outside::Name;

/// A layer, by its place from 0 among the layers of its type, in the order of the file.
#[derive(Clone, Copy, Debug, PartialEq, Eq)]
pub enum LayerRef {
    /// A layer of `TYPE ROUTING`.
    Routing(u32),
    /// A layer of `TYPE CUT`.
    Cut(u32),
}

/// The greatest density of a direct current (LEF/DEF 5.8 Language Reference, "Layer (Routing)" and "Layer (Cut)",
/// `DCCURRENTDENSITY AVERAGE`): that of a wire in fA for each µm of its width, that of a cut in fA for each µm² of its
/// area.
#[derive(Debug, Drop)]
pub enum Density {
    /// None is stated.
    Unlimited,
    /// One density for all widths or areas.
    One(u64),
    /// Points of a table: a width in pm or a cut's area in 10^-12 µm², which rise, and the density there. There is at
    /// least one.
    Table(Entries<(u64, u64)>),
}

/// A layer of wires (LEF/DEF 5.8 Language Reference, "Layer (Routing)").
#[derive(Debug, Drop)]
pub struct RoutingLayer {
    pub name: Name,
    /// The axis along which wires run by `DIRECTION`: X for `HORIZONTAL`, Y for `VERTICAL`.
    pub direction: Axis,
    /// How far metal keeps from metal in pm: the first `SPACING` that is one number alone, 0 where there is none.
    pub spacing: u64,
    /// The resistance of a square in nΩ, of `RESISTANCE RPERSQ`.
    pub sheet: Option<u64>,
    /// How much current a wire may carry for its width.
    pub density: Density,
}

/// A layer of cuts (LEF/DEF 5.8 Language Reference, "Layer (Cut)").
#[derive(Debug, Drop)]
pub struct CutLayer {
    pub name: Name,
    /// The resistance of one cut in nΩ, of `RESISTANCE`.
    pub per_cut: Option<u64>,
    /// How much current a cut may carry for its area.
    pub density: Density,
}
