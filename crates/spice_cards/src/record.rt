use grid_net::{Load, Pad, Resistor};
use node_names::NodeNames;

/// A capacitor, as its card has it.
#[derive(Clone, Copy, Debug)]
pub struct Capacitor<'a> {
    /// The name of its first end, as it stands in the text.
    pub a: &'a [u8],
    /// The name of its second end.
    pub b: &'a [u8],
    /// Its capacitance in 10^-24 F, from 0 to 10^30.
    pub farads: i128,
}

/// What the cards of a netlist say. A node is given by the number of its name.
#[derive(Drop)]
pub struct Cards<'a> {
    /// The names of the nodes, in lower case: all names but `0` on the cards of resistors, sources and loads, and `0` where a resistor names it or a source stands between
    /// `0` and `0`.
    pub names: NodeNames<'a>,
    /// The resistors whose value is not 0, in nΩ and in the order of their cards. A value below 0 or beyond the limit of a network stands
    /// here too.
    pub resistors: Vec<Resistor>,
    /// The two nodes of each resistor of value 0 and of each source of value 0 between two nodes other than `0`, in the order of their cards.
    pub shorts: Vec<(u32, u32)>,
    /// The pads that sources give, in yV and in the order of their cards.
    pub pads: Vec<Pad>,
    /// The loads, in fA and in the order of their cards, first the one at the first node of a card. None stands at `0`.
    pub loads: Vec<Load>,
    /// The capacitors, in the order of their cards. Their ends may have names that no node has.
    pub caps: Vec<Capacitor<'a>>,
}
