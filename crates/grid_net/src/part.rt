ghost use Rattle.std.specs.Prelude.{◌≡◌};
ghost use Rattle.grid_net.specs.Network.{other_end};

/// A resistor between two nodes, which are given by their numbers. The resistance is in nano-ohms.
#[derive(Clone, Copy, Debug, PartialEq, Eq)]
pub struct Resistor {
    pub a: u32,
    pub b: u32,
    pub ohms: i128,
}

impl Resistor {
    /// The end of the resistor that is not the node; for a resistor from a node to itself, that node.
    #[inline]
    pub fn end_across(&self, node: u32) -> u32
        ensures { result ≡ other_end self.now node }
    {
        if self.a == node { self.b } else { self.a }
    }
}

/// A pad holds its node at a voltage, in yoctovolts.
#[derive(Clone, Copy, Debug, PartialEq, Eq)]
pub struct Pad {
    pub node: u32,
    pub volts: i128,
}

/// A load as it is handed in: a node, and the range of the current that is drawn out of it, in femtoamperes. A load
/// that is one number has two equal ends.
#[derive(Clone, Copy, Debug, PartialEq, Eq)]
pub struct Load {
    pub node: u32,
    pub low: i64,
    pub high: i64,
}

/// The range in which the current lies that is drawn out of one node, in femtoamperes.
#[derive(Clone, Copy, Debug, PartialEq, Eq)]
pub struct LoadRange {
    pub low: i64,
    pub high: i64,
}

/// The lists that a network is made of, taken out of it.
#[derive(Debug, Drop)]
pub struct Parts {
    /// The resistors, as they were handed in.
    pub resistors: Vec<Resistor>,
    /// The pads in the order of nodes, each node once.
    pub pads: Vec<Pad>,
    /// For each node the range of its load.
    pub loads: Vec<LoadRange>,
}
