ghost use Rattle.std.specs.Prelude.{◌≡◌, ◌<◌, ◌≤ℤ◌, ℕ, true, false, All, None, IfOk, IfErr, IsOk, OnOk};
ghost use Rattle.grid_net.specs.Network.{pad_at, load_range, places_at};
ghost use Rattle.grid_net.specs.Limits.{IsBuilt};
ghost use Rattle.grid_net.specs.Building.{network_of, KeepsLimits, PadsAgree, first_net_refusal, BuildFails};
ghost use Rattle.grid_net.specs.Level.{LevelIs, IsSupplied, IsFirstUnsupplied};

use crate::circuit::Circuit;
use crate::error::NetError;
use crate::level::levels;
use crate::part::{Load, Pad, Parts, Resistor};
use std::alloc::Global;
use std::marker::Model;

/// A network within its limits, with the level of each node. Contracts see its nodes, resistors, pads and loads.
#[derive(Drop)]
pub struct Net {
    circuit: Circuit,
    levels: Vec<Option<u32>>,
}

impl Model for Net {
    ghost use Rattle.grid_net.specs.Network.{Network};
    ghost use Rattle.grid_net.specs.inside.Level.{AreLevels};

    ghost Value = { Network };

    ghost view = { λ net. net.circuit };

    ghost invariant = { λ net. AreLevels net.circuit net.levels.items };
}

impl Net {
    /// Makes the network of the lists: loads of one node are added, and pads are kept in the order of nodes, each node
    /// once. The levels of all nodes are found in time linear in the nodes and resistors.
    ///
    /// No load's low end is above its high end. What refuses the lists, in this order: an end that is no node, a
    /// quantity beyond its limit, and two pads of one node that differ.
    pub fn build(
        alloc: Global,
        nodes: u32,
        resistors: Vec<Resistor>,
        pads: Vec<Pad>,
        loads: Vec<Load>,
    ) -> Result<Net, NetError>
        requires ranges { All (λ l. l.low ≤ℤ l.high) loads.items }
        ensures built { IfOk result (λ net. net ≡ network_of nodes resistors.items pads.items loads.items) }
        ensures not_refused { IsOk result → first_net_refusal nodes resistors.items pads.items loads.items ≡ None }
        ensures keeps_limits { IsOk result → KeepsLimits nodes resistors.items pads.items loads.items }
        ensures pads_agree { IsOk result → PadsAgree pads.items }
        ensures refused { IfErr result (λ e. BuildFails nodes resistors.items pads.items loads.items e) }
    {
        let circuit = Circuit::build(alloc, nodes, resistors, pads, loads)?;
        let levels = levels(alloc, &circuit)?;
        Ok(Net { circuit, levels })
    }

    /// The number of nodes, which are counted from 0.
    pub fn nodes(&self) -> u32
        ensures nodes { result ≡ self.now.nodes }
        ensures built { IsBuilt self.now }
    {
        self.circuit.nodes()
    }

    /// The resistors, as they were handed in.
    pub fn resistors(&self) -> &[Resistor]
        ensures { result.now ≡ self.now.resistors }
    {
        self.circuit.resistors()
    }

    /// The pads in the order of nodes, each node once.
    pub fn pads(&self) -> &[Pad]
        ensures { result.now ≡ self.now.pads }
    {
        self.circuit.pads()
    }

    /// The voltage of the pad at a node, in yoctovolts, if one stands there.
    pub fn pad(&self, node: u32) -> Option<i128>
        requires { node < self.now.nodes }
        ensures { result ≡ pad_at self.now node }
    {
        self.circuit.pad(node)
    }

    /// The range of the current that is drawn out of a node, in femtoamperes: the low end and the high end.
    pub fn load(&self, node: u32) -> (i64, i64)
        requires { node < self.now.nodes }
        ensures low { result.0 ≡ (load_range self.now node).low }
        ensures high { result.1 ≡ (load_range self.now node).high }
    {
        self.circuit.load(node)
    }

    /// The places, in the list of resistors, of those that stand at a node, each once and ascending.
    pub fn around(&self, node: u32) -> &[u32]
        requires { node < self.now.nodes }
        ensures { result.now ≡ places_at self.now.resistors node }
    {
        self.circuit.around(node)
    }

    /// The level of a node: how many resistors the shortest chain from it to a pad has. `None` exactly where no chain
    /// joins it to a pad.
    pub fn level(&self, node: u32) -> Option<u32>
        requires { node < self.now.nodes }
        ensures { LevelIs self.now node result }
    {
        self.levels[node as usize]
    }

    // Whether a chain of resistors joins the node to a pad.
    fn is_supplied(&self, node: u32) -> bool
        requires { node < self.now.nodes }
        ensures yes { result ≡ true → IsSupplied self.now node }
        ensures no { result ≡ false → IsSupplied self.now node → ⊥ }
    {
        self.level(node).is_some()
    }

    /// Whether each node is supplied: joined to a pad by a chain of resistors. If not, the first node that is not.
    pub fn supply(&self) -> Result<(), u32>
        ensures ok { OnOk result ((i : ℕ) → i < self.now.nodes → IsSupplied self.now i) }
        ensures first { IfErr result (λ node. IsFirstUnsupplied self.now node) }
    {
        for node in 0..self.nodes() {
            if !self.is_supplied(node) {
                return Err(node);
            }
        }
        Ok(())
    }

    /// The lists that the network is made of, taken out of it. It takes no memory.
    pub fn into_parts(self) -> Parts
        ensures resistors { result.resistors.items ≡ self.resistors }
        ensures pads { result.pads.items ≡ self.pads }
        ensures loads { result.loads.items ≡ self.loads }
        ensures built { IsBuilt self }
    {
        self.circuit.into_parts()
    }
}
