ghost use Rattle.std.specs.Prelude.{◌≡◌, ◌<◌, ◌≤ℤ◌, All, None, IfOk, IfErr, IsOk};
ghost use Rattle.grid_net.specs.Network.{pad_at, load_range, places_at};
ghost use Rattle.grid_net.specs.Limits.{IsBuilt};
ghost use Rattle.grid_net.specs.Building.{network_of, KeepsLimits, PadsAgree, first_net_refusal, BuildFails};

use crate::around::{Around, around_nodes};
use crate::error::NetError;
use crate::part::{Load, LoadRange, Pad, Parts, Resistor};
use crate::refusal::limit_refusal;
use crate::table::{load_ranges, pad_voltages, pads_in_order};
use std::alloc::Global;
use std::marker::Model;

/// The lists of a network within its limits, and the tables that tell its pads, its loads and the resistors around each
/// node. Of levels nothing is known yet.
#[derive(Drop)]
pub struct Circuit {
    nodes: u32,
    resistors: Vec<Resistor>,
    pads: Vec<Pad>,
    voltages: Vec<Option<i128>>,
    ranges: Vec<LoadRange>,
    around: Around,
}

impl Model for Circuit {
    ghost use Rattle.grid_net.specs.Network.{Network};

    ghost Value = { Network };

    ghost use Rattle.grid_net.specs.inside.Circuit.{network_in, IsKept};

    ghost view = { network_in };

    ghost invariant = { IsKept };
}

impl Circuit {
    /// What `Net::build` makes of the lists, or refuses them for.
    pub fn build(
        alloc: Global,
        nodes: u32,
        resistors: Vec<Resistor>,
        pads: Vec<Pad>,
        loads: Vec<Load>,
    ) -> Result<Circuit, NetError>
        requires ranges { All (λ l. l.low ≤ℤ l.high) loads.items }
        ensures built { IfOk result (λ net. net ≡ network_of nodes resistors.items pads.items loads.items) }
        ensures not_refused { IsOk result → first_net_refusal nodes resistors.items pads.items loads.items ≡ None }
        ensures keeps_limits { IsOk result → KeepsLimits nodes resistors.items pads.items loads.items }
        ensures pads_agree { IsOk result → PadsAgree pads.items }
        ensures refused { IfErr result (λ e. BuildFails nodes resistors.items pads.items loads.items e) }
    {
        if let Some(refusal) = limit_refusal(nodes, &resistors, &pads, &loads) {
            return Err(refusal);
        }
        let voltages = pad_voltages(alloc, nodes, &pads)?;
        let pads = pads_in_order(alloc, &voltages)?;
        let ranges = load_ranges(alloc, nodes, &loads)?;
        let around = around_nodes(alloc, nodes, &resistors)?;
        Ok(Circuit {
            nodes,
            resistors,
            pads,
            voltages,
            ranges,
            around,
        })
    }

    /// The number of nodes.
    pub fn nodes(&self) -> u32
        ensures nodes { result ≡ self.now.nodes }
        ensures built { IsBuilt self.now }
    {
        self.nodes
    }

    /// The resistors.
    pub fn resistors(&self) -> &[Resistor]
        ensures { result.now ≡ self.now.resistors }
    {
        &self.resistors
    }

    /// The pads.
    pub fn pads(&self) -> &[Pad]
        ensures { result.now ≡ self.now.pads }
    {
        &self.pads
    }

    /// The voltage of the pad at a node.
    pub fn pad(&self, node: u32) -> Option<i128>
        requires { node < self.now.nodes }
        ensures { result ≡ pad_at self.now node }
    {
        self.voltages[node as usize]
    }

    /// The range of the current that is drawn out of a node.
    pub fn load(&self, node: u32) -> (i64, i64)
        requires { node < self.now.nodes }
        ensures low { result.0 ≡ (load_range self.now node).low }
        ensures high { result.1 ≡ (load_range self.now node).high }
    {
        let range = self.ranges[node as usize];
        (range.low, range.high)
    }

    /// The places of the resistors at a node.
    pub fn around(&self, node: u32) -> &[u32]
        requires { node < self.now.nodes }
        ensures { result.now ≡ places_at self.now.resistors node }
    {
        let start = self.around.starts[node as usize] as usize;
        let end = self.around.starts[node as usize + 1] as usize;
        &self.around.places[start..end]
    }

    /// The lists, taken out.
    pub fn into_parts(self) -> Parts
        ensures resistors { result.resistors.items ≡ self.resistors }
        ensures pads { result.pads.items ≡ self.pads }
        ensures loads { result.loads.items ≡ self.loads }
        ensures built { IsBuilt self }
    {
        Parts {
            resistors: self.resistors,
            pads: self.pads,
            loads: self.ranges,
        }
    }
}
