ghost use Rattle.std.specs.Prelude.{◌≡◌, ◌<◌, ◌≤◌, ◌+◌, ◌*◌, ◌^◌, ℕ, length, IfOk, IfErr};
ghost use Rattle.outside.specs.Counts.{Rose};
ghost use Rattle.level_region.specs.Block.{IsWithin};
ghost use Rattle.grid_net.specs.Limits.{IsBuilt};
ghost use Rattle.grid_net.specs.Certificate.{IsCertificate, IsTight};
ghost use Rattle.grid_net.specs.Level.{IsLevel, IsSupplied};
ghost use Rattle.bound_make.specs.Scale.{Scale as Range, IsScaleOf, IsGreatestLevel};
ghost use Rattle.bound_make.specs.Certifier.{LieInRange, MadeOfTold, region_cells};

use crate::half::Half;
use crate::make::make;
use crate::scale::{Scale, scale_of};
use crate::work_list::WorkList;
use bound_check::Certified;
use grid_net::{Net, Solver};
use level_region::{Region, Span};
use std::alloc::{AllocError, Global};
use std::marker::Model;

/// A network whose nodes are all supplied, with all the memory that a certificate of it takes.
#[derive(Drop)]
pub struct Certifier {
    net: Net,
    memory: Memory,
}

/// A certifier's memory: its two lists and its region, and the greatest level of its network.
#[derive(Drop)]
pub struct Memory {
    pub(crate) level: u32,
    pub(crate) high: Vec<i128>,
    pub(crate) low: Vec<i128>,
    pub(crate) work: Region,
}

impl Model for Certifier {
    ghost use Rattle.std.specs.Prelude.{◌≡◌, length};
    ghost use Rattle.grid_net.specs.Network.{Network};
    ghost use Rattle.bound_make.specs.Scale.{IsGreatestLevel};
    ghost use Rattle.bound_make.specs.Certifier.{region_cells};

    ghost Value = { Network };

    ghost view = { λ c. c.net };

    ghost invariant = { λ c. (length c.memory.high.items ≡ c.net.nodes) × (length c.memory.low.items ≡ c.net.nodes)
        × IsGreatestLevel c.net c.memory.level
        × (length c.memory.work.cells ≡ region_cells c.net.nodes (length c.net.resistors)) };
}

/// The level of a node, where each node is supplied.
fn level_at(net: &Net, node: u32) -> u32
    requires node_in { node < net.now.nodes }
    requires supplied { IsSupplied net.now node }
    ensures { IsLevel net.now node result }
{
    net.level(node).unwrap_or(0)
}

/// The greatest level of a network, or 0 where it has no node.
pub(crate) fn greatest_level(net: &Net) -> u32
    requires { (i : ℕ) → i < net.now.nodes → IsSupplied net.now i }
    ensures { IsGreatestLevel net.now result }
{
    let mut greatest = 0;
    for node in 0..net.nodes() {
        let level = level_at(net, node);
        greatest = level.max(greatest);
    }
    greatest
}

/// The region in which the lists of networks of at most so many nodes and resistors are made. Errors: want of memory.
pub fn region_for(alloc: Global, nodes: u32, resistors: usize) -> Result<Region, AllocError>
    requires { resistors < 2 ^ 60 }
    ensures { IfOk result (λ region. length region.cells ≡ region_cells nodes resistors) }
{
    let region = Region::new(alloc, 16 * nodes as usize + 8 * resistors + 64)?;
    Ok(region)
}

/// The memory that a certificate of a network takes.
pub(crate) fn memory_for(alloc: Global, net: &Net) -> Result<Memory, AllocError>
    requires { (i : ℕ) → i < net.now.nodes → IsSupplied net.now i }
    ensures high { IfOk result (λ m. length m.high.items ≡ net.now.nodes) }
    ensures low { IfOk result (λ m. length m.low.items ≡ net.now.nodes) }
    ensures level { IfOk result (λ m. IsGreatestLevel net.now m.level) }
    ensures cells { IfOk result (λ m. length m.work.cells ≡ region_cells net.now.nodes (length net.now.resistors)) }
{
    let nodes = net.nodes();
    let level = greatest_level(net);
    let high = vec![in alloc; 0; nodes as usize]?;
    let low = vec![in alloc; 0; nodes as usize]?;
    let work = region_for(alloc, nodes, net.resistors().len())?;
    Ok(Memory {
        level,
        high,
        low,
        work,
    })
}

/// The cells of a work list of so many nodes: one for each in its ring, and one for its mark. None where the region
/// has too few.
pub(crate) fn list_span(work: &mut Region, nodes: usize) -> Span
    requires { 2 * nodes < 2 ^ 64 }
    ensures within { IsWithin result work.new }
    ensures cells { work.new.cells ≡ work.old.cells }
{
    work.reset();
    work.cut(2 * nodes).unwrap_or(Span { start: 0, len: 0 })
}

/// Fills the two lists of a certificate of a network, of what a solver proposes, and counts the sweeps.
fn fill<V: Solver>(
    net: &Net,
    level: u32,
    work: &mut Region,
    high: &mut [i128],
    low: &mut [i128],
    solver: &mut V,
) -> u64
    requires high { length high.old ≡ net.now.nodes }
    requires low { length low.old ≡ net.now.nodes }
    requires level { IsGreatestLevel net.now level }
    ensures certificate { IsCertificate net.now high.new low.new }
    ensures tight { IsTight net.now high.new low.new }
    ensures range { (s : Range) × IsScaleOf net.now s × LieInRange net.now s high.new low.new
        × MadeOfTold net.now s (V.told solver.old) high.new low.new }
    ensures asked { Rose (V.proposals solver.old) (V.proposals solver.new) }
    ensures counted { V.proposals solver.old ≤ V.proposals solver.new }
    ensures told { V.told solver.new ≡ V.told solver.old }
{
    let nodes = net.nodes() as usize;
    solver.propose(net, work, high, low);
    let scale = scale_of(net, level);
    let span = list_span(work, nodes);
    let mut list = WorkList::new(work.get_mut(span));
    let of_high = make(net, Half::High, scale, high, &mut list);
    let of_low = make(net, Half::Low, scale, low, &mut list);
    of_high.saturating_add(of_low)
}

/// Makes the certificate of a network in its memory, of what a solver proposes.
fn certify_in<V: Solver>(net: Net, memory: Memory, solver: &mut V) -> Certified
    requires high { length memory.high.items ≡ net.nodes }
    requires low { length memory.low.items ≡ net.nodes }
    requires level { IsGreatestLevel net memory.level }
    ensures net { result.net ≡ net }
    ensures range { (s : Range) × IsScaleOf net s × LieInRange net s result.high result.low
        × MadeOfTold net s (V.told solver.old) result.high result.low }
    ensures asked { Rose (V.proposals solver.old) (V.proposals solver.new) }
    ensures counted { V.proposals solver.old ≤ V.proposals solver.new }
    ensures told { V.told solver.new ≡ V.told solver.old }
{
    let Memory {
        level,
        mut high,
        mut low,
        mut work,
    } = memory;
    let sweeps = fill(&net, level, &mut work, &mut high, &mut low, solver);
    Certified::keep(net, high, low, sweeps)
}

impl Certifier {
    /// Takes all the memory that a certificate of the network takes. Where there is not enough, the network comes back.
    pub fn reserve(alloc: Global, net: Net) -> Result<Certifier, (Net, AllocError)>
        requires supplied { (i : ℕ) → i < net.nodes → IsSupplied net i }
        ensures ok { IfOk result (λ certifier. certifier ≡ net) }
        ensures err { IfErr result (λ e. e.0 ≡ net) }
    {
        match memory_for(alloc, &net) {
            Ok(memory) => Ok(Certifier { net, memory }),
            Err(want) => Err((net, want)),
        }
    }

    /// Makes a tight certificate of the network out of what a solver proposes. It takes no memory, and there is no
    /// refusal.
    ///
    /// Whatever is proposed, the lists lie in the ranges of the network. Where the solver tells what it proposes, the
    /// lists stand to the starts of its proposals as told.
    pub fn certify<V: Solver>(self, solver: &mut V) -> Certified
        ensures net { result.net ≡ self }
        ensures range { (s : Range) × IsScaleOf self s × LieInRange self s result.high result.low
            × MadeOfTold self s (V.told solver.old) result.high result.low }
        ensures asked { Rose (V.proposals solver.old) (V.proposals solver.new) }
        ensures counted { V.proposals solver.old ≤ V.proposals solver.new }
        ensures told { V.told solver.new ≡ V.told solver.old }
    {
        certify_in(self.net, self.memory, solver)
    }
}
