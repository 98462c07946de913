//! The network of a step, over a list of voltages.
ghost use Rattle.std.specs.Prelude.{◌≡◌, ◌≤ℤ◌, ◌<◌, ◌++◌, All, None, length, map, IfOk, IfErr, IsOk};
ghost use Rattle.grid_net.specs.Network.{entry_of};
ghost use Rattle.grid_net.specs.Limits.{IsBuilt};
ghost use Rattle.step_bounds.specs.StepNetwork.{step_nodes as nodes_of_step, step_resistors as resistors_of_step, step_pads as pads_of_step, network_over as network_of_lists, refusal_over, memory_resistor, memory_pad, nodes_with_memory, step_cells};
ghost use Rattle.step_bounds.specs.inside.Extension.{AreCompanions, AreMemories, IsExtension};
ghost use Rattle.step_bounds.specs.inside.Loads.{AreLoads};
ghost use Rattle.step_bounds.specs.inside.Passed.{IsPassed};

use crate::companion::Companion;
use crate::copies::{copy_loads, copy_pads, copy_resistors};
use crate::extension::{Extension, Memories};
use crate::passed::{Passed, passed_by};
use bound_make::region_for;
use grid_net::{Load, MOST_RESISTORS, Net, Pad, Resistor};
use level_region::Region;
use std::alloc::{AllocError, Global};

// The resistors of a step's network.
fn step_resistors(
    alloc: Global,
    net: &Net,
    companions: &[Companion],
    memories: &Memories,
) -> Result<Vec<Resistor>, AllocError>
    requires companions { AreCompanions net.now companions.now }
    requires memories { AreMemories net.now.nodes companions.now memories.now }
    ensures { IfOk result (λ v. v.items ≡ resistors_of_step net.now companions.now) }
{
    let mut resistors = copy_resistors(alloc, net.resistors())?;
    for companion in companions {
        resistors.push(Resistor {
            a: companion.node,
            b: memories.numbers[companion.node as usize],
            ohms: companion.ohms,
        })?;
    }
    Ok(resistors)
}

// The pads of a step's network.
fn step_pads(
    alloc: Global,
    net: &Net,
    extension: &Extension,
    before: &[i128],
) -> Result<Vec<Pad>, AllocError>
    requires extension { IsExtension net.now extension.now }
    requires before { length before.now ≡ net.now.nodes }
    ensures { IfOk result (λ v. v.items ≡ pads_of_step net.now extension.now.companions.items before.now) }
{
    let mut pads = copy_pads(alloc, net.pads())?;
    let memories = &extension.memories;
    for node in &memories.nodes {
        pads.push(Pad {
            node: memories.numbers[*node as usize],
            volts: before[*node as usize],
        })?;
    }
    Ok(pads)
}

// The number of nodes of a step's network.
fn step_nodes(net: &Net, extension: &Extension) -> u32
    requires { IsExtension net.now extension.now }
    ensures nodes { result ≡ nodes_of_step net.now extension.now.companions.items }
    ensures built { IsBuilt net.now }
{
    net.nodes() + extension.memories.nodes.len() as u32
}

/// The region in which the lists of all steps are made. Errors: want of memory.
pub(crate) fn region_of_steps(
    alloc: Global,
    net: &Net,
    extension: &Extension,
) -> Result<Region, AllocError>
    requires { IsExtension net.now extension.now }
    ensures { IfOk result (λ region. length region.cells ≡ step_cells net.now extension.now.companions.items) }
{
    let nodes = step_nodes(net, extension);
    let more = extension.companions.len().min(MOST_RESISTORS as usize);
    region_for(alloc, nodes, net.resistors().len() + more)
}

/// The network of a step with these loads, over a list of voltages. Errors: a quantity passes its limit; want of memory.
pub(crate) fn network_over(
    alloc: Global,
    net: &Net,
    extension: &Extension,
    loads: &[Load],
    before: &[i128],
) -> Result<Net, Passed>
    requires extension { IsExtension net.now extension.now }
    requires loads { AreLoads net.now.nodes loads.now }
    requires before { length before.now ≡ net.now.nodes }
    ensures network { IfOk result (λ over.
        over ≡ network_of_lists net.now extension.now.companions.items loads.now before.now) }
    ensures kept { IsOk result → refusal_over net.now extension.now.companions.items loads.now before.now ≡ None }
    ensures passed { IfErr result (λ e. IsPassed net.now extension.now.companions.items loads.now before.now e) }
{
    let nodes = step_nodes(net, extension);
    let resistors = step_resistors(alloc, net, &extension.companions, &extension.memories)?;
    let pads = step_pads(alloc, net, extension, before)?;
    let loads = copy_loads(alloc, loads)?;
    match Net::build(alloc, nodes, resistors, pads, loads) {
        Ok(over) => Ok(over),
        Err(error) => Err(passed_by(error)),
    }
}
