//! What the network of a step has beside the network itself.
ghost use Rattle.std.specs.Prelude.{◌≡◌, ◌≤◌, ◌<◌, ◌^◌, ◌*◌, All, length, map, IfOk};
ghost use Rattle.std.specs.List.{range_with_len};
ghost use Rattle.grid_net.specs.Limits.{IsBuilt};
ghost use Rattle.step_bounds.specs.Capacitors.{companions as companions_of_caps};
ghost use Rattle.step_bounds.specs.StepNetwork.{has_memory, nodes_with_memory, memory_of};
ghost use Rattle.step_bounds.specs.inside.Extension.{AreMemories, IsExtension};

use crate::companion::{Companion, companions};
use capacitors::Cap;
use grid_net::Net;
use std::alloc::{AllocError, Global};

/// The capacitors that count, the nodes at which they count, and for each node the number that its memory node has, if it
/// has one.
#[derive(Drop)]
pub(crate) struct Extension {
    pub companions: Vec<Companion>,
    pub memories: Memories,
}

/// The nodes at which a capacitor counts, in their order, and for each node the number of its memory node.
#[derive(Drop)]
pub(crate) struct Memories {
    pub nodes: Vec<u32>,
    pub numbers: Vec<u32>,
}

// For each node whether a capacitor counts there.
fn marks_of(alloc: Global, nodes: u32, companions: &[Companion]) -> Result<Vec<bool>, AllocError>
    requires { All (λ x. x.node < nodes) companions.now }
    ensures { IfOk result (λ v. v.items ≡ map (has_memory companions.now) (range_with_len 0 nodes)) }
{
    let mut marks = vec![in alloc; false; nodes as usize]?;
    for companion in companions {
        marks[companion.node as usize] = true;
    }
    Ok(marks)
}

// The memory nodes of the capacitors that count.
fn memories_of(alloc: Global, nodes: u32, companions: &[Companion]) -> Result<Memories, AllocError>
    requires few { nodes ≤ 2 * 10 ^ 6 }
    requires nodes { All (λ x. x.node < nodes) companions.now }
    ensures { IfOk result (λ m. AreMemories nodes companions.now m) }
{
    let marks = marks_of(alloc, nodes, companions)?;
    let mut with_memory = Vec::new(alloc);
    let mut numbers = Vec::new(alloc);
    for node in 0..nodes {
        numbers.push(nodes + with_memory.len() as u32)?;
        if marks[node as usize] {
            with_memory.push(node)?;
        }
    }
    Ok(Memories {
        nodes: with_memory,
        numbers,
    })
}

/// What the networks of all steps after 0 have beside the network itself.
pub(crate) fn extension_of(
    alloc: Global,
    net: &Net,
    caps: &[Cap],
    time: u128,
) -> Result<Extension, AllocError>
    requires { time ≤ 10 ^ 18 }
    ensures companions { IfOk result (λ x. x.companions.items ≡ companions_of_caps net.now caps.now time) }
    ensures fits { IfOk result (λ x. IsExtension net.now x) }
    ensures built { IsBuilt net.now }
{
    let nodes = net.nodes();
    let companions = companions(alloc, net, caps, time)?;
    let memories = memories_of(alloc, nodes, &companions)?;
    Ok(Extension {
        companions,
        memories,
    })
}
