//! The lists of a network with the groups of nodes in the place of nodes.
ghost use Rattle.std.specs.Prelude.{◌≡◌, ◌<◌, length, map, All, IfOk};
ghost use Rattle.std.specs.List.{range_with_len};
ghost use Rattle.group_net.specs.Merging.{grouped_resistor, grouped_pad};
ghost use Rattle.group_net.specs.inside.Loads.{load_at};

use grid_net::{Load, LoadRange, Pad, Resistor};
use std::alloc::{AllocError, Global};

// Moves the ends of resistors to the groups of their nodes.
fn move_resistors(resistors: &mut [Resistor], group: &[u32])
    requires { All (λ r. (r.a < length group.now) × (r.b < length group.now)) resistors.old }
    ensures { resistors.new ≡ map (grouped_resistor group.now) resistors.old }
{
    for resistor in resistors.iter_mut() {
        resistor.a = group[resistor.a as usize];
        resistor.b = group[resistor.b as usize];
    }
}

// Moves pads to the groups of their nodes.
fn move_pads(pads: &mut [Pad], group: &[u32])
    requires { All (λ p. p.node < length group.now) pads.old }
    ensures { pads.new ≡ map (grouped_pad group.now) pads.old }
{
    for pad in pads.iter_mut() {
        pad.node = group[pad.node as usize];
    }
}

/// Moves resistors and pads to the groups of their nodes, where they stand.
pub(crate) fn move_all(resistors: &mut Vec<Resistor>, pads: &mut Vec<Pad>, group: &[u32])
    requires resistors { All (λ r. (r.a < length group.now) × (r.b < length group.now)) resistors.old.items }
    requires pads { All (λ p. p.node < length group.now) pads.old.items }
    ensures resistors { resistors.new.items ≡ map (grouped_resistor group.now) resistors.old.items }
    ensures pads { pads.new.items ≡ map (grouped_pad group.now) pads.old.items }
{
    move_resistors(resistors, group);
    move_pads(pads, group);
}

/// The load of each node, drawn out of its group.
pub(crate) fn loads_of_groups(
    alloc: Global,
    loads: &[LoadRange],
    group: &[u32],
) -> Result<Vec<Load>, AllocError>
    requires { length loads.now ≡ length group.now }
    ensures { IfOk result (λ moved. moved.items ≡ map (load_at loads.now group.now) (range_with_len 0 (length group.now))) }
{
    let mut moved = Vec::with_capacity(alloc, loads.len())?;
    for (node, load) in loads.iter().enumerate() {
        moved.push(Load {
            node: group[node],
            low: load.low,
            high: load.high,
        })?;
    }
    Ok(moved)
}
