ghost use Rattle.std.specs.Prelude.{◌≡◌, ◌<◌, ◌+◌, ◌⊎◌, ℕ, suc, All, length, slice_index_or, IfOk, None, Some};
ghost use Rattle.grid_net.specs.Network.{Network, places_at, IsResistorOf};
ghost use Rattle.grid_net.specs.Limits.{IsBuilt};
ghost use Rattle.grid_net.specs.Level.{AreJoined, IsWithin, LevelIs};
ghost use Rattle.grid_net.specs.inside.Level.{told, unmet, IsPut, IsSearch, IsGrown, HasPads, AreLevels};

use crate::circuit::Circuit;
use std::alloc::{AllocError, Global};

/// Gives a level to a node that has none, and puts it at the end of the queue. Tells the end.
fn put(node: u32, level: u32, levels: &mut [Option<u32>], queue: &mut [u32], tail: usize) -> usize
    requires node_in { node < length levels.old }
    requires room { length queue.old ≡ length levels.old }
    requires count { tail + unmet levels.old ≡ length levels.old }
    ensures { IsPut node level levels.old levels.new queue.old queue.new tail result }
{
    match levels[node as usize] {
        Some(_) => tail,
        None => {
            levels[node as usize] = Some(level);
            queue[tail] = node;
            tail + 1
        }
    }
}

/// Puts each node without a level that shares a resistor with a node, and tells the queue's end.
fn visit(
    circuit: &Circuit,
    node: u32,
    level: u32,
    levels: &mut [Option<u32>],
    queue: &mut [u32],
    tail: usize,
) -> usize
    requires built { IsBuilt circuit.now }
    requires node_in { node < circuit.now.nodes }
    requires near { (i : ℕ) → AreJoined circuit.now i node → IsWithin circuit.now level i }
    requires search { IsSearch circuit.now levels.old queue.old tail }
    ensures search { IsSearch circuit.now levels.new queue.new result }
    ensures grown { IsGrown level levels.old levels.new queue.old queue.new tail result }
    ensures met { (i : ℕ) → AreJoined circuit.now i node → (m : ℕ) × (told levels.new i ≡ Some m) }
{
    let resistors = circuit.resistors();
    let around = circuit.around(node);
    let mut end = tail;
    for place in around {
        let other = resistors[*place as usize].end_across(node);
        end = put(other, level, levels, queue, end);
    }
    end
}

/// Puts the pads' nodes with the level 0, and tells the queue's end.
fn put_pads(circuit: &Circuit, levels: &mut [Option<u32>], queue: &mut [u32]) -> usize
    requires built { IsBuilt circuit.now }
    requires search { IsSearch circuit.now levels.old queue.old 0 }
    ensures search { IsSearch circuit.now levels.new queue.new result }
    ensures grown { IsGrown 0 levels.old levels.new queue.old queue.new 0 result }
    ensures pads { HasPads circuit.now levels.new }
{
    let mut end = 0;
    for pad in circuit.pads() {
        end = put(pad.node, 0, levels, queue, end);
    }
    end
}

/// Gives each node that is joined to a pad its level. Each node is put into the queue once, and each resistor is
/// looked at once from each end.
fn search(circuit: &Circuit, levels: &mut [Option<u32>], queue: &mut [u32])
    requires built { IsBuilt circuit.now }
    requires search { IsSearch circuit.now levels.old queue.old 0 }
    ensures size { length levels.new ≡ circuit.now.nodes }
    ensures levels { (i : ℕ) → LevelIs circuit.now i (told levels.new i) }
{
    let mut tail = put_pads(circuit, levels, queue);
    let mut level: u32 = 0;
    let mut end = tail;
    let mut head = 0;
    while head < tail {
        if head == end {
            level += 1;
            end = tail;
        }
        tail = visit(circuit, queue[head], level + 1, levels, queue, tail);
        head += 1;
    }
}

/// The level of each node: 0 at pads, and else one more than the least level of a node that shares a resistor with it.
pub fn levels(alloc: Global, circuit: &Circuit) -> Result<Vec<Option<u32>>, AllocError>
    ensures { IfOk result (λ v. AreLevels circuit.now v.items) }
{
    let nodes = circuit.nodes() as usize;
    let mut levels = vec![in alloc; None; nodes]?;
    let mut queue = vec![in alloc; 0; nodes]?;
    search(circuit, &mut levels, &mut queue);
    Ok(levels)
}
