//! The layer lines of a netlist: which number in the nodes' names stands for which layer of which net.
ghost use Rattle.std.specs.Prelude.{◌≡◌, ◌<◌, ◌^◌, ◌↔◌, All, IsTrue, IfOk, length};
ghost use Rattle.std.specs.List.Sorted.{IsStrictlySortedBy};
ghost use Rattle.lef_tech.specs.declared.tech.Tech.{Tech};
ghost use Rattle.grid_network.specs.Listing.{ListsAll};
ghost use Rattle.grid_network.specs.Drawing.{Drawing};
ghost use Rattle.grid_network.specs.Nodes.{IsNode};
ghost use Rattle.grid_network.specs.Layers.{AreNotes, IsNoteOf};
ghost use Rattle.grid_network.specs.inside.Steps.{key_cmp, BeginsLayer};

use crate::key::Key;
use crate::named::layer_number;
use grid_net::Note;
use lef_tech::RoutingLayer;
use outside::Name;
use std::alloc::{AllocError, Global};

// The layer line of a node's layer and net.
fn note_of(
    alloc: Global,
    nets: &[Name],
    layers: &[RoutingLayer],
    key: &Key,
) -> Result<Note, AllocError>
    requires few { length layers.now < 2 ^ 32 }
    requires layer { key.now.layer < length layers.now }
    requires net { key.now.net < length nets.now }
    ensures { IfOk result (λ note. (d : Drawing) (tech : Tech) → d.grid.nets ≡ nets.now → tech.routing ≡ layers.now
        → IsNode d key.now → IsNoteOf d tech key.now note) }
{
    let number = layer_number(layers.len() as u64, key);
    let layer = Name::new(alloc, layers[key.layer as usize].name.bytes())?;
    let net = Name::new(alloc, nets[key.net as usize].bytes())?;
    Ok(Note { layer, net, number })
}

// Whether a node has another layer or net than the one before it.
fn begins_layer(places: &[Key], i: usize) -> bool
    requires { i < length places.now }
    ensures { IsTrue result ↔ BeginsLayer places.now i }
{
    i == 0 || places[i - 1].net != places[i].net || places[i - 1].layer != places[i].layer
}

/// The layer lines, from the nodes in the order of nets and layers.
pub(crate) fn notes(
    alloc: Global,
    nets: &[Name],
    layers: &[RoutingLayer],
    places: &[Key],
) -> Result<Vec<Note>, AllocError>
    requires few { length layers.now < 2 ^ 32 }
    requires within { All (λ k. (k.net < length nets.now) × (k.layer < length layers.now)) places.now }
    requires sorted { IsStrictlySortedBy key_cmp places.now }
    ensures { IfOk result (λ notes. (d : Drawing) (tech : Tech) → d.grid.nets ≡ nets.now → tech.routing ≡ layers.now
        → ListsAll (IsNode d) places.now → AreNotes d tech notes.items) }
{
    let mut notes = Vec::new(alloc);
    for (i, key) in places.iter().enumerate() {
        if begins_layer(places, i) {
            notes.push(note_of(alloc, nets, layers, key)?)?;
        }
    }
    Ok(notes)
}
