//! The network of a netlist, with the names of its nodes.
ghost use Rattle.std.specs.Prelude.{◌≡◌, ◌≤ℤ◌, All, ◌++◌, None, IfOk, IfErr, OnOk};
ghost use Rattle.grid_net.specs.declared.error.NetError.TheVariants.{PadConflict};
ghost use Rattle.spice_cards.specs.Record.{AreNumbered};
ghost use Rattle.spice_grid.specs.Named.{IsNamed, ground_pads, refusal_in, RefusesCards};
ghost use Rattle.spice_grid.specs.inside.Named.{IsToldAs};

use crate::caps::numbered_caps;
use crate::error::{NetRefusal, SpiceKind};
use crate::place::place_all;
use capacitors::Cap;
use entry_list::Entries;
use grid_net::{Net, NetError, Pad};
use node_names::{NodeNames, OrderedNodes};
use outside::Name;
use spice_cards::Cards;
use std::alloc::{AllocError, Global};

/// A network whose nodes have names, the shorts between its nodes, and its capacitors, which are no part of the network.
#[derive(Drop)]
pub struct Named {
    /// The network. The number of a node is the place of its name.
    pub net: Net,
    /// The names of the nodes in lower case, in byte order, each once.
    pub names: Entries<Name>,
    /// The two nodes of each short, in the order of the cards.
    pub shorts: Entries<(u32, u32)>,
    /// The capacitors, in the order of their cards. An end with the name `0` is ground, also where `0` is a node.
    pub caps: Entries<Cap>,
}

impl Named {
    /// The network of the cards, with its nodes in the byte order of their names. Entries keep their places, and where
    /// ground is a node, its pad of 0 V stands after the other pads. The ends of capacitors are looked up among the names.
    ///
    /// No list is copied. Errors: `Net`, what `Net::build` refuses the lists for, where a conflict of pads names its node;
    /// `Want` for want of memory.
    pub fn build(alloc: Global, cards: Cards) -> Result<Named, SpiceKind>
        requires numbers { AreNumbered cards }
        requires ranges { All (λ l. l.low ≤ℤ l.high) cards.loads.items }
        ensures named { IfOk result (λ named. IsNamed cards.entry named) }
        ensures not_refused { IfOk result (λ named. refusal_in cards.entry named.names ≡ None) }
        ensures refused { IfErr result (RefusesCards cards.entry) }
    {
        let Cards {
            names: table,
            mut resistors,
            mut shorts,
            mut pads,
            mut loads,
            caps,
        } = cards;
        add_ground(&mut pads, &table)?;
        let nodes = table.len() as u32;
        let OrderedNodes { names, places } = table.ordered(alloc)?;
        place_all(&mut resistors, &mut shorts, &mut pads, &mut loads, &places);
        let caps = numbered_caps(alloc, &table, &places, &caps)?;
        match Net::build(alloc, nodes, resistors, pads, loads) {
            Ok(net) => Ok(Named {
                net,
                names: Entries::new(names),
                shorts: Entries::new(shorts),
                caps: Entries::new(caps),
            }),
            Err(error) => Err(refusal_of(error, names)),
        }
    }
}

// Adds the pad of ground, where it is a node.
fn add_ground(pads: &mut Vec<Pad>, names: &NodeNames) -> Result<(), AllocError>
    ensures { OnOk result (pads.new.items ≡ pads.old.items ++ ground_pads names.now) }
{
    if let Some(node) = names.get(b"0") {
        pads.push(Pad { node, volts: 0 })?;
    }
    Ok(())
}

// The refusal of a network whose nodes have these names. The numbers of the cards are those of names, so that an entry at
// another node never comes; where it did, the answer would be want of memory.
fn refusal_of(error: NetError, names: Vec<Name>) -> SpiceKind
    ensures { IsToldAs names.items error result }
{
    match error {
        NetError::Range {
            quantity,
            at,
            number,
        } => SpiceKind::Net(NetRefusal::Range {
            quantity,
            at,
            number,
        }),
        NetError::PadConflict {
            node,
            first,
            second,
        } => conflict_at(names, node, first, second),
        NetError::BadEnd { .. } | NetError::Want => SpiceKind::Want,
    }
}

// The conflict of two pads of a node, with its name.
fn conflict_at(mut names: Vec<Name>, node: u32, first: i128, second: i128) -> SpiceKind
    ensures { IsToldAs names.items (PadConflict node first second) result }
{
    let node = node as usize;
    if names.len() <= node {
        return SpiceKind::Want;
    }
    SpiceKind::Net(NetRefusal::PadConflict {
        node: names.swap_remove(node),
        first,
        second,
    })
}
