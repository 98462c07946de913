//! Netlists: `node NAME`, `resistor A B OHMS`, `pad NODE VOLTS`, `load NODE LOW HIGH` of each node, `short A B` and `cap A B FARADS`, one
//! list after the other, where a node is the place of its name, and an end of a capacitor may be `ground` or `nowhere`. A network that is refused is `Range QUANTITY AT NUMBER` or
//! `PadConflict NAME FIRST SECOND`.
use crate::line::{add_number, add_word, begin, end, number_kind, refusal};
use crate::{Printed, RECORD, REFUSED};
use grid_net::{Net, Quantity};
use spice_grid::{End, Named, NetRefusal, SpiceKind, read_netlist};
use std::alloc::{AllocError, Global};

/// A line of its first word and numbers.
fn add_line(out: &mut Vec<u8>, first: &[u8], numbers: &[i128]) -> Result<(), AllocError> {
    begin(out, first)?;
    for number in numbers {
        add_number(out, *number)?;
    }
    end(out)
}

fn add_names(out: &mut Vec<u8>, named: &Named) -> Result<(), AllocError> {
    for name in named.names.as_slice() {
        begin(out, b"node")?;
        add_word(out, name.bytes())?;
        end(out)?;
    }
    Ok(())
}

fn add_resistors(out: &mut Vec<u8>, net: &Net) -> Result<(), AllocError> {
    for resistor in net.resistors() {
        let (a, b) = (i128::from(resistor.a), i128::from(resistor.b));
        add_line(out, b"resistor", &[a, b, resistor.ohms])?;
    }
    Ok(())
}

fn add_pads(out: &mut Vec<u8>, net: &Net) -> Result<(), AllocError> {
    for pad in net.pads() {
        add_line(out, b"pad", &[i128::from(pad.node), pad.volts])?;
    }
    Ok(())
}

fn add_loads(out: &mut Vec<u8>, net: &Net) -> Result<(), AllocError> {
    for node in 0..net.nodes() {
        let (low, high) = net.load(node);
        add_line(
            out,
            b"load",
            &[i128::from(node), i128::from(low), i128::from(high)],
        )?;
    }
    Ok(())
}

fn add_shorts(out: &mut Vec<u8>, named: &Named) -> Result<(), AllocError> {
    for short in named.shorts.as_slice() {
        add_line(out, b"short", &[i128::from(short.0), i128::from(short.1)])?;
    }
    Ok(())
}

fn add_end(out: &mut Vec<u8>, end: End) -> Result<(), AllocError> {
    match end {
        End::Node(node) => add_number(out, i128::from(node)),
        End::Ground => add_word(out, b"ground"),
        End::Nowhere => add_word(out, b"nowhere"),
    }
}

fn add_caps(out: &mut Vec<u8>, named: &Named) -> Result<(), AllocError> {
    for cap in named.caps.as_slice() {
        begin(out, b"cap")?;
        add_end(out, cap.a)?;
        add_end(out, cap.b)?;
        add_number(out, cap.farads)?;
        end(out)?;
    }
    Ok(())
}

fn record(alloc: Global, named: &Named) -> Result<Vec<u8>, AllocError> {
    let mut out = Vec::new(alloc);
    add_names(&mut out, named)?;
    add_resistors(&mut out, &named.net)?;
    add_pads(&mut out, &named.net)?;
    add_loads(&mut out, &named.net)?;
    add_shorts(&mut out, named)?;
    add_caps(&mut out, named)?;
    Ok(out)
}

fn quantity_text(quantity: Quantity) -> &'static [u8] {
    match quantity {
        Quantity::Nodes => b"Nodes",
        Quantity::Resistors => b"Resistors",
        Quantity::Resistance => b"Resistance",
        Quantity::Voltage => b"Voltage",
        Quantity::Loads => b"Loads",
    }
}

/// The line of a network that is refused.
fn net_refusal(alloc: Global, refused: &NetRefusal) -> Result<Printed, AllocError> {
    let mut text = Vec::new(alloc);
    match refused {
        NetRefusal::Range {
            quantity,
            at,
            number,
        } => {
            begin(&mut text, b"Range")?;
            add_word(&mut text, quantity_text(*quantity))?;
            add_number(&mut text, i128::from(*at))?;
            add_number(&mut text, *number)?;
        }
        NetRefusal::PadConflict {
            node,
            first,
            second,
        } => {
            begin(&mut text, b"PadConflict")?;
            add_word(&mut text, node.bytes())?;
            add_number(&mut text, *first)?;
            add_number(&mut text, *second)?;
        }
    }
    end(&mut text)?;
    Ok(Printed {
        text,
        status: REFUSED,
    })
}

/// The kind of a word that is refused, as it is printed. What is no kind of a word is None.
fn kind_text(kind: &SpiceKind) -> Option<&'static [u8]> {
    match kind {
        SpiceKind::Syntax => Some(b"Syntax"),
        SpiceKind::OutOfProfileCard => Some(b"OutOfProfileCard"),
        SpiceKind::FloatingSource => Some(b"FloatingSource"),
        SpiceKind::Number(error) => Some(number_kind(*error)),
        SpiceKind::OutOfRange => Some(b"OutOfRange"),
        SpiceKind::Net(_) | SpiceKind::Want => None,
    }
}

/// What is printed of a netlist.
pub(crate) fn told(alloc: Global, text: &[u8]) -> Result<Printed, AllocError> {
    let error = match read_netlist(alloc, text) {
        Ok(named) => {
            return Ok(Printed {
                text: record(alloc, &named)?,
                status: RECORD,
            });
        }
        Err(error) => error,
    };
    if let SpiceKind::Net(refused) = &error.kind {
        return net_refusal(alloc, refused);
    }
    refusal(alloc, error.place, kind_text(&error.kind))
}
