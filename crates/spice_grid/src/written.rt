//! A network written as a netlist.
ghost use Rattle.std.specs.Prelude.{◌≡◌, ◌+◌, ◌≤◌, ◌<◌, ◌++◌, [], ◌∷◌, length, codes, decimal, All, IfOk, OnOk};
ghost use Rattle.std.specs.List.{flat_map, enumerate_from};
ghost use Rattle.fixed_decimal.specs.Printed.{printed};
ghost use Rattle.grid_net.specs.Network.{load_range};
ghost use Rattle.spice_grid.specs.Named.{ground};
ghost use Rattle.spice_grid.specs.Written.{note_line, resistor_line, pad_line, load_lines, range_line, numbered_card, card_end, draws, drawing_loads, written_netlist};
ghost use Rattle.spice_grid.specs.inside.Written.{card_head};

use fixed_decimal::print;
use grid_net::{LoadRange, Net, Note, Pad, Resistor};
use itoa::Buffer;
use outside::Name;
use std::alloc::{AllocError, Global};

/// The text of a network as a netlist, with the names of its nodes and the comments of their layers.
///
/// Resistors stand in their order, pads and loads in the order of nodes. A load whose two ends differ has its end of
/// greater magnitude on its card, and both ends on the `*range` line after it. One buffer grows with the text.
/// Error: want of memory.
pub fn netlist_text(
    alloc: Global,
    net: &Net,
    names: &[Name],
    notes: &[Note],
) -> Result<Vec<u8>, AllocError>
    requires { length names.now ≡ net.now.nodes }
    ensures { IfOk result (λ text. text.items ≡ written_netlist net.now names.now notes.now) }
{
    let _nodes = net.nodes();
    let mut out = Vec::new(alloc);
    out.extend_from_slice(b"* pdn netlist 1\n")?;
    append_notes(&mut out, notes)?;
    append_resistors(&mut out, net.resistors(), names)?;
    append_pads(&mut out, net.pads(), names)?;
    append_loads(&mut out, net, names)?;
    out.extend_from_slice(b".op\n.end\n")?;
    Ok(out)
}

// The comments of the layers.
fn append_notes(out: &mut Vec<u8>, notes: &[Note]) -> Result<(), AllocError>
    ensures { OnOk result (out.new.items ≡ out.old.items ++ flat_map note_line notes.now) }
{
    for note in notes {
        append_note(out, note)?;
    }
    Ok(())
}

// The comment of a layer.
fn append_note(out: &mut Vec<u8>, note: &Note) -> Result<(), AllocError>
    ensures { OnOk result (out.new.items ≡ out.old.items ++ note_line note.now) }
{
    out.extend_from_slice(b"* layer: ")?;
    out.extend_from_slice(note.layer.bytes())?;
    out.push(b',')?;
    out.extend_from_slice(note.net.bytes())?;
    out.extend_from_slice(b" net: ")?;
    append_count(out, note.number)?;
    out.push(b'\n')?;
    Ok(())
}

// The cards of the resistors.
fn append_resistors(
    out: &mut Vec<u8>,
    resistors: &[Resistor],
    names: &[Name],
) -> Result<(), AllocError>
    requires ends { All (λ r. (r.a < length names.now) × (r.b < length names.now)) resistors.now }
    ensures { OnOk result (out.new.items
        ≡ out.old.items ++ flat_map (resistor_line names.now) (enumerate_from 1 resistors.now)) }
{
    for (place, resistor) in resistors.iter().enumerate() {
        let from = names[resistor.a as usize].bytes();
        let to = names[resistor.b as usize].bytes();
        append_head(out, b'R', place as u64 + 1, from, to)?;
        append_value(out, resistor.ohms, 9)?;
    }
    Ok(())
}

// The cards of the pads.
fn append_pads(out: &mut Vec<u8>, pads: &[Pad], names: &[Name]) -> Result<(), AllocError>
    requires { All (λ p. p.node < length names.now) pads.now }
    ensures { OnOk result (out.new.items
        ≡ out.old.items ++ flat_map (pad_line names.now) (enumerate_from 1 pads.now)) }
{
    for (place, pad) in pads.iter().enumerate() {
        let name = names[pad.node as usize].bytes();
        append_head(out, b'V', place as u64 + 1, name, b"0")?;
        append_value(out, pad.volts, 24)?;
    }
    Ok(())
}

// The cards of the loads that are not 0.
fn append_loads(out: &mut Vec<u8>, net: &Net, names: &[Name]) -> Result<(), AllocError>
    requires { length names.now ≡ net.now.nodes }
    ensures { OnOk result (out.new.items
        ≡ out.old.items ++ flat_map (load_lines names.now) (enumerate_from 1 (drawing_loads net.now))) }
{
    let mut number: u64 = 0;
    for node in 0..net.nodes() {
        let load = load_at(net, node);
        if is_drawing(load) {
            number += 1;
            append_load(out, number, names[node as usize].bytes(), load)?;
        }
    }
    Ok(())
}

// The load of a node.
fn load_at(net: &Net, node: u32) -> LoadRange
    requires { node < net.now.nodes }
    ensures { result ≡ load_range net.now node }
{
    let (low, high) = net.load(node);
    LoadRange { low, high }
}

// The card of a load, and the line of its range.
fn append_load(
    out: &mut Vec<u8>,
    number: u64,
    name: &[u8],
    load: LoadRange,
) -> Result<(), AllocError>
    ensures { OnOk result (out.new.items ≡ out.old.items ++ (numbered_card 73 number name.now ground
        (printed (card_end load) 15) ++ range_line load)) }
{
    append_head(out, b'I', number, name, b"0")?;
    append_value(out, end_on_card(load) as i128, 15)?;
    append_range(out, load)?;
    Ok(())
}

// Whether the two ends of a load are not both 0.
fn is_drawing(load: LoadRange) -> bool
    ensures { result ≡ draws load }
{
    load.low != 0 || load.high != 0
}

// The end that the card of a load has.
fn end_on_card(load: LoadRange) -> i64
    ensures { result ≡ card_end load }
{
    if load.high.unsigned_abs() < load.low.unsigned_abs() {
        load.low
    } else {
        load.high
    }
}

// The line of the range of a load, where its two ends differ.
fn append_range(out: &mut Vec<u8>, load: LoadRange) -> Result<(), AllocError>
    ensures { OnOk result (out.new.items ≡ out.old.items ++ range_line load) }
{
    if load.low == load.high {
        return Ok(());
    }
    out.extend_from_slice(b"*range ")?;
    print(out, load.low as i128, 15)?;
    out.push(b' ')?;
    append_value(out, load.high as i128, 15)?;
    Ok(())
}

// What stands on a card before its value.
fn append_head(
    out: &mut Vec<u8>,
    letter: u8,
    number: u64,
    from: &[u8],
    to: &[u8],
) -> Result<(), AllocError>
    ensures { OnOk result (out.new.items ≡ out.old.items ++ card_head letter number from.now to.now) }
{
    out.push(letter)?;
    append_count(out, number)?;
    out.push(b' ')?;
    out.extend_from_slice(from)?;
    out.push(b' ')?;
    out.extend_from_slice(to)?;
    out.push(b' ')?;
    Ok(())
}

// A value with its places, and the end of the line.
fn append_value(out: &mut Vec<u8>, value: i128, places: u32) -> Result<(), AllocError>
    requires { places ≤ 30 }
    ensures { OnOk result (out.new.items ≡ out.old.items ++ (printed value places ++ 10 ∷ [])) }
{
    print(out, value, places)?;
    out.push(b'\n')?;
    Ok(())
}

// A whole number.
fn append_count(out: &mut Vec<u8>, count: u64) -> Result<(), AllocError>
    ensures { OnOk result (out.new.items ≡ out.old.items ++ decimal count) }
{
    let mut buffer = Buffer::new();
    out.extend_from_slice(buffer.format(count).as_bytes())
}
