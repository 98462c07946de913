//! Networks that are read and written. What each text is read as, and where it is refused, is told by cases of netlists.
use crate::same::same;
use grid_net::{Load, Net, Note, Pad, Resistor};
use outside::Name;
use spice_grid::*;
use std::alloc::Global;
use std::fmt::Write;
use std::process::Abort;

/// The netlist of a small design: two nets on four layers, with one stack each.
const SMALL_DESIGN: &str = "* pdn netlist 1
* layer: metal1,VDD net: 1
* layer: metal2,VDD net: 2
* layer: metal3,VDD net: 3
* layer: metal4,VDD net: 4
* layer: metal1,VSS net: 8
* layer: metal2,VSS net: 9
* layer: metal3,VSS net: 10
* layer: metal4,VSS net: 11
R1 n10_2000_0 n11_2000_0 1.666666667
R2 n10_2000_0 n9_2000_0 1.666666667
R3 n11_2000_0 n11_2000_2800 0.612500000
R4 n1_3800_2800 n1_6000_2800 2.458823529
R5 n1_6000_2800 n2_6000_2800 1.666666667
R6 n2_6000_2800 n3_6000_2800 1.666666667
R7 n3_6000_2800 n4_6000_2800 1.666666667
R8 n4_6000_0 n4_6000_2800 0.612500000
R9 n8_2000_0 n8_3800_0 2.011764706
R10 n8_2000_0 n9_2000_0 1.666666667
V1 n11_2000_2800 0 0.000000000000000000000000
V2 n4_6000_0 0 1.100000000000000000000000
I1 n1_3800_2800 0 0.000333300000000
I2 n8_3800_0 0 -0.000333300000000
.op
.end
";

/// Whether a text is refused at a word.
fn is_refused_at_word(alloc: Global, text: &[u8]) -> bool {
    matches!(
        read_netlist(alloc, text),
        Err(SpiceError {
            kind: SpiceKind::Syntax | SpiceKind::OutOfProfileCard | SpiceKind::Number(_),
            ..
        })
    )
}

// Each beginning of the text that lacks the end of `.end` is refused at a word.
#[test]
fn small_design_cut_at_each_byte(rt: HostRuntime) {
    let text = SMALL_DESIGN.as_bytes();
    for end in 0..text.len().saturating_sub(1) {
        assert!(rt;
            is_refused_at_word(rt.alloc(), &text[..end]),
            "cut at {end}"
        );
    }
}

static LAYERS: [(&[u8], &[u8], u64); 8] = [
    (b"metal1", b"VDD", 1),
    (b"metal2", b"VDD", 2),
    (b"metal3", b"VDD", 3),
    (b"metal4", b"VDD", 4),
    (b"metal1", b"VSS", 8),
    (b"metal2", b"VSS", 9),
    (b"metal3", b"VSS", 10),
    (b"metal4", b"VSS", 11),
];

/// A comment on a layer of a net.
fn note(rt: &impl Abort, alloc: Global, layer: &[u8], net: &[u8], number: u64) -> Note {
    Note {
        layer: Name::new(alloc, layer).expect(rt, "memory"),
        net: Name::new(alloc, net).expect(rt, "memory"),
        number,
    }
}

fn all_notes(rt: &impl Abort, alloc: Global) -> Vec<Note> {
    let mut notes = Vec::new(alloc);
    for (layer, net, number) in &LAYERS {
        let next = note(rt, alloc, layer, net, *number);
        notes.push(next).expect(rt, "memory");
    }
    notes
}

/// The text of what was read, with these notes.
fn written(rt: &impl Abort, alloc: Global, named: &Named, notes: &[Note]) -> Vec<u8> {
    let names = named.names.as_slice();
    assert!(rt; names.len() == named.net.nodes() as usize);
    netlist_text(alloc, &named.net, names, notes).expect(rt, "memory")
}

#[test]
fn small_design_written_again(rt: HostRuntime) {
    let notes = all_notes(&rt, rt.alloc());
    let named = read_netlist(rt.alloc(), SMALL_DESIGN.as_bytes()).expect(&rt, "a netlist");
    let text = written(&rt, rt.alloc(), &named, &notes);
    same(&rt, text.as_slice(), SMALL_DESIGN.as_bytes());
}

/// The next of a row of numbers without a pattern.
fn next(state: &mut u64) -> u64 {
    *state = state
        .wrapping_mul(6364136223846793005)
        .wrapping_add(1442695040888963407);
    *state >> 33
}

/// A card of one of four kinds, without a pattern.
fn add_card(rt: &impl Abort, out: &mut String, seed: &mut u64, card: u32) {
    let a = next(seed) % 40;
    let b = next(seed) % 40;
    let value = next(seed) % 1000 + 1;
    let added = match next(seed) % 4 {
        0 => writeln!(out, "r{card} N{a} n{b} {value}"),
        1 => writeln!(out, "V{card} n{a} 0 {a}m"),
        2 => writeln!(
            out,
            "I{card} n{a} n{b} DC {value}u\n*range -{value}n {value}m"
        ),
        _ => writeln!(out, "R{card} n{a} n{b} {value}n\n* {value}"),
    };
    added.expect(rt, "memory");
}

/// A netlist without shorts whose cards have no pattern.
fn random_text(rt: &impl Abort, alloc: Global, mut seed: u64, cards: u32) -> String {
    let mut out = String::from_str(alloc, "random\n").expect(rt, "memory");
    for card in 0..cards {
        add_card(rt, &mut out, &mut seed, card);
    }
    out.push_str(".end\n").expect(rt, "memory");
    out
}

fn same_names(rt: &impl Abort, a: &Named, b: &Named) {
    let (a, b) = (a.names.as_slice(), b.names.as_slice());
    same(rt, a.len(), b.len());
    for (a, b) in a.iter().zip(b) {
        same(rt, a.bytes(), b.bytes());
    }
}

fn same_resistors(rt: &impl Abort, a: &[Resistor], b: &[Resistor]) {
    same(rt, a.len(), b.len());
    for (a, b) in a.iter().zip(b) {
        same(rt, (a.a, a.b, a.ohms), (b.a, b.b, b.ohms));
    }
}

fn same_pads(rt: &impl Abort, a: &[Pad], b: &[Pad]) {
    same(rt, a.len(), b.len());
    for (a, b) in a.iter().zip(b) {
        same(rt, (a.node, a.volts), (b.node, b.volts));
    }
}

fn same_loads(rt: &impl Abort, a: &Net, b: &Net) {
    let nodes = a.nodes();
    assert!(rt; nodes == b.nodes());
    for node in 0..nodes {
        same(rt, a.load(node), b.load(node));
    }
}

// Two texts give one record: the second is the first, written.
fn same_record(rt: &impl Abort, alloc: Global, text: &[u8]) {
    let first = read_netlist(alloc, text).expect(rt, "a netlist");
    let again = written(rt, alloc, &first, &[]);
    let second = read_netlist(alloc, &again).expect(rt, "a written netlist");
    same_names(rt, &first, &second);
    same_resistors(rt, first.net.resistors(), second.net.resistors());
    same_pads(rt, first.net.pads(), second.net.pads());
    same_loads(rt, &first.net, &second.net);
}

#[test]
fn a_written_network_is_read_back(rt: HostRuntime) {
    for seed in 0..20u64 {
        let text = random_text(&rt, rt.alloc(), seed, 200);
        same_record(&rt, rt.alloc(), text.as_bytes());
    }
    same_record(&rt, rt.alloc(), SMALL_DESIGN.as_bytes());
}

const WRITTEN: &[u8] = b"* pdn netlist 1
* layer: metal1,VDD net: 12
R1 b a 1.500000000
V1 b 0 -1.100000000000000000000000
I1 a 0 -0.000000000000005
*range -0.000000000000005 0.000000000000002
.op
.end
";

/// A network of two nodes.
fn two_nodes(rt: &impl Abort, alloc: Global) -> Net {
    let resistor = Resistor {
        a: 1,
        b: 0,
        ohms: 1_500_000_000,
    };
    let pad = Pad {
        node: 1,
        volts: -1_100_000_000_000_000_000_000_000,
    };
    let load = Load {
        node: 0,
        low: -5,
        high: 2,
    };
    let resistors = vec![in alloc; resistor].expect(rt, "memory");
    let pads = vec![in alloc; pad].expect(rt, "memory");
    let loads = vec![in alloc; load].expect(rt, "memory");
    Net::build(alloc, 2, resistors, pads, loads).expect(rt, "a network")
}

/// The names of its nodes.
fn two_names(rt: &impl Abort, alloc: Global) -> Vec<Name> {
    let a = Name::new(alloc, b"a").expect(rt, "memory");
    let b = Name::new(alloc, b"b").expect(rt, "memory");
    vec![in alloc; a, b].expect(rt, "memory")
}

#[test]
fn a_network_as_a_netlist(rt: HostRuntime) {
    let net = two_nodes(&rt, rt.alloc());
    let names = two_names(&rt, rt.alloc());
    assert!(rt; names.len() == net.nodes() as usize);
    let note = note(&rt, rt.alloc(), b"metal1", b"VDD", 12);
    let text = netlist_text(rt.alloc(), &net, &names, &[note]).expect(&rt, "memory");
    same(&rt, text.as_slice(), WRITTEN);
}
