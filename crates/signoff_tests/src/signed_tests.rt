//! Runs of `signoff` on the small design with a grid that is wired, over files and a sink in memory, of which
//! calls fail. What other wiring is answered is told by cases.
use crate::build_texts::{BIAS, NETLIST, REPORT};
use crate::runs::ran;
use crate::same::same;
use grid_gen::{CELLS, TECHNOLOGY};
use grid_net::Fixed;
use outside::{MemFiles, Name};
use small_design::{DESIGN, WRITTEN};
use std::alloc::Global;
use std::process::Abort;

/// The words of `signoff`, with bars between them.
const WORDS: &str =
    "signoff|--lef|lef|--cells|cells|--def|def|--wires|wires|--bias|bias|--netlist|net|--certificate|cert|--report|rep";

/// The outputs, in the order in which they are written.
static OUTPUTS: [&str; 3] = ["net", "cert", "rep"];

/// How the line of the small design begins.
const SIGNED: &[u8] =
    b"signed 4 pieces 2 stacks 12 nodes 10 resistors 2 pads 10 safe 0 unsafe 0 open 2 unlimited ";

/// A file with this name and these bytes.
fn file(rt: &impl Abort, alloc: Global, name: &[u8], bytes: &[u8]) -> (Name, Vec<u8>) {
    let name = Name::new(alloc, name).expect(rt, "memory");
    (name, Vec::from_slice(alloc, bytes).expect(rt, "memory"))
}

/// The inputs of the small design, whose wiring `build` wrote.
fn held(rt: &impl Abort, alloc: Global) -> Vec<(Name, Vec<u8>)> {
    let lef = file(rt, alloc, b"lef", TECHNOLOGY);
    let cells = file(rt, alloc, b"cells", CELLS);
    let def = file(rt, alloc, b"def", DESIGN);
    let wires = file(rt, alloc, b"wires", WRITTEN);
    let bias = file(rt, alloc, b"bias", BIAS);
    vec![in alloc; lef, cells, def, wires, bias].expect(rt, "memory")
}

/// The inputs in memory, of which this call on the named file fails.
fn files(rt: &impl Abort, alloc: Global, failing: (&str, u64)) -> MemFiles {
    let name = Name::new(alloc, failing.0.as_bytes()).expect(rt, "memory");
    let failing = vec![in alloc; (name, failing.1)].expect(rt, "memory");
    MemFiles::new(alloc, held(rt, alloc), failing).expect(rt, "memory")
}

/// What a run with these words answers and how its line begins. The solver proposes nothing.
fn ends(
    rt: &(impl Abort + AllocGlobal),
    words: &str,
    files: &mut MemFiles,
    status: u8,
    line: &[u8],
) {
    let alloc = rt.alloc();
    let mut solver = Fixed::new(Vec::new(alloc), Vec::new(alloc));
    let (found, out) = ran(alloc, words, files, 0, &mut solver).expect(rt, "memory");
    same(rt, found, status);
    assert!(rt; out.bytes().starts_with(line), "the line");
    assert!(rt; files.bytes("wires") == Some(WRITTEN), "the wiring stays");
}

/// The grid that `build` writes is signed off with the same netlist and report; `check` accepts the certificate.
#[test]
fn the_grid_of_build(rt: HostRuntime) {
    let mut files = files(&rt, rt.alloc(), ("", 0));
    ends(&rt, WORDS, &mut files, 0, SIGNED);
    assert!(rt; files.bytes("net") == Some(NETLIST), "the netlist");
    assert!(rt; files.bytes("rep") == Some(REPORT), "the report");
    let check = "check|--netlist|net|--certificate|cert";
    ends(&rt, check, &mut files, 0, b"certified 12 nodes\n");
}

static INPUTS: [(&str, &[u8]); 5] = [
    ("lef", b"pdn: ReadFault lef\n"),
    ("cells", b"pdn: ReadFault cells\n"),
    ("def", b"pdn: ReadFault def\n"),
    ("wires", b"pdn: ReadFault wires\n"),
    ("bias", b"pdn: ReadFault bias\n"),
];

/// An input that cannot be read: nothing is made.
#[test]
fn a_fault_of_each_input(rt: HostRuntime) {
    for (name, line) in &INPUTS {
        let mut files = files(&rt, rt.alloc(), (*name, 1));
        ends(&rt, WORDS, &mut files, 3, line);
        for file in &OUTPUTS {
            assert!(rt; files.bytes(file).is_none(), "nothing is made");
        }
    }
}

/// An output that cannot be made: those before it are whole.
#[test]
fn a_fault_of_an_output(rt: HostRuntime) {
    let mut files = files(&rt, rt.alloc(), ("cert", 1));
    ends(&rt, WORDS, &mut files, 3, b"pdn: WriteFault cert\n");
    assert!(rt; files.bytes("net") == Some(NETLIST), "the netlist is whole");
    assert!(rt;
        files.bytes("cert").is_none(),
        "the certificate is not made"
    );
    assert!(rt; files.bytes("rep").is_none(), "the report is not made");
}
