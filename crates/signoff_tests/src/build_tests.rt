//! Runs of `build` on the small design, over files and a sink in memory, of which calls fail, and with solvers that lie. What other
//! texts are answered is told by cases.
use crate::build_texts::{BIAS, NETLIST, REPORT, SCRIPT};
use crate::runs::ran;
use crate::same::same;
use grid_gen::{CELLS, TECHNOLOGY};
use grid_net::hostile::{Alternating, Everywhere, Filling};
use grid_net::{Fixed, Solver};
use outside::{MemFiles, Name};
use small_design::{DESIGN, WRITTEN};
use std::alloc::Global;
use std::process::Abort;

/// The words of `build`, with bars between them.
const WORDS: &str =
    "build|--lef|lef|--cells|cells|--def|def|--pdn|pdn|--bias|bias|--out-def|out|--netlist|net|--certificate|cert|--report|rep";

/// The outputs, in the order in which they are written.
static OUTPUTS: [&str; 4] = ["out", "net", "cert", "rep"];

/// How the line of the small design begins.
const BUILT: &[u8] =
    b"built 4 pieces 2 stacks 12 nodes 10 resistors 2 pads 10 safe 0 unsafe 0 open 2 unlimited ";

/// A file with this name and these bytes.
fn file(rt: &impl Abort, alloc: Global, name: &[u8], bytes: &[u8]) -> (Name, Vec<u8>) {
    let name = Name::new(alloc, name).expect(rt, "memory");
    (name, Vec::from_slice(alloc, bytes).expect(rt, "memory"))
}

/// The inputs of the small design.
fn held(rt: &impl Abort, alloc: Global) -> Vec<(Name, Vec<u8>)> {
    let lef = file(rt, alloc, b"lef", TECHNOLOGY);
    let cells = file(rt, alloc, b"cells", CELLS);
    let def = file(rt, alloc, b"def", DESIGN);
    let pdn = file(rt, alloc, b"pdn", SCRIPT);
    let bias = file(rt, alloc, b"bias", BIAS);
    vec![in alloc; lef, cells, def, pdn, bias].expect(rt, "memory")
}

/// The inputs in memory, of which this call on the named file fails.
fn files(rt: &impl Abort, alloc: Global, failing: (&str, u64)) -> MemFiles {
    let name = Name::new(alloc, failing.0.as_bytes()).expect(rt, "memory");
    let failing = vec![in alloc; (name, failing.1)].expect(rt, "memory");
    MemFiles::new(alloc, held(rt, alloc), failing).expect(rt, "memory")
}

/// What a run with this solver answers and how its line begins, where this call on the named file and this call on the sink
/// fail; and the files after it.
fn solved<V: Solver>(
    rt: &(impl Abort + AllocGlobal),
    failing: (&str, u64),
    failing_write: u64,
    solver: &mut V,
    status: u8,
    line: &[u8],
) -> MemFiles {
    let mut files = files(rt, rt.alloc(), failing);
    let (found, out) = ran(rt.alloc(), WORDS, &mut files, failing_write, solver).expect(
        rt, "memory",
    );
    same(rt, found, status);
    assert!(rt; out.bytes().starts_with(line), "the line");
    assert!(rt; files.bytes("def") == Some(DESIGN), "the design stays");
    files
}

/// The same with a solver that proposes nothing, where no call on the sink fails.
fn ends(
    rt: &(impl Abort + AllocGlobal),
    failing: (&str, u64),
    status: u8,
    line: &[u8],
) -> MemFiles {
    let alloc = rt.alloc();
    let mut solver = Fixed::new(Vec::new(alloc), Vec::new(alloc));
    solved(rt, failing, 0, &mut solver, status, line)
}

/// A run that ends before anything is written.
fn refused(rt: &(impl Abort + AllocGlobal), failing: (&str, u64), status: u8, line: &[u8]) {
    let files = ends(rt, failing, status, line);
    for file in &OUTPUTS {
        assert!(rt; files.bytes(file).is_none(), "nothing is made");
    }
}

/// What the small design's DEF, netlist and report are.
fn are_those(rt: &impl Abort, files: &MemFiles) {
    assert!(rt; files.bytes("out") == Some(WRITTEN), "the DEF");
    assert!(rt; files.bytes("net") == Some(NETLIST), "the netlist");
    assert!(rt; files.bytes("rep") == Some(REPORT), "the report");
}

/// The certificate that was written is accepted by `check`.
fn is_certified(rt: &(impl Abort + AllocGlobal), files: &mut MemFiles) {
    let alloc = rt.alloc();
    let words = "check|--netlist|net|--certificate|cert";
    let mut solver = Fixed::new(Vec::new(alloc), Vec::new(alloc));
    let (found, out) = ran(alloc, words, files, 0, &mut solver).expect(rt, "memory");
    same(rt, found, 0);
    same(rt, out.bytes(), b"certified 12 nodes\n".as_slice());
}

/// The four texts and the line; the certificate's digits are free, and `check` accepts them.
#[test]
fn small_design(rt: HostRuntime) {
    let mut files = ends(&rt, ("", 0), 0, BUILT);
    are_those(&rt, &files);
    is_certified(&rt, &mut files);
}

/// The four texts of the small design, with this solver.
fn built_with<V: Solver>(rt: &(impl Abort + AllocGlobal), solver: &mut V) {
    are_those(rt, &solved(rt, ("", 0), 0, solver, 0, BUILT));
}

/// Whatever a solver proposes, the same is written: the tightness leaves the printed digits no room.
#[test]
fn hostile_solvers(rt: HostRuntime) {
    built_with(&rt, &mut Everywhere::new(i128::MIN));
    built_with(&rt, &mut Everywhere::new(i128::MAX));
    built_with(&rt, &mut Alternating::new());
    built_with(&rt, &mut Filling::new());
}

static INPUTS: [(&str, &[u8]); 5] = [
    ("lef", b"pdn: ReadFault lef\n"),
    ("cells", b"pdn: ReadFault cells\n"),
    ("def", b"pdn: ReadFault def\n"),
    ("pdn", b"pdn: ReadFault pdn\n"),
    ("bias", b"pdn: ReadFault bias\n"),
];

/// An input that cannot be read: nothing is made.
#[test]
fn a_fault_of_each_input(rt: HostRuntime) {
    for (name, line) in &INPUTS {
        refused(&rt, (*name, 1), 3, line);
        refused(&rt, (*name, 2), 3, line);
    }
}

/// What an output is after a run that stopped at this one: whole before it, and not made behind it. It is itself not made, or
/// made and empty.
fn wanted<'a>(whole: &'a MemFiles, file: usize, stopped: usize, call: u64) -> Option<&'a [u8]> {
    if file < stopped {
        return OUTPUTS.get(file).and_then(|name| whole.bytes(name));
    }
    (file == stopped && call == 2).then_some(b"".as_slice())
}

/// The outputs after a run in which this call on the output with this number fails.
fn stops_at(
    rt: &(impl Abort + AllocGlobal),
    whole: &MemFiles,
    stopped: usize,
    call: u64,
    line: &[u8],
) {
    let name = OUTPUTS.get(stopped).copied().unwrap_or("");
    let files = ends(rt, (name, call), 3, line);
    for (number, file) in OUTPUTS.iter().enumerate() {
        let found = files.bytes(file);
        assert!(rt; found == wanted(whole, number, stopped, call), "{file}");
    }
}

static UNWRITTEN: [&[u8]; 4] = [
    b"pdn: WriteFault out\n",
    b"pdn: WriteFault net\n",
    b"pdn: WriteFault cert\n",
    b"pdn: WriteFault rep\n",
];

/// An output that cannot be made, or whose text cannot be written.
#[test]
fn a_fault_of_each_output(rt: HostRuntime) {
    let whole = ends(&rt, ("", 0), 0, BUILT);
    for (number, line) in UNWRITTEN.iter().enumerate() {
        stops_at(&rt, &whole, number, 1, line);
        stops_at(&rt, &whole, number, 2, line);
    }
}

/// The line cannot be written: all outputs are whole.
#[test]
fn a_fault_of_the_line(rt: HostRuntime) {
    let alloc = rt.alloc();
    let mut solver = Fixed::new(Vec::new(alloc), Vec::new(alloc));
    let files = solved(&rt, ("", 0), 1, &mut solver, 3, b"");
    are_those(&rt, &files);
    assert!(rt; files.bytes("cert").is_some(), "the certificate");
}
