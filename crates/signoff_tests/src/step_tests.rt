//! Runs of `step` over files and a sink in memory, of which calls fail. What other texts are answered is told by cases.
use crate::runs::ran;
use crate::same::same;
use grid_net::hostile::Everywhere;
use outside::{MemFiles, Name};
use std::alloc::Global;
use std::process::Abort;

/// One ohm from a pad of 1 V to a node that draws 1 mA, with a capacitor of 1 nF.
const NETLIST: &[u8] = b"R1 p n 1\nV1 p 0 1\nI1 n 0 1m\nC1 n 0 1n\n.end\n";

/// From step 1 on the node draws 2 mA.
const WAVES: &[u8] = b"at 1 n 2m\n";

/// The report of two steps of 1 ns.
const REPORT: &[u8] =
    b"pdn steps 1\nstep 0\nnode n 0.998999999 0.999000001\nnode p 1.000000000 1.000000000\nstep 1\nnode n 0.998499999 0.998500001\nnode p 1.000000000 1.000000000\nstep 2\nnode n 0.998249999 0.998250001\nnode p 1.000000000 1.000000000\nend\n";

const STEPPED: &[u8] = b"stepped 2 nodes 2 steps\n";

/// The words of `step` with this length of a step, with bars between them.
const WORDS: &str =
    "step|--netlist|net|--waves|waves|--time|1n|--steps|2|--certificate|cert|--report|report";

/// A run of `step`: its words, its two inputs, the call that fails on the named file and on the sink; what it answers and
/// prints, whether the certificate was made, and what the report holds then.
#[derive(Clone, Copy)]
struct Row<'a> {
    words: &'a str,
    netlist: &'a [u8],
    waves: &'a [u8],
    failing: (&'a str, u64),
    failing_write: u64,
    status: u8,
    line: &'a [u8],
    certified: bool,
    report: Option<&'a [u8]>,
}

/// A run over the first netlist and its waves in which no call fails.
static FIRST: Row<'static> = Row {
    words: WORDS,
    netlist: NETLIST,
    waves: WAVES,
    failing: ("", 0),
    failing_write: 0,
    status: 0,
    line: STEPPED,
    certified: true,
    report: Some(REPORT),
};

/// A file with this name and these bytes.
fn file(rt: &impl Abort, alloc: Global, name: &[u8], bytes: &[u8]) -> (Name, Vec<u8>) {
    let name = Name::new(alloc, name).expect(rt, "memory");
    (name, Vec::from_slice(alloc, bytes).expect(rt, "memory"))
}

/// The two inputs in memory, of which the named call fails.
fn files(rt: &impl Abort, alloc: Global, row: &Row<'_>) -> MemFiles {
    let net = file(rt, alloc, b"net", row.netlist);
    let waves = file(rt, alloc, b"waves", row.waves);
    let held = vec![in alloc; net, waves].expect(rt, "memory");
    let name = Name::new(alloc, row.failing.0.as_bytes()).expect(rt, "memory");
    let failing = vec![in alloc; (name, row.failing.1)].expect(rt, "memory");
    MemFiles::new(alloc, held, failing).expect(rt, "memory")
}

/// What the files of a run hold.
fn compare_files(rt: &impl Abort, files: &MemFiles, row: &Row<'_>) {
    assert!(rt;
        files.bytes("net") == Some(row.netlist),
        "the netlist stays"
    );
    assert!(rt; files.bytes("waves") == Some(row.waves), "the waves stay");
    assert!(rt;
        files.bytes("cert").is_some() == row.certified,
        "the certificate"
    );
    assert!(rt; files.bytes("report") == row.report, "the report");
}

fn holds(rt: &(impl Abort + AllocGlobal), row: &Row<'_>) {
    let alloc = rt.alloc();
    let mut files = files(rt, alloc, row);
    let mut solver = Everywhere::new(0);
    let (found, out) = ran(alloc, row.words, &mut files, row.failing_write, &mut solver).expect(
        rt, "memory",
    );
    same(rt, out.bytes(), row.line);
    same(rt, found, row.status);
    compare_files(rt, &files, row);
}

/// A load that rises: the node falls by half of what is left at each step, since the capacitor is 1 ohm over a step.
#[test]
fn a_load_that_rises(rt: HostRuntime) {
    holds(&rt, &FIRST);
}

/// The certificate begins each step with its line and the first line of a certificate.
#[test]
fn a_certificate_for_each_step(rt: HostRuntime) {
    let alloc = rt.alloc();
    let mut files = files(&rt, alloc, &FIRST);
    let mut solver = Everywhere::new(0);
    let (status, _) = ran(alloc, WORDS, &mut files, 0, &mut solver).expect(&rt, "memory");
    same(&rt, status, 0);
    let text = files.bytes("cert").unwrap_or(b"".as_slice());
    assert!(rt;
        text.starts_with(b"step 0\npdn certificate 1\nn 99900000"),
        "the first step"
    );
    assert!(rt;
        text.ends_with(b"p 1000000000000000000000000 1000000000000000000000000\nend\n"),
        "the last"
    );
}

/// A call on the named file and one on the sink that fail, what is printed, whether the certificate was made, and what the report
/// holds then.
type Fault = (
    &'static str,
    u64,
    u64,
    &'static [u8],
    bool,
    Option<&'static [u8]>,
);

/// An input cannot be read. An output cannot be made, or its text not be written: the earlier one is whole, and the later one is
/// not made. The line cannot be written.
static FAULTS: [Fault; 6] = [
    ("net", 1, 0, b"pdn: ReadFault net\n", false, None),
    ("waves", 1, 0, b"pdn: ReadFault waves\n", false, None),
    ("cert", 1, 0, b"pdn: WriteFault cert\n", false, None),
    ("report", 1, 0, b"pdn: WriteFault report\n", true, None),
    ("report", 2, 0, b"pdn: WriteFault report\n", true, Some(b"")),
    ("", 0, 1, b"", true, Some(REPORT)),
];

#[test]
fn faults(rt: HostRuntime) {
    for (name, call, failing_write, line, certified, report) in &FAULTS {
        let row = Row {
            failing: (*name, *call),
            failing_write: *failing_write,
            status: 3,
            line: *line,
            certified: *certified,
            report: *report,
            ..FIRST
        };
        holds(&rt, &row);
    }
}

/// The words are no command, and the netlist cannot be read.
static WORDS_FIRST: Row<'static> = Row {
    words: "step|--netlist|net|--waves|waves|--time|1n|--steps|2|--certificate|cert|--report|cert",
    netlist: NETLIST,
    waves: WAVES,
    failing: ("net", 1),
    failing_write: 0,
    status: 2,
    line: b"pdn: Usage\n",
    certified: false,
    report: None,
};

/// The waves cannot be read, and the text of the netlist is refused.
static WAVES_FIRST: Row<'static> = Row {
    words: WORDS,
    netlist: b"R1\n",
    waves: WAVES,
    failing: ("waves", 1),
    failing_write: 0,
    status: 3,
    line: b"pdn: ReadFault waves\n",
    certified: false,
    report: None,
};

/// Of two causes at once the one is answered that comes first in the order of the work.
#[test]
fn earlier_causes_come_first(rt: HostRuntime) {
    holds(&rt, &WORDS_FIRST);
    holds(&rt, &WAVES_FIRST);
}
