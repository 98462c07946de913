//! Runs of `solve` over files and a sink in memory, of which calls fail, with a solver that tells its lists. What other netlists
//! are answered is told by cases.
use crate::runs::ran;
use crate::same::same;
use grid_net::Fixed;
use outside::{MemFiles, Name};
use std::alloc::Global;
use std::process::Abort;

/// One ohm from a pad of 1 V to a node that draws 1 mA.
const NETLIST: &[u8] = b"R1 p n 1\nV1 p 0 1\nI1 n 0 1m\n.end\n";

/// The certificate that the solver tells, which is tight.
const CERTIFICATE: &[u8] =
    b"pdn certificate 1\nn 999000000000101000000000 998999999999899000000000\np 1000000000000000000000000 1000000000000000000000000\nend\n";

/// Its report.
const REPORT: &[u8] =
    b"pdn report 1\nnode n 0.998999999 0.999000001\nnode p 1.000000000 1.000000000\nbranch R1 p n 0.000999999 0.001000001 none NOLIMIT\nend\n";

/// The line of a netlist that is solved with it.
const SOLVED: &[u8] = b"solved 2 nodes 1 resistors 0 sweeps\n";

const VOLT: i128 = 1_000_000_000_000_000_000_000_000;

/// The voltages of the node in the certificate.
const HIGH: i128 = 999_000_000_000_101_000_000_000;

const LOW: i128 = 998_999_999_999_899_000_000_000;

/// The words of `solve` over the files `net`, `cert` and `report`, with bars between them.
const WORDS: &str = "solve|--netlist|net|--certificate|cert|--report|report";

/// A solver that tells these two voltages for the node n, and those of the pad p.
fn solver(rt: &impl Abort, alloc: Global, high: i128, low: i128) -> Fixed {
    let high = vec![in alloc; high, VOLT].expect(rt, "memory");
    let low = vec![in alloc; low, VOLT].expect(rt, "memory");
    Fixed::new(high, low)
}

/// What a run with these words answers and prints over this netlist, and what the two outputs hold then, where this call on
/// the named file and this call on the sink fail.
#[derive(Clone, Copy)]
struct Row<'a> {
    words: &'a str,
    netlist: &'a [u8],
    failing: (&'a str, u64),
    failing_write: u64,
    status: u8,
    line: &'a [u8],
    certificate: Option<&'a [u8]>,
    report: Option<&'a [u8]>,
}

/// The netlist in memory, of which this call on the named file fails.
fn files(rt: &impl Abort, alloc: Global, netlist: &[u8], failing: (&str, u64)) -> MemFiles {
    let name = Name::new(alloc, b"net").expect(rt, "memory");
    let text = Vec::from_slice(alloc, netlist).expect(rt, "memory");
    let held = vec![in alloc; (name, text)].expect(rt, "memory");
    let name = Name::new(alloc, failing.0.as_bytes()).expect(rt, "memory");
    let failing = vec![in alloc; (name, failing.1)].expect(rt, "memory");
    MemFiles::new(alloc, held, failing).expect(rt, "memory")
}

/// What the files of a run hold.
fn compare_files(rt: &impl Abort, files: &MemFiles, row: &Row<'_>) {
    assert!(rt;
        files.bytes("net") == Some(row.netlist),
        "the netlist stays"
    );
    assert!(rt; files.bytes("cert") == row.certificate, "the certificate");
    assert!(rt; files.bytes("report") == row.report, "the report");
}

fn holds(rt: &(impl Abort + AllocGlobal), row: &Row<'_>) {
    let alloc = rt.alloc();
    let mut files = files(rt, alloc, row.netlist, row.failing);
    let mut solver = solver(rt, alloc, HIGH, LOW);
    let (found, out) = ran(alloc, row.words, &mut files, row.failing_write, &mut solver).expect(
        rt, "memory",
    );
    same(rt, found, row.status);
    same(rt, out.bytes(), row.line);
    compare_files(rt, &files, row);
}

/// A run over the first netlist in which no call fails.
static FIRST: Row<'static> = Row {
    words: WORDS,
    netlist: NETLIST,
    failing: ("", 0),
    failing_write: 0,
    status: 0,
    line: SOLVED,
    certificate: Some(CERTIFICATE),
    report: Some(REPORT),
};

#[test]
fn one_resistor_solved(rt: HostRuntime) {
    holds(&rt, &FIRST);
}

/// A call on the named file that fails, and what is printed and held then.
type Fault = (
    &'static str,
    u64,
    &'static [u8],
    Option<&'static [u8]>,
    Option<&'static [u8]>,
);

/// The netlist cannot be read. An output cannot be made, or its text not be written: the earlier one is whole, and the later
/// one is not made.
static FAULTS: [Fault; 6] = [
    ("net", 1, b"pdn: ReadFault net\n", None, None),
    ("net", 2, b"pdn: ReadFault net\n", None, None),
    ("cert", 1, b"pdn: WriteFault cert\n", None, None),
    ("cert", 2, b"pdn: WriteFault cert\n", Some(b""), None),
    (
        "report",
        1,
        b"pdn: WriteFault report\n",
        Some(CERTIFICATE),
        None,
    ),
    (
        "report",
        2,
        b"pdn: WriteFault report\n",
        Some(CERTIFICATE),
        Some(b""),
    ),
];

#[test]
fn faults_of_files(rt: HostRuntime) {
    for (name, call, line, certificate, report) in &FAULTS {
        let row = Row {
            failing: (*name, *call),
            status: 3,
            line: *line,
            certificate: *certificate,
            report: *report,
            ..FIRST
        };
        holds(&rt, &row);
    }
}

/// The line cannot be written: both outputs are whole.
#[test]
fn a_fault_of_the_line(rt: HostRuntime) {
    let row = Row {
        failing_write: 1,
        status: 3,
        line: b"",
        ..FIRST
    };
    holds(&rt, &row);
}

/// Words, a netlist, the file whose first call fails, what is answered, and what is printed.
type Causes = (&'static str, &'static [u8], &'static str, u8, &'static [u8]);

/// The words are no command, and the netlist cannot be read; the netlist cannot be read, and its text is refused; its text is
/// refused, and an output cannot be made; a node has no supply, and an output cannot be made.
static CAUSES: [Causes; 4] = [
    (
        "solve|--netlist|net|--certificate|cert|--report|cert",
        NETLIST,
        "net",
        2,
        b"pdn: Usage\n",
    ),
    (WORDS, b"R1\n", "net", 3, b"pdn: ReadFault net\n"),
    (WORDS, b"R1 a\n", "cert", 4, b"pdn: net:2:1: Syntax\n"),
    (
        WORDS,
        b"R1 a b 1\n.end\n",
        "cert",
        7,
        b"pdn: Unsupplied a\n",
    ),
];

/// Of two causes at once the one is answered that comes first in the order of the work, and nothing is written.
#[test]
fn earlier_causes_come_first(rt: HostRuntime) {
    for (words, netlist, name, status, line) in &CAUSES {
        let row = Row {
            words: *words,
            netlist: *netlist,
            failing: (*name, 1),
            failing_write: 0,
            status: *status,
            line: *line,
            certificate: None,
            report: None,
        };
        holds(&rt, &row);
    }
}

/// The certificate that was written is accepted by `check`.
fn is_certified(rt: &(impl Abort + AllocGlobal), files: &mut MemFiles, solver: &mut Fixed) {
    let words = "check|--netlist|net|--certificate|cert";
    let (found, out) = ran(rt.alloc(), words, files, 0, solver).expect(rt, "memory");
    same(rt, found, 0);
    same(rt, out.bytes(), b"certified 2 nodes\n".as_slice());
}

/// What is written for a solver that writes far from the solution is certified too.
#[test]
fn a_bad_proposal_is_solved(rt: HostRuntime) {
    let alloc = rt.alloc();
    let mut files = files(&rt, alloc, NETLIST, ("", 0));
    let mut solver = solver(&rt, alloc, i128::MIN, i128::MAX);
    let (found, _) = ran(alloc, WORDS, &mut files, 0, &mut solver).expect(&rt, "memory");
    same(&rt, found, 0);
    assert!(rt;
        files.bytes("report") == Some(REPORT),
        "the tightness allows no other digits"
    );
    is_certified(&rt, &mut files, &mut solver);
}
