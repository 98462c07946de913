//! Runs of `check` over files and a sink in memory, of which calls fail or never end. What its texts are answered is told by cases.
ghost use Rattle.std.specs.Prelude.{None};
ghost use Rattle.outside.specs.Calls.{counts_of};

use crate::runs::ran;
use crate::same::same;
use grid_net::Fixed;
use outside::{Files, MemFiles, Name, Refusal};
use std::alloc::Global;
use std::process::Abort;

/// One ohm from a pad of 1 V to a node that draws 1 mA.
const NETLIST: &[u8] = b"R1 p n 1\nV1 p 0 1\nI1 n 0 1m\n.end\n";

/// The least strict bounds at the node.
const CERTIFICATE: &[u8] =
    b"pdn certificate 1\nn 999000000000001000000000 998999999999999000000000\np 1000000000000000000000000 1000000000000000000000000\nend\n";

/// The words of `check` over the files `net` and `cert`, with bars between them.
const WORDS: &str = "check|--netlist|net|--certificate|cert";

/// A file with this name and these bytes.
fn file(rt: &impl Abort, alloc: Global, name: &[u8], bytes: &[u8]) -> (Name, Vec<u8>) {
    let name = Name::new(alloc, name).expect(rt, "memory");
    (name, Vec::from_slice(alloc, bytes).expect(rt, "memory"))
}

/// The two files, of which this call on the named one fails.
fn sound_files(rt: &impl Abort, alloc: Global, failing: (&str, u64)) -> MemFiles {
    let net = file(rt, alloc, b"net", NETLIST);
    let cert = file(rt, alloc, b"cert", CERTIFICATE);
    let files = vec![in alloc; net, cert].expect(rt, "memory");
    let name = Name::new(alloc, failing.0.as_bytes()).expect(rt, "memory");
    let failing = vec![in alloc; (name, failing.1)].expect(rt, "memory");
    MemFiles::new(alloc, files, failing).expect(rt, "memory")
}

/// Files in memory, and beside them the file `endless`, which never ends.
#[derive(Drop)]
struct WithEndless {
    files: MemFiles,
}

impl Files for WithEndless {
    ghost known = { λ _. None };

    ghost counts = { λ files. counts_of files.files.calls };

    fn read_at(&mut self, name: &str, at: u64, into: &mut [u8]) -> Result<usize, Refusal> {
        if name == "endless" {
            return Ok(into.len());
        }
        self.files.read_at(name, at, into)
    }

    fn create(&mut self, name: &str) -> Result<(), Refusal> {
        self.files.create(name)
    }

    fn append(&mut self, name: &str, piece: &[u8]) -> Result<usize, Refusal> {
        self.files.append(name, piece)
    }
}

/// What a run with these words answers and prints, where this call on the named file and this call on the sink fail.
fn ends(
    rt: &(impl Abort + AllocGlobal),
    words: &str,
    failing: (&str, u64),
    failing_write: u64,
    status: u8,
    line: &[u8],
) {
    let alloc = rt.alloc();
    let mut files = WithEndless {
        files: sound_files(rt, alloc, failing),
    };
    let mut solver = Fixed::new(Vec::new(alloc), Vec::new(alloc));
    let (found, out) = ran(alloc, words, &mut files, failing_write, &mut solver).expect(
        rt, "memory",
    );
    same(rt, found, status);
    same(rt, out.bytes(), line);
}

/// What a run over both files answers, where this call on the named file and this call on the sink fail.
fn failing(
    rt: &(impl Abort + AllocGlobal),
    name: &str,
    call: u64,
    failing_write: u64,
    status: u8,
    line: &[u8],
) {
    ends(rt, WORDS, (name, call), failing_write, status, line);
}

#[test]
fn least_strict_bounds_pass(rt: HostRuntime) {
    failing(&rt, "", 0, 0, 0, b"certified 2 nodes\n");
}

/// A call on a file or on the sink, from 1, what is answered, and what is printed.
type Fault = (&'static str, u64, u64, u8, &'static [u8]);

static FAULTS: [Fault; 9] = [
    ("net", 1, 0, 3, b"pdn: ReadFault net\n"),
    ("net", 2, 0, 3, b"pdn: ReadFault net\n"),
    ("net", 3, 0, 0, b"certified 2 nodes\n"),
    ("cert", 1, 0, 3, b"pdn: ReadFault cert\n"),
    ("cert", 2, 0, 3, b"pdn: ReadFault cert\n"),
    ("cert", 3, 0, 0, b"certified 2 nodes\n"),
    ("", 0, 1, 3, b""),
    ("net", 1, 1, 3, b""),
    ("", 0, 2, 0, b"certified 2 nodes\n"),
];

/// Each call on each file fails in turn, and each call on the sink.
#[test]
fn faults_are_answered(rt: HostRuntime) {
    for (name, call, failing_write, status, line) in &FAULTS {
        failing(&rt, name, *call, *failing_write, *status, line);
    }
}

/// A file that is not there cannot be read.
#[test]
fn no_file(rt: HostRuntime) {
    let words = "check|--netlist|nothing|--certificate|cert";
    ends(&rt, words, ("", 0), 0, 3, b"pdn: ReadFault nothing\n");
}

/// Words, the file whose first call fails, what is answered, and what is printed.
type Causes = (&'static str, &'static str, u8, &'static [u8]);

static CAUSES: [Causes; 5] = [
    // The words, and the netlist cannot be read or is too long.
    (
        "check|--netlist|net|--certificate",
        "net",
        2,
        b"pdn: Usage\n",
    ),
    (
        "check|--netlist|endless|--certificate",
        "",
        2,
        b"pdn: Usage\n",
    ),
    // The netlist cannot be read, and the certificate cannot be read or is too long.
    (
        "check|--netlist|none|--certificate|cert",
        "cert",
        3,
        b"pdn: ReadFault none\n",
    ),
    (
        "check|--netlist|net|--certificate|endless",
        "net",
        3,
        b"pdn: ReadFault net\n",
    ),
    // The certificate cannot be read, and the netlist's text is refused.
    (
        "check|--netlist|cert|--certificate|net",
        "net",
        3,
        b"pdn: ReadFault net\n",
    ),
];

/// Of two causes at once the one is answered that comes first in the order of the work. Where the first one is that a
/// file is too long, tests/vectors/check_long.jsonl has the cases, and where both are in the texts, check_own.jsonl.
#[test]
fn earlier_causes_come_first(rt: HostRuntime) {
    for (words, name, status, line) in &CAUSES {
        ends(&rt, words, (*name, 1), 0, *status, line);
    }
}

/// A file of more than 2^28 bytes is refused.
#[test]
fn too_long_is_answered(rt: HostRuntime) {
    let words = "check|--netlist|endless|--certificate|none";
    ends(&rt, words, ("", 0), 0, 4, b"pdn: TooLong endless\n");
}
