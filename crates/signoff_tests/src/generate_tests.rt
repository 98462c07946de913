//! Runs of `generate` over files and a sink in memory.
use crate::runs::ran;
use crate::same::same;
use grid_gen::{CELLS, SCRIPT, TECHNOLOGY, generate};
use grid_net::Fixed;
use outside::{MemFiles, Name};
use std::process::Abort;

/// The words of `generate` into the files `a` to `e`, with bars between them.
const WORDS: &str = "generate|--number|1|--side|24|--lef|a|--cells|b|--def|c|--pdn|d|--bias|e";

/// What a run with these words answers and prints, where this call on the named file and this call on the sink fail; and
/// the files after it.
fn ends(
    rt: &(impl Abort + AllocGlobal),
    words: &str,
    failing: (&str, u64),
    failing_write: u64,
    status: u8,
    line: &[u8],
) -> MemFiles {
    let alloc = rt.alloc();
    let name = Name::new(alloc, failing.0.as_bytes()).expect(rt, "memory");
    let failing = vec![in alloc; (name, failing.1)].expect(rt, "memory");
    let mut files = MemFiles::new(alloc, Vec::new(alloc), failing).expect(rt, "memory");
    let mut solver = Fixed::new(Vec::new(alloc), Vec::new(alloc));
    let (found, out) = ran(alloc, words, &mut files, failing_write, &mut solver).expect(
        rt, "memory",
    );
    same(rt, found, status);
    same(rt, out.bytes(), line);
    files
}

/// The first two files, which every design has.
fn are_common(rt: &impl Abort, files: &MemFiles) {
    assert!(rt; files.bytes("a") == Some(TECHNOLOGY));
    assert!(rt; files.bytes("b") == Some(CELLS));
}

/// The five files have the texts of this number and this side.
#[test]
fn five_files(rt: HostRuntime) {
    let files = ends(&rt, WORDS, ("", 0), 0, 0, b"generated\n");
    are_common(&rt, &files);
    let inputs = generate(rt.alloc(), 1, 24).expect(&rt, "memory");
    assert!(rt; files.bytes("c") == Some(inputs.def.as_slice()));
    assert!(rt; files.bytes("d") == Some(SCRIPT));
    assert!(rt; files.bytes("e") == Some(inputs.bias.as_slice()));
    let other = generate(rt.alloc(), 2, 24).expect(&rt, "memory");
    assert!(rt;
        files.bytes("c") != Some(other.def.as_slice()),
        "the number picks the cells"
    );
}

/// The third file cannot be made, or its text not be written: those before it are whole, and none after it is made.
fn stops_at_the_third(rt: &(impl Abort + AllocGlobal), call: u64, held: Option<&[u8]>) {
    let files = ends(rt, WORDS, ("c", call), 0, 3, b"pdn: WriteFault c\n");
    are_common(rt, &files);
    assert!(rt; files.bytes("c") == held);
    assert!(rt; files.bytes("d").is_none());
    assert!(rt; files.bytes("e").is_none());
}

#[test]
fn a_fault_at_the_third_file(rt: HostRuntime) {
    stops_at_the_third(&rt, 1, None);
    stops_at_the_third(&rt, 2, Some(b""));
}

/// The line cannot be written: the five files are whole.
#[test]
fn a_fault_of_the_line(rt: HostRuntime) {
    let files = ends(&rt, WORDS, ("", 0), 1, 3, b"");
    are_common(&rt, &files);
    assert!(rt; files.bytes("d") == Some(SCRIPT));
    assert!(rt; files.bytes("e").is_some());
}

static USAGE: [&str; 2] = [
    "generate|--number|1|--side|23|--lef|a|--cells|b|--def|c|--pdn|d|--bias|e",
    "generate|--number|1|--side|24|--lef|a|--cells|a|--def|c|--pdn|d|--bias|e",
];

/// A side below 24, and one file for two texts: nothing is made, even where a file could not be.
#[test]
fn usage_makes_nothing(rt: HostRuntime) {
    for words in &USAGE {
        let files = ends(&rt, words, ("a", 1), 0, 2, b"pdn: Usage\n");
        assert!(rt; files.bytes("a").is_none());
        assert!(rt; files.bytes("c").is_none());
    }
}
