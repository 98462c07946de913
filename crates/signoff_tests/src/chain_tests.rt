//! The commands with the program's own solver, over files in memory.
use crate::runs::ran;
use crate::same::same;
use multilevel_solve::Multilevel;
use outside::{MemFiles, Name};
use std::alloc::Global;
use std::process::Abort;

/// A chain of 2,000 resistors of 1 milliohm from a pad of 0 V, with a load of 1 mA at each node behind one.
fn chain(rt: &impl Abort, alloc: Global) -> Vec<u8> {
    let mut text = Vec::from_slice(alloc, b"* a chain\nV1 n0 0 0\n").expect(rt, "memory");
    for k in 0..2000_u32 {
        let next = k + 1;
        let cards = format!(in alloc; "R{k} n{k} n{next} 0.001\nI{k} n{next} 0 1m\n").expect(
            rt, "memory",
        );
        text.extend_from_slice(cards.as_bytes())
            .expect(rt, "memory");
    }
    text.extend_from_slice(b".end\n").expect(rt, "memory");
    text
}

/// The chain in memory.
fn files(rt: &impl Abort, alloc: Global) -> MemFiles {
    let name = Name::new(alloc, b"net").expect(rt, "memory");
    let held = vec![in alloc; (name, chain(rt, alloc))].expect(rt, "memory");
    MemFiles::new(alloc, held, Vec::new(alloc)).expect(rt, "memory")
}

/// A run with these words ends with 0, and its line begins so.
fn ends(rt: &(impl Abort + AllocGlobal), words: &str, files: &mut MemFiles, line: &[u8]) {
    let mut solver = Multilevel::new();
    let (status, out) = ran(rt.alloc(), words, files, 0, &mut solver).expect(rt, "memory");
    same(rt, status, 0);
    assert!(rt; out.bytes().starts_with(line), "the line");
}

/// A chain of 2,000 nodes is solved, and `check` accepts its certificate. A solver that only sweeps would need some
/// millions of passes for it.
#[test]
fn a_long_chain_is_solved(rt: HostRuntime) {
    let mut files = files(&rt, rt.alloc());
    let solve = "solve|--netlist|net|--certificate|cert|--report|report";
    ends(&rt, solve, &mut files, b"solved 2001 nodes 2000 resistors ");
    let check = "check|--netlist|net|--certificate|cert";
    ends(&rt, check, &mut files, b"certified 2001 nodes\n");
}
