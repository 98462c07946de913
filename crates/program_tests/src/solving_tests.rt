//! A netlist signed off with a solver that tells its lists. What is refused is told by cases of the program.
use crate::same::same;
use grid_net::Fixed;
use solving::{Signed, sign_off};
use std::process::Abort;

/// One ohm from a pad of 1 V to a node that draws 1 mA.
const NETLIST: &[u8] = b"R1 p n 1\nV1 p 0 1\nI1 n 0 1m\n.end\n";

/// A solver whose lists are a tight certificate of it.
fn tight(rt: &(impl Abort + AllocGlobal)) -> Fixed {
    let volt = 1_000_000_000_000_000_000_000_000;
    let high = vec![in rt.alloc(); 999_000_000_000_101_000_000_000, volt].expect(rt, "memory");
    let low = vec![in rt.alloc(); 998_999_999_999_899_000_000_000, volt].expect(rt, "memory");
    Fixed::new(high, low)
}

/// What is signed off with it.
fn signed(rt: &(impl Abort + AllocGlobal)) -> Signed {
    let mut solver = tight(rt);
    match sign_off(rt.alloc(), "net", NETLIST, &mut solver) {
        Ok(signed) => signed,
        Err(_) => panic!(rt; "the netlist is refused"),
    }
}

/// A tight certificate that is proposed is the answer, and the report has its intervals.
#[test]
fn a_tight_proposal_is_kept(rt: HostRuntime) {
    let signed = signed(&rt);
    same(
        &rt,
        signed.certificate.as_slice(),
        b"pdn certificate 1\nn 999000000000101000000000 998999999999899000000000\np 1000000000000000000000000 1000000000000000000000000\nend\n".as_slice(),
    );
    same(
        &rt,
        signed.report.as_slice(),
        b"pdn report 1\nnode n 0.998999999 0.999000001\nnode p 1.000000000 1.000000000\nbranch R1 p n 0.000999999 0.001000001 none NOLIMIT\nend\n".as_slice(),
    );
    same(&rt, (signed.nodes, signed.resistors), (2, 1));
    same(&rt, signed.sweeps, 0);
}
