//! Netlists stepped with a solver that proposes nothing of use. What is refused is told by cases of the program.
ghost use Rattle.std.specs.Prelude.{◌≤◌, ◌^◌};

use crate::same::same;
use answers::Answer;
use grid_net::hostile::Everywhere;
use std::alloc::Global;
use std::process::Abort;
use stepping::{Stepped, Times, step_through};

/// One ohm from a pad of 1 V to a node that draws 1 mA, with a capacitor of 1 nF.
const NETLIST: &[u8] = b"R1 p n 1\nV1 p 0 1\nI1 n 0 1m\nC1 n 0 1n\n.end\n";

/// Two steps of a nanosecond.
const TIMES: Times = Times {
    time: 1_000_000_000,
    steps: 2,
};

/// What comes of a netlist and its waves.
fn stepped(alloc: Global, netlist: &[u8], waves: &[u8], times: Times) -> Result<Stepped, Answer>
    requires time { (1 ≤ times.time) × (times.time ≤ 10 ^ 18) }
    requires steps { (1 ≤ times.steps) × (times.steps ≤ 1000) }
{
    let mut solver = Everywhere::new(0);
    step_through(alloc, "net", netlist, "waves", waves, times, &mut solver)
}

/// What comes of a netlist that is not refused over two steps.
fn two_steps(rt: &(impl Abort + AllocGlobal), netlist: &[u8], waves: &[u8]) -> Stepped {
    match stepped(rt.alloc(), netlist, waves, TIMES) {
        Ok(stepped) => stepped,
        Err(_) => panic!(rt; "the netlist is refused"),
    }
}

/// The load rises at step 1: the node falls by half of what is left at each step.
#[test]
fn a_load_that_rises(rt: HostRuntime) {
    let stepped = two_steps(&rt, NETLIST, b"at 1 n 2m\n");
    same(
        &rt,
        stepped.report.as_slice(),
        b"pdn steps 1\nstep 0\nnode n 0.998999999 0.999000001\nnode p 1.000000000 1.000000000\nstep 1\nnode n 0.998499999 0.998500001\nnode p 1.000000000 1.000000000\nstep 2\nnode n 0.998249999 0.998250001\nnode p 1.000000000 1.000000000\nend\n".as_slice(),
    );
    same(&rt, (stepped.nodes, stepped.steps), (2, 2));
}

/// A capacitor of 0, one to a pad, one within a group, and one at a name of no node are no refusal.
#[test]
fn capacitors_without_effect(rt: HostRuntime) {
    let netlist =
        b"R1 p n 1\nR2 n m 0\nR3 p k 1\nV1 p 0 1\nI1 n 0 1m\nC1 n k 0\nC2 p 0 1n\nC3 n m 1n\nC4 n x 1n\n.end\n";
    let stepped = two_steps(&rt, netlist, b"at 1 m 2m\n");
    same(
        &rt,
        stepped.report.as_slice(),
        b"pdn steps 1\nstep 0\nnode k 0.999999999 1.000000001\nnode m 0.998999999 0.999000001\nnode p 1.000000000 1.000000000\nstep 1\nnode k 0.999999999 1.000000001\nnode m 0.997999999 0.998000001\nnode p 1.000000000 1.000000000\nstep 2\nnode k 0.999999999 1.000000001\nnode m 0.997999999 0.998000001\nnode p 1.000000000 1.000000000\nend\n".as_slice(),
    );
}
