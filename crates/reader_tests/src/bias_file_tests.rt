//! A bias file that is read. What each of its lines says, and where a text is refused, is told by cases.
use crate::same::same;
use bias_file::{Bias, read_bias};
use std::process::Abort;

/// The bias file of the small design.
const SMALL: &[u8] =
    b"supply VDD 1.1\nsupply VSS 0\ninstance u1 333.3u\npad VDD metal4 3 0\npad VSS metal4 1 1.4\n";

/// How many supplies, drop limits, pads, cells and instances there are.
fn compare_counts(rt: &impl Abort, bias: &Bias) {
    same(rt, bias.supplies.as_slice().len(), 2);
    same(rt, bias.drops.as_slice().len(), 0);
    same(rt, bias.pads.as_slice().len(), 2);
    same(rt, bias.cells.as_slice().len(), 0);
    same(rt, bias.instances.as_slice().len(), 1);
}

#[test]
fn small_design(rt: HostRuntime) {
    let bias = read_bias(rt.alloc(), SMALL).expect(&rt, "a bias file");
    compare_counts(&rt, &bias);
    for amps in bias.instances.as_slice() {
        same(&rt, amps.name.bytes(), b"u1".as_slice());
        same(
            &rt,
            (amps.low, amps.high),
            (333_300_000_000, 333_300_000_000),
        );
    }
}
