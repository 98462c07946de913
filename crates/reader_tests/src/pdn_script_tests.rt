//! The script of a grid, read. What each command says, and where a text is refused, is told by cases.
use crate::same::same;
use pdn_script::{Stripe, read_script};
use std::process::Abort;

/// A domain, a grid, its straps and what joins them to the rails.
const GRID: &[u8] = b"set_voltage_domain -name CORE -power VDD -ground VSS
define_pdn_grid -name grid -voltage_domains CORE
add_pdn_stripe -grid grid -layer metal4 -width 0.48 -pitch 56.0 -offset 2
add_pdn_connect -grid grid -layers {metal1 metal4}
pdngen
";

fn compare_strap(rt: &impl Abort, stripe: &Stripe) {
    same(rt, stripe.layer.bytes(), b"metal4".as_slice());
    same(rt, stripe.width, 480_000);
    same(rt, stripe.pitch, Some(56_000_000));
    same(rt, stripe.offset, 2_000_000);
}

#[test]
fn a_grid(rt: HostRuntime) {
    let script = read_script(rt.alloc(), GRID).expect(&rt, "a script");
    same(&rt, script.domains.as_slice().len(), 1);
    same(&rt, script.grids.as_slice().len(), 1);
    same(&rt, script.stripes.as_slice().len(), 1);
    same(&rt, script.rings.as_slice().len(), 0);
    same(&rt, script.connects.as_slice().len(), 1);
    for stripe in script.stripes.as_slice() {
        compare_strap(&rt, stripe);
    }
}
