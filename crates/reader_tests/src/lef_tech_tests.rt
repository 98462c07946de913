//! The technology of the made-up designs, read. What each section says, and where a text is refused, is told by cases.
use crate::same::same;
use grid_gen::TECHNOLOGY;
use lef_tech::{Density, Tech, read_tech};
use std::process::Abort;

/// What the generator says of all wires: 10 mA for each micrometre of width.
const WIRE_DENSITY: u64 = 10_000_000_000_000;

fn compare_counts(rt: &impl Abort, tech: &Tech) {
    same(rt, tech.order.as_slice().len(), 13);
    same(rt, tech.routing.as_slice().len(), 7);
    same(rt, tech.cuts.as_slice().len(), 6);
    same(rt, tech.rules.as_slice().len(), 6);
}

#[test]
fn generated_technology(rt: HostRuntime) {
    let tech = read_tech(rt.alloc(), TECHNOLOGY).expect(&rt, "a technology");
    compare_counts(&rt, &tech);
    for layer in tech.routing.as_slice() {
        match &layer.density {
            Density::One(value) => same(&rt, *value, WIRE_DENSITY),
            _ => panic!(rt; "{:?}", layer.density),
        }
    }
}
