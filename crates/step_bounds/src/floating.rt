//! Capacitors that float.
ghost use Rattle.std.specs.Prelude.{◌≡◌};
ghost use Rattle.step_bounds.specs.Capacitors.{floats_between as between_nodes, floats_at as at_node, first_floating as first_of_caps};

use crate::companion::is_free;
use capacitors::{Cap, End};
use grid_net::Net;

// The earlier of two ends, where they are two different nodes without pads.
fn floats_between(net: &Net, a: End, b: End) -> Option<u32>
    ensures { result ≡ between_nodes net.now a b }
{
    match (a, b) {
        (End::Node(one), End::Node(other)) => if is_free(net, one)
            && is_free(net, other)
            && one != other
        {
            Some(one.min(other))
        } else {
            None
        },
        _ => None,
    }
}

// The earlier of the two nodes of a capacitor, if it floats.
fn floats_at(net: &Net, cap: &Cap) -> Option<u32>
    ensures { result ≡ at_node net.now cap.now }
{
    if 1 <= cap.farads {
        floats_between(net, cap.a, cap.b)
    } else {
        None
    }
}

/// The earlier of the two nodes of the first capacitor that floats: that joins two different nodes without pads, with a
/// capacitance above 0. It takes no memory.
pub fn first_floating(net: &Net, caps: &[Cap]) -> Option<u32>
    ensures { result ≡ first_of_caps net.now caps.now }
{
    for cap in caps {
        if let Some(node) = floats_at(net, cap) {
            return Some(node);
        }
    }
    None
}
