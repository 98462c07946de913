//! The widths and the layers of segments.
ghost use Rattle.std.specs.Prelude.{◌≡◌, ◌↔◌, ◌<◌, ◌^◌, All, IsTrue, MatchOption, IfOk, length};
ghost use Rattle.geom_rect.specs.Drawn.{IsWidth};
ghost use Rattle.wire_names.specs.Keeping.{ShapeStands};
ghost use Rattle.def_wiring.specs.Limits.{IsLength, SegmentKeeps};
ghost use Rattle.def_wiring.specs.declared.record.WiredNet.{WiredNet};
ghost use Rattle.wire_limits.specs.First.{EachHas, IsFirstWithout};
ghost use Rattle.wire_limits.specs.Segments.{IsEven, AreEven, HasSheet};
ghost use Rattle.wire_limits.specs.inside.Segments.{FindsOdd, FindsOddNet, FindsBare};

use crate::number::number;
use def_wiring::{Segment, WiredNet};
use geom_rect::Drawn;
use lef_tech::Tech;
use std::alloc::AllocError;

// The first net with a segment whose width is odd or 0, by its place, and the first such width in it.
pub(crate) fn odd_net(nets: &[WiredNet]) -> Result<Option<(u32, i64)>, AllocError>
    ensures { IfOk result (FindsOddNet nets.now) }
{
    for (place, net) in nets.iter().enumerate() {
        match odd_width(net.segments.as_slice()) {
            Some(width) => return Ok(Some((number(place)?, width))),
            None => {}
        }
    }
    Ok(None)
}

// The first width of segments that is odd or 0.
fn odd_width(segments: &[Segment]) -> Option<i64>
    ensures { FindsOdd segments.now result }
{
    for segment in segments {
        if !is_even(segment.width) {
            return Some(segment.width);
        }
    }
    None
}

// Whether a width is positive and even.
fn is_even(width: i64) -> bool
    ensures { IsTrue result ↔ IsWidth width }
{
    0 < width && width % 2 == 0
}

// The layer of the first shape without a resistance of a square.
pub(crate) fn bare_layer(tech: &Tech, shapes: &[Drawn]) -> Option<u32>
    requires { All (ShapeStands (length tech.now.routing)) shapes.now }
    ensures { FindsBare tech.now shapes.now result }
{
    for shape in shapes {
        if !has_sheet(tech, shape) {
            return Some(shape.layer);
        }
    }
    None
}

fn has_sheet(tech: &Tech, shape: &Drawn) -> bool
    requires { shape.now.layer < length tech.now.routing }
    ensures { IsTrue result ↔ HasSheet tech.now shape.now }
{
    tech.routing.as_slice()[shape.layer as usize]
        .sheet
        .is_some()
}
