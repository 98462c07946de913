ghost use Rattle.std.specs.Prelude.{◌≡◌, ◌↔◌, IsTrue, IfOk, filter};
ghost use Rattle.wire_pieces.specs.Pieces.{is_upright};
ghost use Rattle.wire_pieces.specs.inside.Axes.{goes_along};

use geom_rect::{Axis, Drawn};
use std::alloc::{AllocError, Global};

// Whether the axis goes from low to high.
pub(crate) fn is_upright(axis: Axis) -> bool
    ensures { result ≡ is_upright axis }
{
    match axis {
        Axis::X => false,
        Axis::Y => true,
    }
}

// The shapes that go along one axis.
pub(crate) fn shapes_along(
    alloc: Global,
    shapes: &[Drawn],
    upright: bool,
) -> Result<Vec<Drawn>, AllocError>
    ensures { IfOk result (λ some. some.items ≡ filter (goes_along upright) shapes.now) }
{
    let mut some = Vec::new(alloc);
    for shape in shapes {
        if goes_along(shape, upright) {
            some.push(*shape)?;
        }
    }
    Ok(some)
}

fn goes_along(shape: &Drawn, upright: bool) -> bool
    ensures { result ≡ goes_along upright shape.now }
{
    is_upright(shape.axis) == upright
}
