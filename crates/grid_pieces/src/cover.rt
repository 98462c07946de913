ghost use Rattle.std.specs.Prelude.{◌≡◌, ◌↔◌, ℤ, map, IfOk, IsTrue};
ghost use Rattle.geom_rect.specs.Drawn.{drawn_run};
ghost use Rattle.geom_rect.specs.Run.{IsHeld};
ghost use Rattle.grid_pieces.specs.inside.Cutting.{IsOfKind};

use geom_rect::{Drawn, Run, Shape};
use std::alloc::{AllocError, Global};

// The cells of the shapes.
pub(crate) fn drawn_runs(alloc: Global, shapes: &[Drawn]) -> Result<Vec<Run>, AllocError>
    ensures { IfOk result (λ runs. runs.items ≡ map drawn_run shapes.now) }
{
    shapes.iter().map(|shape| run_of(shape)).collect(alloc)
}

fn run_of(shape: &Drawn) -> Run
    ensures { result ≡ drawn_run shape.now }
{
    Run {
        from: shape.from,
        to: shape.to,
    }
}

// The cells of the shapes of one kind.
pub(crate) fn runs_of_kind(
    alloc: Global,
    shapes: &[Drawn],
    kind: Shape,
) -> Result<Vec<Run>, AllocError>
    ensures { IfOk result (λ runs. (t : ℤ) → IsHeld runs.items t ↔ IsOfKind shapes.now kind t) }
{
    let mut runs = Vec::new(alloc);
    for shape in shapes {
        if is_of_kind(shape, kind) {
            runs.push(run_of(shape))?;
        }
    }
    Ok(runs)
}

fn is_of_kind(shape: &Drawn, kind: Shape) -> bool
    ensures { IsTrue result ↔ (shape.now.shape ≡ kind) }
{
    shape.shape == kind
}
