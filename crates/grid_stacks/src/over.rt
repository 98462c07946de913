ghost use Rattle.std.specs.Prelude.{IfOk};
ghost use Rattle.geom_rect.specs.Run.{AreMaximalRuns};
ghost use Rattle.grid_stacks.specs.inside.Standing.{IsFreeCell};

use crate::bar::Bar;
use crate::inner::Inner;
use geom_rect::{Run, runs};
use std::alloc::{AllocError, Global};

// The runs along a flat bar over which none of the rectangles lies.
pub(crate) fn free_runs(alloc: Global, flat: Bar, inner: &Inner) -> Result<Vec<Run>, AllocError>
    ensures { IfOk result (λ runs. AreMaximalRuns (IsFreeCell flat inner.now) runs.items) }
{
    let whole = [Run {
        from: flat.from,
        to: flat.to,
    }];
    let blocked = inner.runs_over(alloc, flat)?;
    runs(alloc, &whole, &blocked)
}
