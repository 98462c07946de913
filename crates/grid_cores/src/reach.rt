ghost use Rattle.std.specs.Prelude.{◌≡◌, ◌+ℤ◌, ◌-ℤ◌, map, All, IfOk};
ghost use Rattle.geom_rect.specs.Drawn.{half};
ghost use Rattle.geom_rect.specs.Rect.{HasCoordinates, IsCoordinate, grown_by};
ghost use Rattle.geom_rect.specs.declared.rect.Rect.{Rect};
ghost use Rattle.grid_cores.specs.Core.{strap_reach};

use geom_rect::{Axis, Rect, Run, grown};
use std::alloc::{AllocError, Global};

/// The reach of straps along an axis over a core, where the widest rail of their grid has this width.
pub fn strap_reach(axis: Axis, rail: i64, core: Rect) -> Run
    requires even { rail ≡ half rail +ℤ half rail }
    requires low { IsCoordinate (core.y1 -ℤ half rail) }
    requires high { IsCoordinate (core.y2 +ℤ half rail) }
    ensures { result ≡ strap_reach axis rail core }
{
    match axis {
        Axis::X => Run {
            from: core.x1,
            to: core.x2,
        },
        Axis::Y => Run {
            from: core.y1 - rail / 2,
            to: core.y2 + rail / 2,
        },
    }
}

/// The regions, each grown by the same length on each side.
pub fn grown_regions(alloc: Global, regions: &[Rect], by: i64) -> Result<Vec<Rect>, AllocError>
    requires { All (λ (region : Rect). HasCoordinates (grown_by region by)) regions.now }
    ensures { IfOk result (λ grown. grown.items ≡ map (λ (region : Rect). grown_by region by) regions.now) }
{
    let mut all = Vec::new(alloc);
    for region in regions {
        all.push(grown(*region, by))?;
    }
    Ok(all)
}
