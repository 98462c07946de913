//! Which vias stand somewhere.
ghost use Rattle.std.specs.Prelude.{◌≡◌, ◌<◌, [], All, IfOk, length};
ghost use Rattle.wire_names.specs.declared.record.Spot.{Spot};
ghost use Rattle.wire_limits.specs.inside.Used.{AreUses};

use std::alloc::{AllocError, Global};
use wire_names::Spot;

// For each of so many vias whether it stands somewhere.
pub(crate) fn uses(alloc: Global, count: usize, spots: &[Spot]) -> Result<Vec<bool>, AllocError>
    requires { All (λ (spot : Spot). spot.via < count) spots.now }
    ensures { IfOk result (λ used. AreUses count spots.now used.items) }
{
    let mut used = vec![in alloc; false; count]?;
    mark(&mut used, spots);
    Ok(used)
}

// Marks the vias that stand at these places.
fn mark(used: &mut [bool], spots: &[Spot])
    requires none { AreUses (length used.old) [] used.old }
    requires within { All (λ (spot : Spot). spot.via < length used.old) spots.now }
    ensures { AreUses (length used.old) spots.now used.new }
{
    for spot in spots {
        used[spot.via as usize] = true;
    }
}
