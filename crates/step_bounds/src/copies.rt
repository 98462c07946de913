//! Lists that are copied.
ghost use Rattle.std.specs.Prelude.{◌≡◌, IfOk};

use grid_net::{Load, Pad, Resistor};
use std::alloc::{AllocError, Global};

/// The resistors once more.
pub(crate) fn copy_resistors(alloc: Global, list: &[Resistor]) -> Result<Vec<Resistor>, AllocError>
    ensures { IfOk result (λ v. v.items ≡ list.now) }
{
    list.to_vec(alloc)
}

/// The pads once more.
pub(crate) fn copy_pads(alloc: Global, list: &[Pad]) -> Result<Vec<Pad>, AllocError>
    ensures { IfOk result (λ v. v.items ≡ list.now) }
{
    list.to_vec(alloc)
}

/// The loads once more.
pub(crate) fn copy_loads(alloc: Global, list: &[Load]) -> Result<Vec<Load>, AllocError>
    ensures { IfOk result (λ v. v.items ≡ list.now) }
{
    list.to_vec(alloc)
}
