ghost use Rattle.std.specs.Prelude.{◌<◌, length, MatchResult};
ghost use Rattle.lef_tech.specs.Limits.{TechKeeps};
ghost use Rattle.geom_rect.specs.Rect.{IsInOrder, HasCoordinates};
ghost use Rattle.via_arrays.specs.Lengths.{IsUnits};
ghost use Rattle.via_arrays.specs.Stacks.{IsStack, IsStackRefused};

use crate::error::StackError;
use crate::pairs::pair;
use crate::parts::Stack;
use entry_list::Entries;
use geom_rect::Rect;
use lef_tech::Tech;
use std::alloc::Global;

/// The stack at a crossing: for each routing layer from `from` up to below `to` the array that joins it and the next
/// one, by the first rule that suits, and the array's resistance. `from` lies below `to`.
///
/// Errors: the first pair upwards that is not joined, and why; want of memory.
pub fn stack(
    alloc: Global,
    tech: &Tech,
    from: u32,
    to: u32,
    crossing: Rect,
    units: u32,
    max_columns: u32,
    max_rows: u32,
) -> Result<Stack, StackError>
    requires tech { TechKeeps tech.now }
    requires rising { from < to }
    requires to { to < length tech.now.routing }
    requires crossing { IsInOrder crossing × HasCoordinates crossing }
    requires units { IsUnits units }
    ensures { MatchResult result (IsStack tech.now crossing units max_columns max_rows from to)
        (IsStackRefused tech.now crossing units max_columns max_rows from to) }
{
    let mut arrays = Vec::new(alloc);
    let mut ohms = Vec::new(alloc);
    for layer in from..to {
        let (array, resistance) = pair(tech, layer, crossing, units, max_columns, max_rows)?;
        arrays.push(array)?;
        ohms.push(resistance)?;
    }
    Ok(Stack {
        from,
        to,
        arrays: Entries::new(arrays),
        ohms: Entries::new(ohms),
    })
}
