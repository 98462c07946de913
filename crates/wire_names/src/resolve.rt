ghost use Rattle.std.specs.Prelude.{◌≡◌, IfOk, MatchResult, None};
ghost use Rattle.lef_tech.specs.declared.tech.Tech.{Tech};
ghost use Rattle.def_wiring.specs.Limits.{WiresKeep};
ghost use Rattle.wire_names.specs.Keeping.{NamedKeep};
ghost use Rattle.wire_names.specs.Names.{names_of};
ghost use Rattle.wire_names.specs.Wiring.{AreNamed, AreUnnamed};
ghost use Rattle.wire_names.specs.inside.Pair.{ArePair};
ghost use Rattle.wire_names.specs.inside.Placed.{ArePlaced, KeepPlaces};

use crate::error::NameError;
use crate::pair::{Pair, nets_of};
use crate::record::NamedWires;
use crate::segment::shapes;
use crate::spot::spots;
use crate::tables::{Tables, tables_of};
use crate::unknown::first_unknown;
use crate::via::vias;
use def_wiring::Wires;
use entry_list::Entries;
use lef_tech::Tech;
use std::alloc::{AllocError, Global};

/// The wiring with places for its names, each list in the order of the text.
///
/// Errors: the first name that is not known, of the vias, used or not, and then of the nets; how many power nets and
/// ground nets have wiring, where they are not one of each; want of memory.
pub fn named(alloc: Global, tech: &Tech, wires: &Wires) -> Result<NamedWires, NameError>
    requires { WiresKeep wires.now }
    ensures named { MatchResult result (AreNamed tech.now wires.now) (AreUnnamed tech.now wires.now) }
    ensures keep { IfOk result (NamedKeep tech.now) }
{
    let tables = tables_of(alloc, tech, wires)?;
    if let Some(name) = first_unknown(alloc, &tables, wires)? {
        return Err(NameError::UnknownName(name));
    }
    let pair = nets_of(alloc, wires)?;
    let named = placed(alloc, &tables, wires, pair)?;
    Ok(named)
}

// The wiring of a pair of nets with places for its names.
fn placed<'a>(
    alloc: Global,
    tables: &Tables<'a>,
    wires: &'a Wires,
    pair: Pair,
) -> Result<NamedWires, AllocError>
    requires { WiresKeep wires.now }
    ensures placed { IfOk result (ArePlaced tables.now wires.now pair) }
    ensures keep { IfOk result (KeepPlaces tables.now) }
{
    let vias = vias(alloc, tables, wires.vias.as_slice())?;
    let shapes = shapes(alloc, tables, pair.power_first, wires.nets.as_slice())?;
    let spots = spots(alloc, tables, pair.power_first, wires.nets.as_slice())?;
    let Pair {
        power,
        ground,
        power_first,
    } = pair;
    Ok(NamedWires {
        power,
        ground,
        power_first,
        vias: Entries::new(vias),
        shapes: Entries::new(shapes),
        spots: Entries::new(spots),
    })
}
