ghost use Rattle.std.specs.Prelude.{◌≡◌, MatchOption};
ghost use Rattle.grid_taps.specs.Taps.{IsRange, HasNoLine, IsLine};
ghost use Rattle.grid_taps.specs.Naming.{amps_names};

use crate::named::place_of;
use bias_file::{Amps, Bias};
use def_design::Component;
use name_table::NameTable;

/// The least and the greatest current that a component draws, in fA.
#[derive(Clone, Copy, Debug, PartialEq, Eq)]
pub struct Range {
    pub low: i64,
    pub high: i64,
}

// The range of the component: that of its own line, else that of its cell's, else from 0 to 0.
pub(crate) fn range_of<'a>(
    instances: &mut NameTable<'a>,
    cells: &mut NameTable<'a>,
    bias: &Bias,
    component: &'a Component,
) -> Range
    requires instances { instances.old ≡ amps_names bias.now.instances }
    requires cells { cells.old ≡ amps_names bias.now.cells }
    ensures range { IsRange bias.now component.now result.low result.high }
    ensures instances { instances.new ≡ instances.old }
    ensures cells { cells.new ≡ cells.old }
{
    if let Some(range) = range_on(instances, bias.instances.as_slice(), component.name.bytes()) {
        return range;
    }
    match range_on(cells, bias.cells.as_slice(), component.cell.bytes()) {
        Some(range) => range,
        None => Range { low: 0, high: 0 },
    }
}

// The range on the line that has the name.
fn range_on<'a>(table: &mut NameTable<'a>, lines: &[Amps], name: &'a [u8]) -> Option<Range>
    requires { table.old ≡ amps_names lines.now }
    ensures range { MatchOption result (HasNoLine lines.now name.now)
        (λ range. IsLine lines.now name.now range.low range.high) }
    ensures same { table.new ≡ table.old }
{
    let place = place_of(table, name)?;
    let amps = &lines[place as usize];
    Some(Range {
        low: amps.low,
        high: amps.high,
    })
}
