ghost use Rattle.std.specs.Prelude.{◌≡◌, List, IfOk, IfErr};
ghost use Rattle.def_design.specs.Format.{ReadsText, ReadsDesign, ReadsPlaced};
ghost use Rattle.def_design.specs.Limits.{DesignKeeps};
ghost use Rattle.def_design.specs.Record.{IsDesign};
ghost use Rattle.def_design.specs.inside.Held.{HoldsSaid};
ghost use Rattle.reading.specs.Word.{Token};

use crate::error::{DefError, DefKind};
use crate::format::DesignFormat;
use crate::held::{Held, Said};
use crate::record::Design;
use entry_list::Entries;
use number_place::values_fit_their_places;
use reading::{ReadError, read_into};
use std::alloc::Global;
use text_lex::Mode;

/// Reads the text of a design, whose wires are refused where `wiring_refused` is.
fn read_text(alloc: Global, text: &[u8], wiring_refused: bool) -> Result<Design, DefError>
    ensures reads { ReadsText wiring_refused text.now result }
    ensures keeps { IfOk result DesignKeeps }
{
    let Ok(mut held) = Held::new(alloc) else {
        return Err(ReadError::want());
    };
    let format = DesignFormat { wiring_refused };
    match read_into(alloc, &format, &mut held, text, Mode::LefDef) {
        Ok(()) => design_of(held.said),
        Err(error) => Err(error),
    }
}

/// Reads a placed design in DEF whose special nets have no wires yet.
///
/// It takes the name, the units of a micrometre, the die, which is a rectangle, the rows, the components with their
/// places, the rectangles of the blockages, and the regions. Numbers are whole, at most 2^30 from 0. All else is
/// passed over: other sections to `END` and their word, extensions to `ENDEXT`, other statements to their `;`, and
/// special nets as long as they have no wires. `END DESIGN` is required and ends the text.
///
/// Errors: the refusal at the earliest word, and there of the first kind, as `DefKind` lists them; `Want` for want of
/// memory.
pub fn read_design(alloc: Global, text: &[u8]) -> Result<Design, DefError>
    ensures reads { ReadsDesign text.now result }
    ensures keeps { IfOk result DesignKeeps }
{
    read_text(alloc, text, true)
}

/// Reads a placed design in DEF whose special nets may have wires: what `read_design` reads, with the wires passed over as
/// other parts of a net are.
///
/// Errors: those of `read_design` but for `AlreadyRouted`.
pub fn read_placed(alloc: Global, text: &[u8]) -> Result<Design, DefError>
    ensures reads { ReadsPlaced text.now result }
    ensures keeps { IfOk result DesignKeeps }
{
    read_text(alloc, text, false)
}

/// The record of what the units say. What a design has to say stands where the text has ended.
fn design_of(said: Said<'_>) -> Result<Design, DefError>
    ensures is { (units : List (List Token)) → HoldsSaid units said.entry → IfOk result (IsDesign units) }
    ensures keeps { (units : List (List Token)) → HoldsSaid units said.entry → IfOk result DesignKeeps }
    ensures want { IfErr result (λ error. error.kind ≡ DefKind.Want) }
{
    values_fit_their_places();
    let Said {
        top,
        rows,
        components,
        blockages,
        regions,
    } = said;
    let _components = components.names.into_entries();
    let _regions = regions.names.into_entries();
    let (Some(name), Some(units), Some(die)) = (top.name, top.units, top.die) else {
        return Err(ReadError::want());
    };
    Ok(Design {
        name,
        units,
        die,
        rows: Entries::new(rows),
        components: Entries::new(components.items),
        blockages: Entries::new(blockages.items),
        regions: Entries::new(regions.items),
    })
}
