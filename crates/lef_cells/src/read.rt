ghost use Rattle.std.specs.Prelude.{◌≡◌, List, IfOk};
ghost use Rattle.lef_cells.specs.Format.{ReadsCells};
ghost use Rattle.lef_cells.specs.Limits.{CellsKeep};
ghost use Rattle.lef_cells.specs.Record.{IsCells};
ghost use Rattle.lef_cells.specs.Rule.{is_head};
ghost use Rattle.lef_cells.specs.inside.Held.{HoldsAll};
ghost use Rattle.reading.specs.Blocks.{blocks};
ghost use Rattle.reading.specs.Word.{Token};

use crate::error::CellsError;
use crate::format::CellsFormat;
use crate::held::{Held, Sections};
use crate::record::Cells;
use number_place::values_fit_their_places;
use reading::{ReadError, read_into};
use std::alloc::Global;
use text_lex::Mode;

/// Reads the sites and the macros of a LEF library.
///
/// Of a site and of a macro it takes the name and the first SIZE, which is required, and of a macro whether its first
/// CLASS is BLOCK. Lengths are micrometres with 6 places, from 0 to 10^11 pm (100 mm). All else is passed over: pins to
/// `END` and their name, obstructions and densities to `END`, other sections of the library to `END` and their name,
/// extensions to `ENDEXT`, other statements to their `;`. `END LIBRARY` ends the text, which may also end between two
/// sections or statements of the library.
///
/// Errors: the refusal at the earliest word, and there of the first kind, as `CellsKind` lists them; `Want` for want of
/// memory.
pub fn read_cells(alloc: Global, text: &[u8]) -> Result<Cells, CellsError>
    ensures reads { ReadsCells text.now result }
    ensures keeps { IfOk result CellsKeep }
{
    let Ok(mut held) = Held::new(alloc) else {
        return Err(ReadError::want());
    };
    match read_into(alloc, &CellsFormat, &mut held, text, Mode::LefDef) {
        Ok(_) => Ok(cells_of(held.said)),
        Err(error) => Err(error),
    }
}

/// The record of what the sections say.
fn cells_of(said: Sections<'_>) -> Cells
    ensures is { (units : List (List Token)) → HoldsAll (blocks is_head units) said.entry → IsCells units result }
    ensures keeps { (units : List (List Token)) → HoldsAll (blocks is_head units) said.entry → CellsKeep result }
{
    values_fit_their_places();
    Cells {
        sites: said.sites.into_entries(),
        macros: said.macros.into_entries(),
    }
}
