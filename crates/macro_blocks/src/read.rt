ghost use Rattle.std.specs.Prelude.{◌≡◌, List, IfOk, IfErr};
ghost use Rattle.macro_blocks.specs.Format.{ReadsBlocks};
ghost use Rattle.macro_blocks.specs.Limits.{BlocksKeep};
ghost use Rattle.macro_blocks.specs.Record.{IsBlocks};
ghost use Rattle.macro_blocks.specs.inside.Held.{Holds};
ghost use Rattle.reading.specs.Word.{Token};

use crate::error::{BlocksError, Shown, public_error};
use crate::format::BlocksFormat;
use crate::held::Held;
use crate::record::Blocks;
use entry_list::Entries;
use number_place::values_fit_their_places;
use reading::read_into;
use std::alloc::Global;
use text_lex::Mode;

/// Reads the pins of power and ground and the obstructions of the macros of a LEF library.
///
/// Of a macro it takes the name, the pins whose first USE is POWER or GROUND, each with the RECTs of its PORTs, and the
/// RECTs of its OBS, each with the name after the last LAYER before it. Its first ORIGIN, if it has one, must be 0 0.
/// Coordinates are micrometres with 6 places and any sign, at most 10^11 pm (100 mm) from 0, and the two corners of a RECT
/// may come in any order. All else is passed over: other pins to `END` and their name, densities to `END`, other sections
/// of the library to `END` and their name, extensions to `ENDEXT`, other statements to their `;`, a RECT before any LAYER.
/// `END LIBRARY` ends the text, which may also end between two sections or statements of the library.
///
/// The USE of a pin may stand after its PORTs. Until it does, its words are read as those of a pin of power: a number that
/// is refused shows with the USE, and stands at its own word; a word that cannot stand there shows with the USE, and is
/// Syntax at POWER or GROUND. After such a word the pin is only looked through for its USE and for its end.
///
/// Errors: the refusal at the earliest word, and there of the first kind, as `BlocksKind` lists them; `Want` for want of
/// memory.
pub fn read_blocks(alloc: Global, text: &[u8]) -> Result<Blocks, BlocksError>
    ensures reads { ReadsBlocks text.now result }
    ensures keeps { IfOk result BlocksKeep }
{
    let mut held = Held::new(alloc);
    match read_into(alloc, &BlocksFormat, &mut held, text, Mode::LefDef) {
        Ok(_) => Ok(blocks_of(held)),
        Err(error) => Err(public_error(error)),
    }
}

/// The record of what the sections say.
fn blocks_of(held: Held<'_>) -> Blocks
    ensures is { (units : List (List Token)) → Holds units held.entry → IsBlocks units result }
    ensures keeps { (units : List (List Token)) → Holds units held.entry → BlocksKeep result }
{
    values_fit_their_places();
    Blocks {
        macros: Entries::new(held.said.macros),
    }
}
