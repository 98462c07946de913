ghost use Rattle.std.specs.Prelude.{◌≡◌, List, IfOk};
ghost use Rattle.def_wiring.specs.Format.{ReadsWires};
ghost use Rattle.def_wiring.specs.Limits.{WiresKeep};
ghost use Rattle.def_wiring.specs.Record.{IsWires};
ghost use Rattle.def_wiring.specs.inside.Held.{Holds};
ghost use Rattle.reading.specs.Word.{Token};

use crate::error::{WiresError, public_error};
use crate::format::WiresFormat;
use crate::held::Held;
use crate::record::Wires;
use number_place::values_fit_their_places;
use reading::{ReadError, read_into};
use std::alloc::Global;
use text_lex::Mode;

/// Reads the generated vias and the wires of the power and ground nets of a DEF.
///
/// Of VIAS it takes the entries that have the parts VIARULE, CUTSIZE, LAYERS, CUTSPACING, ENCLOSURE and perhaps ROWCOL, in
/// this order; others are passed over. Of SPECIALNETS it takes the nets that have `+ USE POWER` or `+ USE GROUND`, the first
/// of these, with the paths after `+ ROUTED`, `+ FIXED` or `+ COVER`: `layer width`, perhaps `+ SHAPE shape`, a point, and
/// then points or the name of a via, and `NEW` before the next path. In a point `*` repeats a coordinate of the path's last
/// one, and a third number lengthens the segments at the point. Numbers are whole, at most 2^30 from 0. All else is passed
/// over: pins and other parts of nets, other sections to `END` and their word, extensions to `ENDEXT`, other statements to
/// their `;`. `END DESIGN` is required and ends the text.
///
/// An entry is judged where it shows that it counts: a generated via at its `;` or at a part of it that is not read, a net
/// at its use. There a word before that cannot stand is Syntax, and what else is refused before stands at its own word.
///
/// Errors: the refusal at the earliest word, and there of the first kind, as `WiresKind` lists them; `Want` for want of
/// memory.
pub fn read_wires(alloc: Global, text: &[u8]) -> Result<Wires, WiresError>
    ensures reads { ReadsWires text.now result }
    ensures keeps { IfOk result WiresKeep }
{
    let Ok(mut held) = Held::new(alloc) else {
        return Err(public_error(ReadError::want()));
    };
    match read_into(alloc, &WiresFormat, &mut held, text, Mode::LefDef) {
        Ok(_) => Ok(wires_of(held)),
        Err(error) => Err(public_error(error)),
    }
}

/// The record of what the sections say.
fn wires_of(held: Held<'_>) -> Wires
    ensures is { (units : List (List Token)) → Holds units held.entry → IsWires units result }
    ensures keeps { (units : List (List Token)) → Holds units held.entry → WiresKeep result }
{
    values_fit_their_places();
    Wires {
        vias: held.said.vias.into_entries(),
        nets: held.said.nets.into_entries(),
    }
}
