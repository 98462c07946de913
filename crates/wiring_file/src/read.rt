ghost use Rattle.wiring_file.specs.Format.{ReadsWiring};

use crate::error::WiringError;
use crate::format::WiringFormat;
use crate::held::Held;
use crate::record::Wiring;
use entry_list::Entries;
use reading::{ReadError, read_into};
use std::alloc::Global;
use text_lex::Mode;

/// Reads the wiring of a written DEF: its vias, the lines of its pieces and the lines of its stacks, in the order of the
/// text.
///
/// The text has exactly the form in which grids are written, but for white space and comments. The counts of VIAS and of
/// SPECIALNETS are those of their entries, the pieces of a net stand before its stacks, and a line has the width 0, the
/// shape STRIPE and a via, or another width, a shape and a second point.
///
/// Errors: the refusal at the earliest word, and there of the first kind, as `WiringKind` lists them; `Want` for want of
/// memory.
pub fn read_wiring(alloc: Global, text: &[u8]) -> Result<Wiring, WiringError>
    ensures { ReadsWiring text.now result }
{
    let Ok(mut held) = Held::new(alloc) else {
        return Err(ReadError::want());
    };
    match read_into(alloc, &WiringFormat, &mut held, text, Mode::LefDef) {
        Ok(()) => Ok(Wiring {
            vias: Entries::new(held.vias),
            wires: Entries::new(held.wires),
            places: Entries::new(held.places),
        }),
        Err(error) => Err(error),
    }
}
