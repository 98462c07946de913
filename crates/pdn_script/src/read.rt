ghost use Rattle.std.specs.Prelude.{List, IfOk};
ghost use Rattle.pdn_script.specs.Format.{ReadsScript};
ghost use Rattle.pdn_script.specs.Limits.{ScriptKeeps};
ghost use Rattle.pdn_script.specs.Record.{IsScript};
ghost use Rattle.pdn_script.specs.inside.Held.{Holds};
ghost use Rattle.reading.specs.Word.{Token};

use crate::error::ScriptError;
use crate::format::ScriptFormat;
use crate::held::Held;
use crate::record::Script;
use entry_list::Entries;
use reading::{ReadError, read_into};
use std::alloc::Global;
use text_lex::Mode;

/// Reads a script.
///
/// It has the commands and options of the table of `script_options`. Lengths are micrometres with 6 places, from 0 to 10^11
/// pm (100 mm), widths and pitches above 0; counts are whole numbers from 1 to 10^6. A script without `pdngen` is read as if
/// it stood at the end.
///
/// Errors: the refusal at the earliest word, and there of the first kind, as `ScriptKind` lists them; `Want` for want of
/// memory.
pub fn read_script(alloc: Global, text: &[u8]) -> Result<Script, ScriptError>
    ensures reads { ReadsScript text.now result }
    ensures keeps { IfOk result ScriptKeeps }
{
    let Ok(mut held) = Held::new(alloc) else {
        return Err(ReadError::want());
    };
    match read_into(alloc, &ScriptFormat, &mut held, text, Mode::Tcl) {
        Ok(()) => Ok(script_of(held)),
        Err(error) => Err(error),
    }
}

/// The script that the units say.
fn script_of(held: Held<'_>) -> Script
    ensures is { (units : List (List Token)) → Holds units held.entry → IsScript units result }
    ensures keeps { (units : List (List Token)) → Holds units held.entry → ScriptKeeps result }
{
    let lists = held.lists;
    Script {
        domains: Entries::new(lists.domains),
        grids: Entries::new(lists.grids),
        stripes: Entries::new(lists.stripes),
        rings: Entries::new(lists.rings),
        connects: Entries::new(lists.connects),
    }
}
