ghost use Rattle.std.specs.Prelude.{◌≡◌, List, IfOk};
ghost use Rattle.bias_file.specs.Format.{ReadsBias};
ghost use Rattle.bias_file.specs.Limits.{BiasKeeps};
ghost use Rattle.bias_file.specs.Record.{IsBias};
ghost use Rattle.bias_file.specs.inside.Held.{HoldsLists};
ghost use Rattle.reading.specs.Word.{Token};

use crate::error::BiasError;
use crate::format::BiasFormat;
use crate::held::{Held, Lists};
use crate::record::Bias;
use entry_list::Entries;
use number_place::values_fit_their_places;
use reading::{ReadError, read_into};
use std::alloc::Global;
use text_lex::Mode;

/// Reads a bias file.
///
/// The numbers of volts and amperes may have a scale, those of places may not: `supply` and `droplimit` have 24 places
/// and the limit 10^25 yV (10 V), `cell` and `instance` 15 and 10^18 fA (1000 A), `pad` 6 and 10^11 pm (100 mm). Those
/// of `droplimit`, `cell` and `instance` are not below 0.
///
/// Errors: the refusal at the earliest word, and there of the first kind, as `BiasKind` lists them; `Want` for want of
/// memory.
pub fn read_bias(alloc: Global, text: &[u8]) -> Result<Bias, BiasError>
    ensures reads { ReadsBias text.now result }
    ensures keeps { IfOk result BiasKeeps }
{
    let Ok(mut held) = Held::new(alloc) else {
        return Err(ReadError::want());
    };
    match read_into(alloc, &BiasFormat, &mut held, text, Mode::Lines) {
        Ok(()) => Ok(bias_of(held.lists)),
        Err(error) => Err(error),
    }
}

/// The record of what the lines say.
fn bias_of(lists: Lists<'_>) -> Bias
    ensures is { (units : List (List Token)) → HoldsLists units lists.entry → IsBias units result }
    ensures keeps { (units : List (List Token)) → HoldsLists units lists.entry → BiasKeeps result }
{
    values_fit_their_places();
    Bias {
        supplies: lists.supplies.into_entries(),
        drops: lists.drops.into_entries(),
        pads: Entries::new(lists.pads),
        cells: lists.cells.into_entries(),
        instances: lists.instances.into_entries(),
    }
}
