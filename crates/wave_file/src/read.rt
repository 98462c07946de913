ghost use Rattle.std.specs.Prelude.{◌≡◌, ℕ, List, IfOk, length, map};
ghost use Rattle.wave_file.specs.Format.{ReadsWaves};
ghost use Rattle.wave_file.specs.Keeps.{WavesKeep};
ghost use Rattle.wave_file.specs.Record.{IsWaves};
ghost use Rattle.wave_file.specs.inside.Held.{Holds};
ghost use Rattle.reading.specs.Word.{Token};

use crate::error::WavesError;
use crate::format::WavesFormat;
use crate::groups::{Groups, MOST_GROUPS};
use crate::held::Held;
use crate::record::Waves;
use entry_list::Entries;
use name_places::NamePlaces;
use number_place::values_fit_their_places;
use outside::Name;
use reading::{ReadError, read_into};
use short_merge::Merged;
use std::alloc::{AllocError, Global};
use text_lex::Mode;

/// A table of the names of groups.
fn places_of<'a>(alloc: Global, names: &'a [Name]) -> Result<NamePlaces<'a>, AllocError>
    ensures { IfOk result (λ places. places ≡ names.now) }
{
    let mut texts: Vec<&'a [u8]> = Vec::new(alloc);
    for name in names {
        texts.push(name.bytes())?;
    }
    NamePlaces::new(alloc, texts)
}

/// Reads the wave file of a merged network, whose nodes are the groups: what `read_group_waves` does of their names.
///
/// Errors: the refusal at the earliest word, and there of the first kind, as `WavesKind` lists them; `Want` for want of
/// memory.
pub fn read_waves(alloc: Global, text: &[u8], merged: &Merged) -> Result<Waves, WavesError>
    ensures reads { ReadsWaves merged.now.names text.now result }
    ensures keeps { IfOk result (WavesKeep (length merged.now.names)) }
{
    read_group_waves(alloc, text, merged.names.as_slice())
}

/// Reads the wave file of groups with these names.
///
/// A step is a whole number from 1 to 1000. A current has 15 places and the limit 10^18 fA (1000 A), a scale or none, and
/// any sign.
///
/// Errors: the refusal at the earliest word, and there of the first kind, as `WavesKind` lists them; `Want` for want of
/// memory, and where there are more groups than the 2^32 that a change can name.
pub fn read_group_waves(alloc: Global, text: &[u8], names: &[Name]) -> Result<Waves, WavesError>
    ensures reads { ReadsWaves names.now text.now result }
    ensures keeps { IfOk result (WavesKeep (length names.now)) }
{
    if names.len() > MOST_GROUPS {
        return Err(ReadError::want());
    }
    let Ok(groups) = places_of(alloc, names) else {
        return Err(ReadError::want());
    };
    let mut held = Held::new(alloc, Groups::new(groups));
    match read_into(alloc, &WavesFormat { names }, &mut held, text, Mode::Lines) {
        Ok(()) => Ok(waves_of(held)),
        Err(error) => Err(error),
    }
}

/// The record of what the lines say.
fn waves_of(held: Held<'_>) -> Waves
    ensures is { (names : List (List ℕ)) (units : List (List Token)) → Holds names units held.entry →
        IsWaves names units result }
    ensures keeps { (names : List (List ℕ)) (units : List (List Token)) → Holds names units held.entry →
        WavesKeep (length names) result }
{
    values_fit_their_places();
    let _count = held.spots.count();
    Waves {
        changes: Entries::new(held.changes),
    }
}
